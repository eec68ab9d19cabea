//! Instances of a parent.
ghost use Rattle.std.specs.Prelude.{◌≡◌, ◌<◌};
ghost use Rattle.mt_cells.specs.Cells.{InBounds};

use super::*;
use mt_linear::Order;
use std::marker::Brand;
use std::sync::ledger::{Blank, Ledger};
use std::test::Fail;

const NONE: RuleSet = RuleSet {
    used: [false; RULES],
};

fn array(m: u8, s: u8, depth: u8) -> Cell
    ensures { result ≡ Cell.Ooa Order.Q2 m s depth }
{
    Cell::Ooa {
        order: Order::Q2,
        m,
        s,
        depth,
    }
}

fn sequence(m: u8, s: u8) -> Cell
    ensures { result ≡ Cell.Seq Order.Q2 m s }
{
    Cell::Seq {
        order: Order::Q2,
        m,
        s,
    }
}

// Whether the instances of the parent by rules with one are those of these rules and targets, in
// this order.
fn are_instances(bounds: Bounds, parent: Cell, wanted: &[(Rule, Cell)]) -> bool
    requires { InBounds bounds parent }
{
    let mut rules = RuleSet::all();
    rules.used[Rule::Product.index()] = false;
    rules.used[Rule::Uuv.index()] = false;
    let mut instances = instances_of_parent(bounds, rules, parent);
    for pair in wanted {
        let instance = Instance {
            rule: pair.0,
            target: pair.1,
            first: parent,
            second: None,
        };
        if instances.next() != Some(instance) {
            return false;
        }
    }
    instances.next().is_none()
}

#[test]
fn of_an_array(rt: HostRuntime) -> Result<(), Fail> {
    let small = Bounds::new(1, 1).ok_or("none")?;
    assert_eq!(rt; fan(small), 12);
    let bounds = Bounds::new(4, 8).ok_or("none")?;
    let inner = [
        (Rule::Fewer, array(3, 3, 2)),
        (Rule::Shallower, array(3, 4, 1)),
        (Rule::Deeper, array(3, 4, 3)),
        (Rule::Longer, array(4, 4, 2)),
        (Rule::QuotientKeep, array(2, 4, 1)),
        (Rule::QuotientDrop, array(2, 3, 2)),
    ];
    assert!(rt; are_instances(bounds, array(3, 4, 2), &inner));
    let full = [
        (Rule::Fewer, array(4, 7, 4)),
        (Rule::Shallower, array(4, 8, 3)),
        (Rule::QuotientKeep, array(3, 8, 3)),
    ];
    assert!(rt; are_instances(bounds, array(4, 8, 4), &full));
    let least = [(Rule::Longer, array(2, 1, 1))];
    assert!(rt; are_instances(bounds, array(1, 1, 1), &least));
    assert!(rt; are_instances(small, array(1, 1, 1), &[]));
    assert_eq!(rt;
        instances_of_parent(bounds, NONE, array(3, 4, 2)).count(),
        0
    );
    Ok(())
}

#[test]
fn of_a_sequence(rt: HostRuntime) -> Result<(), Fail> {
    let bounds = Bounds::new(4, 8).ok_or("none")?;
    let inner = [
        (Rule::SeqFewer, sequence(3, 3)),
        (Rule::SeqCut, sequence(2, 4)),
        (Rule::SeqToNet, array(3, 5, 3)),
    ];
    assert!(rt; are_instances(bounds, sequence(3, 4), &inner));
    let full = [
        (Rule::SeqFewer, sequence(4, 7)),
        (Rule::SeqCut, sequence(3, 8)),
    ];
    assert!(rt; are_instances(bounds, sequence(4, 8), &full));
    let least = [(Rule::SeqToNet, array(1, 2, 1))];
    assert!(rt; are_instances(bounds, sequence(1, 1), &least));
    assert_eq!(rt;
        instances_of_parent(bounds, NONE, sequence(3, 4)).count(),
        0
    );
    Ok(())
}

// The instance of these two parents, where there is one in the bounds.
fn of_pair(bounds: Bounds, rule: Rule, first: Cell, second: Cell) -> Option<Instance> {
    let Cell::Ooa { order, m, s, depth } = first else {
        return None;
    };
    let Cell::Ooa {
        order: p,
        m: n,
        s: t,
        depth: deeper,
    } = second
    else {
        return None;
    };
    let m = m.saturating_add(n);
    let both = s.saturating_add(t);
    if order != p || depth > deeper || m > bounds.m_max || both > bounds.s_max {
        return None;
    }
    if rule == Rule::Uuv && s > t {
        return None;
    }
    Some(Instance {
        rule,
        target: Cell::Ooa {
            order,
            m,
            s: both,
            depth: deeper,
        },
        first,
        second: Some(second),
    })
}

// How often the instance is among those of the parent.
fn times(bounds: Bounds, parent: Cell, instance: Instance) -> u32
    requires { InBounds bounds parent }
{
    let mut count: u32 = 0;
    for listed in instances_of_parent(bounds, RuleSet::all(), parent) {
        if listed == instance {
            count = count.saturating_add(1);
        }
    }
    count
}

// How many instances of the rule the parent has.
fn listed(bounds: Bounds, parent: Cell, rule: Rule) -> u32
    requires { InBounds bounds parent }
{
    let mut count: u32 = 0;
    for listed in instances_of_parent(bounds, RuleSet::all(), parent) {
        if listed.rule == rule {
            count = count.saturating_add(1);
        }
    }
    count
}

// How many pairs with this first cell have the parent in them, or `None` where one of them is not
// listed once.
fn with_first(bounds: Bounds, rule: Rule, parent: Cell, first: Cell) -> Option<u32>
    requires { InBounds bounds parent }
{
    let mut count: u32 = 0;
    for n in 0..bounds.cells() {
        let second = Cell::at(bounds, n);
        if first == parent || second == parent {
            if let Some(instance) = of_pair(bounds, rule, first, second) {
                if times(bounds, parent, instance) != 1 {
                    return None;
                }
                count = count.saturating_add(1);
            }
        }
    }
    Some(count)
}

// Whether the instances of the parent by a rule with two are those that all pairs of cells have.
fn are_pairs(bounds: Bounds, rule: Rule, parent: Cell) -> bool
    requires { InBounds bounds parent }
{
    let mut count: u32 = 0;
    for n in 0..bounds.cells() {
        let Some(more) = with_first(bounds, rule, parent, Cell::at(bounds, n)) else {
            return false;
        };
        count = count.saturating_add(more);
    }
    count == listed(bounds, parent, rule)
}

#[test]
fn of_two_parents(rt: HostRuntime) -> Result<(), Fail> {
    let bounds = Bounds::new(4, 8).ok_or("none")?;
    for rule in [Rule::Product, Rule::Uuv] {
        assert!(rt; are_pairs(bounds, rule, array(1, 1, 1)));
        assert!(rt; are_pairs(bounds, rule, array(1, 5, 1)));
        assert!(rt; are_pairs(bounds, rule, array(2, 4, 1)));
        assert!(rt; are_pairs(bounds, rule, array(2, 4, 2)));
        assert!(rt; are_pairs(bounds, rule, array(3, 3, 2)));
        assert!(rt; are_pairs(bounds, rule, array(3, 8, 3)));
        assert!(rt; are_pairs(bounds, rule, sequence(2, 2)));
        let own = array(2, 4, 2);
        let twice = of_pair(bounds, rule, own, own).ok_or("none")?;
        assert_eq!(rt; twice.target, array(4, 8, 2));
        assert_eq!(rt; times(bounds, own, twice), 1);
    }
    assert_eq!(rt; listed(bounds, array(1, 5, 1), Rule::Product), 27);
    assert_eq!(rt; listed(bounds, array(1, 5, 1), Rule::Uuv), 9);
    Ok(())
}

// What the rule concludes from k for an array of depth 2.
fn concluded<L: Ledger>(blank: Blank, rule: Rule, k: u8) -> u8
    requires name { blank.name ≡ L.name }
    requires parts { blank.parts ≡ L.parts }
    requires some { 0 < L.parts }
{
    let mut steps = Steps::of(blank);
    let instance = Instance {
        rule,
        target: array(3, 4, 2),
        first: array(3, 4, 2),
        second: None,
    };
    conclude::<L>(&instance, k, 9, &mut steps)
}

#[test]
fn conclusions(rt: HostRuntime) -> Result<(), Fail> {
    // the rule, the value of the parent and that of the target
    let table = [
        (Rule::Fewer, 3u8, 3u8),
        (Rule::Shallower, 3, 3),
        (Rule::Deeper, 3, 2),
        (Rule::Deeper, 1, 1),
        (Rule::Longer, 3, 3),
        (Rule::QuotientKeep, 3, 2),
        (Rule::QuotientKeep, 0, 0),
        (Rule::QuotientDrop, 3, 2),
        (Rule::QuotientDrop, 0, 0),
        (Rule::SeqFewer, 3, 3),
        (Rule::SeqCut, 3, 2),
        (Rule::SeqToNet, 3, 3),
        (Rule::Product, 3, 3),
        (Rule::Uuv, 3, 3),
    ];
    for (rule, k, value) in table {
        assert_eq!(rt; concluded::<Brand>(Blank::new(1), rule, k), value);
    }
    Ok(())
}

// What the rule concludes from j and k.
fn pair_concluded<L: Ledger>(blank: Blank, rule: Rule, pair: (Cell, Cell), j: u8, k: u8) -> u8
    requires name { blank.name ≡ L.name }
    requires parts { blank.parts ≡ L.parts }
    requires some { 0 < L.parts }
{
    let mut steps = Steps::of(blank);
    let instance = Instance {
        rule,
        target: pair.0,
        first: pair.0,
        second: Some(pair.1),
    };
    conclude::<L>(&instance, j, k, &mut steps)
}

#[test]
fn pair_conclusions(rt: HostRuntime) -> Result<(), Fail> {
    let flat = array(1, 3, 1);
    let deep = array(3, 3, 3);
    // the rule, the parents with their values, and the value of the target
    let table = [
        (Rule::Product, (flat, deep), 3u8, 2u8, 1u8),
        (Rule::Product, (deep, deep), 3, 2, 2),
        (Rule::Product, (deep, deep), 2, 3, 2),
        (Rule::Uuv, (flat, deep), 1, 3, 3),
        (Rule::Uuv, (flat, deep), 4, 9, 3),
        (Rule::Uuv, (deep, deep), 2, 9, 5),
        (Rule::Uuv, (deep, deep), 0, 9, 1),
        (Rule::Uuv, (deep, deep), 9, 0, 0),
        (Rule::Uuv, (deep, deep), 255, 255, 255),
        (Rule::Fewer, (deep, deep), 3, 3, 0),
    ];
    for (rule, pair, j, k, value) in table {
        assert_eq!(rt;
            pair_concluded::<Brand>(Blank::new(1), rule, pair, j, k),
            value
        );
    }
    Ok(())
}
