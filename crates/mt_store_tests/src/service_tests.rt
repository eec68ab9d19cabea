//! A service whose keeper fails at one call, and one over a database in memory.
ghost use Rattle.mt_service.specs.Records.{IsKept};

use crate::tests::{CAPS7, ONE};
use mt_answer::text;
use mt_cells::{Ask, Bounds, Kind, Question, RuleSet};
use mt_keeper::{Keeper, MemoryKeeper, Records};
use mt_keeper_sql::SqlKeeper;
use mt_service::{OpenRefused, Outcome, Service};
use sqlite::Connection;
use std::alloc::Global;
use std::process::Abort;
use std::test::Fail;

// The text is accepted with this line, after the keeper's failure where it fails first.
fn assert_accepted<K: Keeper>(
    rt: &impl Abort,
    alloc: Global,
    service: &mut Service,
    keeper: &mut K,
    fails: bool,
    case: (&[u8], &[u8]),
) -> Result<(), Fail>
    requires { IsKept service.old.bounds (K.records keeper.old) service.old.events }
    ensures { IsKept service.new.bounds (K.records keeper.new) service.new.events }
{
    let (text, line) = case;
    if fails {
        let score = service.table().score();
        let outcome = service.import(alloc, keeper, &mut Vec::new(alloc), text);
        assert!(rt; matches!(outcome, Outcome::KeeperFault));
        assert_eq!(rt; service.table().score(), score);
    }
    let outcome = service.import(alloc, keeper, &mut Vec::new(alloc), text);
    assert_eq!(rt; outcome.line(alloc)?.as_slice(), line);
    Ok(())
}

// Both texts are imported into a service over the keeper, of whose calls this one fails.
fn assert_imported<K: Keeper>(
    rt: &impl Abort,
    alloc: Global,
    bounds: Bounds,
    keeper: &mut K,
    call: u32,
) -> Result<(), Fail> {
    if call == 1 {
        let refused = Service::open(alloc, keeper, bounds, RuleSet::all()).err();
        assert_eq!(rt; refused, Some(OpenRefused::KeeperFault));
    }
    let Ok(mut service) = Service::open(alloc, keeper, bounds, RuleSet::all()) else {
        return Err("the records are refused")?;
    };
    let (service, one) = (
        &mut service,
        (ONE, b"accepted 1 one: raised 0\n".as_slice()),
    );
    assert_accepted(rt, alloc, service, keeper, call == 2, one)?;
    let caps7 = (CAPS7, b"accepted 2 caps7: raised 5\n".as_slice());
    assert_accepted(rt, alloc, service, keeper, call == 3, caps7)
}

#[test]
fn each_call_of_a_keeper_fails(rt: HostRuntime) -> Result<(), Fail> {
    let alloc = rt.alloc();
    let bounds = Bounds::new(4, 8).ok_or("bounds")?;
    for call in 1..4u32 {
        let failing = Vec::from_slice(alloc, &[call])?;
        let mut keeper = MemoryKeeper::new(Records::new(Vec::new(alloc)), failing);
        assert_imported(&rt, alloc, bounds, &mut keeper, call)?;
    }
    Ok(())
}

// What comes of the text over the keeper's records.
fn outcome_over<K: Keeper>(
    alloc: Global,
    bounds: Bounds,
    keeper: &mut K,
    text: &[u8],
) -> Result<Outcome, Fail> {
    let Ok(mut service) = Service::open(alloc, keeper, bounds, RuleSet::all()) else {
        return Err("the records are refused")?;
    };
    Ok(service.import(alloc, keeper, &mut Vec::new(alloc), text))
}

// The text of the value of a net over the keeper's records.
fn value_over<K: Keeper>(alloc: Global, bounds: Bounds, keeper: &mut K) -> Result<Vec<u8>, Fail> {
    let Ok(service) = Service::open(alloc, keeper, bounds, RuleSet::all()) else {
        return Err("the records are refused")?;
    };
    let question = Question::Value(Ask {
        kind: Kind::Net,
        q: 2,
        m: 4,
        s: 7,
        depth: 0,
    });
    match question.outside(bounds) {
        None => Ok(text(alloc, service.table(), &question)?),
        Some(_) => Err("the net is outside")?,
    }
}

// The second import raises nothing, so no instance of a rule is tried for it.
#[test]
fn a_database_in_memory(rt: HostRuntime) -> Result<(), Fail> {
    let alloc = rt.alloc();
    let bounds = Bounds::new(4, 8).ok_or("bounds")?;
    let mut keeper = SqlKeeper::adopt(Connection::open_in_memory(alloc)?, false);
    let outcome = outcome_over(alloc, bounds, &mut keeper, CAPS7)?;
    assert!(rt;
        matches!(
            outcome,
            Outcome::Accepted {
                number: 1,
                raised: 5,
                ..
            }
        )
    );
    assert_eq!(rt;
        value_over(alloc, bounds, &mut keeper)?.as_slice(),
        b"net 2 4 7: k 3, t 1, since 1, version 1\n".as_slice()
    );
    let outcome = outcome_over(alloc, bounds, &mut keeper, ONE)?;
    assert!(rt;
        matches!(
            outcome,
            Outcome::Accepted {
                number: 2,
                raised: 0,
                tried: 0,
                ..
            }
        )
    );
    Ok(())
}
