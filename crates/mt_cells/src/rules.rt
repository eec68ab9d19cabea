//! Propagation rules.
ghost use Rattle.std.specs.Prelude.{◌≡◌, ◌+◌, ◌<◌, true, MatchOption};
ghost use Rattle.mt_cells.specs.declared.rules.TheConstants.{RULES};
ghost use Rattle.mt_cells.specs.Rules.{rule_index, is_pair_rule};
ghost use Rattle.mt_cells.specs.declared.rules.Rule.{Rule};
ghost use Rattle.mt_cells.specs.Instances.{has_rule};

use std::fmt;

/// A propagation rule: from a system of a parent, or of two, it makes one of its target.
///
/// The order of the rules is that of their instances.
#[derive(Clone, Copy, PartialEq, Eq, Debug)]
pub enum Rule {
    /// An array without its last coordinate.
    Fewer,
    /// An array without the last row of each coordinate.
    Shallower,
    /// An array with a zero row added to each coordinate.
    Deeper,
    /// An array with a zero column added at the right.
    Longer,
    /// An array modulo the first row of the first coordinate: its other rows, and the rows of the
    /// others but their last.
    QuotientKeep,
    /// An array modulo the first row of the first coordinate: the rows of the others.
    QuotientDrop,
    /// A sequence's matrices without the last.
    SeqFewer,
    /// The upper left parts of a sequence's matrices.
    SeqCut,
    /// A net of a sequence, with one coordinate more.
    SeqToNet,
    /// The direct product of two arrays over one field. Zero rows bring the first to the depth of
    /// the second.
    Product,
    /// The (u,u+v) construction of two arrays over one field, of which the first has no more
    /// coordinates. Zero rows bring it to the depth of the second.
    Uuv,
}

impl fmt::Display for Rule {
    ghost use Rattle.std.specs.Prelude.{Some};
    ghost use Rattle.mt_cells.specs.Texts.{rule_text};

    ghost output = { λ rule. Some (rule_text rule) };

    fn fmt<W: fmt::Write>(&self, f: &mut fmt::Formatter<W>) -> fmt::Result {
        match self {
            Rule::Fewer => f.write_str("fewer"),
            Rule::Shallower => f.write_str("shallower"),
            Rule::Deeper => f.write_str("deeper"),
            Rule::Longer => f.write_str("longer"),
            Rule::QuotientKeep => f.write_str("quotient_keep"),
            Rule::QuotientDrop => f.write_str("quotient_drop"),
            Rule::SeqFewer => f.write_str("seq_fewer"),
            Rule::SeqCut => f.write_str("seq_cut"),
            Rule::SeqToNet => f.write_str("seq_to_net"),
            Rule::Product => f.write_str("product"),
            Rule::Uuv => f.write_str("uuv"),
        }
    }
}

/// How many rules there are.
pub const RULES: usize = 11;

impl Rule {
    // The index of the rule in the order of rules.
    #[inline(always)]
    pub(crate) fn index(self) -> usize
        ensures value { result ≡ rule_index self }
        ensures below { result < RULES }
    {
        self as usize
    }

    // Whether it has two parents.
    #[inline(always)]
    pub(crate) fn is_pair(self) -> bool
        ensures { result ≡ is_pair_rule self }
    {
        match self {
            Rule::Product | Rule::Uuv => true,
            _ => false,
        }
    }

    // The rule after it in the order of rules.
    pub(crate) fn following(self) -> Option<Rule>
        ensures { MatchOption result (rule_index self + 1 ≡ RULES)
            (λ next. rule_index next ≡ rule_index self + 1) }
    {
        match self {
            Rule::Fewer => Some(Rule::Shallower),
            Rule::Shallower => Some(Rule::Deeper),
            Rule::Deeper => Some(Rule::Longer),
            Rule::Longer => Some(Rule::QuotientKeep),
            Rule::QuotientKeep => Some(Rule::QuotientDrop),
            Rule::QuotientDrop => Some(Rule::SeqFewer),
            Rule::SeqFewer => Some(Rule::SeqCut),
            Rule::SeqCut => Some(Rule::SeqToNet),
            Rule::SeqToNet => Some(Rule::Product),
            Rule::Product => Some(Rule::Uuv),
            Rule::Uuv => None,
        }
    }
}

/// The rules that a table uses.
#[derive(Clone, Copy, PartialEq, Eq, Debug)]
pub struct RuleSet {
    // Of each rule, by its index, whether it is used.
    pub(crate) used: [bool; RULES],
}

impl RuleSet {
    /// All rules.
    pub fn all() -> RuleSet
        ensures { (rule : Rule) → has_rule result rule ≡ true }
    {
        RuleSet {
            used: [true; RULES],
        }
    }

    /// Whether the rule is used.
    pub fn has(self, rule: Rule) -> bool
        ensures { result ≡ has_rule self rule }
    {
        self.used[rule.index()]
    }
}
