//! The sizes that a question looks at.
ghost use Rattle.std.specs.Prelude.{MatchOption, IsTrue, ◌↔◌};
ghost use Rattle.mt_cells.specs.Asks.{IsFrom1, AreInside, AreOutside};

use crate::asks::{Outside, Part};
use crate::bounds::Bounds;
use mt_linear::Order;

/// The sizes that a question looks at: always q, and m, s and depth where they are.
#[derive(Clone, Copy, PartialEq, Eq, Debug)]
pub struct Sizes {
    pub q: u64,
    pub m: Option<u64>,
    pub s: Option<u64>,
    pub depth: Option<u64>,
}

impl Sizes {
    /// The first of q, m, s and depth that no cell of the bounds has: q is no order of a field, m is
    /// not from 1 to `m_max`, s not from 1 to `s_max`, or depth not from 1 to m, or to `m_max` where
    /// m is not looked at.
    pub fn outside(self, bounds: Bounds) -> Option<Outside>
        ensures { MatchOption result (AreInside bounds self)
            (λ outside. AreOutside bounds self outside.name outside.number) }
    {
        let Some(_) = Order::of_number(self.q) else {
            return Some(Outside {
                name: Part::Q,
                number: self.q,
            });
        };
        if let Some(m) = self.m
            && !is_from_1(bounds.m_max as u64, m)
        {
            return Some(Outside {
                name: Part::M,
                number: m,
            });
        }
        if let Some(s) = self.s
            && !is_from_1(bounds.s_max as u64, s)
        {
            return Some(Outside {
                name: Part::S,
                number: s,
            });
        }
        if let Some(depth) = self.depth
            && !is_from_1(self.m.unwrap_or(bounds.m_max as u64), depth)
        {
            return Some(Outside {
                name: Part::Depth,
                number: depth,
            });
        }
        None
    }
}

fn is_from_1(limit: u64, n: u64) -> bool
    ensures { IsTrue result ↔ IsFrom1 limit n }
{
    1 <= n && n <= limit
}
