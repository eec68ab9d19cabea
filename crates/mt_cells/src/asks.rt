//! Questions to a table.
ghost use Rattle.std.specs.Prelude.{◌≡◌, ◌≢◌, MatchOption, MatchResult};
ghost use Rattle.mt_cells.specs.declared.asks.Kind.{Kind};
ghost use Rattle.mt_cells.specs.Asks.{ask_sizes, sizes_of, AreInside, AreOutside, IsInside, IsOutside, IsAsked};
ghost use Rattle.mt_cells.specs.Texts.{kind_text};

use crate::bounds::Bounds;
use crate::cells::Cell;
use crate::sizes::Sizes;
use mt_linear::Order;
use std::error::Error;
use std::fmt;

/// The kinds of systems that are asked for.
#[derive(Clone, Copy, PartialEq, Eq, Debug)]
pub enum Kind {
    /// Digital nets: arrays of depth `m`.
    Net,
    /// Linear orthogonal arrays: those of depth 1.
    Oa,
    /// Ordered orthogonal arrays of any depth.
    Ooa,
    /// Digital sequences.
    Seq,
}

impl Kind {
    /// The kind of this word.
    pub fn of_word(word: &str) -> Option<Kind>
        ensures { MatchOption result ((k : Kind) → word.now ≢ kind_text k)
            (λ k. word.now ≡ kind_text k) }
    {
        match word {
            "net" => Some(Kind::Net),
            "oa" => Some(Kind::Oa),
            "ooa" => Some(Kind::Ooa),
            "seq" => Some(Kind::Seq),
            _ => None,
        }
    }

    /// The word of the kind.
    pub fn word(self) -> &'static str
        ensures { result.now ≡ kind_text self }
    {
        match self {
            Kind::Net => "net",
            Kind::Oa => "oa",
            Kind::Ooa => "ooa",
            Kind::Seq => "seq",
        }
    }
}

impl fmt::Display for Kind {
    ghost use Rattle.std.specs.Prelude.{Some};

    ghost output = { λ kind. Some (kind_text kind) };

    fn fmt<W: fmt::Write>(&self, f: &mut fmt::Formatter<W>) -> fmt::Result {
        f.write_str(self.word())
    }
}

/// Sizes as they are asked for. `depth` is looked at for kind `Ooa` alone.
#[derive(Clone, Copy, PartialEq, Eq, Debug)]
pub struct Ask {
    pub kind: Kind,
    pub q: u64,
    pub m: u64,
    pub s: u64,
    pub depth: u64,
}

/// A part of a question.
#[derive(Clone, Copy, PartialEq, Eq, Debug)]
pub enum Part {
    Q,
    M,
    S,
    Depth,
}

impl fmt::Display for Part {
    ghost use Rattle.std.specs.Prelude.{Some};
    ghost use Rattle.mt_cells.specs.Texts.{part_text};

    ghost output = { λ part. Some (part_text part) };

    fn fmt<W: fmt::Write>(&self, f: &mut fmt::Formatter<W>) -> fmt::Result {
        match self {
            Part::Q => f.write_str("q"),
            Part::M => f.write_str("m"),
            Part::S => f.write_str("s"),
            Part::Depth => f.write_str("depth"),
        }
    }
}

/// The first part of a question that no cell has, and its number.
#[derive(Clone, Copy, PartialEq, Eq, Debug)]
pub struct Outside {
    pub name: Part,
    pub number: u64,
}

impl fmt::Display for Outside {
    ghost use Rattle.std.specs.Prelude.{Some};
    ghost use Rattle.mt_cells.specs.Texts.{outside_text};

    ghost output = { λ outside. Some (outside_text outside.name outside.number) };

    fn fmt<W: fmt::Write>(&self, f: &mut fmt::Formatter<W>) -> fmt::Result {
        let (name, number) = (self.name, self.number);
        write!(f, "outside: {name} {number}")
    }
}

impl Error for Outside {}

/// What is asked of a table.
#[derive(Clone, Copy, PartialEq, Eq, Debug)]
pub enum Question {
    /// The value of a cell.
    Value(Ask),
    /// A derivation of the value.
    Tree(Ask),
    /// The generator matrices that the derivation makes.
    Matrix(Ask),
    /// The values of the nets, the orthogonal arrays and the sequences over the field of q elements
    /// with m columns.
    Table { q: u64, m: u64 },
    /// The least m for which the net over the field of q elements with s coordinates has value k or
    /// more.
    LeastM { q: u64, s: u64, k: u64 },
    /// The number of events that the table stands for.
    Version,
    /// The values of all cells.
    Export,
}

impl Question {
    /// The first number of the question that no cell of the bounds has, and its part.
    pub fn outside(&self, bounds: Bounds) -> Option<Outside>
        ensures { MatchOption result (IsInside bounds (sizes_of self.now))
            (λ outside. IsOutside bounds (sizes_of self.now) outside.name outside.number) }
    {
        self.sizes()?.outside(bounds)
    }

    // What the question looks at.
    fn sizes(&self) -> Option<Sizes>
        ensures { result ≡ sizes_of self.now }
    {
        match self {
            Question::Value(ask) | Question::Tree(ask) | Question::Matrix(ask) => Some(ask.sizes()),
            Question::Table { q, m } => Some(Sizes {
                q: *q,
                m: Some(*m),
                s: None,
                depth: None,
            }),
            Question::LeastM { q, s, .. } => Some(Sizes {
                q: *q,
                m: None,
                s: Some(*s),
                depth: None,
            }),
            Question::Version | Question::Export => None,
        }
    }
}

impl Ask {
    /// The cell that is asked for, or the first of q, m, s and depth that no cell of the bounds has,
    /// as [`Sizes::outside`] finds it.
    pub fn cell(&self, bounds: Bounds) -> Result<Cell, Outside>
        ensures { MatchResult result (IsAsked bounds self.now)
            (λ outside. AreOutside bounds (ask_sizes self.now) outside.name outside.number) }
    {
        match self.sizes().outside(bounds) {
            None => Ok(self.cell_within(bounds)),
            Some(outside) => Err(outside),
        }
    }

    /// The cell that is asked for, where the bounds are known to have it.
    pub fn cell_within(&self, bounds: Bounds) -> Cell
        requires { AreInside bounds (ask_sizes self.now) }
        ensures { IsAsked bounds self.now result }
    {
        let order = Order::of_number(self.q).unwrap();
        let m = self.m as u8;
        let s = self.s as u8;
        let depth = match self.kind {
            Kind::Net => m,
            Kind::Oa => 1,
            Kind::Ooa => self.depth as u8,
            Kind::Seq => return Cell::Seq { order, m, s },
        };
        Cell::Ooa { order, m, s, depth }
    }

    // What is looked at.
    fn sizes(&self) -> Sizes
        ensures { result ≡ ask_sizes self.now }
    {
        Sizes {
            q: self.q,
            m: Some(self.m),
            s: Some(self.s),
            depth: match self.kind {
                Kind::Ooa => Some(self.depth),
                Kind::Net | Kind::Oa | Kind::Seq => None,
            },
        }
    }
}
