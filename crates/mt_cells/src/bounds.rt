//! The bounds of a table.
ghost use Rattle.std.specs.Prelude.{◌≡◌, ◌≤◌, ◌↔◌, ◌+◌, ◌*◌, IsSome, IfSome};
ghost use Rattle.mt_cells.specs.declared.bounds.TheConstants.{MOST_COLUMNS, MOST_COORDINATES};

/// The most columns of a cell.
pub const MOST_COLUMNS: u8 = 20;

/// The most coordinates of a cell.
pub const MOST_COORDINATES: u8 = 48;

// At most how many arrays of one order a table has.
pub(crate) const MOST_ARRAYS: u32 = MOST_COORDINATES as u32
    * (MOST_COLUMNS as u32 * (MOST_COLUMNS as u32 + 1) / 2);

// At most how many cells of one order a table has.
pub(crate) const MOST_PER_ORDER: u32 = MOST_ARRAYS + MOST_COLUMNS as u32 * MOST_COORDINATES as u32;

/// At most how many cells a table has.
pub const MOST_CELLS: u32 = 7 * MOST_PER_ORDER;

/// A table has cells with `m` from 1 to `m_max` and `s` from 1 to `s_max`, which are within the most
/// columns and the most coordinates.
#[derive(Clone, Copy, PartialEq, Eq, Debug)]
pub struct Bounds {
    pub m_max: u8,
    pub s_max: u8,
    ghost m_low: { 1 ≤ m_max },
    ghost m_high: { m_max ≤ MOST_COLUMNS },
    ghost s_low: { 1 ≤ s_max },
    ghost s_high: { s_max ≤ MOST_COORDINATES },
}

impl Bounds {
    ghost use Rattle.mt_cells.specs.Cells.{triangle, arrays_of, per_order_of, cells_of};

    /// The bounds of these numbers: `None` where one is 0 or over its limit.
    pub fn new(m: u64, s: u64) -> Option<Bounds>
        ensures taken { IsSome result
            ↔ ((1 ≤ m) × (m ≤ MOST_COLUMNS) × (1 ≤ s) × (s ≤ MOST_COORDINATES)) }
        ensures m { IfSome result (λ b. b.m_max ≡ m) }
        ensures s { IfSome result (λ b. b.s_max ≡ s) }
    {
        if m < 1 || m > MOST_COLUMNS as u64 || s < 1 || s > MOST_COORDINATES as u64 {
            return None;
        }
        Some(Bounds {
            m_max: m as u8,
            s_max: s as u8,
        })
    }

    /// How many cells a table of these bounds has, over the seven orders.
    pub fn cells(self) -> u32
        ensures { result ≡ cells_of self }
    {
        7 * self.per_order()
    }

    // How many cells there are of one order.
    #[inline(always)]
    pub(crate) fn per_order(self) -> u32
        ensures value { result ≡ per_order_of self }
        ensures low { 1 ≤ result }
        ensures high { result ≤ MOST_PER_ORDER }
    {
        self.arrays() + self.m_max as u32 * self.s_max as u32
    }

    // How many arrays there are of one order.
    #[inline(always)]
    pub(crate) fn arrays(self) -> u32
        ensures value { result ≡ arrays_of self }
        ensures high { result ≤ MOST_ARRAYS }
    {
        self.arrays_below(self.m_max + 1)
    }

    // How many arrays of one order have a lesser m.
    #[inline(always)]
    pub(crate) fn arrays_below(self, m: u8) -> u32
        requires low { 1 ≤ m }
        requires high { m ≤ self.m_max + 1 }
        ensures value { result ≡ self.s_max * triangle m }
        ensures high { result ≤ MOST_ARRAYS }
    {
        self.s_max as u32 * (m as u32 * (m as u32 - 1) / 2)
    }
}
