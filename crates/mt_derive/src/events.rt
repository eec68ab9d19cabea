//! What happens to a list of imports.
use mt_strength::Checked;

/// An entry of the list that a table stands on.
#[derive(Debug, Drop)]
pub enum Event {
    /// A claim is imported.
    Import(Checked),
    /// The import of this number, counted from 1, is withdrawn.
    Withdraw(u32),
}
