//! What holds over a list of imports.
use mt_cells::Ask;
use mt_derive::Node;
use mt_system::Claim;

/// What holds over a list of imports, as the answer to a question.
#[derive(Debug, Drop)]
pub struct Facts {
    /// The number of imports.
    pub version: u32,
    pub fact: Fact,
}

/// The answer to a question.
#[derive(Debug, Drop)]
pub enum Fact {
    /// The greatest value of the asked cell, and the last import that changed it.
    Value {
        ask: Ask,
        k: u8,
        since: u32,
    },
    /// The nodes of a derivation of the greatest value: parents first, named by their places in this
    /// list, counted from 0. The last node concludes the value.
    Tree(Vec<Node>),
    /// The claim, named `mint`, of the system that a derivation of the greatest value makes.
    Matrix(Claim),
    /// Comma-separated values: of a table, or of all cells.
    Sheet(Vec<u8>),
    /// The least m whose net over q elements with s coordinates has value k or more, where one has.
    LeastM {
        q: u64,
        s: u64,
        k: u64,
        m: Option<u8>,
    },
    /// The number of imports.
    Version,
}
