//! What comes of a text.
use mt_cells::Part;
use mt_import::FormRefused;
use mt_linear::Vector;
use mt_system::{Choice, Form, Name};

/// What comes of a text: first the reasons for which nothing changes, in the order in which they are
/// looked for.
#[derive(Debug, Drop)]
pub enum Outcome {
    /// The text is neither an import text nor a withdrawal text.
    Form(FormRefused),
    /// No import has the name that is to be withdrawn.
    NoImport {
        name: Name,
    },
    /// The import of this number has the name that is to be withdrawn, and is withdrawn.
    AlreadyWithdrawn {
        number: u32,
        name: Name,
    },
    /// A size is over its limit. A number over 255 is shown as 255.
    Range {
        name: Part,
        number: u8,
        limit: u8,
    },
    /// A check might try so many choices, which are more than [`MOST_CHOICES`](crate::MOST_CHOICES).
    TooManyChoices {
        count: u64,
    },
    /// The import of this number is the same claim.
    Already {
        number: u32,
        name: Name,
    },
    /// The import of this number is the same claim, and is withdrawn.
    IsWithdrawn {
        number: u32,
        name: Name,
    },
    /// The import of this number has the name and is another claim.
    NameTaken {
        number: u32,
        name: Name,
    },
    /// There are as many imports as there may be.
    Full,
    /// The strength fails. This is the first dependent choice, in this part of a sequence or, for an
    /// array or a net, in the whole system, with its one combination to zero.
    Dependent {
        form: Form,
        part: u8,
        choice: Choice,
        coefficients: Vector,
    },
    /// The keeper failed.
    KeeperFault,
    /// Want of memory.
    Memory,
    /// The claim is the import of this number now. So many values changed, and so many instances of
    /// rules were tried.
    Accepted {
        number: u32,
        name: Name,
        raised: u32,
        tried: u64,
    },
    /// The import of this number is withdrawn now. So many values changed, and so many instances of
    /// rules were tried.
    Withdrawn {
        number: u32,
        name: Name,
        lowered: u32,
        tried: u64,
    },
}
