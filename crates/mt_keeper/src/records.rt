//! Lists of texts.
ghost use Rattle.std.specs.Prelude.{◌≡◌, ◌+◌, ◌-◌, ◌^◌, ◌<◌, ◌≤◌, ◌++◌, ◌∷◌, [], length, slice_get, Some, IfOk, OnOk, OnErr};
ghost use Rattle.mt_keeper.specs.Keeping.{texts_of};

use std::alloc::{AllocError, Global};
use std::marker::Model;

/// A list of fewer than 2^32 texts.
#[derive(Debug, Drop)]
pub struct Records {
    texts: Vec<Vec<u8>>,
}

impl Model for Records {
    ghost use Rattle.std.specs.Prelude.{◌^◌, ◌<◌, ℕ, List, length};
    ghost use Rattle.mt_keeper.specs.Keeping.{texts_of};

    ghost Value = { List (List ℕ) };

    ghost view = { λ r. texts_of r.texts.items };

    ghost invariant = { λ r. length r.texts.items < 2 ^ 32 };
}

impl Records {
    /// The records with these texts, in their order.
    pub fn new(texts: Vec<Vec<u8>>) -> Records
        requires { length texts.items < 2 ^ 32 }
        ensures { result ≡ texts_of texts.items }
    {
        Records { texts }
    }

    /// How many records there are.
    pub fn len(&self) -> u32
        ensures { result ≡ length self.now }
    {
        self.texts.len() as u32
    }

    /// The text of record `n`, counted from 1.
    pub fn get(&self, n: u32) -> &[u8]
        requires from { 1 ≤ n }
        requires to { n ≤ length self.now }
        ensures { slice_get self.now (n - 1) ≡ Some result.now }
    {
        &self.texts[n as usize - 1]
    }

    // Appends a copy of the text.
    pub(crate) fn push(&mut self, alloc: Global, text: &[u8]) -> Result<(), AllocError>
        requires { length self.old + 1 < 2 ^ 32 }
        ensures ok { OnOk result (self.new ≡ self.old ++ text.now ∷ []) }
        ensures err { OnErr result (self.new ≡ self.old) }
    {
        let text = Vec::from_slice(alloc, text)?;
        self.texts.push(text)?;
        Ok(())
    }

    // A copy of the records.
    pub(crate) fn copy(&self, alloc: Global) -> Result<Records, AllocError>
        ensures { IfOk result (λ records. records ≡ self.now) }
    {
        let mut texts = Vec::new(alloc);
        for text in &self.texts {
            texts.push(Vec::from_slice(alloc, text)?)?;
        }
        Ok(Records { texts })
    }
}
