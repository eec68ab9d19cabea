//! Notes on where a system comes from.
ghost use Rattle.std.specs.Prelude.{◌≡◌, ◌≢◌, ◌↔◌, ◌≤◌, ◌-◌, ◌==◌, [], length, slice_index, All, IsTrue, IsSome, IfSome};
ghost use Rattle.mt_system.specs.Notes.{IsNote, space, tilde};

use std::marker::Model;

/// The most bytes that a note may have.
pub const MOST_NOTE_BYTES: usize = 200;

/// A note: up to 200 visible characters of ASCII and spaces, with no space at either end.
///
/// It stands in the value itself and takes no memory.
#[derive(Clone, Copy, PartialEq, Eq, Debug)]
pub struct Note {
    bytes: [u8; MOST_NOTE_BYTES],
    len: u8,
}

impl Model for Note {
    ghost use Rattle.std.specs.Prelude.{ℕ, List, length, take};
    ghost use Rattle.mt_system.specs.declared.note.TheConstants.{MOST_NOTE_BYTES};
    ghost use Rattle.mt_system.specs.KeptText.{IsKept, padded_text};
    ghost use Rattle.mt_system.specs.Notes.{IsNote};

    ghost Value = { List ℕ };

    ghost view = { λ a. take a.len a.bytes };

    ghost invariant = { λ a. IsKept IsNote MOST_NOTE_BYTES a.bytes a.len };

    ghost inverse = { λ note. record { bytes = padded_text MOST_NOTE_BYTES note; len = length note } };

    ghost inverse_ok = { λ a h i. record { bytes = h.padded i; len = h.size i } };
}

impl Note {
    /// The note of these bytes, where they are one.
    pub fn of(bytes: &[u8]) -> Option<Note>
        ensures taken { IsSome result ↔ IsNote bytes.now }
        ensures value { IfSome result (λ note. note ≡ bytes.now) }
    {
        if !is_note(bytes) {
            return None;
        }
        let mut kept = [0u8; MOST_NOTE_BYTES];
        kept[..bytes.len()].copy_from_slice(bytes);
        Some(Note {
            bytes: kept,
            len: bytes.len() as u8,
        })
    }

    /// The note that says nothing.
    pub fn empty() -> Note
        ensures { result ≡ [] }
    {
        Note {
            bytes: [0; MOST_NOTE_BYTES],
            len: 0,
        }
    }

    /// Its bytes.
    pub fn bytes(&self) -> &[u8]
        ensures value { result.now ≡ self.now }
        ensures form { IsNote self.now }
    {
        &self.bytes[..self.len as usize]
    }

    /// Whether it says nothing.
    pub fn is_empty(&self) -> bool
        ensures { result ≡ (length self.now == 0) }
    {
        self.len == 0
    }
}

fn is_note(note: &[u8]) -> bool
    ensures { IsTrue result ↔ IsNote note.now }
{
    note.len() <= MOST_NOTE_BYTES && are_visible(note) && has_no_space_outside(note)
}

// Whether all bytes are visible characters or spaces.
fn are_visible(note: &[u8]) -> bool
    ensures { IsTrue result ↔ All (λ b. (space ≤ b) × (b ≤ tilde)) note.now }
{
    note.iter().all(|byte| (b' '..=b'~').contains(byte))
}

// Whether neither the first nor the last byte is a space.
fn has_no_space_outside(note: &[u8]) -> bool
    ensures { IsTrue result ↔ ((slice_index note.now 0 ≢ space)
        × (slice_index note.now (length note.now - 1) ≢ space)) }
{
    note.first() != Some(&b' ') && note.last() != Some(&b' ')
}
