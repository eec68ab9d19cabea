//! Niederreiter's matrices, as an import text.
ghost use Rattle.std.specs.Prelude.{◌≤◌, IfOk};
ghost use Rattle.mint.specs.Run.{IsSequenceText};

use mt_import::print_import;
use mt_linear::Order;
use mt_niederreiter::{matrices, quality};
use mt_system::{Claim, Form, Name};
use std::alloc::{AllocError, Global};

/// The import text, named `niederreiter`, of Niederreiter's matrices with `m` columns for `s`
/// coordinates, with their quality parameter as its claim, or m where that is less.
pub fn sequence_lines(alloc: Global, order: Order, m: u8, s: u8) -> Result<Vec<u8>, AllocError>
    requires columns { 1 ≤ m }
    requires coordinates { 1 ≤ s }
    ensures { IfOk result (λ text. IsSequenceText order m s text.items) }
{
    let system = matrices(alloc, order, m, s)?;
    let quality = quality(alloc, order, s)?;
    let Some(name) = Name::of(b"niederreiter") else {
        unreachable!();
    };
    let strength = (m as u32).saturating_sub(quality) as u8;
    match Claim::new(Form::Seq, name, strength, system) {
        Some(claim) => print_import(alloc, &claim),
        None => unreachable!(),
    }
}
