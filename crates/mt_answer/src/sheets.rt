//! Comma-separated values in memory.
ghost use Rattle.std.specs.Prelude.{◌≡◌, ◌+◌, ◌<◌, [], ◌++◌, length, decimal, map, IfOk, OnOk};
ghost use Rattle.csv.specs.Records.{fields_of, partial_of};
ghost use Rattle.csv.specs.Writing.{default_writer, row_text};
ghost use Rattle.mt_answer.specs.Fields.{ArePlain};
ghost use Rattle.mt_answer.specs.Sheets.{line_text};

use csv::{ByteRecord, Writer};
use itoa::Buffer;
use std::alloc::{AllocError, Global};
use std::marker::Model;

/// Comma-separated values, seen as their text so far.
#[derive(Drop)]
pub(crate) struct Sheet {
    writer: Writer<Vec<u8>>,
    // The row that is written next, kept for its room.
    row: ByteRecord,
    alloc: Global,
}

impl Model for Sheet {
    ghost use Rattle.std.specs.Prelude.{◌≡◌, ℕ, List, ◌++◌, false};
    ghost use Rattle.csv.specs.Writing.{default_writer, fields_written, has_written, writer_pending, writer_setup, writer_under};

    ghost Value = { List ℕ };

    ghost view = { λ s. (writer_under s.writer).items ++ writer_pending s.writer };

    ghost invariant = { λ s. (fields_written s.writer ≡ 0) × (has_written s.writer ≡ false)
        × (writer_setup s.writer ≡ default_writer) };
}

impl Sheet {
    /// The empty text.
    pub(crate) fn new(alloc: Global) -> Sheet
        ensures { result ≡ [] }
    {
        Sheet {
            writer: Writer::from_writer(Vec::new(alloc)),
            row: ByteRecord::new(alloc),
            alloc,
        }
    }

    /// Adds a row of these words and then these numbers, in decimal.
    pub(crate) fn push(&mut self, words: &[&[u8]], numbers: &[u64]) -> Result<(), AllocError>
        requires plain { ArePlain (map (λ f. f.now) words.now) }
        requires some { 0 < length (map (λ f. f.now) words.now) + length numbers.now }
        ensures { OnOk result (self.new ≡ self.old
            ++ line_text (map (λ f. f.now) words.now ++ map decimal numbers.now)) }
    {
        self.push_row(words, numbers)
    }

    // Adds it as `csv` writes it.
    fn push_row(&mut self, words: &[&[u8]], numbers: &[u64]) -> Result<(), AllocError>
        ensures { OnOk result (self.new ≡ self.old
            ++ row_text default_writer (map (λ f. f.now) words.now ++ map decimal numbers.now)) }
    {
        self.row.clear();
        push_words(&mut self.row, words)?;
        push_numbers(&mut self.row, numbers)?;
        match self.writer.write_byte_record(&self.row) {
            Ok(()) => Ok(()),
            // A writer over a `Vec` fails for want of memory alone. Its text is given up.
            Err(_) => {
                self.writer = Writer::from_writer(Vec::new(self.alloc));
                Err(AllocError)
            }
        }
    }

    /// The text.
    pub(crate) fn into_bytes(self) -> Result<Vec<u8>, AllocError>
        ensures { IfOk result (λ bytes. bytes.items ≡ self) }
    {
        // A writer over a `Vec` fails for want of memory alone.
        self.writer.into_inner().map_err(|_| AllocError)
    }
}

// Adds fields to a record that ends with a whole field.
fn push_words(row: &mut ByteRecord, words: &[&[u8]]) -> Result<(), AllocError>
    requires { partial_of row.old ≡ [] }
    ensures fields { OnOk result (fields_of row.new
        ≡ fields_of row.old ++ map (λ f. f.now) words.now) }
    ensures partial { OnOk result (partial_of row.new ≡ []) }
{
    for word in words {
        row.push_field(word)?;
    }
    Ok(())
}

// Adds numbers, in decimal, to a record that ends with a whole field.
fn push_numbers(row: &mut ByteRecord, numbers: &[u64]) -> Result<(), AllocError>
    requires { partial_of row.old ≡ [] }
    ensures fields { OnOk result (fields_of row.new
        ≡ fields_of row.old ++ map decimal numbers.now) }
    ensures partial { OnOk result (partial_of row.new ≡ []) }
{
    let mut buffer = Buffer::new();
    for number in numbers {
        row.push_field(buffer.format(*number).as_bytes())?;
    }
    Ok(())
}
