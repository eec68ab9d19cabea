//! Answers from a table.
ghost use Rattle.std.specs.Prelude.{◌≡◌, IfOk};
ghost use Rattle.mt_answer.specs.Answers.{HasText, IsTextFor, shown, IsReplyFor};
ghost use Rattle.mt_answer.specs.Facts.{IsFact, IsFound};
ghost use Rattle.mt_answer.specs.Texts.{text_of};
ghost use Rattle.mt_cells.specs.Asks.{sizes_of, IsInside};

use crate::claims::claim_of;
use crate::derivations::derivation;
use crate::exports::export_lines;
use crate::facts::{Fact, Facts};
use crate::least::least_m;
use crate::lines::{node_lines, value_line};
use crate::replies::{Answer, found_answer, outside_answer};
use crate::tables::table_lines;
use mt_cells::Question;
use mt_import::print_import;
use mt_linear::Order;
use mt_table::Table;
use std::alloc::{AllocError, Global};

/// What holds over the imports of the table, as the answer to a question within its bounds, and how
/// many imports there are.
///
/// - For a value it is the greatest that a derivation concludes for the cell, and the last import
///   that changed it.
/// - For a derivation it has the nodes of one with this value, parents first.
/// - For matrices it is the claim, named `mint`, that the system of such a derivation has the value.
/// - For a table it has comma-separated values: for each s the values of the net and the
///   orthogonal array, and m less the values of the net and the sequence.
/// - For the least m it is this number, where one has the value.
/// - For an export it has comma-separated values: for each cell its sizes, its value and the last
///   import that changed it, in the order of cells.
pub fn find(alloc: Global, table: &Table, question: &Question) -> Result<Facts, AllocError>
    requires { IsInside table.now.bounds (sizes_of question.now) }
    ensures { IfOk result (IsFound table.now.bounds table.now.rules table.now.events question.now) }
{
    Ok(Facts {
        version: table.version(),
        fact: fact_of(alloc, table, question)?,
    })
}

fn fact_of(alloc: Global, table: &Table, question: &Question) -> Result<Fact, AllocError>
    requires { IsInside table.now.bounds (sizes_of question.now) }
    ensures { IfOk result (IsFact table.now.bounds table.now.rules table.now.events question.now) }
{
    let bounds = table.bounds();
    match question {
        Question::Value(ask) => {
            let cell = ask.cell_within(bounds);
            let (k, since) = (table.value(cell), table.since(cell));
            Ok(Fact::Value {
                ask: *ask,
                k,
                since,
            })
        }
        Question::Tree(ask) => {
            let cell = ask.cell_within(bounds);
            Ok(Fact::Tree(derivation(alloc, table, cell)?))
        }
        Question::Matrix(ask) => {
            let cell = ask.cell_within(bounds);
            Ok(Fact::Matrix(claim_of(alloc, table, ask, cell)?))
        }
        Question::Table { q, m } => {
            let order = Order::of_number(*q).unwrap();
            Ok(Fact::Sheet(table_lines(alloc, table, order, *m as u8)?))
        }
        Question::LeastM { q, s, k } => {
            let order = Order::of_number(*q).unwrap();
            Ok(Fact::LeastM {
                q: *q,
                s: *s,
                k: *k,
                m: least_m(table, order, *s as u8, *k),
            })
        }
        Question::Version => Ok(Fact::Version),
        Question::Export => Ok(Fact::Sheet(export_lines(alloc, table)?)),
    }
}

/// What [`find`] answers to a question of the command line, as a text whose lines end with line feeds.
///
/// - A value is `KIND Q M S: k K, t T, since N, version V`, with the depth behind S for kind ooa: the
///   value K, `T = m - K`, the last import that changed it, and the number of imports.
/// - A derivation has a line `NUMBER RULE PARENTS CELL k VALUE` for each node, numbered from 1. The
///   parents are `-` or numbers.
/// - Matrices are the import text of their claim.
/// - Comma-separated values are as they are.
pub fn text(alloc: Global, table: &Table, question: &Question) -> Result<Vec<u8>, AllocError>
    requires inside { IsInside table.now.bounds (sizes_of question.now) }
    requires has_text { HasText question.now }
    ensures { IfOk result (λ text. IsTextFor table.now.bounds table.now.rules table.now.events
        question.now text.items) }
{
    let facts = find(alloc, table, question)?;
    written(alloc, facts)
}

fn written(alloc: Global, facts: Facts) -> Result<Vec<u8>, AllocError>
    ensures { IfOk result (λ text. text.items ≡ text_of facts.fact facts.version) }
{
    match facts.fact {
        Fact::Value { ask, k, since } => value_line(alloc, &ask, k, since, facts.version),
        Fact::Tree(nodes) => node_lines(alloc, &nodes),
        Fact::Matrix(claim) => print_import(alloc, &claim),
        Fact::Sheet(text) => Ok(text),
        Fact::LeastM { .. } | Fact::Version => Ok(Vec::new(alloc)),
    }
}

/// The answer to a question over HTTP: what [`find`] answers, with status 200, or the first number
/// of the question that is outside the bounds, with status 404. It fails only for want of memory.
///
/// A value, a derivation, the least m and the number of events are JSON, compact and with keys in
/// byte order. Matrices and comma-separated values are what [`text`](text) gives.
///
/// - A value is `{"depth":D,"k":K,"kind":"KIND","m":M,"q":Q,"s":S,"since":N,"t":T,"version":V}`.
/// - A derivation is `{"nodes":[..],"version":V}`, with `{"cell":"CELL","k":K,"node":NUMBER,
///   "parents":[..],"rule":"RULE"}` for each node, numbered from 1.
/// - The least m is `{"k":K,"m":M,"q":Q,"s":S,"version":V}`, with `null` where there is none.
/// - The number of events is `{"version":V}`.
/// - What is outside is `{"error":"outside","name":"NAME","number":N}`.
pub fn answer(alloc: Global, table: &Table, question: &Question) -> Result<Answer, AllocError>
    ensures { IfOk result (λ answer. IsReplyFor table.now.bounds table.now.rules table.now.events
        question.now (shown answer)) }
{
    match question.outside(table.bounds()) {
        Some(outside) => outside_answer(alloc, outside),
        None => found_answer(alloc, find(alloc, table, question)?),
    }
}
