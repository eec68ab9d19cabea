//! The lines of answers.
ghost use Rattle.std.specs.Prelude.{◌≡◌, [], ◌∷◌, ◌++◌, codes, decimal, string_bytes, IfOk, OnOk};
ghost use Rattle.mt_cells.specs.Texts.{cell_text};
ghost use Rattle.mt_answer.specs.Texts.{ask_text, value_text, made_text, parents_text, node_text, nodes_text, outside_line_text};

use itoa::Buffer;
use mt_cells::{Ask, Kind, Outside};
use mt_derive::{Made, Node};
use std::alloc::{AllocError, Global};

/// The line for a value.
pub(crate) fn value_line(
    alloc: Global,
    ask: &Ask,
    k: u8,
    since: u32,
    version: u32,
) -> Result<Vec<u8>, AllocError>
    ensures { IfOk result (λ text. text.items ≡ value_text ask.now k since version) }
{
    let mut text = ask_line(alloc, ask)?;
    push_labelled(&mut text, b": k ", k as u64)?;
    push_labelled(&mut text, b", t ", ask.m.saturating_sub(k as u64))?;
    push_labelled(&mut text, b", since ", since as u64)?;
    push_labelled(&mut text, b", version ", version as u64)?;
    text.push(b'\n')?;
    Ok(text)
}

/// The line `outside: NAME NUMBER` for a question outside the bounds.
pub fn outside_line(alloc: Global, outside: Outside) -> Result<Vec<u8>, AllocError>
    ensures { IfOk result (λ text. text.items ≡ outside_line_text outside.name outside.number) }
{
    Ok(format!(in alloc; "{outside}\n")?.into_bytes())
}

// What is asked for: the kind and the sizes.
fn ask_line(alloc: Global, ask: &Ask) -> Result<Vec<u8>, AllocError>
    ensures { IfOk result (λ text. text.items ≡ ask_text ask.now) }
{
    let mut text = Vec::from_slice(alloc, ask.kind.word().as_bytes())?;
    push_labelled(&mut text, b" ", ask.q)?;
    push_labelled(&mut text, b" ", ask.m)?;
    push_labelled(&mut text, b" ", ask.s)?;
    match ask.kind {
        Kind::Ooa => push_labelled(&mut text, b" ", ask.depth)?,
        Kind::Net | Kind::Oa | Kind::Seq => {}
    }
    Ok(text)
}

/// A line for each node, numbered from 1.
pub(crate) fn node_lines(alloc: Global, nodes: &[Node]) -> Result<Vec<u8>, AllocError>
    ensures { IfOk result (λ text. text.items ≡ nodes_text 1 nodes.now) }
{
    let mut text = Vec::new(alloc);
    for place in 0..nodes.len() {
        push_node(alloc, &mut text, place as u64 + 1, nodes[place])?;
    }
    Ok(text)
}

// Adds the line of a node.
fn push_node(alloc: Global, text: &mut Vec<u8>, number: u64, node: Node) -> Result<(), AllocError>
    ensures { OnOk result (text.new.items ≡ text.old.items ++ node_text number node) }
{
    push_labelled(text, b"", number)?;
    push_rule(alloc, text, node.made)?;
    push_conclusion(alloc, text, node)
}

// Adds the cell and the value, and ends the line.
fn push_conclusion(alloc: Global, text: &mut Vec<u8>, node: Node) -> Result<(), AllocError>
    ensures { OnOk result (text.new.items ≡ text.old.items
        ++ (32 ∷ cell_text node.cell ++ codes " k " ++ decimal node.k ++ 10 ∷ [])) }
{
    let (cell, k) = (node.cell, node.k);
    let conclusion = format!(in alloc; " {cell} k {k}\n")?;
    text.extend_from_slice(conclusion.as_bytes())
}

// Adds what the node is made of.
fn push_rule(alloc: Global, text: &mut Vec<u8>, made: Made) -> Result<(), AllocError>
    ensures { OnOk result (text.new.items ≡ text.old.items
        ++ (32 ∷ made_text made ++ 32 ∷ parents_text made)) }
{
    text.push(b' ')?;
    text.extend_from_slice(made_word(alloc, made)?.as_bytes())?;
    text.push(b' ')?;
    push_parents(text, made)
}

/// The name of an axiom, an import or a rule.
pub(crate) fn made_word(alloc: Global, made: Made) -> Result<String, AllocError>
    ensures { IfOk result (λ word. string_bytes word ≡ made_text made) }
{
    match made {
        Made::Zero => String::from_str(alloc, "zero"),
        Made::Constant => String::from_str(alloc, "constant"),
        Made::Identity => String::from_str(alloc, "identity"),
        Made::Parity => String::from_str(alloc, "parity"),
        Made::Niederreiter => String::from_str(alloc, "niederreiter"),
        Made::Import(n) => format!(in alloc; "import/{n}"),
        Made::One(rule, _) | Made::Two(rule, _, _) => format!(in alloc; "{rule}"),
    }
}

// Adds the numbers of the parents.
fn push_parents(text: &mut Vec<u8>, made: Made) -> Result<(), AllocError>
    ensures { OnOk result (text.new.items ≡ text.old.items ++ parents_text made) }
{
    match made {
        Made::One(_, parent) => push_labelled(text, b"", parent as u64 + 1),
        Made::Two(_, first, second) => {
            push_labelled(text, b"", first as u64 + 1)?;
            push_labelled(text, b",", second as u64 + 1)
        }
        Made::Zero
        | Made::Constant
        | Made::Identity
        | Made::Parity
        | Made::Niederreiter
        | Made::Import(_) => text.extend_from_slice(b"-"),
    }
}

/// Adds a label, and a number in decimal.
pub(crate) fn push_labelled(text: &mut Vec<u8>, label: &[u8], number: u64) -> Result<(), AllocError>
    ensures { OnOk result (text.new.items ≡ text.old.items ++ (label.now ++ decimal number)) }
{
    let mut digits = Buffer::new();
    text.extend_from_slice(label)?;
    text.extend_from_slice(digits.format(number).as_bytes())
}
