//! The bodies of answers that are JSON: compact, with keys in byte order.
ghost use Rattle.std.specs.Prelude.{◌≡◌, ◌++◌, map, IfOk, OnOk};
ghost use Rattle.serde_json.specs.Data.{array};
ghost use Rattle.serde_json.specs.Written.{compact_text};
ghost use Rattle.serde_json.specs.View.{view, items_of};
ghost use Rattle.mt_answer.specs.Spelled.{asked_spelled, value_spelled};
ghost use Rattle.mt_answer.specs.Bodies.{depth_of, number_or_null, value_data, least_data, version_data, parents_data, node_data, nodes_data, tree_data, outside_data};

use crate::lines::{made_word, push_labelled};
use mt_cells::{Ask, Kind, Outside};
use mt_derive::{Made, Node};
use serde_json::{Value, json};
use std::alloc::{AllocError, Global};

// Room for the body of most values.
const VALUE_ROOM: usize = 128;

/// The body for a value. It is what is asked for most, so it is written without a tree of JSON.
pub(crate) fn value_body(
    alloc: Global,
    ask: &Ask,
    k: u8,
    since: u32,
    version: u32,
) -> Result<Vec<u8>, AllocError>
    ensures { IfOk result (λ body. body.items ≡ compact_text (value_data ask.now k since version)) }
{
    let t = ask.m.saturating_sub(k as u64);
    value_spelled(alloc, ask, k, t, since, version)
}

#[tactic(auto, unfolding(crate::specs::Spelled::value_spelled))]
fn value_spelled(
    alloc: Global,
    ask: &Ask,
    k: u8,
    t: u64,
    since: u32,
    version: u32,
) -> Result<Vec<u8>, AllocError>
    ensures { IfOk result (λ text. text.items ≡ value_spelled ask.now k t since version) }
{
    let mut text = Vec::with_capacity(alloc, VALUE_ROOM)?;
    push_labelled(&mut text, b"{\"depth\":", shown_depth(ask))?;
    push_labelled(&mut text, b",\"k\":", k as u64)?;
    push_asked(&mut text, ask)?;
    push_labelled(&mut text, b",\"since\":", since as u64)?;
    push_labelled(&mut text, b",\"t\":", t)?;
    push_labelled(&mut text, b",\"version\":", version as u64)?;
    text.push(b'}')?;
    Ok(text)
}

// Adds what is asked for.
#[tactic(auto, unfolding(crate::specs::Spelled::asked_spelled))]
fn push_asked(text: &mut Vec<u8>, ask: &Ask) -> Result<(), AllocError>
    ensures { OnOk result (text.new.items ≡ text.old.items ++ asked_spelled ask.now) }
{
    text.extend_from_slice(b",\"kind\":\"")?;
    text.extend_from_slice(ask.kind.word().as_bytes())?;
    push_labelled(text, b"\",\"m\":", ask.m)?;
    push_labelled(text, b",\"q\":", ask.q)?;
    push_labelled(text, b",\"s\":", ask.s)
}

// The depth of what is asked for.
fn shown_depth(ask: &Ask) -> u64
    ensures { result ≡ depth_of ask.now.kind ask.now.m ask.now.depth }
{
    match ask.kind {
        Kind::Net | Kind::Seq => ask.m,
        Kind::Oa => 1,
        Kind::Ooa => ask.depth,
    }
}

/// The body for the number of events.
pub(crate) fn version_body(alloc: Global, version: u32) -> Result<Vec<u8>, AllocError>
    ensures { IfOk result (λ body. body.items ≡ compact_text (version_data version)) }
{
    let text = format!(in alloc; "{{\"version\":{version}}}")?;
    Ok(text.into_bytes())
}

/// The body for the least m.
pub(crate) fn least_body(
    alloc: Global,
    q: u64,
    s: u64,
    k: u64,
    m: Option<u8>,
    version: u32,
) -> Result<Vec<u8>, AllocError>
    ensures { IfOk result (λ body. body.items ≡ compact_text (least_data q s k m version)) }
{
    least_value(alloc, q, s, k, m, version)?.to_vec(alloc)
}

fn least_value(
    alloc: Global,
    q: u64,
    s: u64,
    k: u64,
    m: Option<u8>,
    version: u32,
) -> Result<Value, AllocError>
    ensures { IfOk result (λ value. view value ≡ least_data q s k m version) }
{
    let m = value_or_null(m);
    json!(in alloc; {"k": k, "m": m, "q": q, "s": s, "version": version})
}

fn value_or_null(number: Option<u8>) -> Value
    ensures { view result ≡ number_or_null number }
{
    match number {
        Some(number) => Value::from(number),
        None => Value::Null,
    }
}

/// The body for a question outside the bounds.
pub(crate) fn outside_body(alloc: Global, outside: Outside) -> Result<Vec<u8>, AllocError>
    ensures { IfOk result (λ body. body.items
        ≡ compact_text (outside_data outside.name outside.number)) }
{
    outside_value(alloc, outside)?.to_vec(alloc)
}

fn outside_value(alloc: Global, outside: Outside) -> Result<Value, AllocError>
    ensures { IfOk result (λ value. view value ≡ outside_data outside.name outside.number) }
{
    let (name, number) = (outside.name, outside.number);
    let name = format!(in alloc; "{name}")?;
    json!(in alloc; {"error": "outside", "name": name, "number": number})
}

/// The body for a derivation.
pub(crate) fn tree_body(alloc: Global, nodes: &[Node], version: u32) -> Result<Vec<u8>, AllocError>
    ensures { IfOk result (λ body. body.items ≡ compact_text (tree_data nodes.now version)) }
{
    tree_value(alloc, nodes, version)?.to_vec(alloc)
}

fn tree_value(alloc: Global, nodes: &[Node], version: u32) -> Result<Value, AllocError>
    ensures { IfOk result (λ value. view value ≡ tree_data nodes.now version) }
{
    let nodes = node_values(alloc, nodes)?;
    json!(in alloc; {"nodes": nodes, "version": version})
}

// The nodes, numbered from 1.
fn node_values(alloc: Global, nodes: &[Node]) -> Result<Vec<Value>, AllocError>
    ensures { IfOk result (λ values. map view values.items ≡ nodes_data 1 nodes.now) }
{
    let mut values = Vec::with_capacity(alloc, nodes.len())?;
    for place in 0..nodes.len() {
        values.push(node_value(alloc, place as u64 + 1, nodes[place])?)?;
    }
    Ok(values)
}

fn node_value(alloc: Global, number: u64, node: Node) -> Result<Value, AllocError>
    ensures { IfOk result (λ value. view value ≡ node_data number node) }
{
    let (cell, k) = (node.cell, node.k);
    let cell = format!(in alloc; "{cell}")?;
    let parents = parent_values(alloc, node.made)?;
    let rule = made_word(alloc, node.made)?;
    json!(in alloc; {"cell": cell, "k": k, "node": number, "parents": parents, "rule": rule})
}

// The numbers of the parents.
fn parent_values(alloc: Global, made: Made) -> Result<Value, AllocError>
    ensures { IfOk result (λ value. view value ≡ array (items_of (parents_data made))) }
{
    match made {
        Made::One(_, parent) => json!(in alloc; [parent as u64 + 1]),
        Made::Two(_, first, second) => json!(in alloc; [first as u64 + 1, second as u64 + 1]),
        Made::Zero
        | Made::Constant
        | Made::Identity
        | Made::Parity
        | Made::Niederreiter
        | Made::Import(_) => Ok(Value::Array(Vec::new(alloc))),
    }
}
