//! The least nets of a value, and answers over HTTP.
ghost use Rattle.std.specs.Prelude.{◌≡◌, ◌<◌, IfOk};

use super::*;
use mt_cells::{Ask, Bounds, Kind, Question, RuleSet, Steps};
use mt_derive::Event;
use mt_http::Media;
use mt_linear::Order;
use mt_strength::{Checked, Tested};
use mt_system::{Claim, Form, Name, System};
use mt_table::Table;
use std::alloc::{AllocError, Global};
use std::marker::Brand;
use std::process::Abort;
use std::sync::ledger::{Blank, Ledger};
use std::test::Fail;

fn table_of<L: Ledger>(alloc: Global, bounds: Bounds, blank: Blank) -> Result<Table, AllocError>
    requires name { blank.name ≡ L.name }
    requires parts { blank.parts ≡ L.parts }
    requires some { 0 < L.parts }
    ensures { IfOk result (λ t. t.bounds ≡ bounds) }
{
    let mut steps = Steps::<L>::of(blank);
    Table::new(alloc, bounds, RuleSet::all(), &mut steps)
}

#[test]
fn least_nets(rt: HostRuntime) -> Result<(), Fail> {
    let bounds = Bounds::new(4, 4).ok_or("none")?;
    let table = table_of::<Brand>(rt.alloc(), bounds, Blank::new(1))?;
    // over two elements a net with t = 0 has at most three coordinates
    assert_eq!(rt; least_m(&table, Order::Q2, 3, 2), Some(2));
    assert_eq!(rt; least_m(&table, Order::Q2, 4, 2), Some(3));
    assert_eq!(rt; least_m(&table, Order::Q2, 3, 5), None);
    Ok(())
}

// A digital (1, 4, 7)-net, whose first rows are those of a cap.
const CAPS: [&[u8; 16]; 7] = [
    b"1001000100100000",
    b"1010001000010000",
    b"1011001100010000",
    b"1100010000010000",
    b"1101010100010000",
    b"1110011000010000",
    b"1111011100010000",
];

fn import_of_caps(alloc: Global) -> Result<Event, Fail> {
    let mut digits = Vec::new(alloc);
    for coordinate in CAPS.iter() {
        for digit in coordinate.iter() {
            digits.push(*digit & 1)?;
        }
    }
    let name = Name::of(b"caps7").ok_or("name")?;
    let Ok(system) = System::new(Order::Q2, 4, 7, 4, digits) else {
        return Err("system")?;
    };
    let claim = Claim::new(Form::Net, name, 3, system).ok_or("claim")?;
    match Checked::of(alloc, claim)? {
        Tested::Good(checked) => Ok(Event::Import(checked)),
        Tested::Dependent { .. } => Err("dependent")?,
    }
}

fn apply<L: Ledger>(table: &mut Table, event: &Event, blank: Blank) -> Result<(), Fail>
    requires name { blank.name ≡ L.name }
    requires parts { blank.parts ≡ L.parts }
    requires some { 0 < L.parts }
{
    let mut steps = Steps::<L>::of(blank);
    if !table.fits(event) {
        return Err("the event does not fit")?;
    }
    table.apply(event, &mut steps);
    Ok(())
}

fn over_two(kind: Kind, m: u64, s: u64) -> Ask {
    Ask {
        kind,
        q: 2,
        m,
        s,
        depth: 2,
    }
}

// Asks each question, and compares its answer.
fn assert_answers(
    rt: &impl Abort,
    alloc: Global,
    table: &Table,
    cases: &[(Question, u16, Media, &[u8])],
) -> Result<(), Fail> {
    for (question, status, media, body) in cases {
        let given = answer(alloc, table, question)?;
        assert_eq!(rt; given.status, *status);
        assert_eq!(rt; given.media, *media);
        assert_eq!(rt; given.body.as_slice(), *body);
    }
    Ok(())
}

#[test]
fn answers_without_imports(rt: HostRuntime) -> Result<(), Fail> {
    let alloc = rt.alloc();
    let bounds = Bounds::new(3, 4).ok_or("bounds")?;
    let table = table_of::<Brand>(alloc, bounds, Blank::new(1))?;
    let cases: [(Question, u16, Media, &[u8]); 11] = [
        (
            Question::Value(over_two(Kind::Oa, 3, 4)),
            200,
            Media::Json,
            b"{\"depth\":1,\"k\":3,\"kind\":\"oa\",\"m\":3,\"q\":2,\"s\":4,\"since\":0,\"t\":0,\"version\":0}",
        ),
        (
            Question::Value(over_two(Kind::Seq, 3, 3)),
            200,
            Media::Json,
            b"{\"depth\":3,\"k\":2,\"kind\":\"seq\",\"m\":3,\"q\":2,\"s\":3,\"since\":0,\"t\":1,\"version\":0}",
        ),
        (
            Question::Tree(over_two(Kind::Oa, 3, 4)),
            200,
            Media::Json,
            b"{\"nodes\":[{\"cell\":\"ooa 2 3 4 1\",\"k\":3,\"node\":1,\"parents\":[],\"rule\":\"parity\"}],\"version\":0}",
        ),
        (
            Question::Matrix(over_two(Kind::Oa, 3, 4)),
            200,
            Media::Plain,
            b"ooa 2 3 4 1 3 mint\n100\n010\n001\n111\n",
        ),
        (
            Question::Table { q: 2, m: 3 },
            200,
            Media::Csv,
            b"s,net_k,net_t,oa_k,seq_t\n1,3,0,3,0\n2,3,0,3,0\n3,3,0,3,1\n4,2,1,3,3\n",
        ),
        (
            Question::LeastM { q: 2, s: 4, k: 2 },
            200,
            Media::Json,
            b"{\"k\":2,\"m\":3,\"q\":2,\"s\":4,\"version\":0}",
        ),
        (
            Question::LeastM { q: 2, s: 4, k: 3 },
            200,
            Media::Json,
            b"{\"k\":3,\"m\":null,\"q\":2,\"s\":4,\"version\":0}",
        ),
        (Question::Version, 200, Media::Json, b"{\"version\":0}"),
        (
            Question::Value(over_two(Kind::Ooa, 5, 4)),
            404,
            Media::Json,
            b"{\"error\":\"outside\",\"name\":\"m\",\"number\":5}",
        ),
        (
            Question::Tree(over_two(Kind::Ooa, 1, 4)),
            404,
            Media::Json,
            b"{\"error\":\"outside\",\"name\":\"depth\",\"number\":2}",
        ),
        (
            Question::LeastM { q: 6, s: 9, k: 2 },
            404,
            Media::Json,
            b"{\"error\":\"outside\",\"name\":\"q\",\"number\":6}",
        ),
    ];
    assert_answers(&rt, alloc, &table, &cases)
}

#[test]
fn answers_behind_an_import(rt: HostRuntime) -> Result<(), Fail> {
    let alloc = rt.alloc();
    let bounds = Bounds::new(4, 8).ok_or("bounds")?;
    let mut table = table_of::<Brand>(alloc, bounds, Blank::new(1))?;
    let import = import_of_caps(alloc)?;
    apply::<Brand>(&mut table, &import, Blank::new(1))?;
    let cases: [(Question, u16, Media, &[u8]); 4] = [
        (
            Question::Value(over_two(Kind::Net, 4, 7)),
            200,
            Media::Json,
            b"{\"depth\":4,\"k\":3,\"kind\":\"net\",\"m\":4,\"q\":2,\"s\":7,\"since\":1,\"t\":1,\"version\":1}",
        ),
        (
            Question::Tree(over_two(Kind::Ooa, 4, 7)),
            200,
            Media::Json,
            b"{\"nodes\":[{\"cell\":\"ooa 2 4 7 4\",\"k\":3,\"node\":1,\"parents\":[],\"rule\":\"import/1\"},{\"cell\":\"ooa 2 4 7 3\",\"k\":3,\"node\":2,\"parents\":[1],\"rule\":\"shallower\"},{\"cell\":\"ooa 2 4 7 2\",\"k\":3,\"node\":3,\"parents\":[2],\"rule\":\"shallower\"}],\"version\":1}",
        ),
        (
            Question::Matrix(over_two(Kind::Net, 4, 7)),
            200,
            Media::Plain,
            b"net 2 4 7 1 mint\n1001\n0001\n0010\n0000\n1010\n0010\n0001\n0000\n1011\n0011\n0001\n0000\n1100\n0100\n0001\n0000\n1101\n0101\n0001\n0000\n1110\n0110\n0001\n0000\n1111\n0111\n0001\n0000\n",
        ),
        (Question::Version, 200, Media::Json, b"{\"version\":1}"),
    ];
    assert_answers(&rt, alloc, &table, &cases)
}

#[test]
fn an_export(rt: HostRuntime) -> Result<(), Fail> {
    let alloc = rt.alloc();
    let bounds = Bounds::new(1, 1).ok_or("bounds")?;
    let table = table_of::<Brand>(alloc, bounds, Blank::new(1))?;
    let given = answer(alloc, &table, &Question::Export)?;
    let written = text(alloc, &table, &Question::Export)?;
    assert_eq!(rt; given.media, Media::Csv);
    assert_eq!(rt; given.body.as_slice(), written.as_slice());
    assert!(rt; written.starts_with(b"kind,q,m,s,depth,k,since\nooa,2,1,1,1,1,0\n"));
    Ok(())
}
