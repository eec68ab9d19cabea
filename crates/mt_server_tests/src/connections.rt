//! Connections over links in memory, served one after the other over one desk.
ghost use Rattle.std.specs.Prelude.{◌≡◌};

use crate::exchanges::{Row, answer_of, exchanges_of, stream_of};
use mt_cells::{Bounds, RuleSet};
use mt_derive::Event;
use mt_io::{MemoryLink, MemorySink, MemorySource};
use mt_keeper::{Keeper, Records, SteadyKeeper};
use mt_publish::Viewer;
use mt_server::{Desk, Ended, LockedOffice, Naming, OpenDesk, Shared, serve_connection};
use mt_table::Table;
use std::alloc::{AllocError, Global};
use std::marker::Brand;
use std::process::Abort;
use std::sync::{Mutex, Wait};
use std::test::Fail;

// Room for the responses of each connection.
const ROOM: usize = 200_000;

/// A connection: its stream, the faults of its link, and what comes of it.
#[derive(Clone, Copy)]
pub(crate) struct Case<'a> {
    pub(crate) stream: &'a [u8],
    /// The most bytes that a read gives.
    pub(crate) piece: usize,
    /// The reads and the writes that fail, counted from 1.
    pub(crate) reads: &'a [u32],
    pub(crate) writes: &'a [u32],
    /// How many bytes a write that fails takes.
    pub(crate) taken: usize,
    pub(crate) answer: &'a [u8],
    pub(crate) ended: Ended,
}

impl<'a> Case<'a> {
    /// A connection without faults.
    pub(crate) fn steady(
        stream: &'a [u8],
        piece: usize,
        answer: &'a [u8],
        ended: Ended,
    ) -> Case<'a> {
        Case {
            stream,
            piece,
            reads: &[],
            writes: &[],
            taken: 0,
            answer,
            ended,
        }
    }
}

// A link, and how the connection over it ended.
#[derive(Drop)]
struct Line {
    link: MemoryLink,
    ended: Option<Ended>,
}

/// A link with this stream and these faults.
pub(crate) fn link_of(alloc: Global, case: &Case<'_>) -> Result<MemoryLink, AllocError> {
    let stream = Vec::from_slice(alloc, case.stream)?;
    let reads = Vec::from_slice(alloc, case.reads)?;
    let writes = Vec::from_slice(alloc, case.writes)?;
    let source = MemorySource::new(stream, case.piece.max(1), reads);
    let sink = MemorySink::new(alloc, ROOM, writes, case.taken)?;
    Ok(MemoryLink::new(source, sink))
}

fn lines_of(alloc: Global, cases: &[Case<'_>]) -> Result<Vec<Line>, AllocError> {
    let mut lines = Vec::new(alloc);
    for case in cases {
        let link = link_of(alloc, case)?;
        lines.push(Line { link, ended: None })?;
    }
    Ok(lines)
}

// Serves the lines one after the other over the desk.
fn serve_lines<K: Keeper + Drop, N: Naming, R: Wait>(
    rt: &R,
    alloc: Global,
    desk: Desk<K>,
    viewer: &mut Viewer<Table, Event>,
    lines: &mut [Line],
)
    requires desk { desk.history.publication ≡ N.publication }
    requires viewer { viewer.old.publication ≡ N.publication }
{
    let shared: Mutex<Shared<K, N>> = Mutex::new(Shared::new(desk));
    for line in lines.iter_mut() {
        serve_line(rt, alloc, &shared, viewer, line);
    }
}

fn serve_line<K: Keeper + Drop, N: Naming, R: Wait>(
    rt: &R,
    alloc: Global,
    desk: &Mutex<Shared<K, N>>,
    viewer: &mut Viewer<Table, Event>,
    line: &mut Line,
)
    requires { viewer.old.publication ≡ N.publication }
    ensures { viewer.new.publication ≡ viewer.old.publication }
{
    let mut office = LockedOffice::new(rt, desk);
    let ended = serve_connection(alloc, viewer, &mut office, &mut line.link);
    line.ended = Some(ended);
}

// Serves the lines over a new desk of the keeper.
fn serve_anew<K: Keeper + Drop, R: Wait>(
    rt: &R,
    alloc: Global,
    bounds: Bounds,
    keeper: K,
    lines: &mut [Line],
) -> Result<(), Fail> {
    match Desk::open(alloc, keeper, Vec::new(alloc), bounds, RuleSet::all(), 1) {
        Ok(OpenDesk { desk, mut viewers }) => {
            let mut viewer = viewers.pop().unwrap();
            serve_lines::<K, Brand, R>(rt, alloc, desk, &mut viewer, lines);
            Ok(())
        }
        Err(_) => Err("the desk is refused")?,
    }
}

/// The connections come to what their cases say, one after the other over a desk of the keeper.
pub(crate) fn assert_served<K: Keeper + Drop, R: Wait + Abort>(
    rt: &R,
    alloc: Global,
    bounds: Bounds,
    keeper: K,
    cases: &[Case<'_>],
) -> Result<(), Fail> {
    let mut lines = lines_of(alloc, cases)?;
    serve_anew(rt, alloc, bounds, keeper, lines.as_mut_slice())?;
    for (line, case) in lines.iter().zip(cases) {
        assert_eq!(rt; line.ended, Some(case.ended));
        assert_eq!(rt; line.link.bytes(), case.answer);
    }
    Ok(())
}

/// The rows are answered one after the other over a desk of the keeper.
pub(crate) fn assert_rows<K: Keeper + Drop, R: Wait + Abort>(
    rt: &R,
    alloc: Global,
    bounds: Bounds,
    keeper: K,
    rows: &[Row],
) -> Result<(), Fail> {
    let exchanges = exchanges_of(alloc, rows)?;
    let stream = stream_of(alloc, &exchanges)?;
    let answer = answer_of(alloc, &exchanges, rows.len(), 0)?;
    let case = Case::steady(&stream, 8192, &answer, Ended::Done);
    assert_served(rt, alloc, bounds, keeper, &[case])
}

/// A keeper without records, which never fails.
pub(crate) fn empty(alloc: Global) -> SteadyKeeper {
    SteadyKeeper::new(Records::new(Vec::new(alloc)))
}

/// Bounds 4,8.
pub(crate) fn bounds() -> Result<Bounds, Fail> {
    Ok(Bounds::new(4, 8).ok_or("bounds")?)
}
