//! An office whose front is older than what the viewer was shown.
ghost use Rattle.std.specs.Option.{ForSome};
ghost use Rattle.std.specs.Prelude.{◌≡◌};

use crate::connections::{Case, bounds, empty, link_of};
use crate::exchanges::{CAPS7, IMPORT, JSON, OK, Row, answer_of, exchanges_of, stream_of};
use mt_cells::{Bounds, Question, RuleSet};
use mt_derive::Event;
use mt_import::in_event_grammar;
use mt_io::MemoryLink;
use mt_keeper::Keeper;
use mt_publish::{Front, Viewer};
use mt_server::{Desk, Done, Ended, Looked, Naming, Office, OpenDesk, serve_connection};
use mt_service::Outcome;
use mt_table::Table;
use std::alloc::{AllocError, Global};
use std::marker::{Brand, PhantomData};
use std::sync::Wait;
use std::test::Fail;

// An office that kept a front, and gives it with the refusal of a text that is no event. It answers
// no question.
#[derive(Drop)]
struct LateOffice<N: Naming> {
    front: Option<Front<Table, Event>>,
    looks: u64,
    naming: PhantomData<N>,
    ghost kept: { ForSome front (λ f. f.identity ≡ N.publication.identity) },
}

impl<N: Naming> Office for LateOffice<N> {
    ghost publication = { λ _. N.publication };

    ghost tally = { λ _. 0 };

    ghost looks = { λ o. o.looks };

    fn import(&mut self, _alloc: Global, text: &[u8]) -> Done {
        if let Err(refused) = in_event_grammar(text) {
            if let Some(front) = self.front.take() {
                return Done {
                    outcome: Outcome::Form(refused),
                    front: Some(front),
                };
            }
        }
        Done {
            outcome: Outcome::Memory,
            front: None,
        }
    }

    fn look(
        &mut self,
        _alloc: Global,
        _question: &Question,
        _at_least: u64,
    ) -> Result<Looked, AllocError> {
        self.looks = self.looks.saturating_add(1);
        Err(AllocError)
    }
}

// Imports a text, and serves the link by a front from before it.
fn serve_late<K: Keeper, N: Naming, R: Wait>(
    rt: &R,
    alloc: Global,
    desk: &mut Desk<K>,
    viewer: &mut Viewer<Table, Event>,
    link: &mut MemoryLink,
) -> Result<Ended, AllocError>
    requires desk { desk.old.history.publication ≡ N.publication }
    requires viewer { viewer.old.publication ≡ N.publication }
{
    let Looked { front, .. } = desk.look(rt, alloc, &Question::Version, 0)?;
    desk.import(rt, alloc, CAPS7.as_bytes());
    let mut office: LateOffice<N> = LateOffice {
        front: Some(front),
        looks: 0,
        naming: PhantomData,
    };
    Ok(serve_connection(alloc, viewer, &mut office, link))
}

fn serve_anew<R: Wait>(
    rt: &R,
    alloc: Global,
    bounds: Bounds,
    link: &mut MemoryLink,
) -> Result<Ended, Fail> {
    match Desk::open(
        alloc,
        empty(alloc),
        Vec::new(alloc),
        bounds,
        RuleSet::all(),
        1,
    ) {
        Ok(
            OpenDesk {
                mut desk,
                mut viewers,
            },
        ) => {
            let mut viewer = viewers.pop().unwrap();
            let ended = serve_late::<_, Brand, R>(rt, alloc, &mut desk, &mut viewer, link)?;
            Ok(ended)
        }
        Err(_) => Err("the desk is refused")?,
    }
}

const LATE: [Row; 3] = [
    ("GET /version", "", OK, JSON, "{\"version\":1}"),
    (
        IMPORT,
        "",
        "500 Internal Server Error",
        JSON,
        "{\"error\":\"front\",\"front\":0,\"shown\":1}",
    ),
    ("GET /version", "", OK, JSON, "{\"version\":1}"),
];

#[test]
fn a_late_front_is_refused(rt: HostRuntime) -> Result<(), Fail> {
    let alloc = rt.alloc();
    let exchanges = exchanges_of(alloc, &LATE)?;
    let stream = stream_of(alloc, &exchanges)?;
    let answer = answer_of(alloc, &exchanges, 3, 0)?;
    let case = Case::steady(&stream, 100, &answer, Ended::Done);
    let mut link = link_of(alloc, &case)?;
    let ended = serve_anew(&rt, alloc, bounds()?, &mut link)?;
    assert_eq!(rt; ended, Ended::Done);
    assert_eq!(rt; link.bytes(), answer.as_slice());
    Ok(())
}
