//! A desk without events.
use crate::{Desk, OpenDesk};
use mt_cells::{Bounds, Question, RuleSet};
use mt_keeper::{Keeper, Records, SteadyKeeper};
use std::alloc::Global;
use std::process::Abort;
use std::sync::Wait;
use std::test::Fail;

#[test]
fn an_empty_desk_answers(rt: HostRuntime) -> Result<(), Fail> {
    let (alloc, bounds) = (rt.alloc(), Bounds::new(2, 2).ok_or("bounds")?);
    let (keeper, feeds) = (
        SteadyKeeper::new(Records::new(Vec::new(alloc))),
        Vec::new(alloc),
    );
    match Desk::open(alloc, keeper, feeds, bounds, RuleSet::all(), 1) {
        Ok(OpenDesk { mut desk, .. }) => answers(&rt, alloc, &mut desk),
        Err(_) => Err("the desk is refused")?,
    }
}

fn answers<K: Keeper, R: Wait + Abort>(
    rt: &R,
    alloc: Global,
    desk: &mut Desk<K>,
) -> Result<(), Fail> {
    let cases: [(u64, u16, &[u8]); 2] = [
        (0, 200, b"{\"version\":0}"),
        (
            1,
            409,
            b"{\"at_least\":1,\"error\":\"not yet\",\"version\":0}",
        ),
    ];
    for (at_least, status, body) in cases {
        let looked = desk.look(rt, alloc, &Question::Version, at_least)?;
        assert_eq!(rt; looked.answer.status, status);
        assert_eq!(rt; looked.answer.body.as_slice(), body);
        assert_eq!(rt; looked.front.len(), 0);
    }
    Ok(())
}
