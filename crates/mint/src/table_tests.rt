//! Tables and exports.
use crate::status::Status;
use crate::tests::{assert_answers, run};
use std::test::Fail;

#[test]
fn tables_as_they_are_shown(rt: HostRuntime) -> Result<(), Fail> {
    let cases: [(&[&str], &[u8]); 3] = [
        (
            &["2,3", "table", "2", "2"],
            b"s,net_k,net_t,oa_k,seq_t\n1,2,0,2,0\n2,2,0,2,0\n3,2,0,2,1\n",
        ),
        (
            &["1,1", "table", "9", "1"],
            b"s,net_k,net_t,oa_k,seq_t\n1,1,0,1,0\n",
        ),
        (
            &["4,4", "table", "2", "3"],
            b"s,net_k,net_t,oa_k,seq_t\n1,3,0,3,0\n2,3,0,3,0\n3,3,0,3,1\n4,2,1,3,3\n",
        ),
    ];
    assert_answers(&rt, rt.alloc(), Status::Ok, &cases)
}

#[test]
fn the_least_export(rt: HostRuntime) -> Result<(), Fail> {
    let cases: [(&[&str], &[u8]); 1] = [(
        &["1,1", "export"],
        b"kind,q,m,s,depth,k,since
ooa,2,1,1,1,1,0
seq,2,1,1,1,1,0
ooa,3,1,1,1,1,0
seq,3,1,1,1,1,0
ooa,4,1,1,1,1,0
seq,4,1,1,1,1,0
ooa,5,1,1,1,1,0
seq,5,1,1,1,1,0
ooa,7,1,1,1,1,0
seq,7,1,1,1,1,0
ooa,8,1,1,1,1,0
seq,8,1,1,1,1,0
ooa,9,1,1,1,1,0
seq,9,1,1,1,1,0
",
    )];
    assert_answers(&rt, rt.alloc(), Status::Ok, &cases)
}

// A header, and a line for each cell.
#[test]
fn an_export_has_all_cells(rt: HostRuntime) -> Result<(), Fail> {
    let answer = run(rt.alloc(), &["2,3", "export"], b"", 7)?;
    assert_eq!(rt; answer.0, Status::Ok);
    let lines = answer.1.iter().filter(|byte| **byte == b'\n').count();
    assert_eq!(rt; lines, 106);
    assert!(rt; answer.1.ends_with(b"seq,9,2,3,2,2,0\n"));
    Ok(())
}
