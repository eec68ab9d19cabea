//! Niederreiter's matrices, as they are shown and under the rules for sequences.
use crate::status::Status;
use crate::tests::{assert_answers, run};
use mt_linear::Order;
use mt_niederreiter::matrices;
use mt_rules_basic::{seq_cut, seq_fewer, seq_to_net};
use mt_strength::{SeqVerdict, check_sequence};
use std::test::Fail;

#[test]
fn net_of_two_coordinates(rt: HostRuntime) -> Result<(), Fail> {
    let alloc = rt.alloc();
    let net = seq_to_net(alloc, &matrices(alloc, Order::Q2, 2, 2)?)?;
    assert_eq!(rt;
        net.digits(),
        [1u8, 0, 0, 1, 1, 1, 0, 1, 0, 1, 1, 0].as_slice()
    );
    Ok(())
}

#[test]
fn cut_and_fewer(rt: HostRuntime) -> Result<(), Fail> {
    let alloc = rt.alloc();
    let cut = seq_cut(alloc, &matrices(alloc, Order::Q2, 3, 3)?)?;
    assert_eq!(rt;
        cut.digits(),
        [1u8, 0, 0, 1, 1, 1, 0, 1, 0, 1, 1, 1].as_slice()
    );
    let fewer = seq_fewer(alloc, &cut)?;
    assert_eq!(rt; fewer.digits(), [1u8, 0, 0, 1, 1, 1, 0, 1].as_slice());
    Ok(())
}

#[test]
fn three_coordinates_hold(rt: HostRuntime) -> Result<(), Fail> {
    let alloc = rt.alloc();
    let system = matrices(alloc, Order::Q2, 3, 3)?;
    assert!(rt; matches!(check_sequence(alloc, &system, 2)?, SeqVerdict::Holds));
    Ok(())
}

#[test]
fn matrices_of_sequences_as_they_are_shown(rt: HostRuntime) -> Result<(), Fail> {
    let cases: [(&[&str], &[u8]); 2] = [
        (
            &["4,8", "niederreiter", "2", "3", "3"],
            b"seq 2 3 3 1 niederreiter\n100\n010\n001\n111\n010\n001\n011\n110\n000\n",
        ),
        (
            &["4,8", "niederreiter", "2", "1", "4"],
            b"seq 2 1 4 1 niederreiter\n1\n1\n0\n0\n",
        ),
    ];
    assert_answers(&rt, rt.alloc(), Status::Ok, &cases)
}

#[test]
fn matrices_of_sequences_hold(rt: HostRuntime) -> Result<(), Fail> {
    for q in ["2", "3", "4", "5", "7", "8", "9"] {
        let made = run(rt.alloc(), &["6,4", "niederreiter", q, "6", "4"], b"", 7)?;
        assert_eq!(rt; made.0, Status::Ok);
        let checked = run(rt.alloc(), &["6,4", "check"], &made.1, 4096)?;
        assert_eq!(rt; checked.0, Status::Ok);
        assert_eq!(rt; checked.1.as_slice(), b"holds niederreiter\n".as_slice());
    }
    Ok(())
}
