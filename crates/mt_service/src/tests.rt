//! Texts from outside, and the lines for them.
use crate::{check_text, read_claim};
use mt_cells::Bounds;
use mt_system::Form;
use std::test::Fail;

#[test]
fn a_claim_is_read(rt: HostRuntime) -> Result<(), Fail> {
    let bounds = Bounds::new(4, 8).ok_or("bounds")?;
    let Ok(claim) = read_claim(rt.alloc(), bounds, b"ooa 2 2 1 1 2 one\n10\n")? else {
        return Err("the text is refused")?;
    };
    assert_eq!(rt; claim.form, Form::Ooa);
    assert_eq!(rt; claim.name.bytes(), b"one".as_slice());
    assert_eq!(rt; claim.k, 2);
    assert_eq!(rt; claim.system.digits(), [1u8, 0].as_slice());
    Ok(())
}

#[test]
fn texts_are_checked(rt: HostRuntime) -> Result<(), Fail> {
    let (alloc, bounds) = (rt.alloc(), Bounds::new(4, 8).ok_or("bounds")?);
    let Ok(checked) = check_text(alloc, bounds, b"seq 2 2 1 0 whole\n10\n01\n")? else {
        return Err("the text is refused")?;
    };
    assert_eq!(rt; checked.claim().k, 2);
    let cases: [(&[u8], &[u8]); 5] = [
        (
            b"ooa 2 2 1 1 2 one\n10\nx\n",
            b"refused: line 3 is not blank\n",
        ),
        (b"ooa 2 5 1 1 0 m\n00000\n", b"refused: m 5 is over 4\n"),
        (
            b"ooa 3 2 2 1 2 same\n12\n12\n",
            b"refused: choice 1,1 depends with 2,1\n",
        ),
        (
            b"net 2 2 2 0 twin\n10\n01\n10\n01\n",
            b"refused: choice 1,1 depends with 1,1\n",
        ),
        (
            b"seq 2 2 2 0 twice\n10\n01\n10\n01\n",
            b"refused: part 2 choice 1,1 depends with 1,1\n",
        ),
    ];
    for (text, line) in cases {
        let Err(outcome) = check_text(alloc, bounds, text)? else {
            return Err("the text is not refused")?;
        };
        assert_eq!(rt; outcome.line(alloc)?.as_slice(), line);
    }
    Ok(())
}
