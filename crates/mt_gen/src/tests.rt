//! Claims that a plain program computed.
use super::*;
use mt_cells::Bounds;
use mt_system::Claim;
use std::alloc::{AllocError, Global};
use std::test::Fail;

/// Claims of one seed: bounds, and for each claim a line with its name, order, columns, coordinates,
/// depth, strength and digits.
struct Wanted {
    seed: u64,
    bounds: (u64, u64),
    lines: [&'static str; 3],
}

static WANTED: [Wanted; 4] = [
    Wanted {
        seed: 7,
        bounds: (1, 1),
        lines: [
            "g-7-1 4 1 1 1 1 2",
            "g-7-2 9 1 1 1 1 5",
            "g-7-3 9 1 1 1 0 0",
        ],
    },
    Wanted {
        seed: 1,
        bounds: (16, 32),
        lines: [
            "g-1-1 4 8 1 4 8 10110212020331202010331332021030",
            "g-1-2 4 2 3 1 2 233210",
            "g-1-3 8 7 6 4 4 450077742247432433131753633655117211164006236010211332537643266272742326700354505600562342233554574671640651440037275355146763332435165217106062005525607537354131505435",
        ],
    },
    Wanted {
        seed: u64::MAX,
        bounds: (4, 8),
        lines: [
            "g-18446744073709551615-1 2 2 2 1 2 0110",
            "g-18446744073709551615-2 8 1 2 1 1 32",
            "g-18446744073709551615-3 5 1 2 1 1 11",
        ],
    },
    Wanted {
        seed: 0,
        bounds: (20, 48),
        lines: [
            "g-0-1 4 5 2 5 4 32103212331312003120130022310133313122030311121231",
            "g-0-2 7 6 4 5 5 636536311622011410413565540611416115360234023204425563323404146154532063450215025030550263435321222242366143253414602012",
            "g-0-3 5 1 5 1 1 23212",
        ],
    },
];

/// The line of a claim.
fn line_of(alloc: Global, claim: &Claim) -> Result<Vec<u8>, AllocError> {
    let system = &claim.system;
    let sizes = format!(in alloc;
        " {} {} {} {} {} ",
        system.order().number(),
        system.m(),
        system.s(),
        system.depth(),
        claim.k
    )?;
    let mut line = Vec::from_slice(alloc, claim.name.bytes())?;
    line.extend_from_slice(sizes.as_bytes())?;
    for digit in system.digits() {
        line.push(digit.wrapping_add(b'0'))?;
    }
    Ok(line)
}

#[test]
fn claims_of_four_seeds(rt: HostRuntime) -> Result<(), Fail> {
    let alloc = rt.alloc();
    for wanted in &WANTED {
        let bounds = Bounds::new(wanted.bounds.0, wanted.bounds.1).ok_or("none")?;
        let claims = generated(alloc, wanted.seed, 3, bounds)?;
        assert_eq!(rt; claims.len(), 3);
        for (claim, line) in claims.iter().zip(&wanted.lines) {
            assert_eq!(rt; line_of(alloc, claim)?.as_slice(), line.as_bytes());
        }
    }
    Ok(())
}

#[test]
fn the_1024th_claim(rt: HostRuntime) -> Result<(), Fail> {
    let alloc = rt.alloc();
    let bounds = Bounds::new(16, 32).ok_or("none")?;
    let claims = generated(alloc, 1, 1024, bounds)?;
    let last = claims.last().ok_or("none")?;
    assert_eq!(rt;
        line_of(alloc, last)?.as_slice(),
        "g-1-1024 7 7 1 2 7 11523146044102".as_bytes()
    );
    Ok(())
}
