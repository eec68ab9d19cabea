//! Small texts.
ghost use Rattle.std.specs.Prelude.{◌≡◌, ◌<◌, IsTrue};
ghost use Rattle.mt_import.specs.declared.headers.Header.{Header};
ghost use Rattle.mt_import.specs.Texts.{HasHeader};

use crate::{
    EventText, FormRefused, ImportText, Said, Wanted, in_event_grammar, in_grammar, print_import,
    print_withdraw, read_event, read_header, withdraws,
};
use mt_linear::Order;
use mt_system::{Claim, Form, Name, Note, System};
use std::alloc::Global;
use std::test::Fail;

#[test]
fn reads_headers(rt: HostRuntime) -> Result<(), Fail> {
    let text = b" net\t2 2 1  0 one \r\n1 0\n0\t1\r\n\n \t\n";
    let header = read_header(text).ok_or("header")?;
    assert!(rt; header.form == Form::Net);
    assert_eq!(rt; header.q, 2);
    assert_eq!(rt; header.depth, 2);
    assert_eq!(rt; header.k, 2);
    assert_eq!(rt; header.name.bytes(), b"one".as_slice());
    assert_eq!(rt; in_grammar(text), Ok(()));
    let header = read_header(b"ooa 9 999 998 997 0 a-b_c.0\nwhatever").ok_or("header")?;
    assert_eq!(rt; header.m, 999);
    assert_eq!(rt; header.s, 998);
    assert_eq!(rt; header.depth, 997);
    Ok(())
}

#[test]
fn refuses_the_first_line(rt: HostRuntime) -> Result<(), Fail> {
    let cases: [(&[u8], u32, Wanted); 9] = [
        (b"", 1, Wanted::Header),
        (b"ooa 6 2 1 1 1 six\n10\n", 1, Wanted::Header),
        (b"ooa 2 2 1 1 1 bad\n12\nx", 2, Wanted::Row),
        (b"ooa 2 2 1 2 2 cut\n10\n0", 3, Wanted::Row),
        (b"ooa 2 2 1 2 2 cut\n10\n", 3, Wanted::Row),
        (b"ooa 2 2 1 1 2 one\n10\n\nx\ny", 4, Wanted::Blank),
        (b"ooa 2 2 1 1 2 one\nsource a\n12\n", 3, Wanted::Row),
        (b"ooa 2 2 1 2 2 cut\nsource a\n10\n", 4, Wanted::Row),
        (
            b"ooa 2 2 1 1 2 one\nsource a\n10\n\nsource a\n",
            5,
            Wanted::Blank,
        ),
    ];
    for (text, line, wanted) in cases {
        assert_eq!(rt; in_grammar(text), Err(FormRefused::Line { line, wanted }));
    }
    Ok(())
}

// The note of an array of one row with this line 2. `None` where line 2 is refused as a source line.
fn note_of(alloc: Global, line: &[u8]) -> Result<Option<Note>, Fail> {
    let mut text = Vec::from_slice(alloc, b"ooa 2 2 1 1 2 one\n")?;
    text.extend_from_slice(line)?;
    text.extend_from_slice(b"\n10\n")?;
    let refused = FormRefused::Line {
        line: 2,
        wanted: Wanted::Source,
    };
    match ImportText::of(&text) {
        Ok(import) => {
            let header = import.header();
            if header.m > 255 || header.s > 255 || header.depth > 255 {
                return Err("sizes".into());
            }
            Ok(Some(import.claim(alloc)?.note))
        }
        Err(found) if found == refused => Ok(None),
        Err(_) => Err("refused elsewhere".into()),
    }
}

#[test]
fn reads_source_lines(rt: HostRuntime) -> Result<(), Fail> {
    let alloc = rt.alloc();
    let taken: [(&[u8], &[u8]); 5] = [
        (b"source by hand", b"by hand"),
        (b" \tsource\t by  hand \t", b"by  hand"),
        (b"source\tby hand\r", b"by hand"),
        (b"source 10", b"10"),
        (b"source source", b"source"),
    ];
    for (line, note) in taken {
        let found = note_of(alloc, line)?.ok_or("refused")?;
        assert_eq!(rt; found.bytes(), note);
    }
    let refused: [&[u8]; 6] = [
        b"source",
        b"\tsource \t",
        b"sourcex 1",
        b"source\ra",
        b"source a\tb",
        b"source \x7f",
    ];
    for line in refused {
        assert!(rt; note_of(alloc, line)?.is_none());
    }
    let mut line = Vec::from_slice(alloc, b"source ")?;
    line.extend_from_slice(&[b'a'; 200])?;
    assert!(rt; note_of(alloc, &line)?.is_some());
    line.push(b'a')?;
    assert!(rt; note_of(alloc, &line)?.is_none());
    Ok(())
}

// A system of one coordinate.
fn system_of(alloc: Global, order: Order, m: u8, depth: u8, digits: &[u8]) -> Result<System, Fail>
    requires columns { 0 < m }
    requires rows { 0 < depth }
{
    let Ok(system) = System::new(order, m, 1, depth, Vec::from_slice(alloc, digits)?) else {
        return Err("system".into());
    };
    Ok(system)
}

fn claim_of(form: Form, name: &[u8], k: u8, system: System) -> Result<Claim, Fail> {
    let name = Name::of(name).ok_or("name")?;
    Ok(Claim::new(form, name, k, system).ok_or("claim")?)
}

#[test]
fn prints_claims(rt: HostRuntime) -> Result<(), Fail> {
    let alloc = rt.alloc();
    let one = system_of(alloc, Order::Q2, 2, 1, &[1, 0])?;
    let text = print_import(alloc, &claim_of(Form::Ooa, b"one", 2, one)?)?;
    assert_eq!(rt; text.as_slice(), b"ooa 2 2 1 1 2 one\n10\n".as_slice());

    let one = system_of(alloc, Order::Q2, 2, 1, &[1, 0])?;
    let noted = claim_of(Form::Ooa, b"one", 2, one)?.noted(Note::of(b"by hand").ok_or("note")?);
    let text = print_import(alloc, &noted)?;
    assert_eq!(rt;
        text.as_slice(),
        b"ooa 2 2 1 1 2 one\nsource by hand\n10\n".as_slice()
    );

    let digits = [1u8, 0, 0, 1, 0, 0, 0, 1, 0, 0, 1, 0, 0, 0, 0, 0];
    let cap = system_of(alloc, Order::Q2, 4, 4, &digits)?;
    let text = print_import(alloc, &claim_of(Form::Net, b"cap", 3, cap)?)?;
    assert_eq!(rt;
        text.as_slice(),
        b"net 2 4 1 1 cap\n1001\n0001\n0010\n0000\n".as_slice()
    );

    let nine = system_of(alloc, Order::Q9, 2, 2, &[8, 5, 0, 1])?;
    let text = print_import(alloc, &claim_of(Form::Seq, b"a-b_c.0", 2, nine)?)?;
    assert_eq!(rt;
        text.as_slice(),
        b"seq 9 2 1 0 a-b_c.0\n85\n01\n".as_slice()
    );
    Ok(())
}

#[test]
fn reads_withdrawals(rt: HostRuntime) -> Result<(), Fail> {
    let alloc = rt.alloc();
    let name = Name::of(b"caps7").ok_or("name")?;
    let text = print_withdraw(alloc, name)?;
    assert_eq!(rt; text.as_slice(), b"withdraw caps7\n".as_slice());
    let taken: [&[u8]; 3] = [
        b"withdraw caps7\n",
        b" withdraw\t caps7 \r\n\r\n \t",
        b"withdraw caps7",
    ];
    for text in taken {
        assert!(rt; withdraws(text) == Some(name));
        assert_eq!(rt; in_event_grammar(text), Ok(()));
        let Ok(event) = EventText::of(text) else {
            return Err("refused".into());
        };
        let EventText::Withdraw(found) = event else {
            return Err("no withdrawal".into());
        };
        assert!(rt; found == name);
    }
    let none: [&[u8]; 3] = [b"ooa 2 2 1 1 2 one\n10\n", b"", b"withdrawn caps7\n"];
    for text in none {
        assert!(rt; withdraws(text).is_none());
    }
    Ok(())
}

#[test]
fn refuses_the_first_line_of_an_event(rt: HostRuntime) -> Result<(), Fail> {
    let cases: [(&[u8], u32, Wanted); 8] = [
        (b"withdraw\n", 1, Wanted::Header),
        (b"withdraw two names\n", 1, Wanted::Header),
        (b"withdraw Caps7\nx\n", 1, Wanted::Header),
        (b"withdrawn caps7\n", 1, Wanted::Header),
        (b"\nwithdraw caps7\n", 1, Wanted::Header),
        (b"withdraw caps7\n\nx\ny", 3, Wanted::Blank),
        (b"withdraw caps7\nwithdraw caps7\n", 2, Wanted::Blank),
        (b"ooa 2 2 1 1 1 bad\n12\n", 2, Wanted::Row),
    ];
    for (text, line, wanted) in cases {
        assert_eq!(rt;
            in_event_grammar(text),
            Err(FormRefused::Line { line, wanted })
        );
        assert!(rt; withdraws(text).is_none());
    }
    let refused = FormRefused::Line {
        line: 1,
        wanted: Wanted::Header,
    };
    assert_eq!(rt; in_grammar(b"withdraw caps7\nx\n"), Err(refused));
    Ok(())
}

// Whether the sizes of the header on line 1 are below 256, where there is one.
fn is_small(text: &[u8]) -> bool
    ensures { IsTrue result → (h : Header) → HasHeader text.now h → (h.m < 256) × (h.s < 256) × (h.depth < 256) }
{
    let Some(header) = read_header(text) else {
        return true;
    };
    if header.m > 255 || header.s > 255 || header.depth > 255 {
        return false;
    }
    true
}

// What the text of an event says.
fn event_of(alloc: Global, text: &[u8]) -> Result<Said, Fail> {
    if !is_small(text) {
        return Err("sizes".into());
    }
    match read_event(alloc, text) {
        Ok(said) => Ok(said),
        Err(_) => Err("refused".into()),
    }
}

#[test]
fn reads_events(rt: HostRuntime) -> Result<(), Fail> {
    let alloc = rt.alloc();
    let Said::Withdraw(name) = event_of(alloc, b"withdraw one\n")? else {
        return Err("no withdrawal".into());
    };
    assert_eq!(rt; name.bytes(), b"one".as_slice());
    let Said::Claim(claim) = event_of(alloc, b"ooa 2 2 1 1 2 one\n10\n")? else {
        return Err("no claim".into());
    };
    assert!(rt; claim.name == name);
    Ok(())
}
