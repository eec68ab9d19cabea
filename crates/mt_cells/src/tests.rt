//! Values from outside.
use super::*;
use mt_linear::Order;
use std::test::Fail;

#[test]
fn cells_and_their_numbers(rt: HostRuntime) -> Result<(), Fail> {
    let (m_over, s_over) = (MOST_COLUMNS as u64 + 1, MOST_COORDINATES as u64 + 1);
    for (m, s) in [
        (0u64, 1u64),
        (1, 0),
        (m_over, 1),
        (1, s_over),
        (256, 1),
        (1, 257),
    ] {
        assert!(rt; Bounds::new(m, s).is_none());
    }
    let least = Bounds::new(1, 1).ok_or("bounds")?;
    assert_eq!(rt; least.cells(), 14);
    let bounds = Bounds::new(MOST_COLUMNS as u64, MOST_COORDINATES as u64).ok_or("bounds")?;
    assert_eq!(rt; bounds.cells(), 77280);
    assert_eq!(rt; MOST_CELLS, 77280);
    assert!(rt; Cell::of_number(bounds, MOST_CELLS).is_none());
    for n in 0..MOST_CELLS {
        let cell = Cell::of_number(bounds, n).ok_or("no cell")?;
        assert_eq!(rt; cell.number(bounds), n);
        assert!(rt; cell.columns() <= bounds.m_max);
    }
    Ok(())
}

#[test]
fn answers_to_asks(rt: HostRuntime) -> Result<(), Fail> {
    let bounds = Bounds::new(4, 8).ok_or("bounds")?;
    let cell = |order, m, s, depth| Ok(Cell::Ooa { order, m, s, depth });
    let refused = |name, number| Err(Outside { name, number });
    // the kind, q, m, s and depth, and the answer
    let table = [
        (Kind::Net, 2u64, 4u64, 3u64, 0u64, cell(Order::Q2, 4, 3, 4)),
        (Kind::Net, 2, 5, 3, 0, refused(Part::M, 5)),
        (Kind::Net, 6, 2, 2, 0, refused(Part::Q, 6)),
        (Kind::Seq, 2, 4, 9, 0, refused(Part::S, 9)),
        (Kind::Ooa, 2, 3, 3, 4, refused(Part::Depth, 4)),
        (Kind::Ooa, 2, 3, 3, 0, refused(Part::Depth, 0)),
        (Kind::Ooa, 9, 3, 3, 2, cell(Order::Q9, 3, 3, 2)),
        (Kind::Oa, 2, 3, 4, 0, cell(Order::Q2, 3, 4, 1)),
        (
            Kind::Seq,
            5,
            4,
            8,
            0,
            Ok(Cell::Seq {
                order: Order::Q5,
                m: 4,
                s: 8,
            }),
        ),
        (Kind::Oa, 6, 9, 9, 0, refused(Part::Q, 6)),
        (Kind::Oa, 2, 0, 9, 0, refused(Part::M, 0)),
    ];
    for (kind, q, m, s, depth, answer) in table {
        let ask = Ask {
            kind,
            q,
            m,
            s,
            depth,
        };
        assert_eq!(rt; ask.cell(bounds), answer);
        assert_eq!(rt; Question::Value(ask).outside(bounds), answer.err());
    }
    Ok(())
}

#[test]
fn words(rt: HostRuntime) -> Result<(), Fail> {
    let outside = Outside {
        name: Part::Depth,
        number: 18,
    };
    assert_eq!(rt;
        outside.to_string(rt.alloc())?.as_str(),
        "outside: depth 18"
    );
    let order = Order::Q2;
    let array = Cell::Ooa {
        order,
        m: 3,
        s: 10,
        depth: 2,
    };
    assert_eq!(rt; array.to_string(rt.alloc())?.as_str(), "ooa 2 3 10 2");
    let sequence = Cell::Seq { order, m: 3, s: 10 };
    assert_eq!(rt; sequence.to_string(rt.alloc())?.as_str(), "seq 2 3 10");
    let rule = Rule::QuotientKeep;
    assert_eq!(rt; rule.to_string(rt.alloc())?.as_str(), "quotient_keep");
    let kind = Kind::of_word("ooa").ok_or("no kind")?;
    assert_eq!(rt; kind.to_string(rt.alloc())?.as_str(), "ooa");
    Ok(())
}
