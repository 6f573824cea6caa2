use crate::lines::RingLines;
use exchange::{Exchange, Line, Message, Refusal};
use std::process::Abort;
use std::test::Fail;

#[test]
fn first_in_first_out_round_the_ring(rt: HostRuntime) {
    let mut memory = [Message::Request; 18];
    let mut lines = RingLines::make(&mut memory, 3, 3);
    let probe = Message::Probe {
        bay: 2,
        search: 65535,
    };
    let notice = Message::Notice {
        waiter: 0,
        awaited: 255,
    };
    for message in [Message::Request, probe, Message::Answer] {
        assert_eq!(rt; lines.put(Line { from: 2, to: 0 }, message), Ok(()));
    }
    assert_eq!(rt; lines.put(Line { from: 0, to: 2 }, notice), Ok(()));
    assert_eq!(rt; lines.take(Line { from: 2, to: 0 }), Ok(Message::Request));
    assert_eq!(rt; lines.put(Line { from: 2, to: 0 }, notice), Ok(()));
    assert_eq!(rt; lines.count(Line { from: 2, to: 0 }), Ok(3));
    for message in [probe, Message::Answer, notice] {
        assert_eq!(rt; lines.take(Line { from: 2, to: 0 }), Ok(message));
    }
    assert_eq!(rt; lines.take(Line { from: 0, to: 2 }), Ok(notice));
}

#[test]
fn check_refuses_in_order(rt: HostRuntime) {
    let memory = [0u8; 6];
    assert_eq!(rt; RingLines::check(&memory, 1, 0), Err(Refusal::Bays));
    assert_eq!(rt; RingLines::check(&memory, 13, 0), Err(Refusal::Bays));
    assert_eq!(rt; RingLines::check(&memory, 258, 3), Err(Refusal::Bays));
    assert_eq!(rt; RingLines::check(&memory, 12, 0), Err(Refusal::Places));
    assert_eq!(rt; RingLines::check(&memory, 12, 1025), Err(Refusal::Places));
    assert_eq!(rt; RingLines::check(&memory, 12, 1024), Err(Refusal::Memory));
    assert_eq!(rt; RingLines::check(&memory, 2, 4), Err(Refusal::Memory));
    assert_eq!(rt; RingLines::check(&memory, 3, 1), Ok(()));
    assert_eq!(rt; RingLines::check(&memory, 2, 3), Ok(()));
}

#[test]
fn calls_refuse_in_order_on_lines_of_one_place(rt: HostRuntime) {
    let mut memory = [0u8; 2];
    let mut lines = RingLines::make(&mut memory, 2, 1);
    assert_eq!(rt; lines.put(Line { from: 2, to: 2 }, 1), Err(Refusal::NoBay));
    assert_eq!(rt;
        lines.put(Line { from: 0, to: 257 }, 1),
        Err(Refusal::NoBay)
    );
    assert_eq!(rt;
        lines.put(Line { from: 1, to: 1 }, 1),
        Err(Refusal::SameBay)
    );
    assert_eq!(rt; lines.put(Line { from: 0, to: 1 }, 1), Ok(()));
    assert_eq!(rt; lines.put(Line { from: 0, to: 1 }, 2), Err(Refusal::Full));
    assert_eq!(rt; lines.take(Line { from: 256, to: 1 }), Err(Refusal::NoBay));
    assert_eq!(rt; lines.take(Line { from: 0, to: 0 }), Err(Refusal::SameBay));
    assert_eq!(rt; lines.take(Line { from: 1, to: 0 }), Err(Refusal::Empty));
    assert_eq!(rt; lines.count(Line { from: 0, to: 2 }), Err(Refusal::NoBay));
    assert_eq!(rt; lines.count(Line { from: 0, to: 0 }), Err(Refusal::SameBay));
    assert_eq!(rt; lines.count(Line { from: 0, to: 1 }), Ok(1));
    assert_eq!(rt; lines.take(Line { from: 0, to: 1 }), Ok(1));
}

#[test]
fn refused_numbers_make_no_bays(rt: HostRuntime) {
    let mut memory = [0u8; 5];
    let mut lines = RingLines::make(&mut memory, 3, 1);
    assert_eq!(rt; lines.bays(), 0);
    assert_eq!(rt; lines.places(), 0);
    assert_eq!(rt; lines.put(Line { from: 0, to: 1 }, 1), Err(Refusal::NoBay));
}

// Puts on every line out of one bay a number of its own.
fn number_lines_from(rt: &impl Abort, lines: &mut RingLines<u16>, from: u16) {
    for to in 0..12 {
        if to != from {
            assert_eq!(rt;
                lines.put(Line { from, to }, from.wrapping_mul(12).wrapping_add(to)),
                Ok(())
            );
        }
    }
}

// Takes those numbers off again.
fn take_numbers_from(rt: &impl Abort, lines: &mut RingLines<u16>, from: u16) {
    for to in 0..12 {
        if to != from {
            assert_eq!(rt;
                lines.take(Line { from, to }),
                Ok(from.wrapping_mul(12).wrapping_add(to))
            );
        }
    }
}

#[test]
fn largest_lines_share_no_place(rt: HostRuntime) -> Result<(), Fail> {
    let mut memory = vec![in rt.alloc(); 0u16; 135168]?;
    assert_eq!(rt; RingLines::check(&memory, 12, 1024), Ok(()));
    let mut lines = RingLines::make(&mut memory, 12, 1024);
    assert_eq!(rt; lines.bays(), 12);
    assert_eq!(rt; lines.places(), 1024);
    for from in 0..12 {
        number_lines_from(&rt, &mut lines, from);
    }
    for _ in 0..1023 {
        assert_eq!(rt; lines.put(Line { from: 11, to: 10 }, 9999), Ok(()));
    }
    assert_eq!(rt;
        lines.put(Line { from: 11, to: 10 }, 9999),
        Err(Refusal::Full)
    );
    for from in 0..12 {
        take_numbers_from(&rt, &mut lines, from);
    }
    assert_eq!(rt; lines.count(Line { from: 11, to: 10 }), Ok(1023));
    Ok(())
}

#[test]
fn numbers_of_the_refusals(rt: HostRuntime) {
    assert_eq!(rt; Refusal::Bays.number(), 1);
    assert_eq!(rt; Refusal::Places.number(), 2);
    assert_eq!(rt; Refusal::Memory.number(), 3);
    assert_eq!(rt; Refusal::NoBay.number(), 4);
    assert_eq!(rt; Refusal::SameBay.number(), 5);
    assert_eq!(rt; Refusal::Full.number(), 6);
    assert_eq!(rt; Refusal::Empty.number(), 7);
}
