use byte_tape::{BlankBytes, ByteTape, TapeBytes};
use market::{CancelReason, OrderKind, Price, Quantity, Refusal, Side};
use std::alloc::Global;
use std::process::Abort;
use std::test::Fail;
use tape::{Line, OrderLine, PaymentLine, ReadingTape, RecordTape, Tape};

// The bytes of the cancelled example quote, field by field, as the layout has them.
const CANCELLED: [u8; 48] = [
    3, 2, 2, 19, // cancel, sell, firm quote, mismatch
    0, 1, 2, 3, // unit
    4, 5, 6, 7, // serial
    0, 6, 12, 6, // item
    0, 0, 0, 1, 2, 3, 4, 5, // account
    0, 0, 0, 0, 0, 0, 39, 16, // quantity
    0, 1, 134, 60, // price
    5, 245, 224, 254, // agreement number
    0, 0, 0, 0, // deal number
    0, 0, 133, 152, // time
];

// A firm quote with a different number in each field.
fn example_quote() -> OrderLine {
    OrderLine {
        side: Side::Sell,
        kind: OrderKind::FirmQuote,
        unit: 66_051,
        serial: 67_438_087,
        security: 396_294,
        account: 4_328_719_365,
        quantity: Quantity::new(10_000),
        price: Price::new(99_900),
        agreement: 99_999_998,
        time: 34_200,
    }
}

fn blank(heap: Global, bytes: usize) -> Result<ByteTape, Fail> {
    let buffer = vec![in heap; 7u8; bytes]?;
    match BlankBytes::check(buffer) {
        Ok(room) => Ok(ByteTape::new(room)),
        Err(_) => Err(Fail::new("no room for a trailer")),
    }
}

fn payment() -> Line {
    Line::PaidIn(PaymentLine {
        account: 1,
        item: 0,
        sum: 5,
        time: 0,
    })
}

#[test]
fn a_line_stands_where_the_layout_says(rt: HostRuntime) -> Result<(), Fail> {
    let mut tape = blank(rt.alloc(), 200)?;
    tape.begin(20_110_831)?;
    tape.append(Line::Cancel(example_quote(), CancelReason::Mismatch))?;
    let bytes = tape.bytes();
    assert!(rt; bytes.len() == 64);
    assert!(rt; &bytes[0..48] == &CANCELLED[..]);
    assert!(rt; &bytes[48..64] == &[1, 50, 221, 239, 0, 0, 0, 1, 0, 0, 0, 48, 0, 0, 0, 0][..]);
    let rest = tape.into_buffer();
    assert!(rt; rest.len() == 200);
    assert!(rt; rest[63] == 0 && rest[64] == 7 && rest[199] == 7);
    Ok(())
}

#[test]
fn a_tape_takes_as_many_lines_as_it_has_room_for(rt: HostRuntime) -> Result<(), Fail> {
    let mut none = blank(rt.alloc(), 63)?;
    assert!(rt; none.capacity() == 0);
    assert!(rt; none.append(payment()) == Err(Refusal::TapeFull));
    let mut one = blank(rt.alloc(), 64)?;
    assert!(rt; one.capacity() == 1);
    one.append(payment())?;
    assert!(rt; one.append(payment()) == Err(Refusal::TapeFull));
    assert!(rt; one.read(0) == Ok(payment()));
    assert!(rt; one.read(1) == Err(Refusal::NoSuchLine));
    Ok(())
}

#[test]
fn the_longest_tape_has_4096_lines(rt: HostRuntime) -> Result<(), Fail> {
    let mut tape = RecordTape::new(vec![in rt.alloc(); payment(); 5_000]?);
    assert!(rt; tape.capacity() == 4_096);
    for _ in 0..4_096 {
        tape.append(payment())?;
    }
    assert!(rt; tape.count() == 4_096);
    assert!(rt; tape.append(payment()) == Err(Refusal::TapeFull));
    assert!(rt; tape.read(4_095) == Ok(payment()));
    assert!(rt; tape.begin(100_000_000) == Err(Refusal::OutOfRange));
    assert!(rt; tape.count() == 4_096);
    Ok(())
}

// Damaged bytes are refused whole, or are the tape that they then are.
fn judge_damaged(
    rt: &impl Abort,
    heap: Global,
    bytes: &[u8],
    at: usize,
    mask: u8,
) -> Result<(), Fail> {
    let mut damaged = bytes.to_vec(heap)?;
    if at < damaged.len() {
        damaged[at] = damaged[at] ^ mask;
    }
    let copy = damaged.clone()?;
    match TapeBytes::check(damaged) {
        Ok(taken) => {
            assert!(rt; ByteTape::open(taken).bytes() == copy.as_slice());
            Ok(())
        },
        Err(not) => {
            assert!(rt; not.refusal == Refusal::NotATape);
            assert!(rt; not.bytes.as_slice() == copy.as_slice());
            Ok(())
        }
    }
}

#[test]
fn every_damaged_byte_is_judged(rt: HostRuntime) -> Result<(), Fail> {
    let mut tape = blank(rt.alloc(), 112)?;
    tape.begin(1)?;
    tape.append(Line::Deal(example_quote(), 1))?;
    tape.append(payment())?;
    for at in 0..tape.bytes().len() {
        judge_damaged(&rt, rt.alloc(), tape.bytes(), at, 1)?;
        judge_damaged(&rt, rt.alloc(), tape.bytes(), at, 128)?;
        judge_damaged(&rt, rt.alloc(), tape.bytes(), at, 255)?;
    }
    Ok(())
}

#[test]
fn fifteen_bytes_are_no_tape(rt: HostRuntime) -> Result<(), Fail> {
    match BlankBytes::check(vec![in rt.alloc(); 0u8; 15]?) {
        Ok(_) => Err(Fail::new("taken")),
        Err(not) => {
            assert!(rt; not.refusal == Refusal::NotATape);
            Ok(())
        },
    }
}
