use crate::count_lines;
use sheet::{Line, Reader, SetUp, read_line};
use std::test::Fail;

// The refusal's number and field of a line, or nothing.
fn fault(line: &[u8]) -> Option<(u8, usize)> {
    let fault = read_line(line).err()?;
    Some((fault.refusal.number(), fault.field))
}

#[test]
fn good_lines(rt: HostRuntime) {
    assert_eq!(rt; fault(b"A 1 0"), None);
    assert_eq!(rt; fault(b"D 20110831"), None);
    assert_eq!(rt; fault(b"E"), None);
    assert_eq!(rt; fault(b"S 112001 1 50000 200000"), None);
    assert_eq!(rt; fault(b"+ 7 0 1000 40000"), None);
    assert_eq!(rt; fault(b"- 007 0 1000 40000"), None);
    assert_eq!(rt; fault(b"HB 1 2 3 4 5 6 7"), None);
    assert_eq!(rt; fault(b"HS 1 2 3 4 5 6 7 "), None);
    assert_eq!(rt; fault(b"OB 1 2 3 4 5 6 7 Room 5, ask for Li"), None);
    assert_eq!(rt; fault(b"OS 1 2 3 4 5 6 7  8"), None);
    assert_eq!(rt; fault(b"1B 1 2 3 4 5 6 7 8 9"), None);
    assert_eq!(rt; fault(b"1C 1 2 3 4"), None);
    assert_eq!(rt; fault(b"D 999999999999999999"), None);
}

#[test]
fn bad_codes(rt: HostRuntime) {
    assert_eq!(rt; fault(b""), Some((1, 0)));
    assert_eq!(rt; fault(b" "), Some((2, 0)));
    assert_eq!(rt; fault(b" A 1 0"), Some((2, 0)));
    assert_eq!(rt; fault(b"X 1"), Some((2, 0)));
    assert_eq!(rt; fault(b"HX 1 2 3 4"), Some((2, 0)));
    assert_eq!(rt; fault(b"BH 1 2 3 4"), Some((2, 0)));
    assert_eq!(rt; fault(b"EE"), Some((2, 0)));
    assert_eq!(rt; fault(b"HBS 1"), Some((2, 0)));
    assert_eq!(rt; fault(b"E\t"), Some((2, 0)));
}

#[test]
fn bad_fields(rt: HostRuntime) {
    assert_eq!(rt; fault(b"D"), Some((3, 2)));
    assert_eq!(rt; fault(b"D "), Some((4, 2)));
    assert_eq!(rt; fault(b"D 1 "), Some((3, 3)));
    assert_eq!(rt; fault(b"E "), Some((3, 2)));
    assert_eq!(rt; fault(b"A 1  0"), Some((4, 3)));
    assert_eq!(rt; fault(b"A x"), Some((4, 2)));
    assert_eq!(rt; fault(b"A 1 +2"), Some((4, 3)));
    assert_eq!(rt; fault(b"D 1234567890123456789"), Some((4, 2)));
    assert_eq!(rt; fault(b"HB 1 2 3 4 5 6"), Some((3, 8)));
    assert_eq!(rt; fault(b"1S 1 2 3 4 5 6 7 8 9 10"), Some((3, 11)));
    assert_eq!(rt; fault(b"1C 12a 12a 5000 1 5"), Some((4, 2)));
}

#[test]
fn an_order(rt: HostRuntime) -> Result<(), Fail> {
    let line = read_line(b"OS 1 2 3 4 5 6 007 Li 5").ok().ok_or("refused")?;
    let Line::Order {
        order,
        fields,
        contact,
    } = line
    else {
        return Err(Fail::new("no order"));
    };
    assert_eq!(rt; (order.sort.number(), order.side.number()), (2, 2));
    assert!(rt; order.unit == 1 && order.serial == 2 && order.account == 3 && order.code == 4);
    assert!(rt; order.quantity == 5 && order.price == 6 && order.time == 7);
    assert!(rt; order.counterpart == 0 && order.number == 0);
    assert_eq!(rt; fields, b" 1 2 3 4 5 6 007 Li 5".as_slice());
    assert_eq!(rt; contact, b"Li 5".as_slice());
    Ok(())
}

#[test]
fn a_deal_order(rt: HostRuntime) -> Result<(), Fail> {
    let Ok(Line::Order { order, .. }) = read_line(b"1B 11 12 13 14 15 16 17 18 19") else {
        return Err(Fail::new("no order"));
    };
    assert_eq!(rt; (order.sort.number(), order.side.number()), (3, 1));
    assert!(rt; order.counterpart == 17 && order.number == 18 && order.time == 19);
    Ok(())
}

#[test]
fn a_short_sheet(rt: HostRuntime) -> Result<(), Fail> {
    let mut reader = Reader::new(b"D 5\n\nE").ok().ok_or("refused")?;
    let first = reader.next_line().ok_or("no line")?;
    assert_eq!(rt; first.place, 1);
    let Line::SetUp {
        act: SetUp::OpenDay { date },
        ..
    } = first.line.ok().ok_or("refused")?
    else {
        return Err(Fail::new("no day"));
    };
    assert_eq!(rt; date, 5);
    let second = reader.next_line().ok_or("no line")?;
    assert_eq!(rt; second.place, 2);
    let third = reader.next_line().ok_or("no line")?;
    assert_eq!(rt; third.place, 3);
    assert!(rt; reader.next_line().is_none());
    Ok(())
}

#[test]
fn long_sheets(rt: HostRuntime) -> Result<(), Fail> {
    let most = vec![in rt.alloc(); 10u8; 65_536]?;
    assert_eq!(rt; count_lines(&most).ok(), Some(65_536));
    let over = vec![in rt.alloc(); 10u8; 65_537]?;
    let refused = count_lines(&over).err().ok_or("not refused")?;
    assert_eq!(rt; (refused.refusal.number(), refused.field), (6, 0));
    Ok(())
}
