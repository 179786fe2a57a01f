use ledger::{Ledger, PairLedger, anything_held, has_in_all, settle};
use line_ledger::{LineLedger, PairRecord};
use market::Refusal;
use std::alloc::{AllocError, Global};
use std::process::Abort;
use std::test::Fail;
use two_house::TwoHouse;

// The most that a total may be, and the most that one call of the floor moves.
const MOST: u64 = 1_000_000_000_000_000_000;

const LARGE: u64 = 1_000_000_000_000_000;

const LAST_ACCOUNT: u64 = 9_999_999_999;

const LAST_ITEM: u32 = 999_999;

fn empty(heap: Global, places: usize) -> Result<LineLedger, AllocError> {
    let table = vec![in heap; PairRecord::blank(); places]?;
    Ok(LineLedger::new(table))
}

// The number of a refusal, or 0.
fn number(r: Result<(), Refusal>) -> u8 {
    match r {
        Ok(()) => 0,
        Err(why) => why.number(),
    }
}

fn done(rt: &impl Abort, r: Result<(), Refusal>) {
    assert_eq!(rt; number(r), 0);
}

fn refused(rt: &impl Abort, r: Result<(), Refusal>, why: u8) {
    assert_eq!(rt; number(r), why);
}

fn has<L: Ledger>(rt: &impl Abort, ledger: &L, account: u64, item: u32, free: u64, held: u64) {
    assert_eq!(rt; ledger.free(account, item), free);
    assert_eq!(rt; ledger.held(account, item), held);
}

#[test]
fn largest_figures(rt: HostRuntime) -> Result<(), Fail> {
    let mut l = empty(rt.alloc(), 2)?;
    done(&rt, l.open_pair(1, LAST_ITEM));
    done(&rt, l.open_pair(LAST_ACCOUNT, LAST_ITEM));
    done(&rt, l.pay_in(1, LAST_ITEM, MOST));
    refused(&rt, l.pay_in(LAST_ACCOUNT, LAST_ITEM, 1), 34);
    done(&rt, l.hold(1, LAST_ITEM, LARGE));
    done(&rt, l.pass(1, LAST_ACCOUNT, LAST_ITEM, LARGE));
    has(&rt, &l, LAST_ACCOUNT, LAST_ITEM, LARGE, 0);
    has(&rt, &l, 1, LAST_ITEM, MOST - LARGE, 0);
    done(&rt, l.draw_out(LAST_ACCOUNT, LAST_ITEM, LARGE));
    done(&rt, l.pay_in(1, LAST_ITEM, LARGE));
    assert_eq!(rt; has_in_all(&l, 1, LAST_ITEM), MOST);
    Ok(())
}

#[test]
fn all_places(rt: HostRuntime) -> Result<(), Fail> {
    let mut l = empty(rt.alloc(), 1030)?;
    for account in 1..1025 {
        done(&rt, l.open_pair(account, 0));
    }
    assert_eq!(rt; l.room(), 0);
    refused(&rt, l.open_pair(0, 0), 11);
    refused(&rt, l.open_pair(1024, 0), 35);
    refused(&rt, l.open_pair(1025, 0), 36);
    done(&rt, l.pay_in(1024, 0, 7));
    has(&rt, &l, 1024, 0, 7, 0);
    has(&rt, &l, 1023, 0, 0, 0);
    Ok(())
}

#[test]
fn opening(rt: HostRuntime) -> Result<(), Fail> {
    let mut l = empty(rt.alloc(), 1)?;
    assert_eq!(rt; l.room(), 1);
    done(&rt, l.open_pair(5, 6));
    refused(&rt, l.open_pair(LAST_ACCOUNT + 1, 6), 11);
    refused(&rt, l.open_pair(5, LAST_ITEM + 1), 11);
    refused(&rt, l.open_pair(5, 6), 35);
    refused(&rt, l.open_pair(6, 6), 36);
    assert!(rt; l.is_open(5, 6) && !l.is_open(6, 6));
    has(&rt, &l, 6, 6, 0, 0);
    Ok(())
}

#[test]
fn refusals_in_order(rt: HostRuntime) -> Result<(), Fail> {
    let mut l = empty(rt.alloc(), 8)?;
    done(&rt, l.open_pair(1, 0));
    refused(&rt, l.hold(2, 0, u64::MAX), 31);
    refused(&rt, l.hold(1, 0, 1), 32);
    refused(&rt, l.release(2, 0, u64::MAX), 31);
    refused(&rt, l.release(1, 0, 1), 37);
    refused(&rt, l.pass(2, 1, 0, 0), 31);
    refused(&rt, l.pass(1, 2, 0, u64::MAX), 31);
    refused(&rt, l.pass(1, 1, 0, 1), 37);
    refused(&rt, l.pay_in(2, 0, u64::MAX), 31);
    refused(&rt, l.pay_in(1, 0, u64::MAX), 34);
    refused(&rt, l.pay_in(1, 0, MOST + 1), 34);
    refused(&rt, l.draw_out(2, 0, u64::MAX), 31);
    refused(&rt, l.draw_out(1, 0, 1), 32);
    has(&rt, &l, 1, 0, 0, 0);
    Ok(())
}

#[test]
fn nothing_and_oneself(rt: HostRuntime) -> Result<(), Fail> {
    let mut l = empty(rt.alloc(), 8)?;
    done(&rt, l.open_pair(1, 3));
    done(&rt, l.hold(1, 3, 0));
    done(&rt, l.release(1, 3, 0));
    done(&rt, l.pass(1, 1, 3, 0));
    done(&rt, l.pay_in(1, 3, 0));
    done(&rt, l.draw_out(1, 3, 0));
    assert!(rt; !anything_held(&l));
    done(&rt, l.pay_in(1, 3, 10));
    done(&rt, l.hold(1, 3, 10));
    assert!(rt; l.any_security_held() && !l.any_money_held());
    done(&rt, l.pass(1, 1, 3, 4));
    has(&rt, &l, 1, 3, 4, 6);
    done(&rt, l.release(1, 3, 6));
    has(&rt, &l, 1, 3, 10, 0);
    Ok(())
}

#[test]
fn two_houses(rt: HostRuntime) -> Result<(), Fail> {
    let mut bank = empty(rt.alloc(), 2)?;
    done(&rt, bank.open_pair(1, 0));
    done(&rt, bank.open_pair(2, 0));
    let mut depository = empty(rt.alloc(), 2)?;
    done(&rt, depository.open_pair(1, 7));
    done(&rt, depository.open_pair(1, 0));
    let mut house = TwoHouse::new(bank, depository);
    done(&rt, house.pay_in(1, 0, 100));
    done(&rt, house.pay_in(1, 7, 50));
    done(&rt, settle(&mut house, 1, 2, 0, 30));
    has(&rt, &house, 1, 0, 70, 0);
    has(&rt, &house, 2, 0, 30, 0);
    // The taker has no pair for the security: what was held for it stays held.
    refused(&rt, settle(&mut house, 1, 2, 7, 20), 31);
    has(&rt, &house, 1, 7, 30, 20);
    assert!(rt; house.any_security_held() && !house.any_money_held());
    Ok(())
}

#[test]
fn pairs_of_two_houses(rt: HostRuntime) -> Result<(), Fail> {
    let mut bank = empty(rt.alloc(), 1)?;
    done(&rt, bank.open_pair(1, 0));
    let mut depository = empty(rt.alloc(), 2)?;
    done(&rt, depository.open_pair(1, 7));
    done(&rt, depository.open_pair(1, 0));
    let mut house = TwoHouse::new(bank, depository);
    // Both houses are full, and the depository's own money does not count.
    refused(&rt, house.open_pair(3, 0), 36);
    refused(&rt, house.open_pair(1, 7), 35);
    Ok(())
}
