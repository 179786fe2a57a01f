ghost use Rattle.std.specs.Prelude.{◌≡◌};
ghost use Rattle.practice.specs.Requests.{entry_of, cancel_of, payment_of};

use rules::{CancelOrder, Entry, Payment};
use sheet::{Cancel, Order};

// Requests carry the figures as the sheet has them: the floor judges them. Functions and no `From`, since sheets and
// rules know nothing of one another.

pub(crate) fn entry_of(order: Order) -> Entry
    ensures { result ≡ entry_of order }
{
    Entry {
        sort: order.sort,
        side: order.side,
        unit: order.unit,
        serial: order.serial,
        account: order.account,
        security: order.code,
        quantity: order.quantity,
        price: order.price,
        counterpart: order.counterpart,
        agreement: order.number,
        time: order.time,
    }
}

pub(crate) fn cancel_of(cancel: Cancel) -> CancelOrder
    ensures { result ≡ cancel_of cancel }
{
    CancelOrder {
        sort: cancel.sort,
        unit: cancel.unit,
        serial: cancel.serial,
        target: cancel.target,
        time: cancel.time,
    }
}

pub(crate) fn payment_of(account: u64, item: u64, amount: u64, time: u64) -> Payment
    ensures { result ≡ payment_of account item amount time }
{
    Payment {
        account,
        item,
        sum: amount,
        time,
    }
}
