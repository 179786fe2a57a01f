ghost use Rattle.std.specs.Prelude.{◌≡◌};
ghost use Rattle.sheet.specs.Told.{line_says, meaning, order_of, cancel_of, set_up_of};

use crate::codes::{Form, SetUpForm};
use crate::fields::MOST_FIGURES;
use crate::line::{Cancel, Line, Order, SetUp};
use market::{Side, Sort};

// Intentions and firm quotes name no counterpart.
fn order_of(sort: Sort, side: Side, n: [u64; MOST_FIGURES]) -> Order
    ensures { result ≡ order_of sort side n }
{
    let [
        unit,
        serial,
        account,
        code,
        quantity,
        price,
        seventh,
        eighth,
        ninth,
    ] = n;
    let (counterpart, number, time) = match sort {
        Sort::DealOrder => (seventh, eighth, ninth),
        _ => (0, 0, seventh),
    };
    Order {
        sort,
        side,
        unit,
        serial,
        account,
        code,
        quantity,
        price,
        counterpart,
        number,
        time,
    }
}

fn cancel_of(sort: Sort, n: [u64; MOST_FIGURES]) -> Cancel
    ensures { result ≡ cancel_of sort n }
{
    let [unit, serial, target, time, ..] = n;
    Cancel {
        sort,
        unit,
        serial,
        target,
        time,
    }
}

fn set_up_of(form: SetUpForm, n: [u64; MOST_FIGURES]) -> SetUp
    ensures { result ≡ set_up_of form n }
{
    let [first, second, third, fourth, ..] = n;
    match form {
        SetUpForm::OpenPair => SetUp::OpenPair {
            account: first,
            item: second,
        },
        SetUpForm::OpenDay => SetUp::OpenDay { date: first },
        SetUpForm::CloseDay => SetUp::CloseDay,
        SetUpForm::Security => SetUp::Security {
            code: first,
            class: second,
            low: third,
            high: fourth,
        },
        SetUpForm::PayIn => SetUp::PayIn {
            account: first,
            item: second,
            amount: third,
            time: fourth,
        },
        SetUpForm::DrawOut => SetUp::DrawOut {
            account: first,
            item: second,
            amount: third,
            time: fourth,
        },
    }
}

// The line of a form with its first figures; a form uses as many as it has.
pub(crate) fn line_of<'a>(
    form: Form,
    n: [u64; MOST_FIGURES],
    fields: &'a [u8],
    contact: &'a [u8],
) -> Line<'a>
    ensures { line_says result ≡ meaning form n fields.now contact.now }
{
    match form {
        Form::SetUp(form) => Line::SetUp {
            act: set_up_of(form, n),
            fields,
        },
        Form::Order(sort, side) => Line::Order {
            order: order_of(sort, side, n),
            fields,
            contact,
        },
        Form::Cancel(sort) => Line::Cancel {
            cancel: cancel_of(sort, n),
            fields,
        },
    }
}
