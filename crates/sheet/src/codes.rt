ghost use Rattle.std.specs.Prelude.{◌≡◌};
ghost use Rattle.std.specs.Option.{option_map};
ghost use Rattle.sheet.specs.Codes.{one_letter, two_letters, ends, announced, figures_of, takes_contact};

use market::{Side, Sort};

// What a set-up line does.
#[derive(Clone, Copy)]
pub(crate) enum SetUpForm {
    OpenPair,
    OpenDay,
    CloseDay,
    Security,
    PayIn,
    DrawOut,
}

// What a line's code announces.
#[derive(Clone, Copy)]
pub(crate) enum Form {
    SetUp(SetUpForm),
    Order(Sort, Side),
    Cancel(Sort),
}

fn set_up_form(code: u8) -> Option<Form>
    ensures { result ≡ one_letter code }
{
    let set_up = match code {
        b'A' => SetUpForm::OpenPair,
        b'D' => SetUpForm::OpenDay,
        b'E' => SetUpForm::CloseDay,
        b'S' => SetUpForm::Security,
        b'+' => SetUpForm::PayIn,
        b'-' => SetUpForm::DrawOut,
        _ => return None,
    };
    Some(Form::SetUp(set_up))
}

fn order_form(first: u8, second: char) -> Option<Form>
    ensures { result ≡ two_letters first second }
{
    let sort = match first {
        b'H' => Sort::Intention,
        b'O' => Sort::FirmQuote,
        b'1' => Sort::DealOrder,
        _ => return None,
    };
    match second {
        'B' => Some(Form::Order(sort, Side::Buy)),
        'S' => Some(Form::Order(sort, Side::Sell)),
        'C' => Some(Form::Cancel(sort)),
        _ => None,
    }
}

// Whether a code that this text follows ends there.
fn ends_code(behind: &[u8]) -> bool
    ensures { result ≡ ends behind.now }
{
    matches!(behind, [] | [b' ', ..])
}

// The form that the code of a line announces, and the text behind the code.
pub(crate) fn split_code(line: &[u8]) -> Option<(Form, &[u8])>
    ensures { option_map (λ p. (p.0, p.1.now)) result ≡ announced line.now }
{
    match line {
        [code, fields @ ..] if ends_code(fields) => Some((set_up_form(*code)?, fields)),
        [first, second, fields @ ..] if ends_code(fields) => {
            Some((order_form(*first, char::from(*second))?, fields))
        }
        _ => None,
    }
}

impl Form {
    pub(crate) fn figures(self) -> usize
        ensures { result ≡ figures_of self }
    {
        match self {
            Form::SetUp(SetUpForm::OpenPair) => 2,
            Form::SetUp(SetUpForm::OpenDay) => 1,
            Form::SetUp(SetUpForm::CloseDay) => 0,
            Form::SetUp(_) | Form::Cancel(_) => 4,
            Form::Order(Sort::DealOrder, _) => 9,
            Form::Order(_, _) => 7,
        }
    }

    pub(crate) fn takes_contact(self) -> bool
        ensures { result ≡ takes_contact self }
    {
        matches!(self, Form::Order(Sort::Intention | Sort::FirmQuote, _))
    }
}
