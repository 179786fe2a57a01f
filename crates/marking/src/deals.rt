ghost use Rattle.std.specs.Prelude.{◌≡◌};
ghost use Rattle.laws.specs.Agreed.{same_side};
ghost use Rattle.marking.specs.Deals.{alike, answers, how_many, pair_of, line_paired, all_paired};

use market::Side;
use tape::{Line, OrderLine, ReadingTape, lines_of};

// Which lines of a deal are asked for: those of a side, or those that agree with a line of it. An enum and no closure,
// since the definition of paired deals names both.
#[derive(Clone, Copy)]
enum Asked {
    Side(Side, u32),
    Like(OrderLine, u32),
}

fn is_same_side(a: Side, b: Side) -> bool
    ensures { result ≡ same_side a b }
{
    a == b
}

// In security, quantity and price.
fn is_alike(a: &OrderLine, b: &OrderLine) -> bool
    ensures { result ≡ alike a.now b.now }
{
    a.security == b.security && a.quantity == b.quantity && a.price == b.price
}

fn is_asked(asked: &Asked, line: &Line) -> bool
    ensures { result ≡ answers asked.now line.now }
{
    match line {
        Line::Deal(o, n) => match asked {
            Asked::Side(side, number) => *n == *number && is_same_side(*side, o.side),
            Asked::Like(other, number) => *n == *number && is_alike(other, o),
        },
        Line::Entry(_) | Line::Cancel(_, _) | Line::PaidIn(_) | Line::DrawnOut(_) => false,
    }
}

fn how_many<T: ReadingTape>(tape: &T, asked: Asked) -> usize
    ensures { result ≡ how_many (T.Tape.contents tape.now).lines asked }
{
    lines_of(tape).filter(|line| is_asked(&asked, line)).count()
}

fn is_pair(buying: usize, selling: usize, alike: usize) -> bool
    ensures { result ≡ pair_of buying selling alike }
{
    buying == 1 && selling == 1 && alike == 2
}

// A deal line is paired if its number stands in one buying and one selling line, and both agree with it.
fn is_paired<T: ReadingTape>(tape: &T, line: &Line) -> bool
    ensures { result ≡ line_paired (T.Tape.contents tape.now).lines line.now }
{
    match line {
        Line::Deal(o, n) => {
            let buying = how_many(tape, Asked::Side(Side::Buy, *n));
            let selling = how_many(tape, Asked::Side(Side::Sell, *n));
            let alike = how_many(tape, Asked::Like(*o, *n));
            is_pair(buying, selling, alike)
        }
        Line::Entry(_) | Line::Cancel(_, _) | Line::PaidIn(_) | Line::DrawnOut(_) => true,
    }
}

// Whether every deal number of the tape has its two lines, and they agree.
pub fn deals_paired<T: ReadingTape>(tape: &T) -> bool
    ensures { result ≡ all_paired (T.Tape.contents tape.now).lines (T.Tape.contents tape.now).lines }
{
    // A loop: of `all` over these lines the answer's value was not proved.
    for line in lines_of(tape) {
        if !is_paired(tape, &line) {
            return false;
        }
    }
    true
}
