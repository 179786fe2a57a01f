ghost use Rattle.std.specs.Prelude.{◌≡◌, ◌||◌, codes};
ghost use Rattle.sheet_text.specs.Figures.{figure as figure_of};
ghost use Rattle.std.specs.Option.{option_map};
ghost use Rattle.std.specs.Str.{bytes_eq};
ghost use Rattle.explaining.specs.Notes.{word, behind, number_note, note_by, note};

use crate::meaning::{meaning_of, refusal_numbered};
use sheet_text::{cut, figure};

const BLANK: u8 = b' ';

// What stands before the first blank.
fn word(text: &[u8]) -> &[u8]
    ensures { result.now ≡ word text.now }
{
    let (front, _) = cut(text, BLANK);
    front
}

// What stands behind it.
fn behind(text: &[u8]) -> &[u8]
    ensures { result.now ≡ behind text.now }
{
    let (_, rest) = cut(text, BLANK);
    match rest {
        [_, text @ ..] => text,
        [] => rest,
    }
}

// The words for a refusal's number as it is printed.
fn number_note(number: &[u8]) -> Option<&'static str>
    ensures { option_map (λ p. p.now) result ≡ number_note (figure_of number.now) }
{
    refusal_numbered(figure(number)?).map(meaning_of)
}

// Compared by ==: with a pattern of three byte strings the goal `returns-in-sheet` stayed open.
fn is_word(text: &[u8], word: &[u8]) -> bool
    ensures { result ≡ bytes_eq text.now word.now }
{
    text == word
}

fn is_layer(text: &[u8]) -> bool
    ensures { result ≡ (bytes_eq text.now (codes "sheet") || (bytes_eq text.now (codes "floor") || bytes_eq text.now (codes "ledger"))) }
{
    is_word(text, b"sheet") || is_word(text, b"floor") || is_word(text, b"ledger")
}

fn note_by(layer: &[u8], number: &[u8]) -> Option<&'static str>
    ensures { option_map (λ p. p.now) result ≡ note_by layer.now number.now }
{
    match layer {
        b"ok" => Some("accepted"),
        _ if is_layer(layer) => number_note(number),
        _ => None,
    }
}

// What a row of the sheet program says, in words.
pub(crate) fn note_of(row: &[u8]) -> Option<&'static str>
    ensures { option_map (λ p. p.now) result ≡ note row.now }
{
    let answer = behind(row);
    note_by(word(answer), word(behind(answer)))
}
