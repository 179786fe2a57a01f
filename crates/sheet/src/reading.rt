ghost use Rattle.std.specs.Prelude.{◌≡◌};
ghost use Rattle.std.specs.Option.{option_map};
ghost use Rattle.std.specs.Iterator.{YieldsFirstBy, item_count};
ghost use Rattle.sheet_text.specs.Lines.{LinesOf};
ghost use Rattle.sheet.specs.Handing.{left, handed, then, first_of, rest_of, opening, opened};

use crate::fault::Fault;
use crate::line::Numbered;
use crate::parsing::read_line;
use crate::reader::Reader;
use market::Refusal;
use sheet_text::first_line;

// A longer sheet is refused whole.
const MOST_BYTES: usize = 65_536;

impl<'a> Reader<'a> {
    #[tactic(auto, using(crate::proofs::Counting::opens, crate::proofs::Counting::too_long, crate::proofs::Counting::few_at_start, crate::proofs::Counting::joined, crate::proofs::Counting::apart), unfolding(crate::specs::Handing::left))]
    pub fn new(sheet: &'a [u8]) -> Result<Reader<'a>, Fault>
        ensures answer { opened result ≡ opening sheet.now }
        ensures lines { LinesOf sheet.now }
    {
        if sheet.len() > MOST_BYTES {
            return Err(Refusal::SheetTooLong.into());
        }
        Ok(Reader {
            rest: sheet,
            place: 1,
        })
    }

    // Hands out the next line with its place, or `None` where all are handed out.
    #[tactic(auto, using(crate::proofs::Counting::step_within, crate::proofs::Counting::none_left, crate::proofs::Counting::one_fewer), unfolding(crate::specs::Handing::left))]
    pub fn next_line(&mut self) -> Option<Numbered<'a>>
        ensures answer { option_map handed result ≡ first_of (left self.old) }
        ensures after { left self.new ≡ rest_of (left self.old) }
        ensures step { left self.old ≡ then result (left self.new) }
    {
        let (line, rest) = first_line(self.rest)?;
        let place = self.place;
        self.rest = rest;
        self.place += 1;
        Some(Numbered {
            place,
            line: read_line(line),
        })
    }
}

impl<'a> Iterator for Reader<'a> {
    type Item = Numbered<'a>;

    ghost next_gives = { YieldsFirstBy handed left };

    ghost remaining = { item_count left };

    #[tactic(auto, using(crate::proofs::Counting::yielded))]
    fn next(&mut self) -> Option<Numbered<'a>> {
        self.next_line()
    }
}
