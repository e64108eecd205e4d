// A line of a sheet, field by field.
ghost use Rattle.std.specs.Prelude.{◌≡◌, ◌-◌, ◌≤◌, length, []};
ghost use Rattle.lines.specs.Texts.{fields_of, field_at};
ghost use Rattle.lines.specs.Tokens.{TokenOf};

use crate::cuts::bytes_in;
use crate::tokens::{Place, Token};

// The bytes of a line and its number, which counts from 1.
#[derive(Clone, Copy)]
pub struct Line<'s> {
    pub(crate) text: &'s [u8],
    pub(crate) number: u16,
    ghost short: { length text.now ≤ 16384 },
}

// A line that is missing: no bytes, and no number.
impl<'s> Default for Line<'s> {
    ghost use Rattle.lines.specs.Reading.{line_of};

    ghost is_default = { λ l. (line_of l ≡ []) × (l.number ≡ 0) };

    fn default() -> Line<'s> {
        Line {
            text: &[],
            number: 0,
        }
    }
}

impl<'s> Line<'s> {
    ghost use Rattle.lines.specs.Reading.{line_of};

    pub fn number(self) -> u16
        ensures { result ≡ self.entry.number }
    {
        self.number
    }

    // How many fields it has: one more than its commas, which is one pass where `split` searches for each field anew.
    #[tactic(auto, using(crate::proofs::Cutting::fields_counted))]
    pub fn count(self) -> u16
        ensures { result ≡ length (fields_of (line_of self.entry)) }
    {
        if self.text.is_empty() {
            return 0;
        }
        let commas = self.text.iter().filter(|b| **b == b',');
        commas.count() as u16 + 1
    }

    // The field in a column, counted from 1.
    pub fn field(self, column: u16) -> Token<'s>
        ensures { TokenOf (field_at (line_of self.entry) (column - 1)) (record { line = self.entry.number; column = column }) result }
    {
        let text = bytes_in(self.text, column.saturating_sub(1));
        let at = Place {
            line: self.number,
            column,
        };
        Token::of(text, at)
    }
}
