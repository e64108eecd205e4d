// A sheet, line by line.
ghost use Rattle.std.specs.Prelude.{◌≡◌, ◌+◌, ◌≤◌, [], length, take};
ghost use Rattle.std.specs.Iterator.{at_most};
ghost use Rattle.lines.specs.Texts.{lines_of, sheet_limit};

use crate::cuts::cut_at;
use crate::line::Line;

// How many bytes of a sheet are read.
pub const SHEET_LIMIT: usize = 16_384;

// The lines of a sheet that are left, and how many were read.
#[derive(Clone, Copy)]
pub struct Lines<'s> {
    pub(crate) number: u16,
    pub(crate) rest: &'s [u8],
    ghost within: { number + length rest.now ≤ 16384 },
}

impl<'s> Lines<'s> {
    ghost use Rattle.lines.specs.Reading.{left_of, bytes_left};

    pub fn new(sheet: &'s [u8]) -> Lines<'s>
        ensures rest { left_of result ≡ lines_of (take sheet_limit sheet.now) }
        ensures number { result.number ≡ 0 }
    {
        let end = SHEET_LIMIT.min(sheet.len());
        Lines {
            number: 0,
            rest: &sheet[..end],
        }
    }

    // How many lines were read.
    pub fn number(&self) -> u16
        ensures { result ≡ self.now.number }
    {
        self.number
    }

    // Ends the sheet: no line is left.
    pub fn close(&mut self)
        ensures rest { left_of self.new ≡ [] }
        ensures bytes { bytes_left self.new ≡ 0 }
        ensures number { self.new.number ≡ self.old.number }
    {
        self.rest = &[];
    }
}

impl<'s> Iterator for Lines<'s> {
    ghost use Rattle.lines.specs.Reading.{bytes_left, Advances};

    type Item = Line<'s>;

    ghost next_gives = { Advances };

    ghost remaining = { λ l. at_most (bytes_left l) };

    fn next(&mut self) -> Option<Line<'s>> {
        if self.rest.is_empty() {
            return None;
        }
        let (text, rest) = cut_at(self.rest, b'\n');
        let number = self.number + 1;
        *self = Lines { number, rest };
        Some(Line { text, number })
    }
}
