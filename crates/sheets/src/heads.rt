// Opening a sheet: its first three lines.
ghost use Rattle.std.specs.Prelude.{◌≡◌};
ghost use Rattle.lines.specs.Reading.{line_of};
ghost use Rattle.sheets.specs.Heads.{settings_of, sizes_of, read_at, TakesLine, ReadsHead};
ghost use Rattle.sheets.specs.Answers.{OpensSheet};

use crate::order_lines::OrderLines;
use answer_lines::{LEAST_MEMORY, write_answer};
use arithmetic::Settings;
use faults::Fault;
use lines::{Line, Lines};
use orders::{read_columns, read_names, read_numbers};
use rules::Answer;

// A line that is refused, and why.
#[derive(Clone, Copy)]
struct Refusal {
    line: u16,
    fault: Fault,
}

// What became of a sheet that was opened.
#[derive(Clone, Copy)]
pub enum Opening<'s> {
    // a ring of these settings can take these orders
    Ready {
        settings: Settings,
        orders: OrderLines<'s>,
    },
    // one of its first three lines is refused: the length of the answer line
    Closed(usize),
}

// The line as the settings of a ring.
fn read_settings(line: Line) -> Result<Settings, Fault>
    ensures { sizes_of result ≡ settings_of (line_of line.entry) }
{
    let (size, copies) = read_numbers(line)?;
    Settings::new(size, copies)
}

// The next line; one without fields where there is none.
fn take_line<'s>(lines: &mut Lines<'s>) -> Line<'s>
    ensures { TakesLine lines.old result lines.new }
{
    lines.next().unwrap_or_default()
}

// What was read of a line, or that the line is refused.
fn read_at<T: Drop>(line: u16, read: Result<T, Fault>) -> Result<T, Refusal>
    ensures { result ≡ read_at line read }
{
    read.map_err(|fault| Refusal { line, fault })
}

// The settings and the orders of a sheet, by its first three lines.
fn read_head<'s>(mut lines: Lines<'s>) -> Result<(Settings, OrderLines<'s>), Refusal>
    ensures { ReadsHead lines.entry result }
{
    let first = take_line(&mut lines);
    read_at(1, read_names(first))?;
    let second = take_line(&mut lines);
    let settings = read_at(2, read_settings(second))?;
    let third = take_line(&mut lines);
    let columns = read_at(3, read_columns(third))?;
    Ok((settings, OrderLines { lines, columns }))
}

// Reads the first three lines of a sheet. Where one of them is refused, its answer line is written to the memory; where the memory is too
// short for one, nothing is changed.
pub fn open<'s>(sheet: &'s [u8], memory: &mut [u8]) -> Result<Opening<'s>, Fault>
    ensures { OpensSheet sheet.now memory.old memory.new result }
{
    if memory.len() < LEAST_MEMORY {
        return Err(Fault::AnswerMemory);
    }
    match read_head(Lines::new(sheet)) {
        Ok((settings, orders)) => Ok(Opening::Ready { settings, orders }),
        Err(Refusal { line, fault }) => {
            let n = write_answer(memory, line, Answer::Refused(fault))?;
            Ok(Opening::Closed(n))
        }
    }
}
