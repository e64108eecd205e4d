// Searching a log by the bytes of its records.
ghost use Rattle.std.specs.Prelude.{◌≡◌, map, reverse};
ghost use Rattle.std.specs.List.{find as first_of};
ghost use Rattle.copies.specs.Copies.{same, find as found, first_in_range};
ghost use Rattle.logs.specs.Lines.{line_in};
ghost use Rattle.logs.specs.Logs.{named, lasts, copies_of};

use crate::lines::{Line, WIDTH, line_of};
use copies::{Coordinate, CopyRecord, Entry};

// The last record of the coordinate.
#[tactic(auto, unfolding(copies::specs::Copies::same))]
fn last_of(records: &[[u8; WIDTH]], at: Coordinate) -> Option<Line>
    ensures { result ≡ first_of (λ x. same x.at at) (map line_in (reverse records.now)) }
{
    records.iter().rev().map(line_of).find(|line| line.at == at)
}

// What the coordinate maps to: the last record of it decides.
pub fn find_in(records: &[[u8; WIDTH]], at: Coordinate) -> Option<Entry>
    ensures { result ≡ found (copies_of (map line_in records.now)) at }
{
    last_of(records, at)?.says()
}

// Whether one of the records is of the coordinate.
#[tactic(auto, unfolding(copies::specs::Copies::same))]
fn is_named(records: &[[u8; WIDTH]], at: Coordinate) -> bool
    ensures { result ≡ named (map line_in records.now) at }
{
    records.iter().map(line_of).any(|line| line.at == at)
}

// Whether a record is live that is followed by these.
#[tactic(auto, unfolding(crate::specs::Logs::lasts))]
pub fn lasts(line: Line, later: &[[u8; WIDTH]]) -> bool
    ensures { result ≡ lasts line (map line_in later.now) }
{
    line.is_live() && !is_named(later, line.at)
}

// The first copy of `peer` with `low` ≤ place ≤ `high`.
pub fn next_in(records: &[[u8; WIDTH]], peer: u16, low: u16, high: u16) -> Option<CopyRecord>
    ensures { result ≡ first_in_range (copies_of (map line_in records.now)) peer low high }
{
    let mut best = None;
    // By place, since the later records say whether one lives.
    for n in (0..records.len()).rev() {
        let line = line_of(&records[n]);
        let copy = CopyRecord {
            at: line.at,
            held: line.held,
        };
        if copy.in_range(peer, low, high) && lasts(line, &records[n + 1..]) {
            best = copy.nearer(best);
        }
    }
    best
}
