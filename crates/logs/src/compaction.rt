// Moving the live records of a log together.
ghost use Rattle.std.specs.Prelude.{◌≡◌, length};
ghost use Rattle.logs.specs.Logs.{squeezed};
ghost use Rattle.logs.specs.Reads.{lines_in, compacted};

use crate::lines::{WIDTH, line_of};
use crate::reads::records;
use crate::searches::lasts;
use copies::Coordinate;

// Moves the live records of other coordinates than `at` to the front, in order, writes zeros over the rest, and answers how many they are.
pub fn compact(bytes: &mut [u8], used: usize, at: Coordinate) -> usize
    ensures value { result ≡ length (squeezed at (lines_in bytes.old used)) }
    ensures after { bytes.new ≡ compacted bytes.old used at }
{
    let count = records(bytes, used).len();
    let mut moved = 0;
    // By place, since what moves is written over records that were read.
    for n in 0..count {
        let records = records(bytes, count);
        let line = line_of(&records[n]);
        if line.at != at && lasts(line, &records[n + 1..]) {
            bytes.copy_within(WIDTH * n..WIDTH * (n + 1), WIDTH * moved);
            moved += 1;
        }
    }
    bytes[WIDTH * moved..WIDTH * count].fill(0);
    moved
}
