// The records in some bytes.
ghost use Rattle.std.specs.Prelude.{◌≡◌, length, map};
ghost use Rattle.std.specs.Simd.{first_chunks};
ghost use Rattle.logs.specs.Lines.{line_in};
ghost use Rattle.logs.specs.Reads.{clipped, lines_in};

use crate::lines::WIDTH;

// The first `used` records, or all that there are.
pub fn records(bytes: &[u8], used: usize) -> &[[u8; WIDTH]]
    ensures bytes { result.now ≡ first_chunks 18 (clipped bytes.now used) bytes.now }
    ensures lines { map line_in result.now ≡ lines_in bytes.now used }
    ensures len { length result.now ≡ clipped bytes.now used }
{
    let (records, _) = bytes.as_chunks();
    &records[..used.min(records.len())]
}
