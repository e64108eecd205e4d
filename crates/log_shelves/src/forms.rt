// How a record of a log stands in bytes.
ghost use Rattle.std.proofs.Common.{lit<};
ghost use Rattle.logs.specs.Lines.{line_form};

use logs::{Line, WIDTH, line_bytes};
use rows::Layout;

pub struct LineForm;

impl Layout<WIDTH> for LineForm {
    type Item = Line;

    ghost form = { line_form };

    fn bytes_of(item: Line) -> [u8; WIDTH] {
        line_bytes(item)
    }

    ghost some = { lit< tt };
}
