// Bytes cut at the first of a kind, and at commas.
ghost use Rattle.std.specs.Prelude.{◌≡◌};
ghost use Rattle.std.specs.List.{before_first, after_first};
ghost use Rattle.lines.specs.Texts.{is_byte, field_at};

// The bytes before the first `end`, and those after it.
pub(crate) fn cut_at(bytes: &[u8], end: u8) -> (&[u8], &[u8])
    ensures front { result.0.now ≡ before_first (is_byte end) bytes.now }
    ensures back { result.1.now ≡ after_first (is_byte end) bytes.now }
{
    match bytes.iter().position(|b| *b == end) {
        Some(i) => (&bytes[..i], &bytes[i + 1..]),
        None => (bytes, &[]),
    }
}

// The bytes in a column, counted from 0. (`split(..).nth` is twice as dear for each field that it passes.)
pub(crate) fn bytes_in(line: &[u8], column: u16) -> &[u8]
    ensures { result.now ≡ field_at line.now column }
{
    let mut rest = line;
    for _ in 0..column {
        rest = cut_at(rest, b',').1;
    }
    cut_at(rest, b',').0
}
