// A field of a sheet: which bytes it has, and where it stands.
ghost use Rattle.std.specs.Prelude.{◌≡◌, if◌then◌else◌, None};
ghost use Rattle.std.specs.Char.{is_ascii_digit};
ghost use Rattle.std.specs.List.{list_all};
ghost use Rattle.std.specs.Str.{bytes_eq};
ghost use Rattle.lines.specs.Tokens.{TokenOf, text_of, is_dash_token, is_number_token, number_of, is_digits};

// Both count from 1; a column is a field's number in its line.
#[derive(Clone, Copy, PartialEq, Eq, Debug)]
pub struct Place {
    pub line: u16,
    pub column: u16,
}

// Each case carries the text and its place: a token is a word, a number field or a dash, and each borrows the sheet's bytes.
#[derive(Clone, Copy)]
pub enum Token<'s> {
    // anything else, the empty field included
    Word { text: &'s [u8], at: Place },
    // digits and nothing else
    Number { text: &'s [u8], at: Place },
    // the one byte '-'
    Dash { text: &'s [u8], at: Place },
}

impl<'s> Token<'s> {
    // The token of a field with these bytes.
    pub fn of(text: &'s [u8], at: Place) -> Token<'s>
        ensures { TokenOf text.now at result }
    {
        match text {
            b"-" => Token::Dash { text, at },
            _ if is_digits(text) => Token::Number { text, at },
            _ => Token::Word { text, at },
        }
    }

    pub fn text(self) -> &'s [u8]
        ensures { result.now ≡ text_of self.entry }
    {
        match self {
            Token::Word { text, .. } | Token::Number { text, .. } | Token::Dash { text, .. } =>
                text,
        }
    }

    pub fn is_dash(self) -> bool
        ensures { result ≡ is_dash_token self.entry }
    {
        matches!(self, Token::Dash { .. })
    }

    // The number of a number field that can be read.
    pub fn number(self) -> Option<u64>
        ensures { result ≡ (if is_number_token self.entry then number_of (text_of self.entry) else None) }
    {
        match self {
            Token::Number { text, .. } => read_number(text),
            _ => None,
        }
    }

    // Whether it is this word.
    pub fn says(self, word: &str) -> bool
        ensures { result ≡ bytes_eq (text_of self.entry) word.now }
    {
        self.text() == word.as_bytes()
    }
}

fn all_digits(text: &[u8]) -> bool
    ensures { result ≡ list_all is_ascii_digit text.now }
{
    text.iter().all(|b| b.is_ascii_digit())
}

fn is_digits(text: &[u8]) -> bool
    ensures { result ≡ is_digits text.now }
{
    !text.is_empty() && all_digits(text)
}

// The number that a field writes: at most 20 digits, up to 2^64 - 1.
fn read_number(text: &[u8]) -> Option<u64>
    ensures { result ≡ number_of text.now }
{
    if text.len() > 20 || !is_digits(text) {
        return None;
    }
    str::from_utf8(text).ok()?.parse().ok()
}
