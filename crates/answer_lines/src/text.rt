// The text of an answer line.
ghost use Rattle.std.specs.Prelude.{◌≡◌, ◌+◌, ◌≤◌, ◌∷◌, ◌++◌, IfSome, length, decimal};
ghost use Rattle.arrayvec.specs.ArrayString.{array_string_len};
ghost use Rattle.answer_lines.specs.AnswerLines.{result_of, figure_of, value_of, shown, answer_line};

use crate::LEAST_MEMORY;
use arrayvec::ArrayString;
use rules::Answer;

type Text = ArrayString<LEAST_MEMORY>;

// The three fields after the line's number: the result, the figure and the value.
#[tactic(auto, using(crate::proofs::Widths::digits32, crate::proofs::Widths::digits64))]
fn fields_of(answer: Answer) -> (&'static str, Option<u64>, Option<u64>)
    ensures result { result.0.now ≡ result_of answer }
    ensures figure { result.1 ≡ figure_of answer }
    ensures value { result.2 ≡ value_of answer }
    ensures short { length result.0.now + length (shown result.1) + length (shown result.2) ≤ 37 }
{
    match answer {
        Answer::Done => ("ok", None, None),
        Answer::Inserted(stamp) => ("ok", Some(u64::from(stamp)), None),
        Answer::Opened(number) => ("ok", Some(u64::from(number)), None),
        Answer::Asked => ("asked", None, None),
        Answer::Moved(count) => ("moved", Some(count), None),
        Answer::Sent => ("sent", None, None),
        Answer::Kept => ("kept", None, None),
        Answer::Older => ("older", None, None),
        Answer::Answered => ("answered", None, None),
        Answer::Found { stamp, value } => ("found", Some(u64::from(stamp)), Some(value)),
        Answer::Nothing => ("none", None, None),
        Answer::NotYet => ("notyet", None, None),
        Answer::Withdrawn => ("withdrawn", None, None),
        Answer::Refused(fault) => (
            "refused",
            Some(u64::from(fault.number())),
            Some(fault.figure()),
        ),
    }
}

// The text of a number of one digit, as most numbers of an answer line are: it is there, where another has to be made and copied.
#[tactic(auto, using(std::proofs::lemmas::Fmt::decimal_digit))]
fn one_digit(n: u64) -> Option<&'static str>
    ensures { IfSome result (λ text. text.now ≡ decimal n) }
{
    match n {
        0 => Some("0"),
        1 => Some("1"),
        2 => Some("2"),
        3 => Some("3"),
        4 => Some("4"),
        5 => Some("5"),
        6 => Some("6"),
        7 => Some("7"),
        8 => Some("8"),
        9 => Some("9"),
        _ => None,
    }
}

fn push_number(text: &mut Text, n: u64)
    requires { array_string_len text.old + length (decimal n) ≤ 48 }
    ensures bytes { text.new.bytes ≡ text.old.bytes ++ decimal n }
    ensures len { array_string_len text.new ≡ array_string_len text.old + length (decimal n) }
{
    match one_digit(n) {
        Some(digit) => text.push_str(digit),
        None => text.push_str(itoa::Buffer::new().format(n)),
    }
}

// A comma and a number, or a comma and a dash.
fn push_optional(text: &mut Text, number: Option<u64>)
    requires { array_string_len text.old + length (44 ∷ shown number) ≤ 48 }
    ensures bytes { text.new.bytes ≡ text.old.bytes ++ 44 ∷ shown number }
    ensures len { array_string_len text.new ≡ array_string_len text.old + length (44 ∷ shown number) }
{
    match number {
        None => text.push_str(",-"),
        Some(n) => {
            text.push_str(",");
            push_number(text, n);
        }
    }
}

// Written piece by piece: `write!` promises its bytes only where it answers `Ok`, and does not say that it does where the text has room.
#[tactic(auto, using(crate::proofs::Widths::digits16))]
pub(crate) fn answer_line(line: u16, answer: Answer) -> Text
    ensures { result.bytes ≡ answer_line line answer }
{
    let (result, figure, value) = fields_of(answer);
    let mut text = Text::new();
    push_number(&mut text, u64::from(line));
    text.push_str(",");
    text.push_str(result);
    push_optional(&mut text, figure);
    push_optional(&mut text, value);
    text.push_str("\n");
    text
}
