// A message's 22 bytes: kind, replica, to (2), from (2), start or place (2), end (2), number (4), value (8), high byte first.
// Fields that a kind does not name are 0.
#![tactic(auto)]

ghost use Rattle.std.specs.Prelude.{◌≡◌, ◌++◌, length, Ok, MatchOption, ◌≢◌};
ghost use Rattle.messages.specs.declared.Message.{Message as AnyMessage};
ghost use Rattle.words.specs.Words.{four, eight};
ghost use Rattle.layouts.specs.Layout.{fields, fields_of, message_of, read, encoded, decoded};

use faults::Fault;
use messages::Message;

// The length of a message's bytes.
pub const WIDTH: usize = 22;

// The kinds' numbers. An enum of them would need one more table, from the byte that is read.
const RETRIEVE_ITEMS: u8 = 1;

const REPLICATE: u8 = 2;

const ADD_ITEM: u8 = 3;

const GET_ITEM: u8 = 4;

// What the bytes hold, field by field.
#[derive(Clone, Copy, PartialEq, Eq, Default)]
struct Fields {
    kind: u8,
    replica: u8,
    to: u16,
    from: u16,
    start: u16,
    end: u16,
    number: u32,
    value: u64,
}

impl Fields {
    // Of a message about an arc.
    fn arc(kind: u8, to: u16, from: u16, start: u16, end: u16) -> Fields
        ensures { result ≡ fields kind 0 to from start end 0 0 }
    {
        Fields {
            kind,
            to,
            from,
            start,
            end,
            ..Fields::default()
        }
    }

    // Of a message about one place.
    fn at_place(kind: u8, replica: u8, to: u16, place: u16, number: u32, value: u64) -> Fields
        ensures { result ≡ fields kind replica to 0 place 0 number value }
    {
        Fields {
            kind,
            replica,
            to,
            start: place,
            number,
            value,
            ..Fields::default()
        }
    }
}

// What each kind writes into its fields.
impl From<Message> for Fields {
    ghost from_gives = { λ m f. f ≡ fields_of m };

    fn from(message: Message) -> Fields {
        match message {
            Message::RetrieveItems {
                to,
                from,
                start,
                end,
            } => Fields::arc(RETRIEVE_ITEMS, to, from, start, end),
            Message::Replicate {
                to,
                from,
                start,
                end,
            } => Fields::arc(REPLICATE, to, from, start, end),
            Message::AddItem {
                to,
                replica,
                place,
                stamp,
                value,
            } => Fields::at_place(ADD_ITEM, replica, to, place, stamp, value),
            Message::GetItem {
                to,
                replica,
                place,
                question,
            } => Fields::at_place(GET_ITEM, replica, to, place, question, 0),
        }
    }
}

// What each kind reads from its fields.
fn message_of(fields: Fields) -> Option<Message>
    ensures { result ≡ message_of fields }
{
    match fields.kind {
        RETRIEVE_ITEMS => Some(Message::RetrieveItems {
            to: fields.to,
            from: fields.from,
            start: fields.start,
            end: fields.end,
        }),
        REPLICATE => Some(Message::Replicate {
            to: fields.to,
            from: fields.from,
            start: fields.start,
            end: fields.end,
        }),
        ADD_ITEM => Some(Message::AddItem {
            to: fields.to,
            replica: fields.replica,
            place: fields.start,
            stamp: fields.number,
            value: fields.value,
        }),
        GET_ITEM => Some(Message::GetItem {
            to: fields.to,
            replica: fields.replica,
            place: fields.start,
            question: fields.number,
        }),
        _ => None,
    }
}

// The message of the fields, unless they hold something that its kind does not name.
impl TryFrom<Fields> for Message {
    type Error = Fault;

    ghost try_from_gives = { λ f r. r ≡ read f };

    fn try_from(fields: Fields) -> Result<Message, Fault> {
        let message = message_of(fields).ok_or(Fault::Bytes)?;
        if Fields::from(message) == fields {
            Ok(message)
        } else {
            Err(Fault::Bytes)
        }
    }
}

pub fn encode(message: Message) -> [u8; WIDTH]
    ensures value { result ≡ encoded message }
    ensures back { decoded result ≡ Ok message }
{
    let Fields {
        kind,
        replica,
        to,
        from,
        start,
        end,
        number,
        value,
    } = Fields::from(message);
    let [t1, t0] = to.to_be_bytes();
    let [f1, f0] = from.to_be_bytes();
    let [s1, s0] = start.to_be_bytes();
    let [e1, e0] = end.to_be_bytes();
    let [n3, n2, n1, n0] = number.to_be_bytes();
    let [v7, v6, v5, v4, v3, v2, v1, v0] = value.to_be_bytes();
    [
        kind, replica, t1, t0, f1, f0, s1, s0, e1, e0, n3, n2, n1, n0, v7, v6, v5, v4, v3, v2, v1,
        v0,
    ]
}

// The last twelve bytes: a number and a value.
fn numbers(bytes: &[u8]) -> Option<(u32, u64)>
    ensures { MatchOption result (length bytes.now ≢ 12) (λ pair. bytes.now ≡ four pair.0 ++ eight pair.1) }
{
    let (number, value) = bytes.split_first_chunk()?;
    let value = value.try_into().ok()?;
    Some((u32::from_be_bytes(*number), u64::from_be_bytes(value)))
}

pub fn decode(bytes: &[u8]) -> Result<Message, Fault>
    ensures value { result ≡ decoded bytes.now }
    ensures form { (m : AnyMessage) → result ≡ Ok m → bytes.now ≡ encoded m }
{
    let [kind, replica, t1, t0, f1, f0, s1, s0, e1, e0, rest @ ..] = bytes else {
        return Err(Fault::Bytes);
    };
    let (number, value) = numbers(rest).ok_or(Fault::Bytes)?;
    Message::try_from(Fields {
        kind: *kind,
        replica: *replica,
        to: u16::from_be_bytes([*t1, *t0]),
        from: u16::from_be_bytes([*f1, *f0]),
        start: u16::from_be_bytes([*s1, *s0]),
        end: u16::from_be_bytes([*e1, *e0]),
        number,
        value,
    })
}
