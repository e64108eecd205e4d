// Calls and answers, as a person reads them.
use crate::{Answer, Call};
use std::fmt;

impl fmt::Display for Call {
    ghost use Rattle.std.specs.Prelude.{Some};
    ghost use Rattle.rules.specs.Texts.{call_text};

    ghost output = { λ call. Some (call_text call) };

    fn fmt<W: fmt::Write>(&self, f: &mut fmt::Formatter<W>) -> fmt::Result {
        match *self {
            Call::Join(peer) => write!(f, "join {peer}"),
            Call::Leave(peer) => write!(f, "leave {peer}"),
            Call::Insert(item, value) => write!(f, "insert {item} with {value}"),
            Call::Lookup(item, replica) => write!(f, "look up {item} by replica {replica}"),
            Call::Deliver(n) => write!(f, "deliver {n}"),
            Call::Collect(number) => write!(f, "collect {number}"),
        }
    }
}

impl fmt::Display for Answer {
    ghost use Rattle.rules.specs.Texts.{answer_text};

    ghost output = { answer_text };

    fn fmt<W: fmt::Write>(&self, f: &mut fmt::Formatter<W>) -> fmt::Result {
        match *self {
            Answer::Done => write!(f, "ok"),
            Answer::Inserted(stamp) => write!(f, "ok, stamp {stamp}"),
            Answer::Opened(number) => write!(f, "ok, question {number}"),
            Answer::Asked => write!(f, "asked"),
            Answer::Moved(count) => write!(f, "moved {count}"),
            Answer::Sent => write!(f, "sent"),
            Answer::Kept => write!(f, "kept"),
            Answer::Older => write!(f, "older"),
            Answer::Answered => write!(f, "answered"),
            Answer::Found { stamp, value } => write!(f, "found {value}, stamp {stamp}"),
            Answer::Nothing => write!(f, "none"),
            Answer::NotYet => write!(f, "not yet"),
            Answer::Withdrawn => write!(f, "withdrawn"),
            Answer::Refused(fault) => write!(f, "refused by {fault}"),
        }
    }
}
