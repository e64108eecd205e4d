// Why a call is refused. A refusal has a number, the layer that refuses, and a figure.
#![tactic(auto)]

ghost use Rattle.std.specs.Prelude.{◌≡◌};
ghost use Rattle.faults.specs.Faults.{number_of, layer_of, figure_of, layer_number};

use std::error::Error;
use std::fmt;

// The part of the library that refuses, by its number.
#[derive(Clone, Copy, PartialEq, Eq, Debug)]
pub enum Layer {
    Sheet = 1,
    Ring = 2,
    Shelf = 3,
    Post = 4,
}

// Every refusal there is, in the order of its number. A case holds its figure where it has one.
#[derive(Clone, Copy, PartialEq, Eq, Debug)]
pub enum Fault {
    // the memory for an answer line is too short
    AnswerMemory,
    // a sheet line has other fields or names than it should: how many it has
    WrongFields(u64),
    // a sheet field cannot be read: its column
    Unreadable(u64),
    // the size is out of range
    Size,
    // the copies are out of range, or do not divide the size
    Copies,
    // a peer, an item or a place is not below the size
    Identifier,
    // the replica is 0 or above the copies
    Replica,
    // the bytes are no message, or no list of members
    Bytes,
    // the peer is on the table already
    OnTable,
    // the table is full
    TableFull,
    // the peer is no member
    NotMember,
    // there is no member
    NoMember,
    // the peer is the only member
    OnlyMember,
    // the peer or its successor is busy with a handover
    NotSettled,
    // every stamp, or every question number, was given
    NumbersSpent,
    // as many questions are open as may be
    QuestionsOpen,
    // the shelf has too few cells left: how many
    ShelfFull(u64),
    // the post has too few places free: how many
    PostFull(u64),
    // no message waits at that position
    NoMessage,
    // no open question has that number
    NoQuestion,
}

impl Layer {
    pub fn number(self) -> u8
        ensures { result ≡ layer_number self }
    {
        self as u8
    }
}

impl Fault {
    // (a match, since cases that hold a figure cannot be given numbers of their own)
    pub fn number(self) -> u8
        ensures { result ≡ number_of self }
    {
        match self {
            Fault::AnswerMemory => 1,
            Fault::WrongFields(_) => 2,
            Fault::Unreadable(_) => 3,
            Fault::Size => 4,
            Fault::Copies => 5,
            Fault::Identifier => 6,
            Fault::Replica => 7,
            Fault::Bytes => 8,
            Fault::OnTable => 9,
            Fault::TableFull => 10,
            Fault::NotMember => 11,
            Fault::NoMember => 12,
            Fault::OnlyMember => 13,
            Fault::NotSettled => 14,
            Fault::NumbersSpent => 15,
            Fault::QuestionsOpen => 16,
            Fault::ShelfFull(_) => 17,
            Fault::PostFull(_) => 18,
            Fault::NoMessage => 19,
            Fault::NoQuestion => 20,
        }
    }

    pub fn layer(self) -> Layer
        ensures { result ≡ layer_of self }
    {
        match self {
            Fault::AnswerMemory | Fault::WrongFields(_) | Fault::Unreadable(_) => Layer::Sheet,
            Fault::ShelfFull(_) => Layer::Shelf,
            Fault::PostFull(_) => Layer::Post,
            _ => Layer::Ring,
        }
    }

    // The number that goes with the refusal, 0 for a refusal that has none.
    pub fn figure(self) -> u64
        ensures { result ≡ figure_of self }
    {
        match self {
            Fault::WrongFields(found) => found,
            Fault::Unreadable(column) => column,
            Fault::ShelfFull(left) => left,
            Fault::PostFull(free) => free,
            _ => 0,
        }
    }

    // What the refusal says to a person: one table, which a derive would spread over the cases.
    fn words(self) -> &'static str {
        match self {
            Fault::AnswerMemory => "the memory for an answer line is too short",
            Fault::WrongFields(_) => "a line has other fields or names than it should",
            Fault::Unreadable(_) => "a field cannot be read",
            Fault::Size => "the size is out of range",
            Fault::Copies => "the copies are out of range or do not divide the size",
            Fault::Identifier => "a peer, an item or a place is not below the size",
            Fault::Replica => "the replica is 0 or above the copies",
            Fault::Bytes => "the bytes are no message or no list of members",
            Fault::OnTable => "the peer is on the table already",
            Fault::TableFull => "the table is full",
            Fault::NotMember => "the peer is no member",
            Fault::NoMember => "there is no member",
            Fault::OnlyMember => "the peer is the only member",
            Fault::NotSettled => "the peer or its successor is not settled",
            Fault::NumbersSpent => "all numbers of this kind were given",
            Fault::QuestionsOpen => "too many questions are open",
            Fault::ShelfFull(_) => "the shelf has too few cells left",
            Fault::PostFull(_) => "the post has too few places free",
            Fault::NoMessage => "no message has that position",
            Fault::NoQuestion => "no open question has that number",
        }
    }
}

impl Error for Fault {}

impl fmt::Display for Fault {
    fn fmt<W: fmt::Write>(&self, f: &mut fmt::Formatter<W>) -> fmt::Result {
        let number = self.number();
        let words = self.words();
        write!(f, "{number}: {words}")
    }
}
