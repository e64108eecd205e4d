// The words of the ring's six calls: peers and their states, open questions, calls and answers.
#![tactic(auto)]

mod texts;

use faults::Fault;

// What a peer on the table is doing.
#[derive(Clone, Copy, PartialEq, Eq, Debug, Default)]
pub enum PeerState {
    // it takes no part in a handover
    #[default]
    Settled,
    // it is owed the copies that `from` has of the arc from `start` to `end`
    Filling { from: u16, start: u16, end: u16 },
    // it owes copies, and stays
    Giving,
    // it owes copies, and then goes; it is no member any more
    Leaving,
}

// An entry of the table.
#[derive(Clone, Copy, PartialEq, Eq, Debug, Default)]
pub struct Peer {
    pub id: u16,
    pub state: PeerState,
}

// What is known of an open question. A copy that was there and none are two cases, not an Option in one: each answer to a collect has a case of its
// own, with its numbers.
#[derive(Clone, Copy, PartialEq, Eq, Debug, Default)]
pub enum Reply {
    // its GETITEM waits
    #[default]
    Waiting,
    // the owner did not have the copies of the place yet
    TooEarly,
    // the copy that the owner had
    Held { stamp: u32, value: u64 },
    // the owner had none
    Absent,
}

// An open question.
#[derive(Clone, Copy, PartialEq, Eq, Debug, Default)]
pub struct Question {
    pub number: u32,
    pub reply: Reply,
}

// A call on a ring, with any numbers.
#[derive(Clone, Copy, PartialEq, Eq, Debug)]
pub enum Call {
    // a peer
    Join(u64),
    // a peer
    Leave(u64),
    // an item and its value
    Insert(u64, u64),
    // an item and a replica
    Lookup(u64, u64),
    // the position of a message
    Deliver(u64),
    // the number of a question
    Collect(u64),
}

// What a call is answered.
#[derive(Clone, Copy, PartialEq, Eq, Debug)]
pub enum Answer {
    // join, leave: ok
    Done,
    // insert: ok, with its stamp
    Inserted(u32),
    // lookup: ok, with the number of its question
    Opened(u32),
    // deliver: the copies of an arc were asked for
    Asked,
    // deliver: that many copies were handed over
    Moved(u64),
    // deliver: sent on to the owner
    Sent,
    // deliver: the copy was put
    Kept,
    // deliver: the copy there was newer
    Older,
    // deliver: a question has its answer
    Answered,
    // collect: the stamp and the value that were found
    Found { stamp: u32, value: u64 },
    // collect: there was no copy
    Nothing,
    // collect: the copies of the place were still to come
    NotYet,
    // collect: the question was still under way
    Withdrawn,
    // any call: refused, and nothing changed
    Refused(Fault),
}
