// Deliver: what a message does depends on the state of its addressee and on the message together.
ghost use Rattle.std.specs.Prelude.{◌≡◌, true, false, List, [], ◌∷◌, ◌++◌, length, if◌then◌else◌, Some, None};
ghost use Rattle.faults.specs.Checks.{first_fault};
ghost use Rattle.copies.specs.declared.Edit.TheVariants.{Put};
ghost use Rattle.copies.specs.Copies.{find as found, put as with_copy};
ghost use Rattle.holders.specs.Holders.{no_cell, no_place};
ghost use Rattle.holders.specs.Shelves.{Edited};
ghost use Rattle.messages.specs.declared.Message.TheVariants.{AddItem, GetItem};
ghost use Rattle.rules.specs.declared.Call.TheVariants.{Deliver};
ghost use Rattle.rules.specs.State.{addressee as addressed, state_of, owner_else, sending};
ghost use Rattle.rules.specs.Handover.{spot, entry as entered, newer};
ghost use Rattle.rules.specs.Refusals.{owns, cramped, deliver_checks};
ghost use Rattle.rules.specs.Rules.{did, released, handing_over, adding, still_to_come, shown, answering, delivered};
ghost use Rattle.rules.specs.Edits.{handover_edits, delivery_edits};
ghost use Rattle.tables.specs.Tables.{peers_of};
ghost use Rattle.ring.specs.Views.{viewed, sizes, sized, MessageAt, Leads, Acts, Performs};

use crate::ring::Ring;
use arithmetic::Settings;
use copies::{Coordinate, Entry};
use faults::Fault;
use handovers::{hand_over, is_newer};
use holders::{Holder, Post, Shelf, room_left};
use messages::Message;
use rules::{Answer, PeerState, Reply};
use tables::Table;

// Whom a message goes to.
fn addressee(message: Message) -> u16
    ensures { result ≡ addressed message }
{
    match message {
        Message::RetrieveItems { to, .. }
        | Message::Replicate { to, .. }
        | Message::AddItem { to, .. }
        | Message::GetItem { to, .. } => to,
    }
}

// Whether a peer in that state has still to be given the copies of a place.
fn still_to_come(settings: Settings, state: Option<PeerState>, place: u16) -> bool
    ensures { result ≡ still_to_come (sized settings) state place }
{
    match state {
        Some(PeerState::Filling { start, end, .. }) => settings.in_arc(start, end, place),
        _ => false,
    }
}

// What a lookup is shown of a place.
fn show(there: Option<Entry>) -> Reply
    ensures { result ≡ shown there }
{
    match there {
        None => Reply::Absent,
        Some(Entry { stamp, value }) => Reply::Held { stamp, value },
    }
}

// A giver that is done stays, and a leaving peer goes.
fn release(table: &mut Table, giver: u16)
    ensures { peers_of table.new ≡ released (state_of (peers_of table.old) giver) giver (peers_of table.old) }
{
    match table.state_of(giver) {
        Some(PeerState::Giving) => table.set_state(giver, PeerState::Settled),
        Some(PeerState::Leaving) => table.remove(giver),
        _ => {}
    }
}

// Puts a copy where there is a cell for it.
fn store<S: Shelf>(shelf: &mut S, at: Coordinate, entry: Entry)
    requires { no_cell (S.Shelf.meaning shelf.old) (S.Holder.room shelf.old) at ≡ false }
    ensures { Edited S.Shelf.own S.Holder (with_copy (S.Shelf.meaning shelf.old) at entry) (Put at entry ∷ []) shelf.old shelf.new }
{
    let _ = shelf.put(at, entry);
}

impl<'a, S: Shelf, P: Post<Message>> Ring<'a, S, P> {
    // The owner of a place; the addressee where there is no member.
    pub(crate) fn owner_or(&self, place: u16, to: u16) -> u16
        ensures { result ≡ owner_else (sizes self.now) (peers_of self.now.table) place to }
    {
        self.table.owner(self.settings, place).unwrap_or(to)
    }

    // Whether a copy would need a cell at its owner, and there is none.
    fn is_cramped(&self, message: Message) -> bool
        ensures { result ≡ cramped (sizes self.now) (viewed self.now) (Some message) }
    {
        let Message::AddItem {
            to: peer,
            replica,
            place,
            ..
        } = message
        else {
            return false;
        };
        let at = Coordinate {
            peer,
            replica,
            place,
        };
        let owned = self.owner_or(place, peer) == peer;
        owned && self.shelf.find(at).is_none() && room_left(&*self.shelf) == 0
    }

    // The message at a position, or why its delivery is refused.
    fn message_at(&self, n: u64) -> Result<Message, Fault>
        ensures { MessageAt (sizes self.now) (viewed self.now) n result }
    {
        let Some(message) = self.post.look(n as usize) else {
            return Err(Fault::NoMessage);
        };
        if self.is_cramped(message) {
            return Err(Fault::ShelfFull(room_left(&*self.shelf) as u64));
        }
        Ok(message)
    }

    // Puts a message in the post and answers.
    fn send(&mut self, message: Message, answer: Answer) -> Answer
        requires { no_place (P.Post.waiting self.old.post.now) (P.Holder.room self.old.post.now) ≡ false }
        ensures { Acts (did answer (sending message (viewed self.old))) [] self.old result self.new }
    {
        let _ = self.post.put(message);
        answer
    }

    // A copy is put unless the one there is newer.
    fn keep(&mut self, at: Coordinate, entry: Entry) -> Answer
        requires { no_cell (S.Shelf.meaning self.old.shelf.now) (S.Holder.room self.old.shelf.now) at ≡ false }
        ensures { Acts (adding (viewed self.old) at.peer at.replica at.place entry.stamp entry.value) (if newer (found (S.Shelf.meaning self.old.shelf.now) at) entry.stamp then [] else Put at entry ∷ []) self.old result self.new }
    {
        if is_newer(self.shelf.find(at), entry.stamp) {
            return Answer::Older;
        }
        store(&mut *self.shelf, at, entry);
        Answer::Kept
    }

    // A question is answered by what its addressee has, or is to be given still.
    fn reply(&mut self, state: Option<PeerState>, at: Coordinate, question: u32) -> Answer
        ensures { Acts (answering (sizes self.old) (viewed self.old) state at.peer at.replica at.place question) [] self.old result self.new }
    {
        let there = self.shelf.find(at);
        let reply = if still_to_come(self.settings, state, at.place) {
            Reply::TooEarly
        } else {
            show(there)
        };
        self.questions.set_reply(question, reply);
        Answer::Answered
    }

    // A handover: the filler is settled, and the giver is done.
    fn take_over(&mut self, filler: u16, giver: u16, start: u16, end: u16) -> Answer
        ensures { Acts (handing_over (sizes self.old) (viewed self.old) filler giver start end) (handover_edits self.old.settings.size filler giver start end (S.Shelf.meaning self.old.shelf.now)) self.old result self.new }
    {
        let moved = hand_over(&mut *self.shelf, self.settings, filler, giver, start, end);
        release(&mut self.table, giver);
        self.table.set_state(filler, PeerState::Settled);
        Answer::Moved(moved as u64)
    }

    // A copy that reaches a peer: the owner of its place keeps it, another sends it on.
    fn bring(&mut self, at: Coordinate, entry: Entry) -> Answer
        requires place { no_place (P.Post.waiting self.old.post.now) (P.Holder.room self.old.post.now) ≡ false }
        requires cell { cramped (sizes self.old) (viewed self.old) (Some (AddItem at.peer at.replica at.place entry.stamp entry.value)) ≡ false }
        ensures { Acts (delivered (sizes self.old) (viewed self.old) None (AddItem at.peer at.replica at.place entry.stamp entry.value)) (delivery_edits (sizes self.old) (viewed self.old) (Some (AddItem at.peer at.replica at.place entry.stamp entry.value))) self.old result self.new }
    {
        let owner = self.owner_or(at.place, at.peer);
        if owner == at.peer {
            return self.keep(at, entry);
        }
        let Coordinate { replica, place, .. } = at;
        let Entry { stamp, value } = entry;
        self.send(
            Message::AddItem {
                to: owner,
                replica,
                place,
                stamp,
                value,
            },
            Answer::Sent,
        )
    }

    // A question that reaches a peer: the owner of the place replies, another sends it on.
    fn question(&mut self, state: Option<PeerState>, at: Coordinate, question: u32) -> Answer
        requires { no_place (P.Post.waiting self.old.post.now) (P.Holder.room self.old.post.now) ≡ false }
        ensures { Acts (delivered (sizes self.old) (viewed self.old) state (GetItem at.peer at.replica at.place question)) [] self.old result self.new }
    {
        let owner = self.owner_or(at.place, at.peer);
        if at.peer == owner {
            return self.reply(state, at, question);
        }
        let Coordinate { replica, place, .. } = at;
        self.send(
            Message::GetItem {
                to: owner,
                replica,
                place,
                question,
            },
            Answer::Sent,
        )
    }

    // A message that was taken from the post reaches its addressee.
    fn receive(&mut self, message: Message) -> Answer
        requires { (no_place (P.Post.waiting self.old.post.now) (P.Holder.room self.old.post.now) ≡ false) × (cramped (sizes self.old) (viewed self.old) (Some message) ≡ false) }
        ensures { Acts (delivered (sizes self.old) (viewed self.old) (state_of (peers_of self.old.table) (addressed message)) message) (delivery_edits (sizes self.old) (viewed self.old) (Some message)) self.old result self.new }
    {
        match (self.table.state_of(addressee(message)), message) {
            (
                _,
                Message::RetrieveItems {
                    to,
                    from,
                    start,
                    end,
                },
            ) => {
                let reply = Message::Replicate {
                    to: from,
                    from: to,
                    start,
                    end,
                };
                self.send(reply, Answer::Asked)
            }
            (
                _,
                Message::Replicate {
                    to,
                    from,
                    start,
                    end,
                },
            ) => self.take_over(to, from, start, end),
            (
                _,
                Message::AddItem {
                    to: peer,
                    replica,
                    place,
                    stamp,
                    value,
                },
            ) => {
                self.bring(
                    Coordinate {
                        peer,
                        replica,
                        place,
                    },
                    Entry { stamp, value },
                )
            }
            (
                state,
                Message::GetItem {
                    to: peer,
                    replica,
                    place,
                    question,
                },
            ) => {
                self.question(
                    state,
                    Coordinate {
                        peer,
                        replica,
                        place,
                    },
                    question,
                )
            }
        }
    }

    // Delivers the message at a position, from 0.
    pub fn deliver(&mut self, n: u64) -> Answer
        ensures { Performs (Deliver n) self.old result self.new }
    {
        match self.message_at(n) {
            Err(fault) => Answer::Refused(fault),
            Ok(message) => {
                let _ = self.post.take(n as usize);
                self.receive(message)
            }
        }
    }
}
