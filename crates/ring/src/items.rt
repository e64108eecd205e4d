// Insert, lookup and collect.
ghost use Rattle.std.specs.Prelude.{◌≡◌, ◌+◌, ◌-◌, ◌<◌, ◌≤◌, List, [], ◌∷◌, ◌++◌, length, Some, None};
ghost use Rattle.faults.specs.Checks.{answered, first_fault};
ghost use Rattle.rules.specs.declared.Call.TheVariants.{Insert, Lookup, Collect};
ghost use Rattle.rules.specs.State.{Settings as sizing, owner_else};
ghost use Rattle.rules.specs.Refusals.{cells_left, insert_checks, lookup_checks};
ghost use Rattle.rules.specs.Rules.{additions, inserted, opened};
ghost use Rattle.tables.specs.Tables.{peers_of};
ghost use Rattle.ring.specs.Views.{viewed, sizes, sized, Leads, Performs};

use crate::ring::Ring;
use arithmetic::Settings;
use faults::Fault;
use holders::{Holder, Post, Shelf, room_left};
use messages::Message;
use post_scans::{adds_waiting, withdraw};
use rules::{Answer, Question, Reply};
use tables::Table;

// How many stamps, and how many question numbers, are given.
const MOST_NUMBERS: u32 = 1_000_000;

// Sends the copies of an insert, each to the owner of its place. The post comes apart from the ring, so that the loop changes nothing else.
fn send_additions<P: Post<Message>>(
    post: &mut P,
    table: &Table,
    settings: Settings,
    item: u16,
    stamp: u32,
    value: u64,
)
    requires { length (P.Post.waiting post.old) + settings.copies ≤ P.Holder.room post.old }
    ensures after { P.Post.waiting post.new ≡ P.Post.waiting post.old ++ additions (sized settings) (peers_of table.now) item stamp value settings.copies }
    ensures same { P.Holder.frame post.new ≡ P.Holder.frame post.old }
{
    let copies = settings.copies();
    for replica in 1..=copies {
        let place = settings.place_of(item, replica);
        let to = table.owner(settings, place).unwrap_or(place);
        let _ = post.put(Message::AddItem {
            to,
            replica,
            place,
            stamp,
            value,
        });
    }
}

impl<'a, S: Shelf, P: Post<Message>> Ring<'a, S, P> {
    // The cells that are neither kept nor waited for.
    fn cells_left(&self) -> usize
        ensures { result ≡ cells_left (sizes self.now) (viewed self.now) }
    {
        room_left(&*self.shelf).saturating_sub(adds_waiting(&*self.post))
    }

    // A number as an item that may be inserted.
    #[tactic(auto, using(std::proofs::lemmas::Bool::Decides::nat_tests), unfolding(rules::specs::Refusals::insert_checks))]
    fn insertable(&self, item: u64) -> Result<u16, Fault>
        ensures { result ≡ answered (insert_checks (sizes self.now) (viewed self.now) item) item }
    {
        let item = self.settings.identifier(item)?;
        if !self.table.has_members() {
            return Err(Fault::NoMember);
        }
        if self.stamp > MOST_NUMBERS {
            return Err(Fault::NumbersSpent);
        }
        let copies = self.settings.copies() as usize;
        let left = self.cells_left();
        if left < copies {
            return Err(Fault::ShelfFull(left as u64));
        }
        self.check_post(copies)?;
        Ok(item)
    }

    // Two numbers as an item and a replica that may be looked up.
    #[tactic(auto, using(std::proofs::lemmas::Bool::Decides::nat_tests), unfolding(rules::specs::Refusals::lookup_checks))]
    fn askable(&self, item: u64, replica: u64) -> Result<(u16, u8), Fault>
        ensures { result ≡ answered (lookup_checks (sizes self.now) (viewed self.now) item replica) (item, replica) }
    {
        let item = self.settings.identifier(item)?;
        let replica = self.settings.replica(replica)?;
        if !self.table.has_members() {
            return Err(Fault::NoMember);
        }
        if self.number > MOST_NUMBERS {
            return Err(Fault::NumbersSpent);
        }
        if self.questions.is_full() {
            return Err(Fault::QuestionsOpen);
        }
        self.check_post(1)?;
        Ok((item, replica))
    }

    // What an accepted insert does: it takes the next stamp and sends its copies.
    fn send_copies(&mut self, item: u16, value: u64)
        requires { first_fault (insert_checks (sizes self.old) (viewed self.old) item) ≡ None }
        ensures { Leads (inserted (sizes self.old) (viewed self.old) item value) [] self.old self.new }
    {
        send_additions(
            &mut *self.post,
            &self.table,
            self.settings,
            item,
            self.stamp,
            value,
        );
        self.stamp += 1;
    }

    // Inserts an item with a value; the answer has its stamp.
    pub fn insert(&mut self, item: u64, value: u64) -> Answer
        ensures { Performs (Insert item value) self.old result self.new }
    {
        match self.insertable(item) {
            Err(fault) => Answer::Refused(fault),
            Ok(item) => {
                let stamp = self.stamp;
                self.send_copies(item, value);
                Answer::Inserted(stamp)
            }
        }
    }

    // What an accepted lookup does: it takes the next number and asks the owner of the place.
    fn ask(&mut self, item: u16, replica: u8)
        requires { first_fault (lookup_checks (sizes self.old) (viewed self.old) item replica) ≡ None }
        ensures { Leads (opened (sizes self.old) (viewed self.old) item replica) [] self.old self.new }
    {
        let question = self.number;
        let place = self.settings.place_of(item, replica);
        let to = self.owner_or(place, place);
        let _ = self.questions.push(Question {
            number: question,
            reply: Reply::Waiting,
        });
        let _ = self.post.put(Message::GetItem {
            to,
            replica,
            place,
            question,
        });
        self.number += 1;
    }

    // Looks an item up by one of its replicas; the answer has the number of the question.
    pub fn lookup(&mut self, item: u64, replica: u64) -> Answer
        ensures { Performs (Lookup item replica) self.old result self.new }
    {
        match self.askable(item, replica) {
            Err(fault) => Answer::Refused(fault),
            Ok((item, replica)) => {
                let number = self.number;
                self.ask(item, replica);
                Answer::Opened(number)
            }
        }
    }

    // Closes a question and gives its answer; one that still waits is withdrawn.
    pub fn collect(&mut self, number: u64) -> Answer
        ensures { Performs (Collect number) self.old result self.new }
    {
        let Some(reply) = self.questions.reply_to(number) else {
            return Answer::Refused(Fault::NoQuestion);
        };
        self.questions.close(number);
        match reply {
            Reply::Waiting => {
                withdraw(&mut *self.post, number);
                Answer::Withdrawn
            }
            Reply::TooEarly => Answer::NotYet,
            Reply::Held { stamp, value } => Answer::Found { stamp, value },
            Reply::Absent => Answer::Nothing,
        }
    }
}
