// The open questions.
ghost use Rattle.std.specs.Prelude.{◌≡◌, List, [], ◌∷◌, ◌++◌, length, if◌then◌else◌, nat_le};
ghost use Rattle.faults.specs.declared.Fault.TheVariants.{QuestionsOpen};
ghost use Rattle.faults.specs.Checks.{answered};
ghost use Rattle.rules.specs.State.{reply_to, with_reply, closed};
ghost use Rattle.rules.specs.Refusals.{most_open};
ghost use Rattle.tables.specs.Tables.{questions_of};

use faults::Fault;
use rosters::Roster;
use rules::{Question, Reply};

#[derive(Drop)]
pub struct Questions {
    asked: Roster<Question>,
}

impl Questions {
    pub fn new() -> Questions
        ensures { questions_of result ≡ [] }
    {
        Questions {
            asked: Roster::new(Question::default()),
        }
    }

    pub fn len(&self) -> usize
        ensures { result ≡ length (questions_of self.now) }
    {
        self.asked.len()
    }

    pub fn is_full(&self) -> bool
        ensures { result ≡ nat_le most_open (length (questions_of self.now)) }
    {
        self.asked.is_full()
    }

    // What is known of a question, whatever the number.
    #[tactic(auto, using(crate::proofs::Ties::reply_first))]
    pub fn reply_to(&self, number: u64) -> Option<Reply>
        ensures { result ≡ reply_to (questions_of self.now) number }
    {
        self.asked.first(number).map(|question| question.reply)
    }

    pub fn set_reply(&mut self, number: u32, reply: Reply)
        ensures { questions_of self.new ≡ with_reply number reply (questions_of self.old) }
    {
        self.asked
            .replace(number as u64, Question { number, reply });
    }

    // One more question at the end; it is refused where as many are open as may be.
    pub fn push(&mut self, question: Question) -> Result<(), Fault>
        ensures value { result ≡ answered ((nat_le most_open (length (questions_of self.old)), QuestionsOpen) ∷ []) tt }
        ensures after { questions_of self.new ≡ (if nat_le most_open (length (questions_of self.old)) then questions_of self.old else questions_of self.old ++ question ∷ []) }
    {
        self.asked.push(question).map_err(|_| Fault::QuestionsOpen)
    }

    #[tactic(auto, using(crate::proofs::Ties::closed_dropped))]
    pub fn close(&mut self, number: u64)
        ensures { questions_of self.new ≡ closed number (questions_of self.old) }
    {
        self.asked.remove(number);
    }
}
