// Answering a sheet's orders one by one.
ghost use Rattle.sheets.specs.Answers.{AnswersOne};

use crate::order_lines::OrderLines;
use answer_lines::{LEAST_MEMORY, write_answer};
use faults::Fault;
use holders::{Holder, Post, Shelf};
use messages::Message;
use orders::read_order;
use ring::Ring;
use rules::Answer;

impl<'s> OrderLines<'s> {
    // Answers the next order: the ring performs it, and its answer line is written to the front of the memory. The answer is the line's length, or
    // none where the sheet has ended. A line that is no order ends the sheet. Where the memory is too short, the order is not taken.
    pub fn answer<'a, S: Shelf, P: Post<Message>>(
        &mut self,
        ring: &mut Ring<'a, S, P>,
        memory: &mut [u8],
    ) -> Result<Option<usize>, Fault>
        ensures { AnswersOne self.old ring.old memory.old result self.new ring.new memory.new }
    {
        if memory.len() < LEAST_MEMORY {
            return Err(Fault::AnswerMemory);
        }
        let Some(line) = self.lines.next() else {
            return Ok(None);
        };
        let answer = match read_order(line, self.columns) {
            Ok(call) => ring.perform(call),
            Err(fault) => {
                self.lines.close();
                Answer::Refused(fault)
            }
        };
        let n = write_answer(memory, line.number(), answer)?;
        Ok(Some(n))
    }
}
