// Any of the six calls.
ghost use Rattle.ring.specs.Views.{Performs};

use crate::ring::Ring;
use holders::{Holder, Post, Shelf};
use messages::Message;
use rules::{Answer, Call};

impl<'a, S: Shelf, P: Post<Message>> Ring<'a, S, P> {
    pub fn perform(&mut self, call: Call) -> Answer
        ensures { Performs call self.old result self.new }
    {
        match call {
            Call::Join(peer) => self.join(peer),
            Call::Leave(peer) => self.leave(peer),
            Call::Insert(item, value) => self.insert(item, value),
            Call::Lookup(item, replica) => self.lookup(item, replica),
            Call::Deliver(n) => self.deliver(n),
            Call::Collect(number) => self.collect(number),
        }
    }
}
