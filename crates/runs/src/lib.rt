// Whole runs of a ring: a list of orders, from an empty ring on.
#![tactic(auto)]

ghost use Rattle.runs.specs.Orders.{Runs};
ghost use Rattle.ring.specs.Views.{settled};
ghost use Rattle.runs.specs.Promise.{Promise};

use arithmetic::Settings;
use holders::{Holder, Post, Shelf};
use messages::Message;
use ring::Ring;
use rules::{Answer, Call};

// A call, and the place for its answer.
#[derive(Clone, Copy)]
pub struct Order {
    pub call: Call,
    pub answer: Answer,
}

// Performs the orders one after the other, and writes each answer beside its call.
pub fn perform_all<'a, S: Shelf, P: Post<Message>>(ring: &mut Ring<'a, S, P>, orders: &mut [Order])
    ensures { Runs orders.old ring.old orders.new ring.new }
{
    for order in orders {
        order.answer = ring.perform(order.call);
    }
}

// Makes an empty ring over the shelf and the post, performs the orders on it, and writes each answer beside its call. The ring comes back, to
// go on with.
pub fn run<'a, S: Shelf, P: Post<Message>>(
    settings: Settings,
    shelf: &'a mut S,
    post: &'a mut P,
    orders: &mut [Order],
) -> Ring<'a, S, P>
    ensures { Promise (settled settings (S.Holder.room shelf.old) (P.Holder.room post.old)) (S.Shelf.cells shelf.old) orders.old orders.new result }
{
    let mut ring = Ring::new(settings, shelf, post);
    perform_all(&mut ring, orders);
    ring
}
