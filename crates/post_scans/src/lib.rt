// What the messages of any post come to, and a question's message taken back.
#![tactic(auto)]

ghost use Rattle.std.specs.Prelude.{◌≡◌, position};
ghost use Rattle.rules.specs.State.{is_add, asks, adds, unasked};

use holders::{Holder, Post};
use messages::Message;

fn is_addition(message: &Message) -> bool
    ensures { result ≡ is_add message.now }
{
    matches!(message, Message::AddItem { .. })
}

fn asks_for(message: Message, number: u64) -> bool
    ensures { result ≡ asks number message }
{
    matches!(message, Message::GetItem { question, .. } if question as u64 == number)
}

// How many ADDITEM messages wait.
pub fn adds_waiting<P: Post<Message>>(post: &P) -> usize
    ensures { result ≡ adds (P.Post.waiting post.now) }
{
    (0..post.count())
        .filter_map(|i| post.look(i))
        .filter(|message| is_addition(message))
        .count()
}

// The first position whose message asks a question, whatever its number.
pub fn position_of_question<P: Post<Message>>(post: &P, number: u64) -> Option<usize>
    ensures { result ≡ position (asks number) (P.Post.waiting post.now) }
{
    (0..post.count())
        .filter_map(|n| post.look(n))
        .position(|message| asks_for(message, number))
}

// Takes the first message that asks a question out; where none does, nothing changes.
pub fn withdraw<P: Post<Message>>(post: &mut P, number: u64)
    ensures after { P.Post.waiting post.new ≡ unasked number (P.Post.waiting post.old) }
    ensures same { P.Holder.frame post.new ≡ P.Holder.frame post.old }
{
    if let Some(n) = position_of_question(post, number) {
        let _ = post.take(n);
    }
}
