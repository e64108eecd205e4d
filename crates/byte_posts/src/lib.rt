// A post in bytes that are handed in: the messages in order, 22 bytes each, then zeros.
#![tactic(auto)]

ghost use Rattle.std.specs.Prelude.{◌≡◌};
ghost use Rattle.rows.specs.Trays.{held_in, blank, memory_of};
ghost use Rattle.byte_posts.specs.Forms.{message_form};

mod forms;

use forms::MessageForm;
use holders::Holder;
use layouts::WIDTH;
use rows::Tray;

const LARGEST_POST: usize = 256;

// A post of at most 256 messages.
pub type BytePost<'a> = Tray<'a, MessageForm, WIDTH, LARGEST_POST>;

// What `BytePost::make` promises at this size, for the check to ask for the proof.
fn make_stands<'a>(memory: &'a mut [u8]) -> BytePost<'a>
    ensures { held_in message_form result ≡ blank 22 256 memory.entry.ghost_name memory.old }
{
    BytePost::make(memory)
}

// The same of `into_memory`.
fn into_memory_stands<'a>(post: BytePost<'a>) -> &'a mut [u8]
    ensures value { result.now ≡ memory_of message_form (held_in message_form post.entry) }
    ensures same { result.ghost_name ≡ (held_in message_form post.entry).ground.place }
{
    post.into_memory()
}

// The same of `BytePost::limit`.
fn limit_stands() -> usize
    ensures { result ≡ 256 }
{
    BytePost::limit()
}
