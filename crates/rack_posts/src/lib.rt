// A post in memory that is handed in: the messages in order, then blanks.
#![tactic(auto)]

ghost use Rattle.std.specs.Prelude.{◌≡◌};
ghost use Rattle.racks.specs.Blanks.{blank_message};
ghost use Rattle.racks.specs.Parts.{cut, emptied};
ghost use Rattle.racks.specs.Racks.{parts_of};

use holders::Holder;
use messages::Message;
use racks::Rack;

const LARGEST_POST: usize = 256;

// A post of at most 256 messages.
pub type RackPost<'a> = Rack<'a, Message, LARGEST_POST>;

// What `RackPost::make` promises at this size, for the check to ask for the proof.
fn make_stands<'a>(memory: &'a mut [Message]) -> RackPost<'a>
    ensures { parts_of result ≡ emptied blank_message (cut memory.entry.ghost_name memory.old 256 0) }
{
    RackPost::make(memory)
}

// The same of `RackPost::limit`.
fn limit_stands() -> usize
    ensures { result ≡ 256 }
{
    RackPost::limit()
}
