// The exact memory of a shelf after a delivery, for each kind of shelf: the ring's edits, one after the other.
// (`Ring::deliver` says this of any shelf; each function here says it in the words of one kind, which no generic clause can)
#![tactic(auto)]

ghost use Rattle.std.specs.Prelude.{◌≡◌, fold};
ghost use Rattle.rules.specs.declared.Call.TheVariants.{Deliver};
ghost use Rattle.rules.specs.Edits.{call_edits};
ghost use Rattle.racks.specs.Racks.{parts_of};
ghost use Rattle.rack_shelves.specs.Cells.{edited};
ghost use Rattle.log_shelves.specs.Held.{held_in};
ghost use Rattle.log_shelves.specs.Cells.{cells_of, edited as logged};
ghost use Rattle.ring.specs.Views.{viewed, sizes};

use holders::{Holder, Post};
use log_shelves::LogShelf;
use messages::Message;
use rack_shelves::RackShelf;
use ring::Ring;
use rules::Answer;

// A delivery over a rack shelf: its cells have had the edits of the delivery, in order.
pub fn deliver_over_rack<'r, 's, P: Post<Message>>(
    ring: &mut Ring<'r, RackShelf<'s>, P>,
    n: u64,
) -> Answer
    ensures { parts_of ring.new.shelf.now.rack ≡ fold edited (parts_of ring.old.shelf.now.rack) (call_edits (sizes ring.old) (viewed ring.old) (Deliver n)) }
{
    ring.deliver(n)
}

// A delivery over a log shelf: its records have had the edits of the delivery, in order.
pub fn deliver_over_log<'r, 's, P: Post<Message>>(
    ring: &mut Ring<'r, LogShelf<'s>, P>,
    position: u64,
) -> Answer
    ensures { cells_of (held_in ring.new.shelf.now.tray) ≡ fold logged (cells_of (held_in ring.old.shelf.now.tray)) (call_edits (sizes ring.old) (viewed ring.old) (Deliver position)) }
{
    ring.deliver(position)
}
