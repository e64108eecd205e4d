// What follows for every shelf and every post from their promises alone.
ghost use Rattle.std.specs.Prelude.{◌≡◌, true, if◌then◌else◌, Some, None, Ok, Err};
ghost use Rattle.std.specs.List.{slice_get};
ghost use Rattle.faults.specs.declared.Fault.TheVariants.{ShelfFull};
ghost use Rattle.holders.specs.Holders.{no_cell, no_place};

use crate::{Holder, Post, Shelf};
use copies::{Coordinate, Entry};
use faults::Fault;

// Puts, and finds what was put there, unless the put was refused.
pub fn put_then_find<S: Shelf>(
    shelf: &mut S,
    at: Coordinate,
    entry: Entry,
) -> Result<Option<Entry>, Fault>
    ensures { result ≡ (if no_cell (S.Shelf.meaning shelf.old) (S.Holder.room shelf.old) at then Err (ShelfFull 0) else Ok (Some entry)) }
{
    shelf.put(at, entry)?;
    Ok(shelf.find(at))
}

// Takes, and then finds nothing there.
pub fn take_then_find<S: Shelf>(shelf: &mut S, at: Coordinate) -> Option<Entry>
    ensures { result ≡ None }
{
    let _ = shelf.take(at);
    shelf.find(at)
}

// Empties, and then finds nothing anywhere.
pub fn empty_then_find<S: Shelf>(shelf: &mut S, at: Coordinate) -> Option<Entry>
    ensures { result ≡ None }
{
    shelf.empty();
    shelf.find(at)
}

// Puts, and looks at a position: a full post refuses, and shows what it showed before.
pub fn put_then_look<M, P: Post<M>>(post: &mut P, message: M, n: usize) -> Option<M>
    ensures { no_place (P.Post.waiting post.old) (P.Holder.room post.old) ≡ true → result ≡ slice_get (P.Post.waiting post.old) n }
{
    let _ = post.put(message);
    post.look(n)
}

// Empties, and then no position shows a message.
pub fn empty_then_look<M, P: Post<M>>(post: &mut P, n: usize) -> Option<M>
    ensures { result ≡ None }
{
    post.empty();
    post.look(n)
}
