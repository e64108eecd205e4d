// A handover on any shelf: the copies that a peer owes of an arc go to another.
#![tactic(auto)]

ghost use Rattle.std.specs.Prelude.{◌≡◌, ◌+◌, List, [], ◌∷◌, length, Some, filter, ◌≢◌};
ghost use Rattle.copies.specs.Copies.{find as found, in_range};
ghost use Rattle.holders.specs.Shelves.{Edited};
ghost use Rattle.rules.specs.Handover.{newer, handed, handover};
ghost use Rattle.rules.specs.Edits.{handover_edits};
ghost use Rattle.handovers.specs.Moves.{Moves};

use arithmetic::Settings;
use copies::{Coordinate, CopyRecord, Entry};
use holders::{Holder, Shelf};

// Whether what stands there has a higher stamp.
pub fn is_newer(there: Option<Entry>, stamp: u32) -> bool
    ensures { result ≡ newer there stamp }
{
    there.is_some_and(|entry| stamp < entry.stamp)
}

// Moves one copy that the shelf has to `filler`, unless that has a newer one there.
fn move_one<S: Shelf>(shelf: &mut S, filler: u16, one: CopyRecord)
    requires { found (S.Shelf.meaning shelf.old) one.at ≡ Some one.held }
    ensures { Moves S.Shelf.own S.Holder filler (one ∷ []) shelf.old shelf.new }
{
    let at = Coordinate {
        peer: filler,
        ..one.at
    };
    let there = shelf.find(at);
    let _ = shelf.take(one.at);
    if !is_newer(there, one.held.stamp) {
        let _ = shelf.put(at, one.held);
    }
}

// Moves every copy of `giver` with `low` ≤ place ≤ `high` to `filler`, another peer, and counts them.
fn move_range<S: Shelf>(shelf: &mut S, filler: u16, giver: u16, low: u16, high: u16) -> usize
    requires { filler ≢ giver }
    ensures value { result ≡ length (filter (in_range giver low high) (S.Shelf.meaning shelf.old)) }
    ensures done { Moves S.Shelf.own S.Holder filler (filter (in_range giver low high) (S.Shelf.meaning shelf.old)) shelf.old shelf.new }
{
    let mut count = 0;
    while let Some(one) = shelf.next(giver, low, high) {
        move_one(shelf, filler, one);
        count += 1;
    }
    count
}

// The same for the places after `start`, as far as `high`.
fn move_after<S: Shelf>(shelf: &mut S, filler: u16, giver: u16, start: u16, high: u16) -> usize
    requires { filler ≢ giver }
    ensures value { result ≡ length (filter (in_range giver (start + 1) high) (S.Shelf.meaning shelf.old)) }
    ensures done { Moves S.Shelf.own S.Holder filler (filter (in_range giver (start + 1) high) (S.Shelf.meaning shelf.old)) shelf.old shelf.new }
{
    if high <= start {
        return 0;
    }
    move_range(shelf, filler, giver, start + 1, high)
}

// Hands over to `filler` what `giver` has of the arc from `start` to `end`, in arc order and then by replica, and counts it.
// (the four numbers are the fields of the message that orders it, and the definitions take them one by one: each would take a struct apart)
pub fn hand_over<S: Shelf>(
    shelf: &mut S,
    settings: Settings,
    filler: u16,
    giver: u16,
    start: u16,
    end: u16,
) -> usize
    ensures value { result ≡ length (handed settings.size filler giver start end (S.Shelf.meaning shelf.old)) }
    ensures done { Edited S.Shelf.own S.Holder (handover settings.size filler giver start end (S.Shelf.meaning shelf.old)) (handover_edits settings.size filler giver start end (S.Shelf.meaning shelf.old)) shelf.old shelf.new }
{
    // (an empty shelf first: a log may have used many records and keep nothing, and to search it is quadratic)
    if shelf.count() == 0 || filler == giver || start == end {
        return 0;
    }
    if start < end {
        return move_after(shelf, filler, giver, start, end);
    }
    let last = (settings.size() - 1) as u16;
    let up = move_after(shelf, filler, giver, start, last);
    let on = move_range(shelf, filler, giver, 0, end);
    up + on
}
