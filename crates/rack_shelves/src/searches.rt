// Searches over copies in any order.
ghost use Rattle.std.specs.Prelude.{◌≡◌, fold, None, reverse};
ghost use Rattle.std.specs.List.{position};
ghost use Rattle.copies.specs.Copies.{same, nearer_in_range};

use copies::{Coordinate, CopyRecord};

// The position of the copy at `at`.
pub fn position_of(copies: &[CopyRecord], at: Coordinate) -> Option<usize>
    ensures { result ≡ position (λ x. same x.at at) copies.now }
{
    copies.iter().position(|copy| copy.at.same(at))
}

// The first copy of `peer` with `low` ≤ place ≤ `high`.
pub fn first_in_range(copies: &[CopyRecord], peer: u16, low: u16, high: u16) -> Option<CopyRecord>
    ensures { result ≡ fold (λ best x. nearer_in_range peer low high x best) None (reverse copies.now) }
{
    copies.iter().rev().fold(None, |best, copy| {
        if copy.in_range(peer, low, high) {
            copy.nearer(best)
        } else {
            best
        }
    })
}
