// A rack as a post: the records wait in the order in which they came.
ghost use Rattle.std.specs.Prelude.{length};
ghost use Rattle.std.proofs.Common.{refl, ap, le-add_right, rules};
ghost use Rattle.racks.specs.Parts.{Ground, size_of, ground_of};
ghost use Rattle.racks.specs.Racks.{parts_of};

use crate::{Blank, Rack};
use faults::Fault;
use holders::{Holder, Post};

impl<'a, T: Blank + Copy, const MOST: usize> Holder for Rack<'a, T, MOST> {
    const LARGEST: usize = MOST;

    ghost most = { MOST };

    ghost room = { λ s. size_of (parts_of s) };

    ghost held = { λ s. length (parts_of s).used };

    ghost Frame = { Ground T };

    ghost frame = { λ s. ground_of (parts_of s) };

    ghost within = { λ s. le-add_right (length (parts_of s).used) (length (parts_of s).spare) };

    ghost bounded = { λ s. s.sound.bounded };

    ghost sized = { λ s t e. ap (λ g. g.size) e };

    ghost counted = { Prim.search rules };

    fn limit() -> usize {
        MOST
    }

    fn size(&self) -> usize {
        self.records.len().min(self.largest)
    }

    fn kept(&self) -> usize {
        self.count
    }

    fn empty(&mut self) {
        self.clear();
    }
}

impl<'a, T: Blank + Copy, const MOST: usize> Post<T> for Rack<'a, T, MOST> {
    ghost waiting = { λ s. (parts_of s).used };

    ghost counted = { λ s. refl };

    fn look(&self, n: usize) -> Option<T> {
        self.get(n)
    }

    fn put(&mut self, item: T) -> Result<(), Fault> {
        self.add(item).map_err(|_| Fault::PostFull(0))
    }

    fn take(&mut self, n: usize) -> Option<T> {
        self.remove(n)
    }
}
