// A tray as a post: the records wait in the order in which they came.
ghost use Rattle.std.proofs.Common.{sym, ap, arith, rules};
ghost use Rattle.std.specs.Prelude.{◌≡◌};
ghost use Rattle.rows.specs.Ground.{Ground};
ghost use Rattle.rows.specs.Trays.{held_in};
ghost use Rattle.rows.specs.Rows.{length_rows};

use crate::tray::{Layout, Readable, Tray};
use faults::Fault;
use holders::{Holder, Post};

impl<'a, L: Layout<WIDTH>, const WIDTH: usize, const MOST: usize> Holder
    for Tray<'a, L, WIDTH, MOST> {
    const LARGEST: usize = MOST;

    ghost most = { MOST };

    ghost room = { λ s. (held_in L.form s).ground.size };

    ghost held = { λ s. s.count };

    ghost Frame = { Ground };

    ghost frame = { λ s. (held_in L.form s).ground };

    fn limit() -> usize
        ensures { result ≡ MOST }
    {
        MOST
    }

    fn size(&self) -> usize {
        Self::places(self.bytes)
    }

    fn kept(&self) -> usize {
        self.count
    }

    fn empty(&mut self) {
        self.clear();
    }

    ghost within = { λ s. s.inside };

    ghost bounded = { λ s. Prim.omega arith };

    ghost sized = { λ s t e. ap (λ g. g.size) e };

    ghost counted = { Prim.search rules };
}

impl<'a, L: Readable<WIDTH>, const WIDTH: usize, const MOST: usize> Post<L::Item>
    for Tray<'a, L, WIDTH, MOST> {
    ghost waiting = { λ s. (held_in L.form s).items };

    fn look(&self, n: usize) -> Option<L::Item> {
        self.get(n)
    }

    fn put(&mut self, item: L::Item) -> Result<(), Fault> {
        self.add(item).map_err(|_| Fault::PostFull(0))
    }

    fn take(&mut self, n: usize) -> Option<L::Item> {
        self.remove(n)
    }

    ghost counted = { λ s. sym (length_rows L.form s.count s.bytes.now) };
}
