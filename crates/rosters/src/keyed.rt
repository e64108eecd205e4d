// What entries are told apart by.
ghost use Rattle.std.specs.Prelude.{◌≡◌, ℕ};

use rules::{Peer, Question};

pub trait Keyed {
    ghost keyed: { Self → ℕ };

    fn key(&self) -> u64
        ensures { result ≡ keyed self.now };
}

// A peer goes by its identifier.
impl Keyed for Peer {
    ghost keyed = { λ p. p.id };

    fn key(&self) -> u64 {
        self.id as u64
    }
}

// A question goes by its number.
impl Keyed for Question {
    ghost keyed = { λ q. q.number };

    fn key(&self) -> u64 {
        self.number as u64
    }
}
