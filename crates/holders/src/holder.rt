// What shelves and posts have in common.
ghost use Rattle.std.specs.Prelude.{◌≡◌, ℕ, ◌+◌, ◌-◌, ◌^◌, ◌<◌, ◌≤◌, nat_le};

// A holder keeps things up to its size.
pub trait Holder {
    // the largest size of a holder of this kind
    const LARGEST: usize;

    // the same in clauses, by the result of `limit`: an impl with a lifetime cannot tie a ghost `LARGEST` to its constant yet
    ghost most: { ℕ };

    ghost room: { Self → ℕ };

    ghost held: { Self → ℕ };

    // what no call changes: where the memory is, its size, and what of it lies beyond that
    ghost Frame: { Type 0 };

    ghost frame: { Self → Frame };

    // `LARGEST`, for code over any holder
    fn limit() -> usize
        ensures { result ≡ most };

    fn size(&self) -> usize
        ensures { result ≡ room self.now };

    fn kept(&self) -> usize
        ensures { result ≡ held self.now };

    fn empty(&mut self)
        ensures kept { held self.new ≡ 0 }
        ensures same { frame self.new ≡ frame self.old };

    ghost within: { (s : Self) → held s ≤ room s };

    ghost bounded: { (s : Self) → room s ≤ most };

    // sizes are counted in a `usize`
    ghost counted: { most < 2 ^ 64 };

    ghost sized: { (s t : Self) → frame s ≡ frame t → room s ≡ room t };
}

pub fn room_left<H: Holder>(holder: &H) -> usize
    ensures { result ≡ H.Holder.room holder.now - H.Holder.held holder.now }
{
    holder.size() - holder.kept()
}

// Whether there is enough left for `more`.
pub fn has_room_for<H: Holder>(holder: &H, more: usize) -> bool
    ensures { result ≡ nat_le (H.Holder.held holder.now + more) (H.Holder.room holder.now) }
{
    more <= room_left(holder)
}
