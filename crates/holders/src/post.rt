// What a post promises.
ghost use Rattle.std.specs.Prelude.{◌≡◌, List, [], ◌∷◌, ◌++◌, length, if◌then◌else◌, Ok, Err};
ghost use Rattle.std.specs.List.{slice_get, remove};
ghost use Rattle.faults.specs.declared.Fault.TheVariants.{PostFull};
ghost use Rattle.holders.specs.Holders.{no_place};

use crate::Holder;
use faults::Fault;

// A post has messages waiting, in the order in which they came.
pub trait Post<M>: Holder {
    ghost waiting: { Self → List M };

    // How many messages wait: what `kept` tells.
    fn count(&self) -> usize
        ensures { result ≡ length (waiting self.now) }
    {
        self.kept()
    }

    // The message at position `n`, from 0.
    fn look(&self, n: usize) -> Option<M>
        ensures { result ≡ slice_get (waiting self.now) n };

    fn put(&mut self, message: M) -> Result<(), Fault>
        ensures value { result ≡ (if no_place (waiting self.old) (Self.Holder.room self.old) then Err (PostFull 0) else Ok tt) }
        ensures after { waiting self.new ≡ (if no_place (waiting self.old) (Self.Holder.room self.old) then waiting self.old else waiting self.old ++ message ∷ []) }
        ensures same { Self.Holder.frame self.new ≡ Self.Holder.frame self.old };

    // Takes the message at position `n` out; the others keep their order.
    fn take(&mut self, n: usize) -> Option<M>
        ensures value { result ≡ slice_get (waiting self.old) n }
        ensures after { waiting self.new ≡ remove (waiting self.old) n }
        ensures same { Self.Holder.frame self.new ≡ Self.Holder.frame self.old };

    // what it keeps is its messages
    ghost counted: { (s : Self) → Self.Holder.held s ≡ length (waiting s) };
}
