// Making a ring, and the questions that only read it.
ghost use Rattle.std.specs.Prelude.{◌≡◌, ℕ, not, List, [], ◌∷◌};
ghost use Rattle.faults.specs.declared.Fault.TheVariants.{NotMember};
ghost use Rattle.faults.specs.Checks.{answered, first_fault};
ghost use Rattle.copies.specs.declared.Edit.TheVariants.{Empty};
ghost use Rattle.circle.specs.Owners.{arc_length};
ghost use Rattle.arithmetic.specs.Checks.{identifier_check, places_of};
ghost use Rattle.rules.specs.State.{empty, members, state_of};
ghost use Rattle.rules.specs.Refusals.{is_member};
ghost use Rattle.tables.specs.Tables.{peers_of};
ghost use Rattle.ring.specs.Views.{viewed, sizes, settled};

use crate::ring::Ring;
use arithmetic::{MOST_COPIES, Settings};
use faults::Fault;
use holders::{Holder, Post, Shelf};
use messages::Message;
use tables::{Questions, Table};

impl<'a, S: Shelf, P: Post<Message>> Ring<'a, S, P> {
    // An empty ring; shelf and post are emptied.
    pub fn new(settings: Settings, shelf: &'a mut S, post: &'a mut P) -> Ring<'a, S, P>
        ensures state { viewed result ≡ empty }
        ensures size { sizes result ≡ settled settings (S.Holder.room shelf.old) (P.Holder.room post.old) }
        ensures cells { S.Shelf.cells result.shelf.now ≡ S.Shelf.after (S.Shelf.cells shelf.old) Empty }
        ensures same { (S.Holder.frame result.shelf.now ≡ S.Holder.frame shelf.old) × (P.Holder.frame result.post.now ≡ P.Holder.frame post.old) }
        ensures lent { (result.shelf.ghost_name ≡ shelf.entry.ghost_name) × (result.post.ghost_name ≡ post.entry.ghost_name) }
    {
        shelf.clear();
        post.empty();
        Ring {
            settings,
            table: Table::new(),
            questions: Questions::new(),
            stamp: 1,
            number: 1,
            shelf,
            post,
        }
    }

    // How far the predecessor of a peer is behind it, 0 where there is none.
    #[tactic(auto, unfolding(circle::specs::Owners::arc_length))]
    fn share_of(&self, id: u16) -> u32
        ensures { result ≡ arc_length self.now.settings.size (members (peers_of self.now.table)) id }
    {
        let settings = self.settings;
        self.table
            .predecessor(settings, id)
            .map_or(0, |before| settings.distance(before, id))
    }

    // The share of the ring that a member has.
    pub fn arc_length(&self, peer: u64) -> Result<u32, Fault>
        ensures { result ≡ answered (identifier_check self.now.settings.size peer ∷ ((not (is_member (state_of (peers_of self.now.table) peer)), NotMember) ∷ [])) (arc_length self.now.settings.size (members (peers_of self.now.table)) peer) }
    {
        let id = self.settings.identifier(peer)?;
        if !self.is_member(id) {
            return Err(Fault::NotMember);
        }
        Ok(self.share_of(id))
    }

    // An item's places, replica 1 first; the rules want eight zeros beside the fault of what is no item.
    pub fn places(&self, item: u64) -> ([u16; MOST_COPIES], Option<Fault>)
        ensures row { result.0 ≡ places_of self.now.settings.size self.now.settings.copies item }
        ensures fault { result.1 ≡ first_fault (identifier_check self.now.settings.size item ∷ []) }
    {
        self.settings.places(item)
    }
}
