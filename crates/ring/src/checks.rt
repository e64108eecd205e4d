// What several calls check.
ghost use Rattle.std.specs.Prelude.{◌≡◌, [], ◌∷◌, nat_lt};
ghost use Rattle.faults.specs.declared.Fault.TheVariants.{PostFull};
ghost use Rattle.faults.specs.Checks.{answered};
ghost use Rattle.rules.specs.State.{is_settled, state_of};
ghost use Rattle.rules.specs.Refusals.{free_places, is_member};
ghost use Rattle.tables.specs.Tables.{peers_of};
ghost use Rattle.ring.specs.Views.{viewed, sizes};

use crate::ring::Ring;
use faults::Fault;
use holders::{Holder, Post, Shelf, has_room_for, room_left};
use messages::Message;
use rules::PeerState;

impl<'a, S: Shelf, P: Post<Message>> Ring<'a, S, P> {
    pub(crate) fn is_settled(&self, id: u16) -> bool
        ensures { result ≡ is_settled (state_of (peers_of self.now.table) id) }
    {
        matches!(self.table.state_of(id), Some(PeerState::Settled))
    }

    // Whether a peer is on the table and not leaving.
    pub(crate) fn is_member(&self, id: u16) -> bool
        ensures { result ≡ is_member (state_of (peers_of self.now.table) id) }
    {
        !matches!(self.table.state_of(id), None | Some(PeerState::Leaving))
    }

    // Refuses where the post has no places for so many messages more.
    pub(crate) fn check_post(&self, more: usize) -> Result<(), Fault>
        ensures { result ≡ answered ((nat_lt (free_places (sizes self.now) (viewed self.now)) more, PostFull (free_places (sizes self.now) (viewed self.now))) ∷ []) tt }
    {
        let post = &*self.post;
        if has_room_for(post, more) {
            Ok(())
        } else {
            Err(Fault::PostFull(room_left(post) as u64))
        }
    }
}
