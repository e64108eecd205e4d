// Join and leave.
ghost use Rattle.std.specs.Prelude.{◌≡◌, [], Some, None, Ok, Err};
ghost use Rattle.faults.specs.Checks.{first_fault, answered};
ghost use Rattle.rules.specs.declared.Call.TheVariants.{Join, Leave};
ghost use Rattle.rules.specs.Refusals.{join_checks, leave_checks};
ghost use Rattle.circle.specs.Owners.{predecessor, successor};
ghost use Rattle.rules.specs.State.{members};
ghost use Rattle.tables.specs.Tables.{peers_of};
ghost use Rattle.ring.specs.Views.{viewed, sizes, both, joined_to, gone_from, Leads, Performs};

use crate::ring::Ring;
use faults::Fault;
use holders::{Holder, Post, Shelf};
use messages::Message;
use rules::{Answer, Peer, PeerState};

impl<'a, S: Shelf, P: Post<Message>> Ring<'a, S, P> {
    // A number as a peer that may join.
    #[tactic(auto, using(std::proofs::lemmas::Bool::Decides::nat_tests), unfolding(rules::specs::Refusals::join_checks))]
    fn newcomer(&self, peer: u64) -> Result<u16, Fault>
        ensures { result ≡ answered (join_checks (sizes self.now) (viewed self.now) peer) peer }
    {
        let id = self.settings.identifier(peer)?;
        if self.table.state_of(id).is_some() {
            return Err(Fault::OnTable);
        }
        if self.table.is_full() {
            return Err(Fault::TableFull);
        }
        if let Some(next) = self.table.successor(self.settings, id) {
            if !self.is_settled(next) {
                return Err(Fault::NotSettled);
            }
            self.check_post(1)?;
        }
        Ok(id)
    }

    // A number as a peer that may leave.
    #[tactic(auto, using(std::proofs::lemmas::Bool::Decides::nat_tests), unfolding(rules::specs::Refusals::leave_checks))]
    fn leaver(&self, peer: u64) -> Result<u16, Fault>
        ensures { result ≡ answered (leave_checks (sizes self.now) (viewed self.now) peer) peer }
    {
        let id = self.settings.identifier(peer)?;
        if !self.is_member(id) {
            return Err(Fault::NotMember);
        }
        let Some(next) = self.table.successor(self.settings, id) else {
            return Err(Fault::OnlyMember);
        };
        if !self.is_settled(id) || !self.is_settled(next) {
            return Err(Fault::NotSettled);
        }
        self.check_post(1)?;
        Ok(id)
    }

    // The predecessor and the successor of a peer, where there are other members.
    fn neighbours(&self, id: u16) -> Option<(u16, u16)>
        ensures { result ≡ both (predecessor self.now.settings.size (members (peers_of self.now.table)) id) (successor self.now.settings.size (members (peers_of self.now.table)) id) }
    {
        let before = self.table.predecessor(self.settings, id)?;
        let after = self.table.successor(self.settings, id)?;
        Some((before, after))
    }

    // What an accepted join does: the peer fills its arc from its successor, or is settled at once where it is alone.
    fn admit(&mut self, id: u16)
        requires { first_fault (join_checks (sizes self.old) (viewed self.old) id) ≡ None }
        ensures { Leads (joined_to (sizes self.old) (viewed self.old) id) [] self.old self.new }
    {
        match self.neighbours(id) {
            None => {
                let _ = self.table.push(Peer {
                    id,
                    state: PeerState::Settled,
                });
            }
            Some((start, giver)) => {
                self.table.set_state(giver, PeerState::Giving);
                let _ = self.table.push(Peer {
                    id,
                    state: PeerState::Filling {
                        from: giver,
                        start,
                        end: id,
                    },
                });
                let _ = self.post.put(Message::RetrieveItems {
                    to: giver,
                    from: id,
                    start,
                    end: id,
                });
            }
        }
    }

    // A peer joins the ring.
    pub fn join(&mut self, peer: u64) -> Answer
        ensures { Performs (Join peer) self.old result self.new }
    {
        match self.newcomer(peer) {
            Err(fault) => Answer::Refused(fault),
            Ok(id) => {
                self.admit(id);
                Answer::Done
            }
        }
    }

    // What an accepted leave does: the peer hands its arc to its successor, which fills it.
    fn dismiss(&mut self, id: u16)
        requires { first_fault (leave_checks (sizes self.old) (viewed self.old) id) ≡ None }
        ensures { Leads (gone_from (sizes self.old) (viewed self.old) id) [] self.old self.new }
    {
        if let Some((start, filler)) = self.neighbours(id) {
            self.table.set_state(id, PeerState::Leaving);
            let filling = PeerState::Filling {
                from: id,
                start,
                end: id,
            };
            self.table.set_state(filler, filling);
            let _ = self.post.put(Message::Replicate {
                to: filler,
                from: id,
                start,
                end: id,
            });
        }
    }

    // A peer leaves the ring.
    pub fn leave(&mut self, peer: u64) -> Answer
        ensures { Performs (Leave peer) self.old result self.new }
    {
        match self.leaver(peer) {
            Err(fault) => Answer::Refused(fault),
            Ok(id) => {
                self.dismiss(id);
                Answer::Done
            }
        }
    }
}
