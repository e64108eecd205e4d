// The table of peers.
ghost use Rattle.std.specs.Prelude.{◌≡◌, not, List, [], ◌∷◌, ◌++◌, length, if◌then◌else◌, nat_le};
ghost use Rattle.faults.specs.declared.Fault.TheVariants.{TableFull};
ghost use Rattle.faults.specs.Checks.{answered};
ghost use Rattle.circle.specs.Owners.{owner, successor, predecessor};
ghost use Rattle.rules.specs.State.{members, state_of, with_state, without};
ghost use Rattle.rules.specs.Refusals.{most_peers, is_empty};
ghost use Rattle.tables.specs.Tables.{peers_of, member_of};

use arithmetic::Settings;
use faults::Fault;
use rosters::Roster;
use rules::{Peer, PeerState};

// A peer as a member: its identifier, unless it is leaving.
fn member(peer: &Peer) -> Option<u16>
    ensures { result ≡ member_of peer.now }
{
    (peer.state != PeerState::Leaving).then_some(peer.id)
}

#[derive(Drop)]
pub struct Table {
    peers: Roster<Peer>,
}

impl Table {
    pub fn new() -> Table
        ensures { peers_of result ≡ [] }
    {
        Table {
            peers: Roster::new(Peer::default()),
        }
    }

    pub fn len(&self) -> usize
        ensures { result ≡ length (peers_of self.now) }
    {
        self.peers.len()
    }

    pub fn is_full(&self) -> bool
        ensures { result ≡ nat_le most_peers (length (peers_of self.now)) }
    {
        self.peers.is_full()
    }

    #[tactic(auto, using(crate::proofs::Ties::state_first))]
    pub fn state_of(&self, id: u16) -> Option<PeerState>
        ensures { result ≡ state_of (peers_of self.now) id }
    {
        self.peers.first(id as u64).map(|peer| peer.state)
    }

    pub fn set_state(&mut self, id: u16, state: PeerState)
        ensures { peers_of self.new ≡ with_state id state (peers_of self.old) }
    {
        self.peers.replace(id as u64, Peer { id, state });
    }

    // One more peer at the end; a full table refuses it.
    pub fn push(&mut self, peer: Peer) -> Result<(), Fault>
        ensures value { result ≡ answered ((nat_le most_peers (length (peers_of self.old)), TableFull) ∷ []) tt }
        ensures after { peers_of self.new ≡ (if nat_le most_peers (length (peers_of self.old)) then peers_of self.old else peers_of self.old ++ peer ∷ []) }
    {
        self.peers.push(peer).map_err(|_| Fault::TableFull)
    }

    #[tactic(auto, using(crate::proofs::Ties::without_dropped))]
    pub fn remove(&mut self, id: u16)
        ensures { peers_of self.new ≡ without id (peers_of self.old) }
    {
        self.peers.remove(id as u64);
    }

    // Whether there is a peer that is not leaving.
    pub fn has_members(&self) -> bool
        ensures { result ≡ not (is_empty (members (peers_of self.now))) }
    {
        let mut peers = self.peers.entries().iter();
        peers.any(|peer| member(peer).is_some())
    }

    // The three searches are those of `Settings`, over the peers: a list of the members first would be a second pass.

    // The member that comes first from a place on, clockwise.
    pub fn owner(&self, settings: Settings, place: u16) -> Option<u16>
        ensures { result ≡ owner settings.size (members (peers_of self.now)) place }
    {
        self.peers
            .entries()
            .iter()
            .filter_map(member)
            .min_by_key(|member| settings.distance(place, *member))
    }

    // The first other member after a peer.
    pub fn successor(&self, settings: Settings, id: u16) -> Option<u16>
        ensures { result ≡ successor settings.size (members (peers_of self.now)) id }
    {
        self.peers
            .entries()
            .iter()
            .filter_map(member)
            .filter(|after| *after != id)
            .min_by_key(|after| settings.distance(id, *after))
    }

    // The first other member before a peer.
    pub fn predecessor(&self, settings: Settings, id: u16) -> Option<u16>
        ensures { result ≡ predecessor settings.size (members (peers_of self.now)) id }
    {
        self.peers
            .entries()
            .iter()
            .filter_map(member)
            .filter(|before| *before != id)
            .min_by_key(|before| settings.distance(*before, id))
    }
}
