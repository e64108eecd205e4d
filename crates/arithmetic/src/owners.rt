// The search for the nearest member: of members that are as near, the earlier one.
// (Members come as a slice of their own, since callers keep them in a list beside the settings.)
ghost use Rattle.std.specs.Prelude.{◌≡◌};
ghost use Rattle.circle.specs.Owners.{owner, successor, predecessor, arc_length};

use crate::settings::Settings;

impl Settings {
    // The member that comes first from a place on, clockwise.
    pub fn owner(self, members: &[u16], place: u16) -> Option<u16>
        ensures { result ≡ owner self.size members.now place }
    {
        members
            .iter()
            .copied()
            .min_by_key(|member| self.distance(place, *member))
    }

    // The first other member after a peer.
    pub fn successor(self, members: &[u16], peer: u16) -> Option<u16>
        ensures { result ≡ successor self.size members.now peer }
    {
        members
            .iter()
            .copied()
            .filter(|member| *member != peer)
            .min_by_key(|member| self.distance(peer, *member))
    }

    // The first other member before a peer.
    pub fn predecessor(self, members: &[u16], peer: u16) -> Option<u16>
        ensures { result ≡ predecessor self.size members.now peer }
    {
        members
            .iter()
            .copied()
            .filter(|member| *member != peer)
            .min_by_key(|member| self.distance(*member, peer))
    }

    // The share of the ring that a member has: how far its predecessor is behind, 0 for a lone one.
    #[tactic(auto, unfolding(circle::specs::Owners::arc_length))]
    pub fn arc_length(self, members: &[u16], peer: u16) -> u32
        ensures { result ≡ arc_length self.size members.now peer }
    {
        self.predecessor(members, peer)
            .map_or(0, |before| self.distance(before, peer))
    }
}
