// The messages that peers send each other.
#![tactic(auto)]

// Each names the peer that it goes to. `start` and `end` are the ends of an arc.
#[derive(Clone, Copy, PartialEq, Eq, Debug)]
pub enum Message {
    // asks `to` for the copies of an arc, on behalf of `from`
    RetrieveItems {
        to: u16,
        from: u16,
        start: u16,
        end: u16,
    },
    // hands the copies that `from` has of an arc over to `to`
    Replicate {
        to: u16,
        from: u16,
        start: u16,
        end: u16,
    },
    // brings one copy of an insert to its place
    AddItem {
        to: u16,
        replica: u8,
        place: u16,
        stamp: u32,
        value: u64,
    },
    // asks for the copy at a place, for an open question
    GetItem {
        to: u16,
        replica: u8,
        place: u16,
        question: u32,
    },
}
