// The two questions under the names that a C program links with; `questions` answers them.
#![tactic(auto)]

ghost use Rattle.std.specs.Prelude.{◌≡◌, ◌<◌};
ghost use Rattle.circle.specs.Owners.{Member, Owner};
ghost use Rattle.questions.specs.Coded.{coded, refusal_base};
ghost use Rattle.questions.specs.Members.{members_of, owner_answer};
ghost use Rattle.questions.specs.Places.{place_answer};

// The place of an item for a replica, counted from 1.
#[unsafe(no_mangle)]
pub extern "C" fn result_ring_place(size: u64, copies: u64, item: u64, replica: u64) -> u64
    ensures { result ≡ coded (place_answer size copies item replica) }
{
    questions::result_ring_place(size, copies, item, replica)
}

// The member that owns an identifier. Members are two bytes each, the high byte first; one may stand there twice.
#[unsafe(no_mangle)]
pub extern "C" fn result_ring_owner(size: u64, identifier: u64, members: &[u8]) -> u64
    ensures value { result ≡ coded (owner_answer size identifier members.now) }
    ensures nearest { result < refusal_base → Owner size (λ q. Member q (members_of members.now)) identifier result }
{
    questions::result_ring_owner(size, identifier, members)
}
