// The two questions that a C program asks. The C interface knows plain numbers alone, so an answer is one number, and
// a refusal a number above all answers.
ghost use Rattle.std.specs.Prelude.{◌≡◌, ◌<◌};
ghost use Rattle.circle.specs.Owners.{Member, Owner, owner};
ghost use Rattle.questions.specs.Coded.{coded, refusal_base};
ghost use Rattle.questions.specs.Members.{members_of, bad_members, owner_answer};
ghost use Rattle.questions.specs.Places.{place_answer};

use arithmetic::Settings;
use faults::Fault;

const REFUSAL_BASE: u64 = 100_000;

fn code(answer: Result<u16, Fault>) -> u64
    ensures { result ≡ coded answer }
{
    match answer {
        Ok(identifier) => identifier as u64,
        Err(fault) => REFUSAL_BASE + fault.number() as u64,
    }
}

fn place_answer(size: u64, copies: u64, item: u64, replica: u64) -> Result<u16, Fault>
    ensures { result ≡ place_answer size copies item replica }
{
    Settings::new(size, copies)?.place(item, replica)
}

// The place of an item for a replica, counted from 1.
pub fn result_ring_place(size: u64, copies: u64, item: u64, replica: u64) -> u64
    ensures { result ≡ coded (place_answer size copies item replica) }
{
    code(place_answer(size, copies, item, replica))
}

// Whether a byte is left over, or a member is not below the size.
fn bad_members(size: u32, members: &[u8]) -> bool
    ensures { result ≡ bad_members size members.now }
{
    let (pairs, left) = members.as_chunks::<2>();
    let mut pairs = pairs.iter();
    !left.is_empty() || pairs.any(|pair| u16::from_be_bytes(*pair) as u32 >= size)
}

fn nearest_member(settings: Settings, place: u16, members: &[u8]) -> Option<u16>
    ensures { result ≡ owner settings.size (members_of members.now) place }
{
    let (pairs, _) = members.as_chunks::<2>();
    pairs
        .iter()
        .map(|pair| u16::from_be_bytes(*pair))
        .min_by_key(|member| settings.distance(place, *member))
}

fn owner_answer(size: u64, identifier: u64, members: &[u8]) -> Result<u16, Fault>
    ensures { result ≡ owner_answer size identifier members.now }
{
    let settings = Settings::new(size, 1)?;
    let place = settings.identifier(identifier)?;
    if bad_members(settings.size(), members) {
        return Err(Fault::Bytes);
    }
    nearest_member(settings, place, members).ok_or(Fault::NoMember)
}

// The member that owns an identifier. Members are two bytes each, the high byte first; one may stand there twice.
pub fn result_ring_owner(size: u64, identifier: u64, members: &[u8]) -> u64
    ensures value { result ≡ coded (owner_answer size identifier members.now) }
    ensures nearest { result < refusal_base → Owner size (λ q. Member q (members_of members.now)) identifier result }
{
    code(owner_answer(size, identifier, members))
}
