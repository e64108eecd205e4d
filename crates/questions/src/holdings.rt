// Who holds the copies of an item.
ghost use Rattle.std.specs.Prelude.{◌≡◌};
ghost use Rattle.questions.specs.Holdings.{holding_of};

use arithmetic::Settings;
use faults::Fault;

// One copy: which replica, at which place, held by whom, and how large the holder's share of the ring is.
#[derive(Clone, Copy, PartialEq, Eq, Debug)]
pub struct Holding {
    pub replica: u8,
    pub place: u16,
    pub owner: u16,
    pub share: u32,
}

// Where a replica of an item is held, for any two numbers.
pub fn where_held(
    settings: Settings,
    members: &[u16],
    item: u64,
    replica: u64,
) -> Result<Holding, Fault>
    ensures { result ≡ holding_of settings.size settings.copies members.now item replica }
{
    let place = settings.place(item, replica)?;
    let owner = settings.owner(members, place).ok_or(Fault::NoMember)?;
    Ok(Holding {
        replica: replica as u8,
        place,
        owner,
        share: settings.arc_length(members, owner),
    })
}
