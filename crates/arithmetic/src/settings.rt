// The settings of a ring, and the arithmetic that needs nothing else.
ghost use Rattle.std.specs.Prelude.{◌≡◌, ◌%◌, ◌≤◌};
ghost use Rattle.circle.specs.Circle.{largest_size, most_copies};

// The most copies that are kept of an item, and so the length of a row of places.
pub const MOST_COPIES: usize = 8;

// The largest size of a ring.
pub const LARGEST_SIZE: u64 = 65_536;

// The size of the ring and the number of copies. No value of this type breaks its bounds.
#[derive(Clone, Copy)]
pub struct Settings {
    pub(crate) size: u32,
    pub(crate) copies: u8,
    ghost some: { 1 ≤ size },
    ghost bounded: { size ≤ largest_size },
    ghost kept: { 1 ≤ copies },
    ghost few: { copies ≤ most_copies },
    ghost even: { size % copies ≡ 0 },
}
