// A record's 18 bytes: kind, replica, peer (2), place (2), stamp (4), value (8), high byte first.
ghost use Rattle.std.specs.Prelude.{◌≡◌};
ghost use Rattle.logs.specs.Lines.{line_bytes, line_in};
ghost use Rattle.logs.specs.Logs.{live_kind, kept as kept_line, gone as gone_line, said_by};

use copies::{Coordinate, Entry};

// The length of a record.
pub const WIDTH: usize = 18;

// The kinds' numbers. Every other one stands for gone too.
const KEPT: u8 = 1;

const GONE: u8 = 2;

// One record of a log.
#[derive(Clone, Copy, PartialEq, Eq, Debug)]
pub struct Line {
    pub kind: u8,
    pub at: Coordinate,
    pub held: Entry,
}

impl Line {
    // From now on the coordinate maps to the entry.
    pub fn kept(at: Coordinate, held: Entry) -> Line
        ensures { result ≡ kept_line at held }
    {
        Line {
            kind: KEPT,
            at,
            held,
        }
    }

    // From now on the coordinate maps to nothing.
    pub fn gone(at: Coordinate) -> Line
        ensures { result ≡ gone_line at }
    {
        Line {
            kind: GONE,
            at,
            held: Entry { stamp: 0, value: 0 },
        }
    }

    // Whether a record of this kind says what its coordinate maps to.
    pub fn is_live(self) -> bool
        ensures { result ≡ live_kind self.kind }
    {
        self.kind == KEPT
    }

    // What the record says of its own coordinate.
    pub fn says(self) -> Option<Entry>
        ensures { result ≡ said_by self }
    {
        self.is_live().then_some(self.held)
    }
}

pub fn line_bytes(line: Line) -> [u8; WIDTH]
    ensures { result ≡ line_bytes line }
{
    let [p1, p0] = line.at.peer.to_be_bytes();
    let [q1, q0] = line.at.place.to_be_bytes();
    let [s3, s2, s1, s0] = line.held.stamp.to_be_bytes();
    let [v7, v6, v5, v4, v3, v2, v1, v0] = line.held.value.to_be_bytes();
    [
        line.kind,
        line.at.replica,
        p1,
        p0,
        q1,
        q0,
        s3,
        s2,
        s1,
        s0,
        v7,
        v6,
        v5,
        v4,
        v3,
        v2,
        v1,
        v0,
    ]
}

// The record of these bytes.
pub fn line_of(bytes: &[u8; WIDTH]) -> Line
    ensures value { result ≡ line_in bytes.now }
    ensures form { bytes.now ≡ line_bytes result }
{
    let [
        kind,
        replica,
        p1,
        p0,
        q1,
        q0,
        s3,
        s2,
        s1,
        s0,
        v7,
        v6,
        v5,
        v4,
        v3,
        v2,
        v1,
        v0,
    ] = *bytes;
    Line {
        kind,
        at: Coordinate {
            peer: u16::from_be_bytes([p1, p0]),
            place: u16::from_be_bytes([q1, q0]),
            replica,
        },
        held: Entry {
            stamp: u32::from_be_bytes([s3, s2, s1, s0]),
            value: u64::from_be_bytes([v7, v6, v5, v4, v3, v2, v1, v0]),
        },
    }
}
