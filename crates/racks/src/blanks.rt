// The blanks of the two kinds of record.
ghost use Rattle.std.specs.Prelude.{◌≡◌};
ghost use Rattle.racks.specs.Blanks.{blank_copy, blank_message};

use copies::CopyRecord;
use messages::Message;

// A kind of record that has a blank: not its `Default`, which does not say in generic code which value it is, and a message has none.
pub trait Blank {
    ghost nothing: { Self };

    fn blank() -> Self
        ensures { result ≡ nothing };
}

impl Blank for CopyRecord {
    ghost nothing = { blank_copy };

    fn blank() -> CopyRecord {
        CopyRecord::default()
    }
}

impl Blank for Message {
    ghost nothing = { blank_message };

    fn blank() -> Message {
        Message::GetItem {
            to: 0,
            replica: 0,
            place: 0,
            question: 0,
        }
    }
}
