// How a message stands in bytes.
ghost use Rattle.std.proofs.Common.{lit<};
ghost use Rattle.byte_posts.specs.Forms.{message_form};

use layouts::{WIDTH, decode, encode};
use messages::Message;
use rows::{Layout, Readable};

pub struct MessageForm;

impl Layout<WIDTH> for MessageForm {
    type Item = Message;

    ghost form = { message_form };

    fn bytes_of(item: Message) -> [u8; WIDTH] {
        encode(item)
    }

    ghost some = { lit< tt };
}

impl Readable<WIDTH> for MessageForm {
    fn read(bytes: &[u8]) -> Option<Message> {
        decode(bytes).ok()
    }
}
