// The same operations on two holders of one size: every answer is the same.
use byte_posts::BytePost;
use copies::{Coordinate, CopyRecord, Entry};
use holders::{Holder, Post, Shelf};
use log_shelves::LogShelf;
use messages::Message;
use rack_posts::RackPost;
use rack_shelves::RackShelf;
use racks::Blank;
use std::process::Abort;

fn stirred(seed: u32) -> u32 {
    seed.wrapping_mul(1_664_525).wrapping_add(1_013_904_223)
}

// Few coordinates, so that they come again.
fn coordinate(seed: u32) -> Coordinate {
    Coordinate {
        peer: (seed / 256 % 2) as u16,
        replica: (seed / 1024 % 2) as u8,
        place: (seed / 4096 % 3) as u16,
    }
}

fn same_shelves<S: Shelf, T: Shelf>(rt: &impl Abort, left: &mut S, right: &mut T) {
    let mut seed = 1;
    for turn in 0..3000u32 {
        seed = stirred(seed);
        let at = coordinate(seed);
        match seed / 65_536 % 8 {
            0..=3 => {
                let entry = Entry {
                    stamp: turn,
                    value: u64::from(seed),
                };
                assert_eq!(rt; left.put(at, entry), right.put(at, entry));
            }
            4 | 5 => assert_eq!(rt; left.take(at), right.take(at)),
            6 => assert_eq!(rt;
                left.next(at.peer, 0, at.place),
                right.next(at.peer, 0, at.place)
            ),
            _ => assert_eq!(rt; left.find(at), right.find(at)),
        }
        assert_eq!(rt; left.kept(), right.kept());
    }
}

fn same_posts<P: Post<Message>, Q: Post<Message>>(rt: &impl Abort, left: &mut P, right: &mut Q) {
    let mut seed = 1;
    for turn in 0..3000u32 {
        seed = stirred(seed);
        let n = (seed / 256 % 6) as usize;
        let message = Message::AddItem {
            to: 1,
            replica: 2,
            place: 3,
            stamp: turn,
            value: u64::from(seed),
        };
        match seed / 65_536 % 8 {
            0..=3 => assert_eq!(rt; left.put(message), right.put(message)),
            4..=6 => assert_eq!(rt; left.take(n), right.take(n)),
            _ => assert_eq!(rt; left.look(n), right.look(n)),
        }
        assert_eq!(rt; left.kept(), right.kept());
    }
}

#[test]
fn a_rack_shelf_and_a_log_shelf(rt: HostRuntime) {
    let mut records = [CopyRecord::default(); 7];
    let mut bytes = [9u8; 130];
    let mut left = RackShelf::make(&mut records);
    let mut right = LogShelf::make(&mut bytes);
    assert_eq!(rt; left.size(), right.size());
    same_shelves(&rt, &mut left, &mut right);
}

#[test]
fn a_rack_post_and_a_byte_post(rt: HostRuntime) {
    let mut messages = [Message::blank(); 5];
    let mut bytes = [9u8; 115];
    let mut left = RackPost::make(&mut messages);
    let mut right = BytePost::make(&mut bytes);
    assert_eq!(rt; left.size(), right.size());
    same_posts(&rt, &mut left, &mut right);
}
