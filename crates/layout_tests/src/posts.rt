// (rack posts have examples much like these: told once for both, they would lie in a third crate, apart from those that show the memory,
// and with an `ask` of its own)
use byte_posts::BytePost;
use faults::Fault;
use holders::{Holder, Post, put_then_look, room_left};
use messages::Message;

fn ask(question: u32) -> Message {
    Message::GetItem {
        to: 1,
        replica: 2,
        place: 3,
        question,
    }
}

#[test]
fn a_post_of_size_0_keeps_nothing(rt: HostRuntime) {
    let mut memory = [9u8; 21];
    {
        let mut post = BytePost::make(&mut memory);
        assert_eq!(rt; post.size(), 0);
        assert_eq!(rt; post.put(ask(1)), Err(Fault::PostFull(0)));
        assert_eq!(rt; post.look(0), None);
        assert_eq!(rt; post.take(0), None);
        post.empty();
    }
    assert!(rt; memory == [9u8; 21]);
}

#[test]
fn a_post_of_size_1(rt: HostRuntime) {
    let mut memory = [9u8; 24];
    let mut post = BytePost::make(&mut memory);
    assert_eq!(rt; post.put(ask(1)), Ok(()));
    assert_eq!(rt; post.put(ask(2)), Err(Fault::PostFull(0)));
    assert_eq!(rt; put_then_look(&mut post, ask(3), 0), Some(ask(1)));
    assert_eq!(rt; room_left(&post), 0);
    let bytes = post.into_memory();
    assert!(rt; bytes.len() == 24);
    assert!(rt; bytes[..14] == [4, 2, 0, 1, 0, 0, 0, 3, 0, 0, 0, 0, 0, 1]);
    assert!(rt; bytes[14..] == [0, 0, 0, 0, 0, 0, 0, 0, 9, 9]);
}

#[test]
fn the_others_keep_their_order(rt: HostRuntime) {
    let mut memory = [9u8; 70];
    let mut post = BytePost::make(&mut memory);
    assert_eq!(rt; post.size(), 3);
    assert_eq!(rt; post.put(ask(1)), Ok(()));
    assert_eq!(rt; post.put(ask(2)), Ok(()));
    assert_eq!(rt; post.put(ask(3)), Ok(()));
    assert_eq!(rt; post.take(1), Some(ask(2)));
    assert_eq!(rt; post.look(0), Some(ask(1)));
    assert_eq!(rt; post.look(1), Some(ask(3)));
    assert_eq!(rt; post.look(2), None);
    assert_eq!(rt; post.kept(), 2);
    let bytes = post.into_memory();
    assert!(rt; bytes.len() == 70);
    assert!(rt; bytes[22..36] == [4, 2, 0, 1, 0, 0, 0, 3, 0, 0, 0, 0, 0, 3]);
    assert!(rt; bytes[36..66] == [0; 30]);
    assert!(rt; bytes[66..] == [9; 4]);
}

#[test]
fn what_lies_beyond_256_messages_stays(rt: HostRuntime) {
    let mut memory = [9u8; 5654];
    {
        let mut post = BytePost::make(&mut memory);
        assert_eq!(rt; post.size(), 256);
        for question in 0..256 {
            assert_eq!(rt; post.put(ask(question)), Ok(()));
        }
        assert_eq!(rt; post.put(ask(256)), Err(Fault::PostFull(0)));
        assert_eq!(rt; post.look(255), Some(ask(255)));
        post.empty();
        assert_eq!(rt; post.kept(), 0);
    }
    assert!(rt; memory[0] == 0 && memory[5631] == 0);
    assert!(rt; memory[5632..] == [9; 22]);
}
