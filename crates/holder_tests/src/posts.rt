// (byte posts have examples much like these: told once for both, they would lie in a third crate, apart from those that show the memory,
// and with an `ask` of its own)
use faults::Fault;
use holders::{Holder, Post, put_then_look, room_left};
use messages::Message;
use rack_posts::RackPost;
use racks::Rack;

const DUST: Message = Message::Replicate {
    to: 9,
    from: 9,
    start: 9,
    end: 9,
};

// What a place holds that is not in use, as the format says it and not as the code writes it.
const BLANK: Message = Message::GetItem {
    to: 0,
    replica: 0,
    place: 0,
    question: 0,
};

fn ask(question: u32) -> Message {
    Message::GetItem {
        to: 1,
        replica: 1,
        place: 1,
        question,
    }
}

#[test]
fn a_post_of_size_0_keeps_nothing(rt: HostRuntime) {
    let mut memory: [Message; 0] = [];
    let mut post = RackPost::make(&mut memory);
    assert_eq!(rt; post.put(ask(1)), Err(Fault::PostFull(0)));
    assert_eq!(rt; post.look(0), None);
    assert_eq!(rt; post.take(0), None);
}

#[test]
fn a_full_post_shows_the_old_list(rt: HostRuntime) {
    let mut memory = [DUST; 1];
    let mut post = RackPost::make(&mut memory);
    assert_eq!(rt; post.put(ask(1)), Ok(()));
    assert_eq!(rt; post.put(ask(2)), Err(Fault::PostFull(0)));
    assert_eq!(rt; put_then_look(&mut post, ask(3), 0), Some(ask(1)));
    assert_eq!(rt; room_left(&post), 0);
}

#[test]
fn the_others_keep_their_order(rt: HostRuntime) {
    let mut memory = [DUST; 3];
    {
        let mut post = RackPost::make(&mut memory);
        assert_eq!(rt; post.put(ask(1)), Ok(()));
        assert_eq!(rt; post.put(ask(2)), Ok(()));
        assert_eq!(rt; post.put(ask(3)), Ok(()));
        assert_eq!(rt; post.take(1), Some(ask(2)));
        assert_eq!(rt; post.take(2), None);
        assert_eq!(rt; post.look(1), Some(ask(3)));
        assert_eq!(rt; post.kept(), 2);
    }
    assert_eq!(rt; memory[1], ask(3));
    assert_eq!(rt; memory[2], BLANK);
}

#[test]
fn an_emptied_post_is_blank(rt: HostRuntime) {
    let mut memory = [DUST; 257];
    {
        let mut post = RackPost::make(&mut memory);
        assert_eq!(rt; post.size(), 256);
        assert_eq!(rt; post.put(ask(1)), Ok(()));
        post.empty();
        assert_eq!(rt; post.look(0), None);
    }
    assert_eq!(rt; memory[0], BLANK);
    assert_eq!(rt; memory[256], DUST);
}

#[test]
fn a_rack_is_made_within_a_number_at_run_time(rt: HostRuntime) {
    let mut memory = [DUST; 4];
    let mut rack: Rack<Message, { usize::MAX }> = Rack::make_within(&mut memory, 2);
    assert_eq!(rt; rack.size(), 2);
    assert_eq!(rt; rack.add(ask(1)), Ok(()));
    assert_eq!(rt; rack.add(ask(2)), Ok(()));
    assert_eq!(rt; rack.add(ask(3)), Err(ask(3)));
    assert_eq!(rt; rack.remove(0), Some(ask(1)));
    let back = rack.into_memory();
    assert!(rt; &*back == [ask(2), BLANK, DUST, DUST].as_slice());
}
