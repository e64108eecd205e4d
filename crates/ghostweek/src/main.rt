// One result's week on a small ring of stations, from first to last: each call with its answer.
#![tactic(auto)]

use arithmetic::Settings;
use copies::CopyRecord;
use messages::Message;
use rack_posts::RackPost;
use rack_shelves::RackShelf;
use racks::Blank;
use rules::{Answer, Call};
use runs::{Order, run};

// A ring of 16 identifiers with four copies; the result is item 5.
const WEEK: [Call; 46] = [
    // three stations come, one after the other
    Call::Join(3),
    Call::Join(8),
    Call::Deliver(0),
    Call::Deliver(0),
    Call::Join(14),
    Call::Deliver(0),
    Call::Deliver(0),
    // the table is inserted, its copies arrive last first, and it is looked up by its second replica
    Call::Insert(5, 77),
    Call::Deliver(3),
    Call::Deliver(2),
    Call::Deliver(1),
    Call::Deliver(0),
    Call::Lookup(5, 2),
    Call::Deliver(0),
    Call::Collect(1),
    // a station joins ahead of that replica's owner: not yet, until the handover lands
    Call::Join(10),
    Call::Lookup(5, 2),
    Call::Deliver(1),
    Call::Collect(2),
    Call::Deliver(0),
    Call::Deliver(0),
    Call::Lookup(5, 2),
    Call::Deliver(0),
    Call::Collect(3),
    // the table is inserted anew while two stations leave, and messages are taken out of order
    Call::Insert(5, 78),
    Call::Leave(8),
    Call::Leave(14),
    Call::Deliver(5),
    Call::Deliver(0),
    Call::Deliver(1),
    Call::Deliver(4),
    // the third replica shows the new table
    Call::Lookup(5, 3),
    Call::Deliver(4),
    Call::Collect(4),
    // the rest arrives
    Call::Deliver(3),
    Call::Deliver(2),
    Call::Deliver(1),
    Call::Deliver(0),
    // stations leave until the last may not
    Call::Leave(3),
    Call::Deliver(0),
    Call::Leave(10),
    // and the table is still there
    Call::Lookup(5, 1),
    Call::Deliver(0),
    Call::Collect(5),
    // nothing waits and nothing is asked any more
    Call::Deliver(0),
    Call::Collect(5),
];

fn main(rt: HostRuntime) -> anyhow::Result<()> {
    let settings = Settings::new(16, 4)?;
    let mut cells = [CopyRecord::default(); 16];
    let mut places = [Message::blank(); 8];
    let mut shelf = RackShelf::make(&mut cells);
    let mut post = RackPost::make(&mut places);
    let mut orders = WEEK.map(|call| Order {
        call,
        answer: Answer::Done,
    });
    let _ring = run(settings, &mut shelf, &mut post, &mut orders);
    for order in orders {
        println!(rt; "{}: {}", order.call, order.answer)?;
    }
    Ok(())
}
