// (log shelves have examples much like these: told once for both, they would lie in a third crate, apart from those that show the memory,
// and with an `at` and an `entry` of its own)
use copies::{Coordinate, CopyRecord, Entry};
use faults::Fault;
use holders::{Holder, Shelf, has_room_for, put_then_find};
use rack_shelves::RackShelf;

const DUST: CopyRecord = CopyRecord {
    at: Coordinate {
        peer: 9,
        replica: 9,
        place: 9,
    },
    held: Entry { stamp: 9, value: 9 },
};

const BLANK: CopyRecord = CopyRecord {
    at: Coordinate {
        peer: 0,
        replica: 0,
        place: 0,
    },
    held: Entry { stamp: 0, value: 0 },
};

fn at(peer: u16, replica: u8, place: u16) -> Coordinate {
    Coordinate {
        peer,
        replica,
        place,
    }
}

fn entry(value: u64) -> Entry {
    Entry { stamp: 1, value }
}

#[test]
fn a_shelf_of_size_0_keeps_nothing(rt: HostRuntime) {
    let mut memory: [CopyRecord; 0] = [];
    let mut shelf = RackShelf::make(&mut memory);
    assert_eq!(rt; shelf.size(), 0);
    assert_eq!(rt; shelf.put(at(1, 1, 1), entry(5)), Err(Fault::ShelfFull(0)));
    assert_eq!(rt; shelf.find(at(1, 1, 1)), None);
    assert_eq!(rt; shelf.take(at(1, 1, 1)), None);
}

#[test]
fn a_shelf_of_size_1_overwrites_and_refuses(rt: HostRuntime) {
    let mut memory = [DUST; 1];
    let mut shelf = RackShelf::make(&mut memory);
    assert!(rt; has_room_for(&shelf, 1) && !has_room_for(&shelf, 2));
    assert_eq!(rt;
        put_then_find(&mut shelf, at(1, 1, 1), entry(5)),
        Ok(Some(entry(5)))
    );
    assert_eq!(rt;
        put_then_find(&mut shelf, at(1, 1, 1), entry(6)),
        Ok(Some(entry(6)))
    );
    assert_eq!(rt; shelf.put(at(1, 2, 1), entry(7)), Err(Fault::ShelfFull(0)));
    assert_eq!(rt; shelf.kept(), 1);
    assert_eq!(rt; shelf.take(at(1, 1, 1)), Some(entry(6)));
    assert_eq!(rt; shelf.kept(), 0);
}

#[test]
fn next_goes_by_place_then_replica(rt: HostRuntime) {
    let mut memory = [DUST; 4];
    let mut shelf = RackShelf::make(&mut memory);
    assert_eq!(rt; shelf.put(at(1, 2, 7), entry(1)), Ok(()));
    assert_eq!(rt; shelf.put(at(1, 1, 7), entry(2)), Ok(()));
    assert_eq!(rt; shelf.put(at(1, 1, 8), entry(3)), Ok(()));
    assert_eq!(rt; shelf.put(at(2, 1, 3), entry(4)), Ok(()));
    assert_eq!(rt; shelf.put(at(3, 1, 3), entry(5)), Err(Fault::ShelfFull(0)));
    assert_eq!(rt;
        shelf.next(1, 0, 9),
        Some(CopyRecord {
            at: at(1, 1, 7),
            held: entry(2),
        })
    );
    assert_eq!(rt;
        shelf.next(1, 8, 9),
        Some(CopyRecord {
            at: at(1, 1, 8),
            held: entry(3),
        })
    );
    assert_eq!(rt; shelf.next(1, 9, 9), None);
    shelf.clear();
    assert_eq!(rt; shelf.next(1, 0, 9), None);
}

#[test]
fn places_not_in_use_are_blank(rt: HostRuntime) {
    let mut memory = [DUST; 2];
    {
        let mut shelf = RackShelf::make(&mut memory);
        assert_eq!(rt; shelf.put(at(1, 1, 1), entry(5)), Ok(()));
        assert_eq!(rt; shelf.put(at(2, 2, 2), entry(6)), Ok(()));
        assert_eq!(rt; shelf.take(at(1, 1, 1)), Some(entry(5)));
    }
    assert_eq!(rt;
        memory[0],
        CopyRecord {
            at: at(2, 2, 2),
            held: entry(6),
        }
    );
    assert_eq!(rt; memory[1], BLANK);
}

#[test]
fn what_lies_beyond_the_size_stays(rt: HostRuntime) {
    let mut memory = [DUST; 4097];
    {
        let mut shelf = RackShelf::make(&mut memory);
        assert_eq!(rt; shelf.size(), 4096);
        shelf.empty();
    }
    assert_eq!(rt; memory[4095], BLANK);
    assert_eq!(rt; memory[4096], DUST);
}
