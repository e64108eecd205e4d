// (rack shelves have examples much like these: told once for both, they would lie in a third crate, apart from those that show the memory,
// and with an `at` and an `entry` of its own)
use copies::{Coordinate, CopyRecord, Entry};
use faults::Fault;
use holders::{Holder, Shelf, has_room_for, put_then_find};
use log_shelves::LogShelf;

fn at(peer: u16, replica: u8, place: u16) -> Coordinate {
    Coordinate {
        peer,
        replica,
        place,
    }
}

fn entry(value: u64) -> Entry {
    Entry { stamp: 1, value }
}

#[test]
fn a_shelf_of_size_0_keeps_nothing(rt: HostRuntime) {
    let mut memory = [9u8; 17];
    {
        let mut shelf = LogShelf::make(&mut memory);
        assert_eq!(rt; shelf.size(), 0);
        assert_eq!(rt; shelf.put(at(1, 1, 1), entry(5)), Err(Fault::ShelfFull(0)));
        assert_eq!(rt; shelf.find(at(1, 1, 1)), None);
        assert_eq!(rt; shelf.take(at(1, 1, 1)), None);
    }
    assert!(rt; memory == [9u8; 17]);
}

#[test]
fn a_shelf_of_size_1_overwrites_and_refuses(rt: HostRuntime) {
    let mut memory = [9u8; 20];
    let mut shelf = LogShelf::make(&mut memory);
    assert!(rt; has_room_for(&shelf, 1) && !has_room_for(&shelf, 2));
    assert_eq!(rt;
        put_then_find(&mut shelf, at(1, 1, 1), entry(5)),
        Ok(Some(entry(5)))
    );
    assert_eq!(rt;
        put_then_find(&mut shelf, at(1, 1, 1), entry(6)),
        Ok(Some(entry(6)))
    );
    assert_eq!(rt; shelf.put(at(1, 2, 1), entry(7)), Err(Fault::ShelfFull(0)));
    assert_eq!(rt; shelf.kept(), 1);
    assert_eq!(rt; shelf.take(at(1, 1, 1)), Some(entry(6)));
    assert_eq!(rt; shelf.kept(), 0);
    // with no free record the take moved the others up, and there are none
    let bytes = shelf.into_memory();
    assert!(rt; bytes.len() == 20);
    assert!(rt; bytes[..18] == [0; 18]);
    assert!(rt; bytes[18..] == [9; 2]);
}

#[test]
fn a_take_appends_a_gone_record(rt: HostRuntime) {
    let mut memory = [9u8; 54];
    let mut shelf = LogShelf::make(&mut memory);
    assert_eq!(rt;
        shelf.put(at(258, 3, 772), Entry { stamp: 7, value: 8 }),
        Ok(())
    );
    assert_eq!(rt; shelf.take(at(1, 1, 1)), None);
    assert_eq!(rt;
        shelf.take(at(258, 3, 772)),
        Some(Entry { stamp: 7, value: 8 })
    );
    assert_eq!(rt; shelf.find(at(258, 3, 772)), None);
    let bytes = shelf.into_memory();
    assert!(rt; bytes.len() == 54);
    assert!(rt; bytes[..18] == [1, 3, 1, 2, 3, 4, 0, 0, 0, 7, 0, 0, 0, 0, 0, 0, 0, 8]);
    assert!(rt; bytes[18..24] == [2, 3, 1, 2, 3, 4]);
    assert!(rt; bytes[24..] == [0; 30]);
}

#[test]
fn a_put_with_no_free_record_moves_the_others_up(rt: HostRuntime) {
    let mut memory = [9u8; 54];
    let mut shelf = LogShelf::make(&mut memory);
    assert_eq!(rt; shelf.put(at(1, 1, 1), entry(1)), Ok(()));
    assert_eq!(rt; shelf.put(at(2, 2, 2), entry(2)), Ok(()));
    assert_eq!(rt; shelf.put(at(1, 1, 1), entry(3)), Ok(()));
    assert_eq!(rt; shelf.put(at(3, 3, 3), entry(4)), Ok(()));
    assert_eq!(rt; shelf.kept(), 3);
    assert_eq!(rt; shelf.put(at(4, 4, 4), entry(5)), Err(Fault::ShelfFull(0)));
    assert_eq!(rt; shelf.find(at(1, 1, 1)), Some(entry(3)));
    assert_eq!(rt; shelf.find(at(2, 2, 2)), Some(entry(2)));
    let bytes = shelf.into_memory();
    assert!(rt; bytes.len() == 54);
    assert!(rt; bytes[..18] == [1, 2, 0, 2, 0, 2, 0, 0, 0, 1, 0, 0, 0, 0, 0, 0, 0, 2]);
    assert!(rt; bytes[18..36] == [1, 1, 0, 1, 0, 1, 0, 0, 0, 1, 0, 0, 0, 0, 0, 0, 0, 3]);
    assert!(rt; bytes[36..] == [1, 3, 0, 3, 0, 3, 0, 0, 0, 1, 0, 0, 0, 0, 0, 0, 0, 4]);
}

#[test]
fn next_goes_by_place_then_replica(rt: HostRuntime) {
    let mut memory = [9u8; 108];
    let mut shelf = LogShelf::make(&mut memory);
    assert_eq!(rt; shelf.put(at(1, 2, 7), entry(1)), Ok(()));
    assert_eq!(rt; shelf.put(at(1, 1, 7), entry(2)), Ok(()));
    assert_eq!(rt; shelf.put(at(1, 1, 8), entry(3)), Ok(()));
    assert_eq!(rt; shelf.put(at(2, 1, 3), entry(4)), Ok(()));
    assert_eq!(rt;
        shelf.next(1, 0, 9),
        Some(CopyRecord {
            at: at(1, 1, 7),
            held: entry(2),
        })
    );
    assert_eq!(rt; shelf.take(at(1, 1, 7)), Some(entry(2)));
    assert_eq!(rt;
        shelf.next(1, 0, 9),
        Some(CopyRecord {
            at: at(1, 2, 7),
            held: entry(1),
        })
    );
    assert_eq!(rt;
        shelf.next(1, 8, 9),
        Some(CopyRecord {
            at: at(1, 1, 8),
            held: entry(3),
        })
    );
    assert_eq!(rt; shelf.next(1, 9, 9), None);
    shelf.clear();
    assert_eq!(rt; shelf.next(1, 0, 9), None);
}

#[test]
fn what_lies_beyond_4096_records_stays(rt: HostRuntime) {
    let mut memory = [9u8; 73_750];
    {
        let mut shelf = LogShelf::make(&mut memory);
        assert_eq!(rt; shelf.size(), 4096);
        assert_eq!(rt; shelf.put(at(1, 1, 1), entry(5)), Ok(()));
        shelf.empty();
    }
    assert!(rt; memory[0] == 0 && memory[73_727] == 0);
    assert!(rt; memory[73_728..] == [9; 22]);
}
