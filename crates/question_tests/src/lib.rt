// Examples of the questions about places and owners, run.
#![tactic(auto)]

#[cfg(test)]
mod tests {
    use arithmetic::{MOST_COPIES, Settings};
    use faults::{Fault, Layer};
    use questions::{Holding, result_ring_owner, result_ring_place, where_held};
    use std::test::Fail;

    // size, copies, item, replica and the answer
    const PLACES: [[u64; 5]; 16] = [
        [16, 4, 5, 1, 5],
        [16, 4, 5, 4, 1],
        [16, 4, 15, 2, 3],
        [1, 1, 0, 1, 0],
        [65_536, 8, 65_535, 8, 57_343],
        [12, 3, 11, 3, 7],
        [0, 4, 5, 1, 100_004],
        [65_537, 1, 5, 1, 100_004],
        [65_537, 0, 5, 0, 100_004],
        [16, 0, 5, 1, 100_005],
        [16, 3, 5, 1, 100_005],
        [27, 9, 5, 1, 100_005],
        [16, 3, 16, 0, 100_005],
        [16, 4, 16, 0, 100_006],
        [16, 4, 5, 0, 100_007],
        [16, 4, 5, 5, 100_007],
    ];

    #[test]
    fn places(rt: HostRuntime) {
        for [size, copies, item, replica, answer] in PLACES {
            assert_eq!(rt; result_ring_place(size, copies, item, replica), answer);
        }
    }

    #[test]
    fn owners(rt: HostRuntime) {
        let members = [0, 3, 0, 8, 0, 14];
        assert_eq!(rt; result_ring_owner(16, 9, &members), 14);
        assert_eq!(rt; result_ring_owner(16, 14, &members), 14);
        assert_eq!(rt; result_ring_owner(16, 15, &members), 3);
        assert_eq!(rt; result_ring_owner(16, 9, &[0, 3, 0, 3]), 3);
        assert_eq!(rt; result_ring_owner(65_536, 65_535, &[255, 254, 1, 0]), 256);
    }

    #[test]
    fn owners_refused(rt: HostRuntime) {
        assert_eq!(rt; result_ring_owner(0, 9, &[0]), 100_004);
        assert_eq!(rt; result_ring_owner(16, 16, &[0]), 100_006);
        assert_eq!(rt; result_ring_owner(16, 9, &[0]), 100_008);
        assert_eq!(rt; result_ring_owner(16, 9, &[0, 3, 0]), 100_008);
        assert_eq!(rt; result_ring_owner(16, 9, &[0, 3, 0, 16]), 100_008);
        assert_eq!(rt; result_ring_owner(16, 9, &[]), 100_012);
    }

    #[test]
    fn rows(rt: HostRuntime) -> Result<(), Fail> {
        let settings = Settings::new(16, 4)?;
        assert!(rt; settings.places(5) == ([5, 9, 13, 1, 0, 0, 0, 0], None));
        assert!(rt; settings.places(16) == ([0; MOST_COPIES], Some(Fault::Identifier)));
        Ok(())
    }

    #[test]
    fn held(rt: HostRuntime) -> Result<(), Fail> {
        let settings = Settings::new(16, 4)?;
        let members = [3, 8, 14];
        assert_eq!(rt;
            where_held(settings, &members, 5, 2),
            Ok(Holding {
                replica: 2,
                place: 9,
                owner: 14,
                share: 6,
            })
        );
        assert_eq!(rt;
            where_held(settings, &[8], 5, 2),
            Ok(Holding {
                replica: 2,
                place: 9,
                owner: 8,
                share: 0,
            })
        );
        assert_eq!(rt;
            where_held(settings, &members, 16, 9),
            Err(Fault::Identifier)
        );
        assert_eq!(rt; where_held(settings, &members, 5, 5), Err(Fault::Replica));
        assert_eq!(rt; where_held(settings, &[], 5, 4), Err(Fault::NoMember));
        Ok(())
    }

    #[test]
    fn faults_say_what_they_are(rt: HostRuntime) -> Result<(), Fail> {
        let heap = rt.alloc();
        assert_eq!(rt;
            format!(in heap; "{}", Fault::Replica)?.as_str(),
            "7: the replica is 0 or above the copies"
        );
        assert_eq!(rt; Fault::Unreadable(4).layer(), Layer::Sheet);
        assert_eq!(rt; Fault::ShelfFull(3).layer(), Layer::Shelf);
        assert_eq!(rt; Fault::PostFull(3).layer(), Layer::Post);
        assert_eq!(rt; Fault::NoQuestion.layer(), Layer::Ring);
        assert_eq!(rt; Fault::ShelfFull(3).figure(), 3);
        assert_eq!(rt; Fault::NoQuestion.figure(), 0);
        Ok(())
    }
}
