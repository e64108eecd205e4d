// The same lists of calls over every pairing of shelf and post: the answers are the same.
#![tactic(auto)]

#[cfg(test)]
mod tests {
    use arithmetic::Settings;
    use byte_posts::BytePost;
    use copies::CopyRecord;
    use holders::{Post, Shelf};
    use log_shelves::LogShelf;
    use messages::Message;
    use rack_posts::RackPost;
    use rack_shelves::RackShelf;
    use racks::Blank;
    use rules::{Answer, Call};
    use runs::{Order, run};
    use std::array;
    use std::test::Fail;

    // A xorshift generator.
    #[derive(Drop)]
    struct Dice(u64);

    impl Dice {
        fn roll(&mut self, below: u64) -> u64 {
            self.0 ^= self.0.wrapping_shl(13);
            self.0 ^= self.0.wrapping_shr(7);
            self.0 ^= self.0.wrapping_shl(17);
            if below == 0 { 0 } else { self.0 % below }
        }

        fn call(&mut self) -> Call {
            match self.roll(16) {
                0 | 1 => Call::Join(self.roll(17)),
                2 => Call::Leave(self.roll(17)),
                3 | 4 => Call::Insert(self.roll(17), self.roll(u64::MAX)),
                5 | 6 => Call::Lookup(self.roll(17), self.roll(6)),
                7 => Call::Collect(self.roll(8)),
                _ => Call::Deliver(self.roll(5)),
            }
        }
    }

    fn drawn(seed: u64) -> [Order; 300] {
        let mut dice = Dice(seed);
        array::from_fn(|_| Order {
            call: dice.call(),
            answer: Answer::Done,
        })
    }

    // What a ring over the shelf and the post answers.
    fn answers<S: Shelf, P: Post<Message>>(
        settings: Settings,
        seed: u64,
        shelf: &mut S,
        post: &mut P,
    ) -> [Answer; 300] {
        let mut orders = drawn(seed);
        let _ring = run(settings, shelf, post, &mut orders);
        orders.map(|order| order.answer)
    }

    #[test]
    fn answers_agree(rt: HostRuntime) -> Result<(), Fail> {
        let settings = Settings::new(16, 4)?;
        for seed in 1..200 {
            let racks = answers(
                settings,
                seed,
                &mut RackShelf::make(&mut [CopyRecord::default(); 40]),
                &mut RackPost::make(&mut [Message::blank(); 12]),
            );
            let rack_and_bytes = answers(
                settings,
                seed,
                &mut RackShelf::make(&mut [CopyRecord::default(); 40]),
                &mut BytePost::make(&mut [7u8; 270]),
            );
            let log_and_bytes = answers(
                settings,
                seed,
                &mut LogShelf::make(&mut [7u8; 725]),
                &mut BytePost::make(&mut [7u8; 270]),
            );
            assert!(rt; racks == rack_and_bytes);
            assert!(rt; racks == log_and_bytes);
        }
        Ok(())
    }
}
