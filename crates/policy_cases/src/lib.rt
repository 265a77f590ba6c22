// Worked examples of the two frame policies. The figures are worked out by hand from the rules.
#![tactic(auto)]

#[cfg(test)]
mod tests {
    use frames::{KeyBits, Policy};
    use lru_list::LruList;
    use queues::{FiveQueues, Queue};
    use std::alloc::Global;
    use std::process::Abort;
    use std::test::*;

    // Whether the five queues, in the order of their names, have just these frames, the head first.
    fn stand(
        rt: &impl Abort,
        heap: Global,
        queues: &FiveQueues,
        expected: [&[u8]; 5],
    ) -> Result<(), Fail> {
        for (queue, expected) in Queue::ALL.into_iter().zip(expected) {
            let frames = queues.frames(heap, queue)?;
            assert_eq!(rt; frames.as_slice(), expected);
        }
        Ok(())
    }

    // The reference and the change bit.
    fn bits(referred: bool, changed: bool) -> KeyBits {
        KeyBits { referred, changed }
    }

    // Five Takes with four turns of the names, by keys that differ from the names of the queues.
    #[test]
    fn takes_by_turns(rt: HostRuntime) -> Result<(), Fail> {
        let mut queues = FiveQueues::new();
        assert!(rt; queues.return_frame(1, bits(false, false)));
        assert!(rt; queues.return_frame(2, bits(false, true)));
        assert!(rt; queues.return_frame(3, bits(true, false)));
        assert!(rt; queues.return_frame(4, bits(true, true)));
        assert!(rt; queues.enter(5));
        assert!(rt; queues.enter(6));
        stand(&rt, rt.alloc(), &queues, [&[1], &[2], &[3], &[4], &[5, 6]])?;
        let mut keys = [0u8; 256];
        keys[1] = 6;
        keys[2] = 4;
        keys[4] = 2;
        keys[5] = 4;
        keys[6] = 6;
        assert_eq!(rt; queues.take(&mut keys), Some(3));
        stand(
            &rt,
            rt.alloc(),
            &queues,
            [&[], &[4, 1, 2], &[5, 6], &[], &[]],
        )?;
        assert_eq!(rt; keys[1], 2);
        assert_eq!(rt; keys[2], 0);
        assert_eq!(rt; queues.take(&mut keys), Some(4));
        assert_eq!(rt; queues.take(&mut keys), Some(1));
        stand(&rt, rt.alloc(), &queues, [&[], &[2], &[5, 6], &[], &[]])?;
        keys[2] = 4;
        assert_eq!(rt; queues.take(&mut keys), Some(2));
        stand(&rt, rt.alloc(), &queues, [&[], &[], &[5], &[6], &[]])?;
        assert_eq!(rt; keys[6], 2);
        assert_eq!(rt; queues.take(&mut keys), Some(5));
        stand(&rt, rt.alloc(), &queues, [&[], &[6], &[], &[], &[]])?;
        assert!(rt; queues.leave(6));
        assert_eq!(rt; queues.take(&mut keys), None);
        Ok(())
    }

    // A frame that goes from Q00 to Q01 is looked at again in the same pass, behind those that stood there.
    #[test]
    fn looks_again(rt: HostRuntime) -> Result<(), Fail> {
        let mut queues = FiveQueues::new();
        assert!(rt; queues.return_frame(1, bits(false, false)));
        assert!(rt; queues.return_frame(2, bits(false, true)));
        let mut keys = [0u8; 256];
        keys[1] = 2;
        keys[2] = 6;
        assert_eq!(rt; queues.take(&mut keys), Some(1));
        stand(&rt, rt.alloc(), &queues, [&[], &[], &[], &[2], &[]])?;
        assert_eq!(rt; keys[1], 2);
        assert_eq!(rt; keys[2], 2);
        Ok(())
    }

    // A frame leaves from the middle of its queue; a refused call changes nothing.
    #[test]
    fn leaves_from_the_middle(rt: HostRuntime) -> Result<(), Fail> {
        let mut queues = FiveQueues::new();
        assert!(rt; queues.return_frame(0, bits(false, false)));
        assert!(rt; queues.return_frame(255, bits(false, false)));
        assert!(rt; queues.return_frame(7, bits(false, false)));
        assert!(rt; queues.leave(255));
        assert!(rt; !queues.leave(255));
        assert!(rt; !queues.enter(256));
        assert!(rt; !queues.enter(7));
        queues.touch(7);
        stand(&rt, rt.alloc(), &queues, [&[0, 7], &[], &[], &[], &[]])?;
        assert!(rt; queues.enter(255));
        stand(&rt, rt.alloc(), &queues, [&[0, 7], &[], &[], &[], &[255]])
    }

    // Touch of a held frame puts it last, and Take gives the first and keeps the keys.
    #[test]
    fn takes_the_least_recent(rt: HostRuntime) -> Result<(), Fail> {
        let mut list = LruList::new();
        assert!(rt; list.enter(9));
        assert!(rt; list.return_frame(3, bits(true, true)));
        assert!(rt; list.enter(0));
        list.touch(9);
        list.touch(4);
        assert_eq!(rt; list.held(), [3u8, 0, 9].as_slice());
        let mut keys = [4u8; 256];
        assert_eq!(rt; list.take(&mut keys), Some(3));
        assert_eq!(rt; keys[3], 4);
        assert_eq!(rt; list.held(), [0u8, 9].as_slice());
        Ok(())
    }
}
