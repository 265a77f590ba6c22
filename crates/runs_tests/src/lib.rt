//! Whole runs and disturbed runs of a machine of five queues, a TLB over the walker and a page data set. The answers are
//! worked out by hand from docs/RULES.md.
#![tactic(auto)]

#[cfg(test)]
mod tests {
    use dataset::data_set::DataSet;
    use layout::Sizes;
    use layout::entries::entry;
    use machine::Machine;
    use model::calls::{Call, IplRefusal, Refusal, Reply};
    use model::shape::Partition;
    use queues::FiveQueues;
    use runs::disturbed::work_disturbed;
    use runs::handed::Handed;
    use runs::start::Start;
    use runs::stopped::Stopped;
    use runs::whole::work;
    use std::alloc::{AllocError, Global};
    use std::test::*;
    use translation::{Tlb, Walker};

    // One pageable frame, 2, and two pages, 2 and 3, with key 1.
    const SIZES: Sizes = Sizes {
        frames: 3,
        supervisor: 2,
        pages: 4,
    };

    const PARTITIONS: [Partition; 1] = [Partition {
        first: 2,
        count: 2,
        key: 1,
    }];

    // Main storage that IPL takes.
    const LENGTH: usize = 6144;

    // A byte of page 2, and of page 3.
    const LOADS: [Call; 2] = [
        Call::Load {
            address: 4096,
            key: 1,
        },
        Call::Load {
            address: 6144,
            key: 1,
        },
    ];

    fn start() -> Start<'static> {
        Start {
            sizes: SIZES,
            partitions: &PARTITIONS,
        }
    }

    fn machine(heap: Global) -> Result<Machine<Tlb<Walker>, FiveQueues, DataSet>, Fail> {
        let slots = DataSet::blank(heap, 2)?;
        Ok(Machine::new(Tlb::over(Walker::new()), FiveQueues::new(), slots))
    }

    fn zeros(heap: Global, length: usize) -> Result<Vec<u8>, AllocError> {
        vec![in heap; 0u8; length]
    }

    // A byte that is stored comes back after another page had the frame.
    #[test]
    fn whole(rt: HostRuntime) -> Result<(), Fail> {
        let heap = rt.alloc();
        let mut machine = machine(heap)?;
        let mut storage = zeros(heap, LENGTH)?;
        let stored = Call::Store {
            address: 4096,
            key: 1,
            byte: 7,
        };
        let calls = [stored, LOADS[1], LOADS[0]];
        let answers = work(&mut machine, &mut storage, start(), &calls, heap)?;
        assert_eq!(rt;
            answers.as_slice(),
            [Ok(Reply::Done), Ok(Reply::Byte(0)), Ok(Reply::Byte(7))].as_slice()
        );
        Ok(())
    }

    // A refused IPL is told, and no call is made.
    #[test]
    fn not_begun(rt: HostRuntime) -> Result<(), Fail> {
        let heap = rt.alloc();
        let mut machine = machine(heap)?;
        let mut storage = zeros(heap, LENGTH - 1)?;
        let told = work(&mut machine, &mut storage, start(), &LOADS, heap);
        assert!(rt; told.err() == Some(Stopped::Refused(IplRefusal::Sizes)));
        assert_eq!(rt; machine.frames(), 0);
        Ok(())
    }

    // Each call works on the main storage that it is handed: one that is too short, zeros for tables, and what IPL leaves.
    #[test]
    fn disturbed(rt: HostRuntime) -> Result<(), Fail> {
        let heap = rt.alloc();
        let mut tables = zeros(heap, LENGTH)?;
        let started = work(&mut machine(heap)?, &mut tables, start(), &[], heap)?;
        assert_eq!(rt; started.len(), 0);
        let mut machine = machine(heap)?;
        let mut storage = zeros(heap, LENGTH)?;
        let mut calls = vec![in heap;
            Handed {
                storage: zeros(heap, 0)?,
                call: LOADS[0]
            },
            Handed {
                storage: zeros(heap, LENGTH)?,
                call: LOADS[0]
            },
            Handed {
                storage: tables,
                call: LOADS[0]
            },
        ]?;
        let answers = work_disturbed(&mut machine, &mut storage, start(), &mut calls, heap)?;
        assert_eq!(rt;
            answers.as_slice(),
            [
                Err(Refusal::Sizes),
                Err(Refusal::Tables),
                Ok(Reply::Byte(0))
            ]
            .as_slice()
        );
        // Page 2 came into frame 2 in the last storage alone.
        assert_eq!(rt; entry(&calls[1].storage, 2), 0);
        assert_eq!(rt; entry(&calls[2].storage, 2), 0x0011);
        assert_eq!(rt; entry(&storage, 2), 0x0015);
        Ok(())
    }
}
