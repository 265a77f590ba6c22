//! Digests with known values, main storage at its edges, what entries say, and a board that finds no room.
use console::answer::Answer;
use console::board::Board;
use console::store;
use layout::Sizes;
use listing::digest::digest_of;
use listing::entry::PageEntry;
use listing::hexadecimal::hex_text;
use listing::lines::listed;
use listing::memory::{altered, displayed};
use model::calls::IplRefusal;
use model::shape::Partition;
use queues::FiveQueues;
use script::verb::Verb;
use script::wrong::Wrong;
use std::test::Fail;
use translation::{Tlb, Walker};

#[test]
fn digests(rt: HostRuntime) {
    assert_eq!(rt; digest_of(b""), 0xCBF2_9CE4_8422_2325);
    assert_eq!(rt; digest_of(b"a"), 0xAF63_DC4C_8601_EC8C);
    assert_eq!(rt; digest_of(b"foobar"), 0x8594_4171_F739_67E8);
}

#[test]
fn storage_at_its_edges(rt: HostRuntime) -> Result<(), Fail> {
    let mut storage = [0u8; 4];
    assert!(rt; !altered(&mut storage, 3, &[1, 2]));
    assert!(rt; !altered(&mut storage, 5, &[]));
    assert!(rt; altered(&mut storage, 2, &[0xAB, 0xCD]));
    assert!(rt; displayed(&storage, 4, 1).is_none());
    assert!(rt; displayed(&storage, 4, 0).is_some());
    let text = hex_text(rt.alloc(), &storage)?;
    assert_eq!(rt; text.as_str(), "0000ABCD");
    Ok(())
}

// Whether an entry is told in these words.
fn says(rt: &HostRuntime, entry: u16, words: &str) -> Result<bool, Fail> {
    let told = PageEntry::from(entry).to_string(rt.alloc())?;
    Ok(told.as_str() == words)
}

#[test]
fn entries_of_every_kind(rt: HostRuntime) -> Result<(), Fail> {
    assert!(rt; says(&rt, 0x0010, "frame 2")?);
    assert!(rt; says(&rt, 0x0011, "frame 2 never written")?);
    assert!(rt; says(&rt, 0x0014, "out key 1")?);
    assert!(rt; says(&rt, 0x00F5, "out key 15 never written")?);
    assert!(rt; says(&rt, 0x8005, "unused")?);
    assert!(rt; says(&rt, 0x8004, "unused")?);
    assert!(rt; says(&rt, 0x8001, "frame 4096 never written")?);
    assert!(rt; says(&rt, 0xFFFB, "frame 8191 never written")?);
    assert!(rt; says(&rt, 0x7F0E, "out key 0")?);
    Ok(())
}

#[test]
fn lines_of_items(rt: HostRuntime) -> Result<(), Fail> {
    let line = listed(rt.alloc(), "LRU", &[3u8, 255, 0])?;
    assert_eq!(rt; line.as_str(), "LRU 3 255 0");
    let none = listed(rt.alloc(), "Q00", &[0u8; 0])?;
    assert_eq!(rt; none.as_str(), "Q00");
    Ok(())
}

#[test]
fn marks_until_the_machine_starts(rt: HostRuntime) -> Result<(), Fail> {
    let heap = rt.alloc();
    let store = store::blank(heap, 31)?;
    let mut board = Board::new(heap, Tlb::over(Walker::new()), FiveQueues::new(), store);
    let sizes = Sizes {
        frames: 5,
        supervisor: 2,
        pages: 33,
    };
    let partitions = [Partition {
        first: 8,
        count: 24,
        key: 1,
    }];
    assert_eq!(rt; board.bad(30), Ok(Answer::Done(Verb::Bad)));
    let refused = board.ipl(heap, sizes, &partitions)?;
    assert!(rt; matches!(&refused, Answer::NotStarted(IplRefusal::Slot(_))));
    assert_eq!(rt; board.mark(30, 0), Ok(Answer::Opened));
    assert_eq!(rt;
        board.ipl(heap, sizes, &[])?,
        Answer::NotStarted(IplRefusal::Partitions)
    );
    assert_eq!(rt;
        board.ipl(heap, sizes, &partitions)?,
        Answer::Done(Verb::Ipl)
    );
    assert_eq!(rt; board.mark(30, 0), Err(Wrong::Started(Verb::Mark)));
    assert_eq!(rt; board.bad(30), Err(Wrong::Started(Verb::Bad)));
    assert_eq!(rt; board.store(16384, 1, 7), Answer::Done(Verb::Store));
    assert_eq!(rt; board.load(16384, 1), Answer::Byte(7));
    assert_eq!(rt; board.entry(8), Answer::Entry(8, 2064, 0x0011));
    Ok(())
}
