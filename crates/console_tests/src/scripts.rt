//! Numbers at their edges, commands to the machine, and lines that write no command.
use model::shape::Partition;
use script::command::{Command, parse};
use script::number::{NotNumber, number};
use script::start::Start;
use script::verb::Verb;
use script::wrong::Wrong;
use std::alloc::Global;
use std::test::Fail;

#[test]
fn numbers_that_fit(rt: HostRuntime) {
    assert_eq!(rt; number(b"0", 0), Ok(0));
    assert_eq!(rt; number(b"4294967295", u32::MAX), Ok(u32::MAX));
    assert_eq!(rt; number(b"X'ffFF'", 65_535), Ok(65_535));
    assert_eq!(rt; number(b"X'000000000000000000FF'", 255), Ok(255));
}

#[test]
fn numbers_that_do_not_fit(rt: HostRuntime) {
    assert!(rt; number(b"4294967296", u32::MAX).is_err());
    assert!(rt; number(b"X'100'", 255).is_err());
    assert!(rt; number(b"", 9).is_err());
    assert!(rt; number(b"X''", 9).is_err());
    assert!(rt; number(b"x'1'", 9).is_err());
}

#[test]
fn lines(rt: HostRuntime) {
    let heap = rt.alloc();
    assert_eq!(rt; parse(heap, b"  # a comment"), Ok(None));
    assert_eq!(rt;
        parse(heap, b"\tSLOT X'10'#10\r\n"),
        Ok(Some(Command::Slot(16)))
    );
    assert_eq!(rt; parse(heap, b"SLOT \xff"), Err(Wrong::NotText));
    assert_eq!(rt; parse(heap, b"slot 8"), Err(Wrong::NoCommand));
    assert_eq!(rt; parse(heap, b"LOADS 0 1"), Err(Wrong::NoCommand));
}

// Whether a line writes a command.
fn writes(heap: Global, line: &str, command: &Command) -> bool {
    match parse(heap, line.as_bytes()) {
        Ok(Some(read)) => read == *command,
        _ => false,
    }
}

// Whether a line is wrong, and for this reason.
fn is_wrong(heap: Global, line: &str, why: Wrong) -> bool {
    match parse(heap, line.as_bytes()) {
        Ok(_) => false,
        Err(wrong) => wrong == why,
    }
}

// Whether each of some lines has too many or too few words behind a verb.
fn want_others(heap: Global, verb: Verb, lines: &[&str]) -> bool {
    lines
        .iter()
        .all(|line| is_wrong(heap, line, Wrong::Arguments(verb)))
}

// Whether each of some lines has a number that is too large.
fn are_too_large(heap: Global, verb: Verb, lines: &[&str]) -> bool {
    let why = Wrong::Number(verb, NotNumber::TooLarge);
    lines.iter().all(|line| is_wrong(heap, line, why))
}

// Whether each of some lines has a word that is no number.
fn are_no_numbers(heap: Global, verb: Verb, lines: &[&str]) -> bool {
    let why = Wrong::Number(verb, NotNumber::Malformed);
    lines.iter().all(|line| is_wrong(heap, line, why))
}

#[test]
fn loads_and_stores(rt: HostRuntime) {
    let heap = rt.alloc();
    assert!(rt; writes(heap, "LOAD 4294967295 255", &Command::Load(u32::MAX, 255)));
    assert!(rt;
        writes(
            heap,
            "STORE X'FFFFFFFF' 16 X'fF'",
            &Command::Store(u32::MAX, 16, 255)
        )
    );
    let large = ["LOAD 4294967296 1", "LOAD 0 256", "LOAD 0 X'100'"];
    assert!(rt; are_too_large(heap, Verb::Load, &large));
    let large = ["STORE 4294967296 0 0", "STORE 0 256 0", "STORE 0 0 256"];
    assert!(rt; are_too_large(heap, Verb::Store, &large));
}

#[test]
fn other_calls(rt: HostRuntime) {
    let heap = rt.alloc();
    assert!(rt; writes(heap, "FIX 4294967295", &Command::Fix(u32::MAX)));
    assert!(rt; writes(heap, "FREE 8 # not 9", &Command::Free(8)));
    assert!(rt; writes(heap, "PURGE", &Command::Purge));
    assert!(rt; writes(heap, "SETTLE", &Command::Settle));
    assert!(rt; are_too_large(heap, Verb::Fix, &["FIX 4294967296"]));
}

#[test]
fn looks(rt: HostRuntime) {
    let heap = rt.alloc();
    assert!(rt; writes(heap, "ENTRY X'8'", &Command::Entry(8)));
    assert!(rt; writes(heap, "KEYS 4294967295 0", &Command::Keys(u32::MAX, 0)));
    assert!(rt; writes(heap, "FRAMES", &Command::Frames));
    assert!(rt; writes(heap, "QUEUES", &Command::Queues));
    assert!(rt; writes(heap, "PAIRS", &Command::Pairs));
    assert!(rt; writes(heap, "STATE", &Command::State));
}

#[test]
fn missing_words(rt: HostRuntime) {
    let heap = rt.alloc();
    assert!(rt; want_others(heap, Verb::Load, &["LOAD", "LOAD 0", "LOAD 0 0 0"]));
    assert!(rt; want_others(heap, Verb::Store, &["STORE 0 0", "STORE 0 0 0 0"]));
    assert!(rt; want_others(heap, Verb::Keys, &["KEYS 0", "KEYS 0 1 2"]));
    assert!(rt; want_others(heap, Verb::State, &["STATE 0"]));
}

// A partition, in the order in which its word has the numbers.
fn partition(first: u32, count: u32, key: u8) -> Partition {
    Partition { first, count, key }
}

#[test]
fn starts(rt: HostRuntime) -> Result<(), Fail> {
    let heap = rt.alloc();
    let worked = Start {
        frames: 5,
        supervisor: 2,
        pages: 33,
        partitions: vec![in heap; partition(8, 24, 1), partition(32, 1, 2)]?,
    };
    let line = "IPL partition=8,24,1 pages=33 frames=5 partition=X'20',1,2 supervisor=2";
    assert!(rt; writes(heap, line, &Command::Ipl(worked)));
    Ok(())
}

#[test]
fn starts_of_nothing(rt: HostRuntime) {
    let heap = rt.alloc();
    let nothing = Start {
        frames: 0,
        supervisor: 0,
        pages: 0,
        partitions: Vec::new(heap),
    };
    assert!(rt; writes(heap, "IPL", &Command::Ipl(nothing)));
}

#[test]
fn starts_with_six(rt: HostRuntime) -> Result<(), Fail> {
    let heap = rt.alloc();
    let six = Start {
        frames: u32::MAX,
        supervisor: 0,
        pages: 0,
        partitions: vec![in heap; partition(1, u32::MAX, 255); 6]?,
    };
    let one = "partition=1,4294967295,255";
    let line = format!(in heap; "IPL {one} {one} {one} frames=4294967295 {one} {one} {one}")?;
    assert!(rt; writes(heap, line.as_str(), &Command::Ipl(six)));
    Ok(())
}

#[test]
fn wrong_starts(rt: HostRuntime) {
    let heap = rt.alloc();
    let two = ["IPL partition=1", "IPL partition=1,2"];
    assert!(rt; want_others(heap, Verb::Ipl, &two));
    let four = [
        "IPL partition=1,2,3,4",
        "IPL partition=1,,3",
        "IPL supervisor=",
    ];
    assert!(rt; are_no_numbers(heap, Verb::Ipl, &four));
    let large = [
        "IPL frames=4294967296",
        "IPL partition=1,2,256",
        "IPL partition=1,4294967296,3",
    ];
    assert!(rt; are_too_large(heap, Verb::Ipl, &large));
    assert!(rt; is_wrong(heap, "IPL pages=0 pages=0", Wrong::Twice(Verb::Ipl)));
    assert!(rt; is_wrong(heap, "IPL slots=31", Wrong::UnknownWord(Verb::Ipl)));
    assert!(rt; is_wrong(heap, "IPL frames", Wrong::UnknownWord(Verb::Ipl)));
}
