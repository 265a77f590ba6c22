//! The figures of the worked machine and of its nine cases: those that `cases_stand` proves of the rules.
ghost use Rattle.std.specs.Prelude.{◌≡◌};
ghost use Rattle.cases.specs.Table.{all_nine, answers_i, calls_i, configured, load, on_queue, partition, row_a, row_of, step_of, steps_e, steps_f, steps_g, steps_h, walk_of, walks_c, walks_d};

use model::calls::{Answer, Call, Refusal, Reply};
use model::shape::Partition;
use queues::Queue;
use tables::Refusal as Exception;

/// What the worked machine has before its first IPL, and what IPL is given.
#[derive(Clone, Copy, PartialEq, Eq, Debug)]
pub struct Configuration {
    /// how many slots the data set has
    pub slots: u32,
    /// how many frames of 2,048 bytes main storage has
    pub frames: u32,
    /// how many of the frames are the supervisor's
    pub supervisor: u32,
    /// how many virtual pages there are
    pub pages: u32,
    pub partitions: [Partition; 2],
}

/// A frame that a queue holds.
#[derive(Clone, Copy, PartialEq, Eq, Debug)]
pub struct Held {
    pub queue: Queue,
    pub frame: u8,
}

/// What is seen of the pageable frames.
#[derive(Clone, Copy, PartialEq, Eq, Debug)]
pub struct Row {
    /// the page of each, X'FFFF' for none
    pub pages: [u16; 3],
    /// the storage key of each
    pub keys: [u8; 3],
    /// what the queues hold: Q00 first, HQ last, each from its head
    pub held: [Held; 3],
}

/// A call, what it answers, and what is seen then.
#[derive(Clone, Copy, PartialEq, Eq, Debug)]
pub struct Step {
    pub call: Call,
    pub answer: Answer,
    pub left: Row,
}

/// A walk of the translation tables: a virtual address, and its real address or the exception.
#[derive(Clone, Copy, PartialEq, Eq, Debug)]
pub struct Walk {
    pub address: u32,
    pub answer: Result<usize, Exception>,
}

/// What is done with the worked machine and seen of it, case by case. A to H are one run.
#[derive(Clone, Copy)]
pub struct Table {
    pub configuration: Configuration,
    /// the pageable frames, of which each row tells
    pub pageable: [u8; 3],
    /// A: words of main storage after IPL, each with its place in bytes
    pub words: [(usize, u32); 3],
    /// A: what is seen of the frames after IPL
    pub started: Row,
    /// B: pages and their entries
    pub entries: [(u16, u16); 4],
    /// C: walks with the control words of the machine
    pub walks: [Walk; 4],
    /// D: walks, each with another word in the place of control word 0
    pub other_walks: [(u32, Walk); 2],
    /// E: a Store, and an entry after it
    pub stores: [Step; 1],
    pub stored: [(u16, u16); 1],
    /// F: Loads until a frame is taken, and an entry after them
    pub loads: [Step; 3],
    pub loaded: [(u16, u16); 1],
    /// G: Loads until a changed page is put out, and its entry
    pub more_loads: [Step; 2],
    pub put_out: [(u16, u16); 1],
    /// G: a slot, and the byte that it holds in front of zeros
    pub slot: (u32, u8),
    /// H: a Load of that page, and refusals
    pub refusals: [Step; 5],
    /// I: calls after the same IPL anew
    pub fixes: [Call; 8],
    /// I: what they answer
    pub fixed: [Answer; 8],
}

// No page, in a record of the frame table.
const NONE: u16 = 0xFFFF;

// What is answered by a call that reads a byte of zeros, and by one that reads none.
const ZERO: Answer = Ok(Reply::Byte(0));

const DONE: Answer = Ok(Reply::Done);

impl Row {
    // Pages, storage keys and what the queues hold.
    fn new(pages: [u16; 3], keys: [u8; 3], held: [Held; 3]) -> Row
        ensures { result ≡ row_of pages keys held }
    {
        Row { pages, keys, held }
    }
}

impl Step {
    // A call, what it answers, and what is seen then.
    fn new(call: Call, answer: Answer, left: Row) -> Step
        ensures { result ≡ step_of call answer left }
    {
        Step { call, answer, left }
    }
}

impl Walk {
    // A virtual address, and what it gives.
    fn new(address: u32, answer: Result<usize, Exception>) -> Walk
        ensures { result ≡ walk_of address answer }
    {
        Walk { address, answer }
    }
}

// A frame that Q00, Q01 or HQ holds.
fn q00(frame: u8) -> Held
    ensures { result ≡ on_queue Queue.Q00 frame }
{
    Held {
        queue: Queue::Q00,
        frame,
    }
}

fn q01(frame: u8) -> Held
    ensures { result ≡ on_queue Queue.Q01 frame }
{
    Held {
        queue: Queue::Q01,
        frame,
    }
}

fn hq(frame: u8) -> Held
    ensures { result ≡ on_queue Queue.Hq frame }
{
    Held {
        queue: Queue::Hq,
        frame,
    }
}

// A Load with key 1.
fn load(address: u32) -> Call
    ensures { result ≡ load address }
{
    Call::Load { address, key: 1 }
}

// A partition: its first page, how many pages it has, its key.
fn partition(first: u32, count: u32, key: u8) -> Partition
    ensures { result ≡ partition first count key }
{
    Partition { first, count, key }
}

// What the machine has before its first IPL, and what IPL is given.
fn configured() -> Configuration
    ensures { result ≡ configured }
{
    Configuration {
        slots: 31,
        frames: 5,
        supervisor: 2,
        pages: 33,
        partitions: [partition(8, 24, 1), partition(32, 1, 2)],
    }
}

// A: what is seen after IPL.
fn row_a() -> Row
    ensures { result ≡ row_a }
{
    Row::new([NONE, NONE, NONE], [0, 0, 0], [q00(2), q00(3), q00(4)])
}

// C: walks with the machine's control words.
fn walks_c() -> [Walk; 4]
    ensures { result ≡ walks_c }
{
    [
        Walk::new(4095, Ok(4095)),
        Walk::new(16_384, Err(Exception::PageTranslation)),
        Walk::new(131_072, Err(Exception::SegmentTranslation)),
        Walk::new(1_048_576, Err(Exception::SegmentTranslation)),
    ]
}

// D: a walk, with each of two words in the place of control word 0.
fn walks_d() -> [(u32, Walk); 2]
    ensures { result ≡ walks_d }
{
    let walk = Walk::new(4095, Err(Exception::TranslationSpecification));
    [(0x0000_0000, walk), (0x0060_0000, walk)]
}

// E: a Store brings page 8 into frame 2.
fn steps_e() -> [Step; 1]
    ensures { result ≡ steps_e }
{
    let stored = Call::Store {
        address: 16_384,
        key: 1,
        byte: 7,
    };
    [Step::new(
        stored,
        DONE,
        Row::new([8, NONE, NONE], [0x16, 0, 0], [q00(3), q00(4), hq(2)]),
    )]
}

// F: three Loads, the last of which takes frame 3.
fn steps_f() -> [Step; 3]
    ensures { result ≡ steps_f }
{
    [
        Step::new(
            load(18_432),
            ZERO,
            Row::new([8, 9, NONE], [0x16, 0x14, 0], [q00(4), hq(2), hq(3)]),
        ),
        Step::new(
            load(20_480),
            ZERO,
            Row::new([8, 9, 10], [0x16, 0x14, 0x14], [hq(2), hq(3), hq(4)]),
        ),
        Step::new(
            load(22_528),
            ZERO,
            Row::new([8, 11, 10], [0x12, 0x14, 0x10], [q00(4), q01(2), hq(3)]),
        ),
    ]
}

// G: two Loads, which take frame 4 and frame 2.
fn steps_g() -> [Step; 2]
    ensures { result ≡ steps_g }
{
    [
        Step::new(
            load(24_576),
            ZERO,
            Row::new([8, 11, 12], [0x12, 0x14, 0x14], [q01(2), hq(3), hq(4)]),
        ),
        Step::new(
            load(26_624),
            ZERO,
            Row::new([13, 11, 12], [0x14, 0x14, 0x14], [hq(3), hq(4), hq(2)]),
        ),
    ]
}

// H: a Load brings page 8 back; what is refused leaves all as it was.
fn steps_h() -> [Step; 5]
    ensures { result ≡ steps_h }
{
    let left = Row::new([13, 8, 12], [0x10, 0x14, 0x10], [q00(4), q00(2), hq(3)]);
    let store = Call::Store {
        address: 16_384,
        key: 2,
        byte: 9,
    };
    [
        Step::new(load(16_384), Ok(Reply::Byte(7)), left),
        Step::new(store, Err(Refusal::Protection), left),
        Step::new(load(4095), Err(Refusal::Protection), left),
        Step::new(load(4096), Err(Refusal::Addressing), left),
        Step::new(load(131_072), Err(Refusal::Addressing), left),
    ]
}

// I: calls after the same IPL anew.
fn calls_i() -> [Call; 8]
    ensures { result ≡ calls_i }
{
    [
        Call::Fix { page: 8 },
        Call::Fix { page: 9 },
        Call::Fix { page: 10 },
        load(22_528),
        load(20_480),
        Call::Free { page: 8 },
        load(22_528),
        Call::Free { page: 8 },
    ]
}

// I: what they answer.
fn answers_i() -> [Answer; 8]
    ensures { result ≡ answers_i }
{
    [
        DONE,
        DONE,
        DONE,
        Err(Refusal::AllFixed),
        ZERO,
        DONE,
        ZERO,
        Err(Refusal::NotFixed),
    ]
}

/// The nine cases: what is done, and what is seen.
pub fn nine_cases() -> Table
    ensures { result ≡ all_nine }
{
    Table {
        configuration: configured(),
        pageable: [2, 3, 4],
        words: [
            (1024, 0xF000_0800),
            (1028, 0xF000_0840),
            (1032, 0x0000_0001),
        ],
        started: row_a(),
        entries: [(1, 0x0009), (2, 0x8005), (8, 0x0015), (32, 0x0025)],
        walks: walks_c(),
        other_walks: walks_d(),
        stores: steps_e(),
        stored: [(8, 0x0011)],
        loads: steps_f(),
        loaded: [(9, 0x0015)],
        more_loads: steps_g(),
        put_out: [(8, 0x0014)],
        slot: (6, 7),
        refusals: steps_h(),
        fixes: calls_i(),
        fixed: answers_i(),
    }
}
