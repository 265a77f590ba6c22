// Plays page reference strings on two frame policies, and prints what each holds after each reference: the list by
// recency, and the five queues.
#![tactic(auto)]

mod player;

ghost use Rattle.std.specs.Prelude.{◌≡◌, replicate};
ghost use Rattle.references.specs.Reference.{returned};

use frames::{KeyBits, Policy};
use lru_list::LruList;
use player::Player;
use queues::{FiveQueues, Queue};

// Frames 1 to 4 are returned, in order, with reference and change bit off. No frame has a page yet.
fn filled<P: Policy>(mut policy: P) -> Player<P>
    ensures held { P.Policy.model result.policy ≡ returned P.Policy.rules (P.Policy.model policy) 4 }
    ensures keys { result.keys ≡ replicate 256 0 }
    ensures pages { result.pages ≡ replicate 256 0 }
{
    let off = KeyBits {
        referred: false,
        changed: false,
    };
    for frame in 1u16..5 {
        policy.return_frame(frame, off);
    }
    Player {
        policy,
        keys: [0; 256],
        pages: [0; 256],
    }
}

// Prints the frames of a queue after its name.
fn show(rt: &HostRuntime, queues: &FiveQueues, queue: Queue) -> anyhow::Result<()> {
    print!(rt; " {queue}")?;
    let frames = queues.frames(rt.alloc(), queue)?;
    for frame in &frames {
        print!(rt; " {frame}")?;
    }
    Ok(())
}

// Plays one string of references to pages.
fn play(rt: &HostRuntime, pages: &[u8]) -> anyhow::Result<()> {
    let mut list = filled(LruList::new());
    let mut queues = filled(FiveQueues::new());
    for page in pages {
        list.refer(*page);
        queues.refer(*page);
        print!(rt; "page {page}: list")?;
        for frame in list.policy.held() {
            print!(rt; " {frame}")?;
        }
        print!(rt; ";")?;
        for queue in Queue::ALL {
            show(rt, &queues.policy, queue)?;
        }
        println!(rt; "")?;
    }
    Ok(())
}

fn main(rt: HostRuntime) -> anyhow::Result<()> {
    play(&rt, &[7, 4, 5, 8, 4, 7, 3, 5, 7, 4, 4, 7, 8, 5])?;
    println!(rt; "")?;
    play(&rt, &[1, 2, 3, 4, 1, 2, 5, 1, 2, 3, 4, 5])
}
