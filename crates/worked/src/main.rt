// Plays the worked machine, and prints for each of its nine cases, A to I, whether what is seen of the machine is the same
// as what the rules give.
#![tactic(auto)]

mod board;
mod play;

use board::Board;
use cases::table::nine_cases;

// Prints the letter of a case, and how what is seen compares.
fn show(rt: &HostRuntime, letter: char, same: bool) -> anyhow::Result<()> {
    let word = if same { "same" } else { "differs" };
    println!(rt; "{letter} {word}")?;
    Ok(())
}

fn main(rt: HostRuntime) -> anyhow::Result<()> {
    let heap = rt.alloc();
    // A to H are one run.
    let table = nine_cases();
    let mut board = Board::new(heap, &table.configuration)?;
    show(&rt, 'A', play::a(&mut board, heap, &table)?)?;
    show(&rt, 'B', play::b(&board, &table))?;
    show(&rt, 'C', play::c(&board, &table))?;
    show(&rt, 'D', play::d(&board, &table))?;
    show(&rt, 'E', play::e(&mut board, heap, &table)?)?;
    show(&rt, 'F', play::f(&mut board, heap, &table)?)?;
    show(&rt, 'G', play::g(&mut board, heap, &table)?)?;
    show(&rt, 'H', play::h(&mut board, heap, &table)?)?;
    show(&rt, 'I', play::i(heap, &table)?)
}
