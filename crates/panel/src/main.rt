//! The operator's panel: reads a script from standard input, or from the file that its one argument names, and writes
//! the answer to each line before it reads the next.
#![tactic(auto)]

mod commands;
mod lines;
mod wired;

use lines::Console;
use script::wrong::Wrong;
use std::fs::File;
use std::io::{BufRead, BufReader, Read};
use std::{env, io};

// Carries one line of the script out, and prints what it answers.
fn answer(rt: &HostRuntime, console: &mut Console, number: u64, line: &[u8]) -> io::Result<()> {
    match console.obey(rt, line) {
        Ok(None) => Ok(()),
        Ok(Some(answer)) => println!(rt; "{answer}"),
        Err(wrong) => complain(rt, number, wrong),
    }
}

// Says what is wrong with a line.
fn complain(rt: &HostRuntime, number: u64, wrong: Wrong) -> io::Result<()> {
    println!(rt; "ERROR line {number}: {wrong}")
}

// Works a script, line by line, to its end. A line that finds no memory is wrong like any other.
fn work<R: BufRead + Drop>(rt: &HostRuntime, mut script: R) -> io::Result<()> {
    let mut console = Console::new();
    for number in 1..u64::MAX {
        let mut line = Vec::new(rt.alloc());
        match script.read_until(b'\n', &mut line) {
            Ok(0) => break,
            Ok(_) => {
                let _ = answer(rt, &mut console, number, &line);
            }
            Err(e) if e.kind() == io::ErrorKind::OutOfMemory => {
                let _ = complain(rt, number, Wrong::Memory);
                script.skip_until(b'\n')?;
            }
            Err(_) => return complain(rt, number, Wrong::Unreadable),
        }
    }
    Ok(())
}

// Works a script that is read from a source. Where there is no memory to read with, that is wrong.
fn work_from<R: Read + Drop>(rt: &HostRuntime, source: R) -> io::Result<()> {
    match BufReader::new(rt.alloc(), source) {
        Ok(script) => work(rt, script),
        Err(_) => complain(rt, 0, Wrong::Memory),
    }
}

fn main(rt: HostRuntime) -> io::Result<()> {
    let mut args = env::args(&rt)?;
    let Some(path) = args.nth(1) else {
        return work_from(&rt, rt.stdin());
    };
    match File::open(&rt, path) {
        Ok(file) => work_from(&rt, file),
        Err(_) => complain(&rt, 0, Wrong::Unreadable),
    }
}
