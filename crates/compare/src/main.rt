// Closes one batch under two routers, and shows what they share and where they differ.
#![tactic(auto)]

use crate::script::{Script, Stop, read};
use crate::tables::{print_calls, print_lines, print_nets};
use closing::batches::LONGEST_BATCH;
use credit::refusal::Refusal;
use filling::router::{Breadth, Scaling};
use replay::replay::close_twice;
use routing::direct::Direct;
use routing::kept::Kept;
use std::alloc::Global;
use std::fs::File;
use std::io::Read;
use std::{env, io};

mod script;
mod tables;

// Closes the calls under direct first over breadth and under kept over scaling.
fn compare(rt: &HostRuntime, script: &Script) -> anyhow::Result<()> {
    let mut direct = Direct::new(Breadth {});
    let mut kept = Kept::new(Scaling {});
    let runs = close_twice(rt.alloc(), &script.calls, &mut direct, &mut kept)?;
    print_calls(rt, &runs)?;
    print_lines(rt, &runs)?;
    print_nets(rt, &runs)
}

// Compares the calls of a batch, and says where it was left.
fn compare_bytes(rt: &HostRuntime, bytes: &[u8]) -> anyhow::Result<()> {
    if bytes.len() > LONGEST_BATCH {
        println!(rt; "{}", Refusal::BatchTooLong)?;
        return Ok(());
    }
    let script = read(rt.alloc(), bytes)?;
    compare(rt, &script)?;
    if let Some(Stop { line, refusal }) = script.stop {
        println!(rt; "Line {line} and what follows were left out: {refusal}.")?;
    }
    Ok(())
}

// What an input holds. One byte more than a batch may have is read, so that a longer one shows.
fn read_bytes<I: Read + Drop>(input: I, heap: Global) -> io::Result<Vec<u8>> {
    let mut bytes = Vec::new(heap);
    let mut front = input.take(LONGEST_BATCH as u64 + 1);
    front.read_to_end(&mut bytes)?;
    Ok(bytes)
}

// The first argument names a file; without one, standard input is read.
fn run(rt: &HostRuntime) -> anyhow::Result<()> {
    let bytes = match env::args(rt)?.nth(1) {
        Some(path) => read_bytes(File::open(rt, path.as_str())?, rt.alloc())?,
        None => read_bytes(rt.stdin(), rt.alloc())?,
    };
    compare_bytes(rt, &bytes)
}

fn main(rt: HostRuntime) -> anyhow::Result<()> {
    run(&rt)
}
