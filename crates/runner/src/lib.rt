// Closes batches one after the other on one ledger, and prints the sheet of each, or its sentences.
#![tactic(auto)]

use anyhow::anyhow;
use batch::text::sheet_text;
use closing::batches::LONGEST_BATCH;
use closing::month::Month;
use explain::whole::explain;
use std::alloc::Global;
use std::fs::File;
use std::io::{Read, Write};
use std::{env, io};

// What is printed of a closed batch.
#[derive(Clone, Copy)]
enum Output {
    Sheet,
    Sentences,
}

// Closes a batch and prints what came of it.
fn close_bytes(
    rt: &HostRuntime,
    month: &mut Month,
    output: Output,
    bytes: &[u8],
) -> anyhow::Result<()> {
    let sheet = month.close(bytes, rt.alloc())?;
    match output {
        Output::Sheet => rt.write_all(&sheet_text(&sheet, rt.alloc())?)?,
        Output::Sentences => rt.print(explain(bytes, &sheet, rt.alloc())?)?,
    }
    Ok(())
}

// What an input holds. One byte more than a batch may have is read, so that a longer one shows.
fn read_bytes<I: Read + Drop>(input: I, heap: Global) -> io::Result<Vec<u8>> {
    let mut bytes = Vec::new(heap);
    let mut front = input.take(LONGEST_BATCH as u64 + 1);
    front.read_to_end(&mut bytes)?;
    Ok(bytes)
}

// The name of a file that cannot be opened, and why.
fn unopened(heap: Global, name: &str, why: io::Error) -> anyhow::Result<Vec<u8>> {
    Err(anyhow!(format!(in heap; "{name}: {why}")?))
}

// The batch that a word names: standard input by `-`, else a file.
fn read_batch(rt: &HostRuntime, word: &str) -> anyhow::Result<Vec<u8>> {
    if word == "-" {
        return Ok(read_bytes(rt.stdin(), rt.alloc())?);
    }
    match File::open(rt, word) {
        Ok(file) => Ok(read_bytes(file, rt.alloc())?),
        Err(e) => unopened(rt.alloc(), word, e),
    }
}

// The words in order: `--explain` has sentences printed from there on, and any other names a batch. Without a batch
// standard input is closed.
pub fn run(rt: &HostRuntime) -> anyhow::Result<()> {
    let mut month = Month::new(rt.alloc())?;
    let mut output = Output::Sheet;
    let mut closed = false;
    for word in env::args(rt)?.skip(1) {
        if word.as_str() == "--explain" {
            output = Output::Sentences;
        } else {
            closed = true;
            close_bytes(rt, &mut month, output, &read_batch(rt, word.as_str())?)?;
        }
    }
    if !closed {
        close_bytes(rt, &mut month, output, &read_batch(rt, "-")?)?;
    }
    Ok(())
}
