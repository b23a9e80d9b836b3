//! `dfc`, a dependence flow graph compiler for integer Fortran 77.
#![tactic(auto)]

use dfc_streams::dfc_on_streams;
use std::alloc::{AllocError, Global};
use std::io::{BufWriter, IsTerminal};
use std::process::ExitCode;
use std::{env, io};

// The words could not be had from the system.
const NO_WORDS: u8 = 8;

// There was no memory for the words, for the buffer or for the work.
const NO_MEMORY: u8 = 7;

// Standard output failed.
const WRITE_FAULT: u8 = 6;

// Standard input failed.
const READ_FAULT: u8 = 5;

// How large the block is that `keep_memory` takes, in bytes.
const KEPT: usize = 16 << 20;

// How many bytes of output are held back, so that a long trace is not a system call for each line.
const HELD_BACK: usize = 64 << 10;

fn main(rt: HostRuntime) -> ExitCode {
    keep_memory(rt.alloc());
    let status = match arguments(&rt) {
        Ok(words) => do_words(&rt, &words),
        Err(status) => status,
    };
    let _told = tell(&rt, status);
    ExitCode::from(status)
}

// Takes a large block and gives it back. The C library then keeps blocks up to this size that are given back, and hands them out again,
// where it would return each block of some pages to the system and pay for the pages of the next one anew. No page of the block itself is
// touched. Where it can't be had, nothing changes.
fn keep_memory(alloc: Global) {
    let _block: Result<Vec<u8>, AllocError> = Vec::with_capacity(alloc, KEPT);
}

// Does what the words ask for on standard input and output, and answers the status to end with. To a terminal each line goes out as it is
// told, so that who waits for a long run sees what it has printed.
fn do_words(rt: &HostRuntime, words: &Vec<String>) -> u8 {
    let output = rt.stdout();
    let room = if output.is_terminal() { 0 } else { HELD_BACK };
    match BufWriter::with_capacity(rt.alloc(), room, output) {
        Ok(output) => dfc_on_streams(rt.alloc(), words, rt.stdin(), output).status,
        Err(_) => NO_MEMORY,
    }
}

// The words after the program's name, or the status to end with.
fn arguments(rt: &HostRuntime) -> Result<Vec<String>, u8> {
    let all = match env::args(rt) {
        Ok(all) => all,
        Err(error) if error.kind() == io::ErrorKind::OutOfMemory => return Err(NO_MEMORY),
        Err(_) => return Err(NO_WORDS),
    };
    let mut words = Vec::new(rt.alloc());
    for word in all.skip(1) {
        if words.push(word).is_err() {
            return Err(NO_MEMORY);
        }
    }
    Ok(words)
}

// Says on standard error what failed.
fn tell(rt: &HostRuntime, status: u8) -> io::Result<()> {
    match status {
        READ_FAULT => eprintln!(rt; "dfc: standard input failed"),
        WRITE_FAULT => eprintln!(rt; "dfc: standard output failed"),
        NO_MEMORY => eprintln!(rt; "dfc: memory ran out"),
        NO_WORDS => eprintln!(rt; "dfc: the arguments could not be read"),
        _ => Ok(()),
    }
}
