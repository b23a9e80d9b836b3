//! `lower`: reads a program in everyday integer Fortran 77, and writes it in the language of `dfc`.
#![tactic(auto)]

use f77_lower::lower;
use fortran_tree::LowerError;
use std::io;
use std::io::{Read, Write};
use std::process::ExitCode;

/// The source can't be lowered.
const REFUSED: u8 = 2;

/// Standard input or output failed, or there was no memory.
const FAILED: u8 = 5;

fn main(rt: HostRuntime) -> ExitCode {
    match run(&rt) {
        Ok(status) => ExitCode::from(status),
        Err(_) => ExitCode::from(FAILED),
    }
}

/// Lowers standard input to standard output, and answers the status to end with.
fn run(rt: &HostRuntime) -> io::Result<u8> {
    let mut source = Vec::new(rt.alloc());
    rt.stdin().read_to_end(&mut source)?;
    match lower(rt.alloc(), source.as_slice()) {
        Ok(lowered) => {
            rt.stdout().write_all(lowered.text.as_slice())?;
            Ok(0)
        }
        Err(LowerError::NoMemory) => Ok(FAILED),
        Err(refused) => {
            rt.println(refused)?;
            Ok(REFUSED)
        }
    }
}
