//! `dfc_view`: charts, dependences, pictures, JSON and profiles of a program, what it prints, and what is wrong with a text that is none.
//!
//! It takes a file, or what `dfc` printed of a program from standard input, and writes standard output; what it can't do it tells on standard error.
//! Every function is proved to be safe and to end. docs/VIEWING.md shows the commands.
#![tactic(auto)]

mod host_files;

use df_io::{StdSink, StdSource};
use host_files::HostFiles;
use std::process::ExitCode;
use std::{env, io};
use view_jobs::{tell_fault, view_main};
use view_output::{Fault, Output, status};

fn main(rt: HostRuntime) -> ExitCode {
    match run(&rt) {
        Ok(status) => ExitCode::from(status),
        Err(fault) => {
            let _ = tell(&rt, fault);
            ExitCode::from(status(fault))
        }
    }
}

// Does what the words ask for, and answers the status to end with.
fn run(rt: &HostRuntime) -> Result<u8, Fault> {
    let words = words_of(rt)?;
    let files = HostFiles { rt };
    let mut source = StdSource::new(rt.stdin());
    let mut output = Output::new(rt.alloc(), StdSink::new(rt.stdout()))?;
    let mut errors = Output::new(rt.alloc(), StdSink::new(rt.stderr()))?;
    let status = view_main(
        rt.alloc(),
        words.as_slice(),
        &files,
        &mut source,
        &mut output,
        &mut errors,
    )?;
    errors.finish()?;
    output.finish()?;
    Ok(status)
}

// The words after the program's name.
fn words_of(rt: &HostRuntime) -> Result<Vec<String>, Fault> {
    let all = match env::args(rt) {
        Ok(all) => all,
        Err(error) if error.kind() == io::ErrorKind::OutOfMemory => return Err(Fault::NoMemory),
        Err(_) => return Err(Fault::NoWords),
    };
    let mut words = Vec::new(rt.alloc());
    for word in all.skip(1) {
        words.push(word)?;
    }
    Ok(words)
}

// Tells a fault on standard error.
fn tell(rt: &HostRuntime, fault: Fault) -> Result<(), Fault> {
    let mut errors = Output::new(rt.alloc(), StdSink::new(rt.stderr()))?;
    tell_fault(fault, &mut errors)?;
    errors.finish()
}
