//! The program `pyrros`: its words, standard input, output and error, handed to the library.
#![tactic(auto)]

use pyr_port::{StdSink, StdSource};
use pyr_proc::Free;
use pyr_top::{Status, pyrros};
use std::process::ExitCode;
use std::{env, io};

// What the program exits with where its words can't be read, but not for want of memory.
const NO_WORDS: u8 = 1;

fn main(rt: HostRuntime) -> ExitCode {
    let words = match words(&rt) {
        Ok(words) => words,
        Err(error) if error.kind() == io::ErrorKind::OutOfMemory => {
            return ExitCode::from(Status::Memory.code());
        }
        Err(_) => return ExitCode::from(NO_WORDS),
    };
    let mut source = StdSource::new(rt.stdin());
    let mut out = StdSink::new(rt.stdout());
    let mut err = StdSink::new(rt.stderr());
    let status = pyrros(
        &rt,
        rt.alloc(),
        &words,
        &mut source,
        &mut out,
        &mut err,
        &Free,
    );
    ExitCode::from(status.code())
}

// The arguments without the program's name.
fn words(rt: &HostRuntime) -> io::Result<Vec<String>> {
    Ok(env::args(rt)?.skip(1).collect(rt.alloc())?)
}
