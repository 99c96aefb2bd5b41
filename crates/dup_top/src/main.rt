//! The program: does what the words of its command line say, over standard input and output.
#![tactic(auto)]

use dup_io::{StdSink, StdSource};
use dup_main::desk_main;
use std::alloc::{AllocError, Global};
use std::env;
use std::io::ErrorKind;
use std::process::ExitCode;

// The words behind the program's own name. None where one isn't UTF-8, which is no command line that is
// known.
fn words_of(rt: &HostRuntime, alloc: Global) -> Result<Vec<String>, AllocError> {
    let args = match env::args(rt) {
        Ok(args) => args,
        Err(error) if error.kind() == ErrorKind::OutOfMemory => return Err(AllocError),
        Err(_) => return Ok(Vec::new(alloc)),
    };
    let mut words = Vec::new(alloc);
    for word in args.skip(1) {
        words.push(word)?;
    }
    Ok(words)
}

fn main(rt: HostRuntime) -> ExitCode {
    let alloc = rt.alloc();
    let Ok(words) = words_of(&rt, alloc) else {
        return ExitCode::from(6);
    };
    let mut input = StdSource::new(&rt);
    let mut out = StdSink::new(&rt);
    ExitCode::from(desk_main(&rt, alloc, &words, &mut input, &mut out))
}
