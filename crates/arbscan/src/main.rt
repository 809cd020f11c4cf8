//! The program `arbscan`: real files and the real output under `desk`.
#![tactic(auto)]

use desk_io::{FileOpener, OutSink};
use scan_desk::exit_code;
use scan_desk::status::WANT_OF_MEMORY;
use std::alloc::AllocError;
use std::process::ExitCode;
use std::rt::Env;
use std::{env, io};

/// The arguments of the process, the program's name first. If one of them is no text, there are none, and no command.
fn arguments<R: Env + AllocGlobal>(rt: &R) -> Result<Vec<String>, AllocError> {
    match env::args(rt) {
        Ok(arguments) => arguments.collect(rt.alloc()),
        Err(error) if error.kind() == io::ErrorKind::InvalidData => Ok(Vec::new(rt.alloc())),
        Err(_) => Err(AllocError),
    }
}

fn main(rt: HostRuntime) -> ExitCode {
    let Ok(arguments) = arguments(&rt) else {
        return ExitCode::from(WANT_OF_MEMORY);
    };
    let mut opener = FileOpener::new(&rt);
    let mut sink = OutSink::new(io::writer(&rt));
    exit_code(rt.alloc(), &arguments, &mut opener, &mut sink)
}
