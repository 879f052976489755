//! The tool: reads a session of recorded WebGL 1.0 calls from standard input, writes the replies to standard
//! output, and writes the driver's stream to a file; or reads such a stream and replays it. The contract in one
//! sentence: `tool::run_tool` answers a session as the page's machine does, and the stream that it sends replays
//! to exactly the same; what stands here hands it the words of the command line and the real ends, and tells its
//! status.
#![tactic(auto)]

#[cfg(test)]
mod attrib_encoded;
#[cfg(test)]
mod attrib_tests;
#[cfg(test)]
mod buffer_tests;
#[cfg(test)]
mod encoded;
#[cfg(test)]
mod fault_tests;
#[cfg(test)]
mod filling;
#[cfg(test)]
mod in_short;
#[cfg(test)]
mod over_memory;
#[cfg(test)]
mod raster_tests;
#[cfg(test)]
mod replay_tests;
#[cfg(test)]
mod state_tests;
#[cfg(test)]
mod tests;
mod tool;

use std::io;
use std::process::ExitCode;
use std::rt::Env;
use tool::run_tool;
use wire_io::{LazyFile, Status, StdSink, StdSource};

/// The words after the program's name; Usage where one of them is no text, OutOfMemory where memory runs out.
fn read_words<R: Env + AllocGlobal>(rt: &R) -> Result<Vec<String>, Status> {
    let words = match std::env::args(rt) {
        Ok(words) => words,
        Err(error) => {
            return Err(match error.kind() {
                io::ErrorKind::OutOfMemory => Status::OutOfMemory,
                _ => Status::Usage,
            });
        }
    };
    let Ok(words) = words.skip(1).collect(rt.alloc()) else {
        return Err(Status::OutOfMemory);
    };
    Ok(words)
}

/// The exit status of the program: the status's place among the eight, from 0.
fn exit_status(status: Status) -> u8 {
    match status {
        Status::Ok => 0,
        Status::OutOfMemory => 1,
        Status::Usage => 2,
        Status::BadInput { .. } => 3,
        Status::Truncated { .. } => 4,
        Status::ReadFault => 5,
        Status::WriteFault => 6,
        Status::ReplayFault { .. } => 7,
    }
}

/// Tells a status other than Ok in one line on standard error. Nobody can be told where that fails.
fn tell(rt: &impl Eprint, status: Status) {
    let _ = match status {
        Status::Ok => Ok(()),
        Status::Usage => eprintln!(rt; "usage: webgl_tool run PATH | replay"),
        other => eprintln!(rt; "{other}"),
    };
}

fn main(rt: HostRuntime) -> ExitCode {
    let status = match read_words(&rt) {
        Ok(words) => {
            let path = words.last().map_or("", |word| word.as_str());
            let mut input = StdSource::new(rt.stdin());
            let mut out = StdSink::new(rt.stdout());
            let mut stream = LazyFile::new(&rt, path);
            run_tool(
                rt.alloc(),
                words.as_slice(),
                &mut input,
                &mut out,
                &mut stream,
            )
        }
        Err(status) => status,
    };
    tell(&rt, status);
    ExitCode::from(exit_status(status))
}
