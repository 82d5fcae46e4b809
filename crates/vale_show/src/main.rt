//! Shows what a switch did: reads a transcript, and writes a summary of it, or a table of its ports.
#![tactic(auto)]

mod desk;
mod frame;
mod page;
mod refusals;
mod status;
mod summary;
mod table;
mod views;

use crate::desk::Desk;
use crate::status::{Status, report};
use crate::views::show;
use nm_io::{FileShelf, StdSink};
use std::alloc::AllocError;
use std::process::ExitCode;
use std::{env, io};

fn words_of_command(rt: &HostRuntime) -> io::Result<Vec<String>> {
    let mut words = Vec::new(rt.alloc());
    for word in env::args(rt)?.skip(1) {
        if words.push(word).is_err() {
            return Err(io::Error::from(AllocError));
        }
    }
    Ok(words)
}

fn main(rt: HostRuntime) -> ExitCode {
    let status = match words_of_command(&rt) {
        Ok(words) => show(
            rt.alloc(),
            &words,
            &mut Desk::new(FileShelf::new(&rt), rt.reader()),
            &mut StdSink::new(&rt),
        ),
        Err(error) if error.kind() == io::ErrorKind::OutOfMemory => Status::NoMemory,
        Err(_) => Status::Usage,
    };
    ExitCode::from(report(&mut StdSink::new(&rt.stderr()), &status))
}
