//! The program: its arguments, the files that they name, and the standard streams.
//!
//! Keeps: The program has files, arguments and a desk, and neither documents nor decoders.
#![tactic(auto)]

mod beginning;
mod checking;
mod compaction;
mod conversion;
mod course;
mod failure;
mod labels;
mod perform;
mod record_file;
mod replay;
mod stdio;
mod text_outlet;
mod token_file;
mod watched;

use failure::Failure;
use gateway::{FromRead, ToWrite};
use perform::perform;
use std::alloc::Global;
use std::env;
use std::io::{self, ErrorKind};
use std::process::ExitCode;

/// The arguments of the command line, without the program's name.
fn words(rt: &HostRuntime) -> io::Result<Vec<String>> {
    Ok(env::args(rt)?.skip(1).collect(rt.alloc())?)
}

/// Why the arguments can't be read: memory ran out, or one isn't text.
fn unread_words(error: &io::Error) -> Failure<'static> {
    match error.kind() {
        ErrorKind::OutOfMemory => Failure::OutOfMemory,
        _ => Failure::NotText,
    }
}

/// Runs what the arguments say over the standard streams, and returns the exit status.
fn served(rt: &HostRuntime, alloc: Global) -> u8 {
    let mut input = FromRead::new(rt.reader());
    let mut output = ToWrite::new(io::writer(rt));
    let mut error = ToWrite::new(rt.stderr());
    match words(rt) {
        Ok(words) => perform(rt, alloc, &words, &mut input, &mut output, &mut error),
        Err(why) => {
            let failure = unread_words(&why);
            failure.print(&mut error);
            failure.status()
        }
    }
}

fn main(rt: HostRuntime) -> ExitCode {
    ExitCode::from(served(&rt, rt.alloc()))
}
