//! The program: how fast the lane kernels, the codecs and the tree of sums are. Without words it
//! lists what it would measure.
#![tactic(auto)]

mod byte_kernels;
mod codecs;
mod command_line;
mod fastest;
mod lanes;
mod samples;
mod text_kernels;
mod tree;

use command_line::{Measurement, USAGE, job_of};
use index_files::EarlyEnd;
use std::env;
use std::process::ExitCode;

/// Lists what is measured, and how to ask.
fn list(rt: &HostRuntime) -> Result<(), EarlyEnd> {
    lanes::list(rt)?;
    codecs::list(rt)?;
    tree::list(rt)
}

/// Does a job.
fn perform(rt: &HostRuntime, job: Measurement<'_>) -> Result<(), EarlyEnd> {
    match job {
        Measurement::List => list(rt),
        Measurement::Lanes => lanes::measure(rt),
        Measurement::Codecs(Some(folder)) => codecs::measure(rt, folder),
        Measurement::Codecs(None) => codecs::list(rt),
        Measurement::Tree => tree::measure(rt),
    }
}

/// Does what the words ask.
fn attempt(rt: &HostRuntime) -> Result<(), EarlyEnd> {
    let words: Vec<String> = env::args(rt)?.skip(1).collect(rt.alloc())?;
    match job_of(&words) {
        Some(job) => perform(rt, job),
        None => Err(EarlyEnd::Mistake(USAGE)),
    }
}

fn main(rt: HostRuntime) -> ExitCode {
    match attempt(&rt) {
        Ok(()) => ExitCode::SUCCESS,
        Err(failure) => {
            let _ = eprintln!(rt; "speed: {failure}");
            ExitCode::from(failure.status())
        }
    }
}
