//! The program: a checksum for each encoding over the texts of all short documents.
#![tactic(auto)]

mod form;
mod sum;

use codec::CodecFault;
use enc_names::Encoding;
use form::FORMS;
use index_files::{EarlyEnd, indexes_in};
use index_loader::Indexes;
use std::env;
use std::process::ExitCode;
use sum::sum_of;

/// The words that it takes.
const USAGE: &str = "usage: decode_sums [DIR], DIR having the index files";

/// Prints the sum of each encoding.
fn print_sums(rt: &HostRuntime, indexes: &Indexes) -> Result<(), EarlyEnd> {
    for encoding in &Encoding::ALL {
        let name = encoding.name();
        match sum_of(rt.alloc(), indexes, *encoding, &FORMS) {
            Ok(sum) => {
                let digits = hex::encode(rt.alloc(), sum)?;
                println!(rt; "{name:<14} {digits}")?;
            }
            Err(CodecFault::NoIndex) => println!(rt; "{name:<14} no index")?,
            Err(CodecFault::OutOfMemory) => return Err(EarlyEnd::OutOfMemory),
            Err(CodecFault::Malformed(_)) => unreachable!(),
        }
    }
    Ok(())
}

/// Prints the sums over the index files of the folder that the words name; without one only five
/// encodings have a sum.
fn attempt(rt: &HostRuntime) -> Result<(), EarlyEnd> {
    let words: Vec<String> = env::args(rt)?.skip(1).collect(rt.alloc())?;
    let indexes = match words.as_slice() {
        [] => Indexes::new(),
        [folder] => indexes_in(rt, rt.alloc(), folder.as_str())?,
        _ => return Err(EarlyEnd::Mistake(USAGE)),
    };
    print_sums(rt, &indexes)
}

fn main(rt: HostRuntime) -> ExitCode {
    match attempt(&rt) {
        Ok(()) => ExitCode::SUCCESS,
        Err(failure) => {
            let _ = eprintln!(rt; "decode_sums: {failure}");
            ExitCode::from(failure.status())
        }
    }
}
