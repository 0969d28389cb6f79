//! The program: documents in ten encodings, spliced at places that look random, and every call for
//! lines, positions, places and errors compared with a plain walk over their whole text. It ends
//! with status 1 where anything differs.
#![tactic(auto)]

mod compare;
mod documents;
mod line_ends;
mod spots;
mod tally;

use documents::{large_document, random_documents};
use enc_names::Encoding;
use line_ends::{LINE_ENDS, line_ends};
use oracle::{SAMPLES, small_indexes};
use piece_rope::DOCUMENT_LIMIT;
use rand::SeedableRng;
use rand::rngs::SmallRng;
use std::io;
use std::process::ExitCode;
use tally::CallTally;

/// The number of encodings with a document of the greatest length.
const LARGE: usize = 3;

/// Prints what was compared in one encoding, and says whether it told something.
fn print_tally(rt: &HostRuntime, given: Encoding, tally: Option<CallTally>) -> io::Result<bool> {
    let name = given.name();
    let Some(tally) = tally else {
        println!(rt; "{name}: a call was refused")?;
        return Ok(false);
    };
    let (documents, different) = (tally.documents, tally.calls.different);
    let [calls, out_of_range, split] = tally.calls.seen;
    println!(rt; "{name}: {calls} calls on {documents} documents, {different} differ")?;
    println!(rt; "    {out_of_range} out of range, {split} inside a character")?;
    let (borders, cut, visited) = (tally.borders, tally.cut, tally.visited);
    println!(rt; "    {borders} borders, {cut} between CR and LF, at most {visited} nodes a call")?;
    let (errors, empty) = (tally.errors, tally.empty);
    println!(rt; "    {errors} errors, {empty} without bytes")?;
    if !tally.is_telling() {
        println!(rt; "    not as it should be")?;
    }
    Ok(tally.is_telling())
}

/// Compares all documents, and says whether that told something.
fn compare_all(rt: &HostRuntime) -> io::Result<bool> {
    let Some(indexes) = small_indexes(rt.alloc()) else {
        println!(rt; "out of memory")?;
        return Ok(false);
    };
    let mut rng = SmallRng::seed_from_u64(3);
    let mut all = true;
    println!(rt; "Documents at random:")?;
    for sample in &SAMPLES {
        let tally = random_documents(rt.alloc(), &indexes, &mut rng, sample);
        all = print_tally(rt, sample.given, tally)? && all;
    }
    println!(rt; "A line end at each place round a border:")?;
    for case in &LINE_ENDS {
        let tally = line_ends(rt.alloc(), &indexes, &mut rng, case);
        all = print_tally(rt, case.given, tally)? && all;
    }
    println!(rt; "Documents of 16,777,216 bytes:")?;
    for sample in SAMPLES.iter().take(LARGE) {
        let tally = large_document(rt.alloc(), &indexes, &mut rng, sample, DOCUMENT_LIMIT);
        all = print_tally(rt, sample.given, tally)? && all;
    }
    Ok(all)
}

fn main(rt: HostRuntime) -> ExitCode {
    match compare_all(&rt) {
        Ok(true) => ExitCode::SUCCESS,
        _ => ExitCode::FAILURE,
    }
}
