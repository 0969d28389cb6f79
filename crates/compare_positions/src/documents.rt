//! Random documents in one encoding.

use crate::compare::compare;
use crate::tally::CallTally;
use decoder_core::meter;
use enc_names::{Bom, Setting};
use index_loader::Indexes;
use oracle::{DrawnSplice, Sample, bytes_of, length, spliced};
use piece_rope::Doc;
use rand::RngExt;
use rand::rngs::SmallRng;
use std::alloc::Global;

/// The number of documents of each encoding.
const DOCUMENTS: usize = 40;

/// The most bytes that a splice takes out.
const TAKEN_OUT: usize = 3000;

/// A number up to this one. The draw stands alone: what it says of its number is long.
fn up_to(rng: &mut SmallRng, most: usize) -> usize {
    rng.random_range(0..=most)
}

/// Draws a splice of a document of `count` bytes. `None` if memory is refused.
fn drawn(alloc: Global, rng: &mut SmallRng, sample: &Sample, count: usize) -> Option<DrawnSplice> {
    let len = length(rng);
    let ins = bytes_of(alloc, rng, sample, len / 4)?;
    let at = up_to(rng, count);
    let del = up_to(rng, count.saturating_sub(at).min(TAKEN_OUT));
    Some(DrawnSplice { at, del, ins })
}

/// Makes a splice of the document and of its bytes. `None` if a call is refused.
fn make(alloc: Global, doc: &mut Doc<'_>, bytes: &[u8], splice: &DrawnSplice) -> Option<Vec<u8>> {
    let (at, del) = (splice.at as u64, splice.del as u64);
    doc.splice(at, del, &splice.ins, &mut meter()).ok()?;
    spliced(alloc, bytes, splice)
}

/// Compares the calls on a document, spliced up to three times. `None` if a call is refused.
fn one_document(
    alloc: Global,
    indexes: &Indexes,
    rng: &mut SmallRng,
    sample: &Sample,
    setting: Setting,
    tally: &mut CallTally,
) -> Option<()> {
    let len = length(rng);
    let mut bytes = bytes_of(alloc, rng, sample, len)?;
    let Setting { given, bom } = setting;
    let mut doc = Doc::open(alloc, indexes, given, bom, &bytes, &mut meter()).ok()?;
    for _ in 0..rng.random_range(0..4usize) {
        let splice = drawn(alloc, rng, sample, bytes.len())?;
        bytes = make(alloc, &mut doc, &bytes, &splice)?;
    }
    compare(alloc, rng, &doc, setting, &bytes, tally)
}

/// Compares the calls on random documents. `None` if a call is refused.
pub fn random_documents(
    alloc: Global,
    indexes: &Indexes,
    rng: &mut SmallRng,
    sample: &Sample,
) -> Option<CallTally> {
    let mut tally = CallTally::new();
    for number in 0..DOCUMENTS {
        let setting = sample.setting(number);
        one_document(alloc, indexes, rng, sample, setting, &mut tally)?;
    }
    Some(tally)
}

/// Compares the calls on a document of `count` bytes. `None` if a call is refused.
pub fn large_document(
    alloc: Global,
    indexes: &Indexes,
    rng: &mut SmallRng,
    sample: &Sample,
    count: usize,
) -> Option<CallTally> {
    let mut tally = CallTally::new();
    let drawn = bytes_of(alloc, rng, sample, count)?;
    let bytes = drawn.get(..count)?;
    let bom = Bom::Sniff;
    let doc = Doc::open(alloc, indexes, sample.given, bom, bytes, &mut meter()).ok()?;
    let setting = Setting::new(sample.given, bom);
    compare(alloc, rng, &doc, setting, bytes, &mut tally)?;
    Some(tally)
}
