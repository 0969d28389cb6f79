//! Runs of bytes that are their own code points, in bulk.
ghost use Rattle.std.specs.Prelude.{◌≡◌, ◌≤◌, length, take};
ghost use Rattle.decoder_core.specs.Bulk.{IsBulk, IsOwnText};
ghost use Rattle.decoder_core.specs.AsciiRuns.{run_len, TakesAscii, IsRunBulk};

use crate::ascii_runs::AsciiRuns;
use crate::bulk::{Bulk, NO_BULK, Stride};
use crate::handler::Handler;
use lane_ascii::{ascii_run, plain_run_iso};

/// The number of bytes in the block.
const BLOCK: usize = 1024;

/// The most bytes of a run to check before they are copied. It applies if a block's room doesn't
/// bound them. They are few enough to be still at hand when they are copied.
pub const LONGEST_RUN: usize = 16_384;

/// Counts the leading bytes of the class, if they may be enough for bulk. Each is its own code
/// point in this state.
// In the loop over the bytes.
#[inline(always)]
pub(crate) fn own_run<H: Handler>(
    _handler: &H,
    _state: H::State,
    runs: AsciiRuns,
    bytes: &[u8],
) -> usize
    requires { TakesAscii (H.table _handler.now) _state runs }
    ensures { IsOwnText (H.table _handler.now) _state bytes.now result }
{
    long_run(runs, bytes)
}

/// Like `own_run`, for a class.
#[inline(always)]
fn long_run(runs: AsciiRuns, bytes: &[u8]) -> usize
    ensures { result ≤ run_len runs bytes.now }
{
    if is_worth_it(runs, bytes) {
        front_run(runs, bytes, LONGEST_RUN)
    } else {
        0
    }
}

/// Takes the leading bytes of the class. Each is its own code point in this state.
// In the loop over the bytes.
#[inline(always)]
pub(crate) fn run_bulk<H: Handler>(
    _handler: &H,
    _state: H::State,
    runs: AsciiRuns,
    bytes: &[u8],
    text: &mut [u8; 1024],
) -> Bulk
    requires { TakesAscii (H.table _handler.now) _state runs }
    ensures { IsBulk (H.table _handler.now) _state bytes.now result text.new }
{
    copy_run(runs, bytes, text)
}

/// Copies the leading bytes of the class, if they may be enough for bulk.
#[inline(always)]
fn copy_run(runs: AsciiRuns, bytes: &[u8], text: &mut [u8; 1024]) -> Bulk
    ensures { IsRunBulk runs bytes.now result text.new }
{
    if !is_worth_it(runs, bytes) {
        return NO_BULK;
    }
    let taken = front_run(runs, bytes, BLOCK);
    copy_front(bytes, taken, text);
    Bulk {
        taken,
        written: taken,
        stride: Stride::Utf8,
    }
}

/// Whether a separate run pays. Between escapes it pays soon: what isn't taken in bulk there is
/// stepped over, with the escape and some bytes after it.
#[inline(always)]
fn is_worth_it(runs: AsciiRuns, bytes: &[u8]) -> bool {
    match runs {
        AsciiRuns::WithoutEscapes => match bytes.first_chunk::<4>() {
            Some([0x1B, ..]) => false,
            Some(front) => u32::from_le_bytes(*front) & 0x8080_8080 == 0,
            None => false,
        },
        AsciiRuns::All => begins_ascii(bytes),
        AsciiRuns::None => false,
    }
}

/// Whether the next bytes are ASCII, and enough that a separate run pays.
#[inline(always)]
pub(crate) fn begins_ascii(bytes: &[u8]) -> bool {
    match bytes.first_chunk::<16>() {
        Some(front) => u128::from_le_bytes(*front) & 0x8080_8080_8080_8080_8080_8080_8080_8080 == 0,
        None => false,
    }
}

/// Counts the leading bytes of the class among the first `most`.
#[inline(always)]
fn front_run(runs: AsciiRuns, bytes: &[u8], most: usize) -> usize
    ensures run { result ≤ run_len runs bytes.now }
    ensures room { result ≤ most }
    ensures within { result ≤ length bytes.now }
{
    class_run(runs, &bytes[..bytes.len().min(most)])
}

/// Counts the leading bytes of the class.
#[inline(always)]
fn class_run(runs: AsciiRuns, bytes: &[u8]) -> usize
    ensures { result ≡ run_len runs bytes.now }
{
    match runs {
        AsciiRuns::None => 0,
        AsciiRuns::All => ascii_run(bytes),
        AsciiRuns::WithoutEscapes => plain_run_iso(bytes),
    }
}

/// Copies the first bytes.
#[inline(always)]
fn copy_front(bytes: &[u8], taken: usize, text: &mut [u8; 1024])
    requires within { taken ≤ length bytes.now }
    requires room { taken ≤ 1024 }
    ensures { take taken text.new ≡ take taken bytes.now }
{
    text[..taken].copy_from_slice(&bytes[..taken]);
}
