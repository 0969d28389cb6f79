//! The number of leading bytes of a class.
ghost use Rattle.std.specs.Prelude.{◌≡◌, ◌+◌, ◌<◌, ◌≤◌, length, take, drop};
ghost use Rattle.std.specs.List.{prefix_len};
ghost use Rattle.lane_ascii.specs.Runs.{ascii_len, plain_len};

use crate::bits::lowest_set;
use crate::class::{Ascii, Class, Plain};
use std::simd::prelude::*;

/// The length of the longest prefix of ASCII bytes.
#[inline(always)]
pub fn ascii_run(bytes: &[u8]) -> usize
    ensures { result ≡ ascii_len bytes.now }
{
    run_of::<Ascii>(bytes)
}

/// The length of the longest prefix of bytes that ISO-2022-JP decodes to themselves. The state is
/// ASCII, so these are ASCII bytes that are neither a shift nor an escape (Encoding Standard,
/// "ISO-2022-JP decoder").
#[inline(always)]
pub fn plain_run_iso(bytes: &[u8]) -> usize
    ensures { result ≡ plain_len bytes.now }
{
    run_of::<Plain>(bytes)
}

#[inline(always)]
fn run_of<C: Class>(bytes: &[u8]) -> usize
    ensures { result ≡ prefix_len C.holds bytes.now }
{
    rest_of_run::<C>(bytes, whole_blocks::<C>(bytes))
}

/// Counts the bytes in leading blocks of 64 that are in the class throughout. It finds no place
/// inside a block, so its loop holds only vectors.
#[inline(always)]
fn whole_blocks<C: Class>(bytes: &[u8]) -> usize
    ensures { result ≤ prefix_len C.holds bytes.now }
{
    let mut at = 0;
    'whole: while bytes.len() - at >= 64 {
        if C::others_of_64(u8x64::from_slice(&bytes[at..])) != 0 {
            break;
        }
        at += 64;
    }
    at
}

/// The length of the run, of which `seen` bytes were seen. It is separate from the loop over
/// blocks: inlined, it would share a mask with that loop and slow it down.
#[cold]
#[inline(never)]
fn rest_of_run<C: Class>(bytes: &[u8], seen: usize) -> usize
    requires { seen ≤ prefix_len C.holds bytes.now }
    ensures { result ≡ prefix_len C.holds bytes.now }
{
    let mut at = seen;
    'steps: while bytes.len() - at >= 16 {
        let run = run_in_16::<C>(bytes, at);
        if run < 16 {
            return at + run;
        }
        at += 16;
    }
    end_of_run::<C>(bytes, at)
}

/// The run, of which all but fewer than 16 bytes were seen: the last load begins among those.
#[inline(always)]
fn end_of_run<C: Class>(bytes: &[u8], seen: usize) -> usize
    requires front { seen ≤ prefix_len C.holds bytes.now }
    requires rest { length bytes.now < seen + 16 }
    ensures { result ≡ prefix_len C.holds bytes.now }
{
    if bytes.len() >= 16 {
        let last = bytes.len() - 16;
        return last + run_in_16::<C>(bytes, last);
    }
    if bytes.len() >= 8 {
        let run = run_in_8::<C>(bytes, 0);
        if run < 8 {
            return run;
        }
        let last = bytes.len() - 8;
        return last + run_in_8::<C>(bytes, last);
    }
    short_run::<C>(bytes)
}

/// The run, byte by byte.
#[inline(always)]
fn short_run<C: Class>(bytes: &[u8]) -> usize
    ensures { result ≡ prefix_len C.holds bytes.now }
{
    let mut at = 0;
    'run: while at < bytes.len() && C::has(bytes[at]) {
        at += 1;
    }
    at
}

#[inline(always)]
fn run_in_16<C: Class>(bytes: &[u8], at: usize) -> usize
    requires { at + 16 ≤ length bytes.now }
    ensures { result ≡ prefix_len C.holds (take 16 (drop at bytes.now)) }
{
    lowest_set(C::others_of_16(u8x16::from_slice(&bytes[at..])), 16)
}

#[inline(always)]
fn run_in_8<C: Class>(bytes: &[u8], at: usize) -> usize
    requires { at + 8 ≤ length bytes.now }
    ensures { result ≡ prefix_len C.holds (take 8 (drop at bytes.now)) }
{
    lowest_set(C::others_of_8(u8x8::from_slice(&bytes[at..])), 8)
}
