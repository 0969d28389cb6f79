//! The encoder of the 28 single-byte encodings.
ghost use Rattle.std.specs.Prelude.{◌≡◌, ◌+◌, ◌≤◌, option_map, length, take, IfOk};
ghost use Rattle.std.specs.Str.{IsUtf8, chars};
ghost use Rattle.index_loader.specs.Table.{pointer_limit};
ghost use Rattle.encoders.specs.{Bytewise.IsBytewise, SingleByte.single_byte_bytes, Stateless.one};

use crate::over_index::IndexRules;
use decoder_core::{Few, LONGEST_RUN};
use enc_names::Scalar;
use index_loader::Index;
use lane_ascii::ascii_run;
use std::alloc::{AllocError, Global};

/// The number of bytes that are gathered before they are appended.
const BLOCK: usize = 64;

/// The rules of the encoder of the 28 single-byte encodings (Encoding Standard).
pub(crate) enum SingleByte {}

impl IndexRules for SingleByte {
    ghost use Rattle.encoders.specs.StatelessLaws.{by_ascii_or};

    ghost limit = { 127 };

    ghost written = { single_byte_bytes };

    #[inline(always)]
    fn bytes(index: &Index, code_point: char) -> Option<Few> {
        Some(Few::One(byte_of(index, code_point)?))
    }

    ghost ascii = { λ e c is. by_ascii_or _ c is };
}

/// The byte of a code point, if it has one.
// In the loop over the code points.
#[inline(always)]
fn byte_of(index: &Index, code_point: char) -> Option<u8>
    requires { pointer_limit index.now.kind ≡ 127 }
    ensures { option_map one result ≡ single_byte_bytes index.now code_point }
{
    if code_point.is_ascii() {
        return Some(code_point as u8);
    }
    let pointer = index.pointer(Scalar::from(code_point))?;
    Some(pointer as u8 + 0x80)
}

/// Whether a text begins with a run of ASCII worth copying. Copying is faster than looking up only
/// for such runs.
// In the loop over the code points.
#[inline(always)]
fn begins_run(text: &[u8]) -> bool {
    matches!(text, [0..0x80, 0..0x80, 0..0x80, 0..0x80, ..])
}

/// Writes a byte for each leading code point. Returns their number and the rest of the text. It
/// ends when the block is full, at a code point without a byte, and at a run of ASCII.
// A function of its own, lest its loop share the registers of whatever calls it.
#[inline(never)]
fn write_front<'t>(index: &Index, text: &'t str, block: &mut [u8; 64]) -> (usize, &'t str)
    requires { pointer_limit index.now.kind ≡ 127 }
    ensures front { IsBytewise index.now (chars text.now) (take result.0 block.new) (chars result.1.now) }
    ensures room { result.0 ≤ 64 }
    ensures valid { IsUtf8 result.1.now }
    ensures shorter { length result.1.now + result.0 ≤ length text.now }
{
    let mut rest = text.chars();
    let mut count = 0;
    'code_points: while count < BLOCK {
        let here = rest.as_str();
        let Some(code_point) = rest.next() else {
            return (count, here);
        };
        if code_point.is_ascii() && begins_run(here.as_bytes()) {
            return (count, here);
        }
        let Some(byte) = byte_of(index, code_point) else {
            return (count, here);
        };
        block[count] = byte;
        count += 1;
    }
    (count, rest.as_str())
}

/// Writes the bytes of the leading code points that have one each. Returns the rest of the text: none,
/// or one that begins with a code point without a byte.
pub(crate) fn front_of<'t>(
    alloc: Global,
    index: &Index,
    text: &'t str,
) -> Result<(Vec<u8>, &'t str), AllocError>
    requires { pointer_limit index.now.kind ≡ 127 }
    ensures { IfOk result (λ r. IsBytewise index.now (chars text.now) r.0.items (chars r.1.now)) }
{
    let mut bytes = Vec::with_capacity(alloc, text.len())?;
    let mut block = [0; 64];
    let mut rest = text;
    'parts: loop {
        let near = &rest.as_bytes()[..rest.len().min(LONGEST_RUN)];
        let (run, others) = rest.split_at(ascii_run(near));
        bytes.extend_from_slice(run.as_bytes())?;
        let (count, behind) = write_front(index, others, &mut block);
        if run.is_empty() && count == 0 {
            return Ok((bytes, others));
        }
        bytes.extend_from_slice(&block[..count])?;
        rest = behind;
    }
}
