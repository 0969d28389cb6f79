//! The run of an encoder over a text.
ghost use Rattle.std.specs.Prelude.{◌≡◌, ◌++◌, All, IfOk, MatchOption, length};
ghost use Rattle.std.specs.{Char.encode_utf8, Str.IsUtf8, Str.chars};
ghost use Rattle.decoder_core.specs.EncoderOutput.{IsFrom, PutAll, PutError, PutOne};
ghost use Rattle.decoder_core.specs.EncoderSteps.{PutsItself, encoded_from, taken};
ghost use Rattle.decoder_core.specs.EncoderRuns.{IsRun};

use crate::byte_blocks::ByteBlocks;
use crate::encoder::{Encoder, EncoderAnswer, EncoderTurn};
use crate::fault::{FromFault, PutFault};
use crate::run_bulk::LONGEST_RUN;
use itoa::Buffer;
use std::alloc::{AllocError, Global};

/// An error at a code point: its character reference, or a fault.
#[cold]
fn put_error(html: bool, code_point: char, out: &mut ByteBlocks) -> Result<(), PutFault>
    ensures { PutError html code_point out.old.bytes result out.new.bytes }
{
    if !html {
        return Err(PutFault::Unencodable(code_point));
    }
    out.put_slice(b"&#")?;
    out.put_slice(Buffer::new().format(u32::from(code_point)).as_bytes())?;
    out.put_slice(b";")?;
    Ok(())
}

/// Puts a code point that was restored, which isn't restored again.
fn put_restored<E: Encoder>(
    encoder: &E,
    html: bool,
    state: E::State,
    code_point: char,
    out: &mut ByteBlocks,
) -> Result<E::State, PutFault>
    ensures { PutOne (taken (E.table encoder.now) html 1 state code_point) out.old.bytes result out.new.bytes }
{
    let EncoderTurn {
        state,
        answer,
        bytes,
    } = encoder.turn(state, code_point);
    match answer {
        EncoderAnswer::Puts => out.put(bytes)?,
        EncoderAnswer::Restores => return Err(PutFault::Unencodable(code_point)),
        EncoderAnswer::Fails(error) => put_error(html, error, out)?,
    }
    Ok(state)
}

/// Puts a code point.
// In the loop over the code points.
#[inline(always)]
fn put_code_point<E: Encoder>(
    encoder: &E,
    html: bool,
    state: E::State,
    code_point: char,
    out: &mut ByteBlocks,
) -> Result<E::State, PutFault>
    ensures { PutOne (taken (E.table encoder.now) html 2 state code_point) out.old.bytes result out.new.bytes }
{
    let EncoderTurn {
        state,
        answer,
        bytes,
    } = encoder.turn(state, code_point);
    match answer {
        EncoderAnswer::Puts => out.put(bytes)?,
        EncoderAnswer::Restores => {
            out.put(bytes)?;
            return put_restored(encoder, html, state, code_point, out);
        }
        EncoderAnswer::Fails(error) => put_error(html, error, out)?,
    }
    Ok(state)
}

/// Splits a text after its first code point.
// In the loop over the code points.
#[inline(always)]
fn split_first(text: &str) -> Option<(char, &str)>
    ensures { MatchOption result (length text.now ≡ 0) (λ parts. text.now ≡ encode_utf8 parts.0 ++ parts.1.now) }
{
    let mut code_points = text.chars();
    let first = code_points.next()?;
    Some((first, code_points.as_str()))
}

/// Writes the leading ASCII that the encoder copies unchanged, and returns the text after it.
// In the loop over the code points.
#[inline(always)]
fn put_run<'t, E: Encoder>(
    encoder: &E,
    state: E::State,
    text: &'t str,
    out: &mut ByteBlocks,
) -> Result<&'t str, AllocError>
    ensures { IfOk result (λ rest. IsRun (E.table encoder.now) state text.now rest.now out.old.bytes out.new.bytes) }
{
    let bytes = text.as_bytes();
    // Most encoders check whole lanes. That would be wasted at each code point of a dense text and
    // at each space between its words.
    if !matches!(bytes, [0..0x80, 0..0x80, ..]) {
        return Ok(text);
    }
    let near = &bytes[..bytes.len().min(LONGEST_RUN)];
    let (run, rest) = text.split_at(encoder.plain_run(state, near));
    out.put_slice(run.as_bytes())?;
    Ok(rest)
}

/// Puts all code points of a text.
fn put_text<E: Encoder>(
    encoder: &E,
    html: bool,
    start: E::State,
    text: &str,
    out: &mut ByteBlocks,
) -> Result<E::State, FromFault>
    ensures { PutAll (encoded_from (E.table encoder.now) html 0 start (chars text.now)) out.old.bytes result out.new.bytes }
{
    let mut state = start;
    let mut index = 0;
    let mut rest = text;
    'code_points: loop {
        let behind_run = put_run(encoder, state, rest, out)?;
        index += (rest.len() - behind_run.len()) as u64;
        let Some((code_point, others)) = split_first(behind_run) else {
            return Ok(state);
        };
        match put_code_point(encoder, html, state, code_point, out) {
            Ok(next) => state = next,
            Err(fault) => return Err(fault.at(index)),
        }
        index += 1;
        rest = others;
    }
}

/// Encodes a text from a state, without the end of the queue. The bytes and the state after them
/// are those of the Encoding Standard, "Encoders and decoders". The output is reserved once, as
/// long as the text, and grows if that isn't enough.
pub fn encode_by<E: Encoder>(
    alloc: Global,
    encoder: &E,
    html: bool,
    state: E::State,
    text: &str,
) -> Result<(Vec<u8>, E::State), FromFault>
    ensures { IsFrom (encoded_from (E.table encoder.now) html 0 state (chars text.now)) result }
{
    let mut out = ByteBlocks::with_capacity(alloc, text.len())?;
    let after = put_text(encoder, html, state, text, &mut out)?;
    Ok((out.finish()?, after))
}
