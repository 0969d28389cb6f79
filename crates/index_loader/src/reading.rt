//! The reading of an index file.
ghost use Rattle.std.specs.Prelude.{◌≡◌, ◌<◌, ◌&&◌, false, not, [], Ok, IfErr, IfOk, OnOk};
ghost use Rattle.index_loader.specs.File.{has_needed_rows, is_number, is_out_of_memory, pairs_beside, pairs_from, with_line};
ghost use Rattle.index_loader.specs.Index.{is_ranges};
ghost use Rattle.index_loader.specs.Inside.{keeps_rows, limit_of, pairs_by_pointer};
ghost use Rattle.index_loader.specs.Lines.{lines_of};
ghost use Rattle.index_loader.specs.Numbered.{FaultIs};
ghost use Rattle.index_loader.specs.Pairs.{code_point_at};
ghost use Rattle.index_loader.specs.Table.{table_len};

use crate::by_pointer::ByPointer;
use crate::fault::{IndexCause, IndexFault};
use crate::kind::IndexKind;
use crate::line::{pair_on, split_at_byte};
use crate::tens::Tens;
use enc_names::Scalar;
use std::alloc::Global;

/// Puts a pair of the line with this number beside those above.
// In the loop over the lines of a file.
#[inline(always)]
fn put_pair(
    pairs: &mut ByPointer,
    number: u64,
    pointer: u32,
    code_point: Scalar,
) -> Result<(), IndexFault>
    requires { pointer < limit_of pairs.old }
    ensures limit { OnOk result (limit_of pairs.new ≡ limit_of pairs.old) }
    ensures rows { OnOk result (keeps_rows pairs.new ≡ keeps_rows pairs.old) }
    ensures ok { OnOk result (pairs_beside number (pairs_by_pointer pairs.old) (pointer, code_point) ≡ Ok (pairs_by_pointer pairs.new)) }
    ensures err { IfErr result
        (λ fault. FaultIs (is_out_of_memory fault.cause) fault.line fault (pairs_beside number (pairs_by_pointer pairs.old) (pointer, code_point))) }
{
    if pairs.has(pointer) {
        let cause = IndexCause::DuplicatePointer;
        return Err(IndexFault {
            line: number,
            cause,
        });
    }
    Ok(pairs.put(pointer, code_point)?)
}

/// Adds a line's pair, if it has one, to those of the previous lines.
// In the loop over the lines of a file.
#[inline(always)]
fn put_line(
    pairs: &mut ByPointer,
    tens: &mut Tens,
    kind: IndexKind,
    number: u64,
    line: &[u8],
) -> Result<(), IndexFault>
    requires { limit_of pairs.old ≡ table_len kind }
    ensures limit { OnOk result (limit_of pairs.new ≡ limit_of pairs.old) }
    ensures rows { OnOk result (keeps_rows pairs.new ≡ keeps_rows pairs.old) }
    ensures ok { OnOk result (with_line kind number (pairs_by_pointer pairs.old) line.now ≡ Ok (pairs_by_pointer pairs.new)) }
    ensures err { IfErr result
        (λ fault. FaultIs (is_out_of_memory fault.cause) fault.line fault (with_line kind number (pairs_by_pointer pairs.old) line.now)) }
{
    match pair_on(kind, tens, line) {
        Ok(None) => Ok(()),
        Ok(Some((pointer, code_point))) => put_pair(pairs, number, pointer, code_point),
        Err(cause) => Err(IndexFault {
            line: number,
            cause,
        }),
    }
}

/// The pairs that the lines of a file hold.
pub(crate) fn read_pairs(
    alloc: Global,
    kind: IndexKind,
    bytes: &[u8],
) -> Result<ByPointer, IndexFault>
    ensures limit { IfOk result (λ pairs. limit_of pairs ≡ table_len kind) }
    ensures rows { IfOk result (λ pairs. keeps_rows pairs ≡ is_ranges kind) }
    ensures ok { IfOk result (λ pairs. pairs_from kind (Ok []) 1 (lines_of bytes.now) ≡ Ok (pairs_by_pointer pairs)) }
    ensures fault { IfErr result (λ fault. FaultIs (is_out_of_memory fault.cause) fault.line fault (pairs_from kind (Ok []) 1 (lines_of bytes.now))) }
{
    let mut pairs = ByPointer::new(alloc, kind)?;
    let mut tens = Tens::first();
    let mut rest = Some(bytes);
    let mut number = 0;
    while let Some(text) = rest {
        let (line, below) = split_at_byte(text, b'\n');
        number += 1;
        put_line(&mut pairs, &mut tens, kind, number, line)?;
        rest = below;
    }
    Ok(pairs)
}

/// Whether this pointer has this code point.
fn has_pair(pairs: &ByPointer, pointer: u32, code_point: u32) -> bool
    ensures { result ≡ is_number (code_point_at (pairs_by_pointer pairs.now) pointer) code_point }
{
    match pairs.find(pointer) {
        Some(found) => found.get() == code_point,
        None => false,
    }
}

/// Whether the rows that the ranges need are present. They are the first after ASCII and the first
/// of the planes above.
fn has_needed_rows(pairs: &ByPointer) -> bool
    ensures { result ≡ has_needed_rows (pairs_by_pointer pairs.now) }
{
    has_pair(pairs, 0, 0x80) && has_pair(pairs, 189_000, 0x10000)
}

/// Whether a file of this kind lacks rows that it needs.
pub(crate) fn lacks_rows(kind: IndexKind, pairs: &ByPointer) -> bool
    ensures { result ≡ (is_ranges kind && not (has_needed_rows (pairs_by_pointer pairs.now))) }
{
    kind.is_ranges() && !has_needed_rows(pairs)
}
