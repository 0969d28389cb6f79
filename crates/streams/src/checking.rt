//! A stream that is read to its end and checked.
ghost use Rattle.std.specs.Prelude.{◌≡◌, ℕ, List, IfErr, IfOk};
ghost use Rattle.enc_names.specs.declared.setting.Setting.{Setting};
ghost use Rattle.index_loader.specs.Files.{Files};
ghost use Rattle.streams.specs.Checks.{Checked, Checks, IsRow};

use crate::checker::Checker;
use crate::row::Row;
use decoder_core::OutOfMemory;
use devices::{Feed, Stop, Taker, pump};
use enc_names::Setting;
use index_loader::Indexes;
use std::alloc::Global;

/// Why a stream isn't checked to its end.
#[derive(Drop)]
pub enum CheckFault {
    /// An index file of the encoding is missing: nothing was read.
    NoIndex,
    /// A read failed. The row is that of all bytes that were read before.
    Read(Row),
    /// The reader was read 2^32 times without an end. The row is that of all bytes that were read.
    TooManyReads(Row),
    /// An allocation failed, or a number doesn't fit in 64 bits: after a byte that was read, or as the row
    /// was made.
    OutOfMemory,
}

impl<'i> Taker<(), ()> for Checker<'i> {
    ghost use Rattle.std.specs.Prelude.{⊤, ◌<◌, length};
    ghost use Rattle.devices.specs.Reading.{most_bytes};
    ghost use Rattle.streams.specs.Checks.{ChecksPart};

    type Fault = OutOfMemory;

    ghost ready = { λ s. ⊤ };

    ghost room = { λ s. most_bytes };

    ghost takes = { λ bytes s t. ChecksPart bytes s.0 t.0 };

    ghost stops = { λ fault bytes s t. 0 < length bytes };

    fn take(&mut self, _on: &mut (), _writer: &mut (), bytes: &[u8]) -> Result<usize, OutOfMemory> {
        // (no byte takes no memory)
        if bytes.is_empty() {
            return Ok(0);
        }
        self.check_part(bytes)?;
        Ok(bytes.len())
    }
}

/// Checks a stream in constant memory: reads it to its end, and returns what it has, with the places of its
/// first errors, `most` at most.
pub fn check<R: Feed>(
    alloc: Global,
    indexes: &Indexes,
    setting: Setting,
    most: usize,
    reader: &mut R,
) -> Result<Row, CheckFault>
    ensures { Checks result indexes.now setting most (R.seen reader.old) (R.seen reader.new) }
{
    let Some(mut checker) = Checker::new(alloc, indexes, setting, most) else {
        return Err(CheckFault::NoIndex);
    };
    match pump(reader, &mut checker, &mut (), &mut ()) {
        Ok(()) => row_of(checker),
        Err(Stop::Read) => match row_of(checker) {
            Ok(row) => Err(CheckFault::Read(row)),
            Err(fault) => Err(fault),
        },
        Err(Stop::TooManyReads) => match row_of(checker) {
            Ok(row) => Err(CheckFault::TooManyReads(row)),
            Err(fault) => Err(fault),
        },
        Err(Stop::Taker(_)) => Err(CheckFault::OutOfMemory),
    }
}

/// What a stream has that was checked up to here.
fn row_of(checker: Checker<'_>) -> Result<Row, CheckFault>
    ensures ok { (files : Files) (setting : Setting) (most : ℕ) (read : List ℕ) → Checked files setting most read checker.entry
        → IfOk result (IsRow files setting most read) }
    ensures err { IfErr result (λ f. f ≡ CheckFault.OutOfMemory) }
{
    match checker.finish() {
        Ok(row) => Ok(row),
        Err(_) => Err(CheckFault::OutOfMemory),
    }
}
