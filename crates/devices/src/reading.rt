//! Reading to the end, a buffer at a time.
ghost use Rattle.std.specs.Prelude.{◌≡◌, ℕ, ◌+◌, ◌<◌, ◌≤◌, List, IfOk, OnOk, length};
ghost use Rattle.devices.specs.Reading.{Pumps, ReadUp, TakesAll, TakesFront, ended, ended_once, most_bytes};

use crate::device::{Failed, Feed};
use crate::laws::law_slices;

/// The most bytes that are read at once.
pub const READ_BUFFER: usize = 4096;

/// The most reads of one call of `pump`: a reader that reports no end is given up then.
pub const MOST_READS: u64 = 1 << 32;

/// The reason why reading stopped before the end was reported.
pub enum Stop<F> {
    /// A read failed.
    Read,
    /// The reader was read 2^32 times without an end.
    TooManyReads,
    /// Bytes that were read couldn't be taken.
    Taker(F),
}

/// Whether there is more to read.
enum Progress {
    /// Bytes were read, and there may be more.
    More,
    /// The end was reported.
    End,
}

/// A receiver of the bytes that are read, one part after another. It acts on a `G`, and writes the
/// result to a `W`.
pub trait Taker<G, W> {
    /// The reason why bytes can't be taken.
    type Fault;

    /// Whether it can take bytes.
    ghost ready: { Self × G × W → Type 0 };

    /// The number of bytes that it can take.
    ghost room: { Self × G × W → ℕ };

    /// The effect of taking bytes at once.
    ghost takes: { List ℕ → Self × G × W → Self × G × W → Type 0 };

    /// The effect of not being able to take all of these bytes.
    ghost stops: { Self.Fault → List ℕ → Self × G × W → Self × G × W → Type 0 };

    /// Takes bytes from the front of `bytes`, and returns how many: at least one, if there is one
    /// (`some`). It returns at most the length of `bytes` (`bound`). The values after the call are
    /// those of taking these bytes, or of the fault (`takes`). After a call that succeeds the taker
    /// is ready for the next one (`ready`), and its room has shrunk by at most the bytes that it
    /// took (`room`).
    fn take(&mut self, on: &mut G, writer: &mut W, bytes: &[u8]) -> Result<usize, Self::Fault>
        requires ready { ready (self.old, on.old, writer.old) }
        requires room { length bytes.now ≤ room (self.old, on.old, writer.old) }
        ensures bound { IfOk result (λ n. n ≤ length bytes.now) }
        ensures some { IfOk result (λ n. 0 < length bytes.now → 0 < n) }
        ensures takes { TakesFront takes stops result bytes.now (self.old, on.old, writer.old) (self.new, on.new, writer.new) }
        ensures ready { OnOk result (ready (self.new, on.new, writer.new)) }
        ensures room { IfOk result (λ n. room (self.old, on.old, writer.old) ≤ room (self.new, on.new, writer.new) + n) };
}

/// Reads to the end, and gives all bytes to the taker. The taker must be ready (`ready`), and have
/// room for the 2^44 bytes that can be read (`room`). Bytes that were read before a fault are taken
/// too (`takes`). The reader is read to its end, or up to the failure or the fault (`reads`).
pub fn pump<R: Feed, G, W, T: Taker<G, W>>(
    reader: &mut R,
    taker: &mut T,
    on: &mut G,
    writer: &mut W,
) -> Result<(), Stop<T::Fault>>
    requires ready { T.ready (taker.old, on.old, writer.old) }
    requires room { most_bytes ≤ T.room (taker.old, on.old, writer.old) }
    ensures takes { Pumps T.takes T.stops result (R.seen reader.old) (R.seen reader.new)
        (taker.old, on.old, writer.old) (taker.new, on.new, writer.new) }
    ensures reads { ReadUp (ended result) (R.seen reader.old) (R.seen reader.new) }
{
    let mut buffer = [0; READ_BUFFER];
    for _ in 0..MOST_READS {
        match read_once(reader, taker, on, writer, &mut buffer) {
            Ok(Progress::More) => {}
            Ok(Progress::End) => return Ok(()),
            Err(stop) => return Err(stop),
        }
    }
    Err(Stop::TooManyReads)
}

/// Reads once, and has the bytes taken that were read.
fn read_once<R: Feed, G, W, T: Taker<G, W>>(
    reader: &mut R,
    taker: &mut T,
    on: &mut G,
    writer: &mut W,
    buffer: &mut [u8],
) -> Result<Progress, Stop<T::Fault>>
    requires buffer { 0 < length buffer.old }
    requires ready { T.ready (taker.old, on.old, writer.old) }
    requires room { length buffer.old ≤ T.room (taker.old, on.old, writer.old) }
    ensures takes { Pumps T.takes T.stops result (R.seen reader.old) (R.seen reader.new)
        (taker.old, on.old, writer.old) (taker.new, on.new, writer.new) }
    ensures reads { ReadUp (ended_once result) (R.seen reader.old) (R.seen reader.new) }
    ensures ready { OnOk result (T.ready (taker.new, on.new, writer.new)) }
    ensures room { OnOk result (T.room (taker.old, on.old, writer.old) ≤ T.room (taker.new, on.new, writer.new) + length buffer.old) }
    ensures once { (R.seen reader.new).reads ≡ (R.seen reader.old).reads + 1 }
    ensures len { length buffer.new ≡ length buffer.old }
{
    let n = match reader.read(buffer) {
        Ok(n) => n,
        Err(Failed) => return Err(Stop::Read),
    };
    if n == 0 {
        return Ok(Progress::End);
    }
    match take_all(taker, on, writer, &buffer[..n]) {
        Ok(()) => Ok(Progress::More),
        Err(fault) => Err(Stop::Taker(fault)),
    }
}

/// Gives all of the bytes to the taker.
fn take_all<G, W, T: Taker<G, W>>(
    taker: &mut T,
    on: &mut G,
    writer: &mut W,
    bytes: &[u8],
) -> Result<(), T::Fault>
    requires ready { T.ready (taker.old, on.old, writer.old) }
    requires room { length bytes.now ≤ T.room (taker.old, on.old, writer.old) }
    ensures takes { TakesAll T.takes T.stops result bytes.now (taker.old, on.old, writer.old) (taker.new, on.new, writer.new) }
    ensures ready { OnOk result (T.ready (taker.new, on.new, writer.new)) }
    ensures room { OnOk result (T.room (taker.old, on.old, writer.old) ≤ T.room (taker.new, on.new, writer.new) + length bytes.now) }
{
    law_slices();
    let mut done = 0;
    while done < bytes.len() {
        match taker.take(on, writer, &bytes[done..]) {
            Ok(n) => done += n,
            Err(fault) => return Err(fault),
        }
    }
    Ok(())
}
