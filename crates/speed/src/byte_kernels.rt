//! The lane kernels over bytes, compared with plain loops.

use crate::lanes::By;
use lane_ascii::{ascii_run, count_line_ends, nth_line_end, plain_run_iso, swap_pairs, widen};
use memchr::memchr_iter;
use oracle::byte_loops;

/// A kernel.
#[derive(Clone, Copy)]
pub enum ByteKernel {
    /// A run of ASCII.
    AsciiRun,
    /// A run that ISO-2022-JP decodes to itself.
    PlainRunIso,
    /// The number of line marks.
    CountLineEnds,
    /// A line mark far past the last, so that the whole slice is searched.
    NthLineEnd,
    /// The number of LF, which is less than to count marks: memchr's way.
    MemchrCount,
    /// Pairs swapped in place.
    SwapPairs,
    /// Bytes as units.
    Widen,
}

/// The kernels that are measured, each with its name.
pub const BYTE_KERNELS: [(&str, ByteKernel); 7] = [
    ("ascii_run", ByteKernel::AsciiRun),
    ("plain_run_iso", ByteKernel::PlainRunIso),
    ("count_line_ends", ByteKernel::CountLineEnds),
    ("nth_line_end", ByteKernel::NthLineEnd),
    ("memchr, LF alone", ByteKernel::MemchrCount),
    ("swap_pairs", ByteKernel::SwapPairs),
    ("widen", ByteKernel::Widen),
];

impl ByteKernel {
    /// Works on a slice, with room for as many units. Returns a number that depends on it.
    #[inline(always)] // The choice is the same for all slices of a round.
    pub fn run(self, by: By, bytes: &mut [u8], units: &mut [u16]) -> usize {
        match by {
            By::Kernel => self.run_kernel(bytes, units),
            By::Plain => self.run_plain(bytes, units),
        }
    }

    /// Like `run`, by the kernel.
    #[inline(always)] // As above.
    fn run_kernel(self, bytes: &mut [u8], units: &mut [u16]) -> usize {
        match self {
            ByteKernel::AsciiRun => ascii_run(bytes),
            ByteKernel::PlainRunIso => plain_run_iso(bytes),
            ByteKernel::CountLineEnds => count_line_ends(bytes, false),
            ByteKernel::NthLineEnd => {
                nth_line_end(bytes, false, usize::MAX).unwrap_or(bytes.len())
            }
            ByteKernel::MemchrCount => memchr_iter(b'\n', bytes).count(),
            ByteKernel::SwapPairs => {
                swap_pairs(bytes);
                bytes.len()
            }
            ByteKernel::Widen => widen(bytes, units).unwrap_or(0),
        }
    }

    /// Like `run`, by the plain loop.
    #[inline(always)] // As above.
    fn run_plain(self, bytes: &mut [u8], units: &mut [u16]) -> usize {
        match self {
            ByteKernel::AsciiRun => byte_loops::ascii_run(bytes),
            ByteKernel::PlainRunIso => byte_loops::plain_run_iso(bytes),
            ByteKernel::CountLineEnds | ByteKernel::MemchrCount => {
                byte_loops::count_line_ends(bytes)
            }
            ByteKernel::NthLineEnd => {
                byte_loops::nth_line_end(bytes, usize::MAX).unwrap_or(bytes.len())
            }
            ByteKernel::SwapPairs => {
                byte_loops::swap_pairs(bytes);
                bytes.len()
            }
            ByteKernel::Widen => {
                byte_loops::widen(bytes, units);
                bytes.len()
            }
        }
    }
}
