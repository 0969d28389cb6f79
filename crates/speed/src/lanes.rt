//! The speed of each lane kernel, compared with a plain loop with the same answer.

use crate::byte_kernels::{BYTE_KERNELS, ByteKernel};
use crate::fastest::Fastest;
use crate::text_kernels::{Forms, TEXT_KERNELS, TextKernel};
use index_files::EarlyEnd;
use oracle::megabytes_per_second;
use std::io;
use std::time::{Duration, Instant};

/// The code that does the work.
#[derive(Clone, Copy)]
pub enum By {
    /// The kernel.
    Kernel,
    /// The plain loop, over text the standard library.
    Plain,
}

/// The number of rounds, of which the fastest counts.
const ROUNDS: u32 = 15;

/// Text of lines, as it is in ASCII.
const LINES: &[u8] = b"<p>Minutes of the council, third reading.</p>\r\n<ul>\n";

/// The sizes of slice that are measured, in bytes.
const SIZES: [usize; 4] = [64, 4_096, 65_536, 1_048_576];

/// The number of bytes in a round, or a few more than it has.
const ROUND: usize = 4_194_304;

/// The number of places of the text at which slices begin, in turns: one at each alignment.
const STARTS: usize = 64;

/// Texts whose code points have one, two and three bytes, with spaces between the words.
const TEXTS: [(&str, &str); 3] = [
    ("English", "The minutes of the council, third reading. "),
    ("Russian", "Протокол заседания совета, третье чтение. "),
    ("Japanese", "評議会の議事録、第三回の朗読。新しい図書館の計画について。"),
];

/// The most bytes of a text that is measured.
const TEXT_SIZE: usize = 65_536;

/// The number of times that a round passes over a text.
const TURNS: u32 = 32;

/// Prints a name.
fn list_name(rt: &HostRuntime, name: &str) -> Result<(), EarlyEnd> {
    println!(rt; "{name}")?;
    Ok(())
}

/// Prints the names of the kernels, and how to measure.
pub fn list(rt: &HostRuntime) -> Result<(), EarlyEnd> {
    for (name, _) in &BYTE_KERNELS {
        list_name(rt, name)?;
    }
    for (name, _) in &TEXT_KERNELS {
        list_name(rt, name)?;
    }
    println!(rt; "'speed lanes' measures them.")?;
    Ok(())
}

/// Prints how fast each kernel is, a line a size or a text.
pub fn measure(rt: &HostRuntime) -> Result<(), EarlyEnd> {
    for (name, kernel) in &BYTE_KERNELS {
        measure_sizes(rt, name, *kernel)?;
    }
    for (name, kernel) in &TEXT_KERNELS {
        measure_texts(rt, name, *kernel)?;
    }
    Ok(())
}

/// Prints how fast a kernel is over slices, a line a size.
fn measure_sizes(rt: &HostRuntime, name: &str, kernel: ByteKernel) -> Result<(), EarlyEnd> {
    for size in &SIZES {
        measure_size(rt, name, kernel, *size)?;
    }
    Ok(())
}

/// Prints how fast a kernel is over texts, a line a text.
fn measure_texts(rt: &HostRuntime, name: &str, kernel: TextKernel) -> Result<(), EarlyEnd> {
    for (language, sample) in &TEXTS {
        measure_text(rt, name, kernel, language, sample)?;
    }
    Ok(())
}

/// Prints how fast a kernel is over slices of a size.
fn measure_size(
    rt: &HostRuntime,
    name: &str,
    kernel: ByteKernel,
    size: usize,
) -> Result<(), EarlyEnd> {
    let plain = speed_over_slices(rt, kernel, By::Plain, size)?;
    let kernel = speed_over_slices(rt, kernel, By::Kernel, size)?;
    println!(rt; "{name:<17} {size:>8} bytes {kernel:>7} MB/s, plain {plain:>6} MB/s")?;
    Ok(())
}

/// The speed over slices of a size, in megabytes a second.
fn speed_over_slices(
    rt: &HostRuntime,
    kernel: ByteKernel,
    by: By,
    size: usize,
) -> Result<u128, EarlyEnd> {
    let passed = turns(size).saturating_mul(size);
    let time = fastest_slices(rt, kernel, by, size)?;
    Ok(megabytes_per_second(passed, time))
}

/// Prints how fast a kernel is over copies of a text. The speed is in bytes of the text's UTF-8.
fn measure_text(
    rt: &HostRuntime,
    name: &str,
    kernel: TextKernel,
    language: &str,
    sample: &str,
) -> Result<(), EarlyEnd> {
    let copies = TEXT_SIZE.checked_div(sample.len()).unwrap_or(0);
    let text = sample.repeat(rt.alloc(), copies)?;
    let plain = speed_over_text(rt, kernel, By::Plain, text.as_str())?;
    let kernel = speed_over_text(rt, kernel, By::Kernel, text.as_str())?;
    print_text(rt, (name, language), kernel, plain)
}

/// Prints how fast a kernel and the standard library are over a text. The text is in a language.
fn print_text(
    rt: &HostRuntime,
    (name, language): (&str, &str),
    kernel: u128,
    plain: u128,
) -> Result<(), EarlyEnd> {
    println!(rt; "{name:<20} {language:<9} {kernel:>7} MB/s, std {plain:>6} MB/s")?;
    Ok(())
}

/// The speed over a text, in megabytes a second.
fn speed_over_text(
    rt: &HostRuntime,
    kernel: TextKernel,
    by: By,
    text: &str,
) -> Result<u128, EarlyEnd> {
    let time = fastest_pass(rt, kernel, by, text)?;
    Ok(megabytes_per_second(text.len(), time))
}

/// The time of the fastest of some rounds over slices of that size.
fn fastest_slices(
    rt: &HostRuntime,
    kernel: ByteKernel,
    by: By,
    size: usize,
) -> Result<Duration, EarlyEnd> {
    let needed = size.saturating_add(STARTS);
    let copies = needed.checked_div(LINES.len()).unwrap_or(0);
    let mut bytes = LINES.repeat(rt.alloc(), copies.saturating_add(1))?;
    let mut units = vec![in rt.alloc(); 0u16; size]?;
    Ok(fastest_of(rt, kernel, by, &mut bytes, &mut units)?)
}

/// Like `fastest_slices`, with these bytes and room for the units of a slice.
fn fastest_of(
    rt: &HostRuntime,
    kernel: ByteKernel,
    by: By,
    bytes: &mut [u8],
    units: &mut [u16],
) -> io::Result<Duration> {
    let size = units.len();
    let mut best = Fastest::new();
    for _ in 0..ROUNDS {
        let start = Instant::now(rt)?;
        let sum = round_of_slices(kernel, by, bytes, units, size);
        best.take(rt, start, sum)?;
    }
    Ok(best.time)
}

/// Works on slices of that size that begin at one place after the other.
#[inline(never)] // So that the whole round is between the two looks at the clock.
fn round_of_slices(
    kernel: ByteKernel,
    by: By,
    bytes: &mut [u8],
    units: &mut [u16],
    size: usize,
) -> usize {
    let mut sum: usize = 0;
    for turn in 0..turns(size) {
        if let Some(slice) = bytes.get_mut(turn % STARTS..) {
            if let Some(slice) = slice.get_mut(..size) {
                sum = sum.wrapping_add(kernel.run(by, slice, units));
            }
        }
    }
    sum
}

/// The number of slices of a size in a round.
fn turns(size: usize) -> usize {
    ROUND.checked_div(size).unwrap_or(0)
}

/// The time of one pass over a text, in the fastest of some rounds.
fn fastest_pass(
    rt: &HostRuntime,
    kernel: TextKernel,
    by: By,
    text: &str,
) -> Result<Duration, EarlyEnd> {
    let mut forms = Forms::of(rt.alloc(), text)?;
    let mut best = Fastest::new();
    for _ in 0..ROUNDS {
        let start = Instant::now(rt)?;
        let sum = round_of_passes(kernel, by, text, &mut forms);
        best.take(rt, start, sum)?;
    }
    Ok(best.time.checked_div(TURNS).unwrap_or(best.time))
}

/// Works on the text again and again.
#[inline(never)] // As the round of slices.
fn round_of_passes(kernel: TextKernel, by: By, text: &str, forms: &mut Forms) -> usize {
    let mut sum: usize = 0;
    for _ in 0..TURNS {
        sum = sum.wrapping_add(kernel.run(by, text, forms));
    }
    sum
}
