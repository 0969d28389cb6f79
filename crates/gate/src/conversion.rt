//! Streams that are converted.

use crate::failure::Failure;
use crate::perform::labels_of;
use command_line::{Mode, Sources, Stream, Target};
use enc_names::{Bom, Encoding, Labels, Setting};
use gateway::{Feed, FromRead, ToWrite};
use index_files::indexes_for;
use index_loader::Indexes;
use std::alloc::Global;
use std::fs::{self, File, Files};
use std::io::{self, ErrorKind, Print, Write};
use streams::{Conversion, ConvertMode, PartFault, Refusal, StreamFault, convert};

/// A writer that notes whether whoever read what it writes has gone.
#[derive(Drop)]
struct Noting<W> {
    writer: W,
    is_closed: bool,
}

impl<W: Write> Write for Noting<W> {
    fn write(&mut self, buf: &[u8]) -> io::Result<usize> {
        match self.writer.write(buf) {
            Err(error) if error.kind() == ErrorKind::BrokenPipe => {
                self.is_closed = true;
                Err(error)
            }
            written => written,
        }
    }

    fn flush(&mut self) -> io::Result<()> {
        self.writer.flush()
    }
}

/// Converts the stream that the words name to standard output, with the label file that they name, and
/// with the index files that the two encodings need.
#[inline(never)]
pub fn convert_stream<'a, T: Files<File = File> + Print, R: Feed>(
    rt: &T,
    alloc: Global,
    sources: Sources<'a>,
    stream: Stream<'a>,
    target: Target<'a>,
    input: &mut R,
) -> Result<(), Failure<'a>> {
    let (labels, _) = labels_of(rt, alloc, sources)?;
    let conversion = conversion_of(&labels, stream, target)?;
    let encodings = [conversion.from.given, conversion.to];
    let indexes = indexes_for(rt, alloc, sources.indexes, &encodings)?;
    match stream.file {
        None => convert_from(rt, alloc, &indexes, conversion, input),
        Some(name) => match fs::open(rt, name) {
            Ok(file) => convert_from(rt, alloc, &indexes, conversion, &mut FromRead::new(file)),
            Err(error) if error.kind() == ErrorKind::OutOfMemory => Err(Failure::OutOfMemory),
            Err(_) => Err(Failure::CannotRead(name)),
        },
    }
}

/// What the words ask for.
fn conversion_of<'a>(
    labels: &Labels,
    stream: Stream<'a>,
    target: Target<'a>,
) -> Result<Conversion, Failure<'a>> {
    Ok(Conversion {
        from: setting_of(labels, stream)?,
        to: encoding_of(labels, target.to)?,
        mode: match target.mode {
            Mode::Fatal => ConvertMode::Fatal,
            Mode::Replacement => ConvertMode::Replacement,
            Mode::Html => ConvertMode::Html,
        },
    })
}

/// How a stream is read.
pub(crate) fn setting_of<'a>(labels: &Labels, stream: Stream<'a>) -> Result<Setting, Failure<'a>> {
    let bom = if stream.keeps_mark {
        Bom::Keep
    } else {
        Bom::Sniff
    };
    Ok(Setting::new(encoding_of(labels, stream.from)?, bom))
}

/// The encoding of a label.
fn encoding_of<'a>(labels: &Labels, label: &'a str) -> Result<Encoding, Failure<'a>> {
    labels
        .lookup(label.as_bytes())
        .ok_or(Failure::NoLabel(label))
}

/// Converts what is read to standard output.
#[inline(never)]
fn convert_from<'a, T: Print, R: Feed>(
    rt: &T,
    alloc: Global,
    indexes: &Indexes,
    conversion: Conversion,
    input: &mut R,
) -> Result<(), Failure<'a>> {
    let mut output = Noting {
        writer: io::writer(rt),
        is_closed: false,
    };
    let result = convert(
        alloc,
        indexes,
        conversion,
        input,
        &mut ToWrite::new(&mut output),
    );
    match result {
        Ok(()) => Ok(()),
        Err(StreamFault::Part(PartFault::Write)) if output.is_closed => Err(Failure::Closed),
        Err(fault) => Err(failure_of(fault, conversion)),
    }
}

/// The failure for the fault of a conversion.
fn failure_of<'a>(fault: StreamFault, conversion: Conversion) -> Failure<'a> {
    let Conversion { from, to, .. } = conversion;
    match fault {
        StreamFault::Refused(Refusal::SourceIndex) => Failure::NoIndex(from.given),
        StreamFault::Refused(Refusal::TargetIndex) => Failure::NoIndex(to),
        StreamFault::Refused(Refusal::NoEncoder) => Failure::NoEncoder(to),
        StreamFault::Read => Failure::Read,
        StreamFault::TooManyReads => Failure::TooManyReads,
        StreamFault::Part(PartFault::Malformed(spot, encoding)) => Failure::Malformed(
            spot, encoding,
        ),
        StreamFault::Part(PartFault::Unencodable(spot, code_point)) => {
            Failure::Unencodable(spot, code_point, to)
        }
        StreamFault::Part(PartFault::Write) => Failure::Write,
        StreamFault::Refused(Refusal::OutOfMemory) | StreamFault::Part(PartFault::OutOfMemory) =>
            Failure::OutOfMemory,
    }
}
