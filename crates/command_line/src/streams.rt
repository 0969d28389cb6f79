//! The forms of the commands over a stream, and their jobs.

use crate::form::{sources_of, with_sources};
use crate::job::{Job, Mode, Stream, Target};
use clap::{Arg, ArgAction, ArgMatches, Command, Error, value_parser};
use std::alloc::Global;

/// The command that converts a stream.
pub(crate) const CONVERT: &str = "convert";

/// The command that checks a stream.
pub(crate) const CHECK: &str = "check";

/// What a mode is named by.
const MODES: [&str; 3] = ["fatal", "replacement", "html"];

/// The name that means standard input.
const STANDARD: &str = "-";

/// The job of the command that converts a stream.
pub(crate) fn convert_of<'a>(given: &ArgMatches<'a>) -> Option<Job<'a>> {
    let sources = sources_of(given)?;
    let target = Target {
        to: given.get_str("to")?,
        mode: mode_of(given.get_str("mode")?),
    };
    Some(Job::Convert(sources, stream_of(given)?, target))
}

/// The job of the command that checks a stream.
pub(crate) fn check_of<'a>(given: &ArgMatches<'a>) -> Option<Job<'a>> {
    let errors = given.get_one::<u32>("errors")?;
    Some(Job::Check(sources_of(given)?, stream_of(given)?, errors))
}

/// The stream that the words name.
fn stream_of<'a>(given: &ArgMatches<'a>) -> Option<Stream<'a>> {
    let file = match given.get_str("file") {
        Some(name) if name != STANDARD => Some(name),
        _ => None,
    };
    Some(Stream {
        from: given.get_str("from")?,
        keeps_mark: given.get_flag("keep_mark"),
        file,
    })
}

/// The mode of a name.
fn mode_of(name: &str) -> Mode {
    match name {
        "replacement" => Mode::Replacement,
        "html" => Mode::Html,
        _ => Mode::Fatal,
    }
}

/// The encoding of the stream that is read.
fn from<'a>(alloc: Global) -> Arg<'a> {
    Arg::new(alloc, "from")
        .long("from")
        .value_name("LABEL")
        .help("The label of the encoding that is read")
        .required(true)
        .action(ArgAction::Set)
}

/// The encoding of the stream that is written.
fn to<'a>(alloc: Global) -> Arg<'a> {
    Arg::new(alloc, "to")
        .long("to")
        .value_name("LABEL")
        .help("The label of the encoding that is written")
        .required(true)
        .action(ArgAction::Set)
}

/// What is done about damage.
fn mode<'a>(alloc: Global) -> Arg<'a> {
    Arg::new(alloc, "mode")
        .long("mode")
        .value_name("MODE")
        .help(
            "What bytes that don't decode become, and a code point that the target lacks: either ends it, or U+FFFD and its end, or U+FFFD and a character reference",
        )
        .value_parser(MODES.as_slice())
        .default_value("fatal")
        .action(ArgAction::Set)
}

/// Whether the bytes of a byte order mark are text.
fn keep_mark<'a>(alloc: Global) -> Arg<'a> {
    Arg::new(alloc, "keep_mark")
        .long("keep-mark")
        .help("Take the bytes of a byte order mark as text")
        .action(ArgAction::SetTrue)
}

/// How many errors are named.
fn errors<'a>(alloc: Global) -> Arg<'a> {
    Arg::new(alloc, "errors")
        .long("errors")
        .value_name("N")
        .help("How many errors to name, the first ones, up to 10000")
        .value_parser(value_parser!(u32).range(..=10_000))
        .default_value("10")
        .action(ArgAction::Set)
}

/// The file that is read.
fn file<'a>(alloc: Global) -> Arg<'a> {
    Arg::new(alloc, "file")
        .value_name("FILE")
        .help("The file that is read; - is standard input, as is no FILE")
        .action(ArgAction::Set)
}

/// A command that reads a stream with files.
fn with_stream<'a>(alloc: Global, name: &'a str, about: &'a str) -> Result<Command<'a>, Error> {
    let command = with_sources(alloc, name, about)?.arg(from(alloc))?;
    Ok(command.arg(keep_mark(alloc))?.arg(file(alloc))?)
}

/// The command that converts a stream.
pub(crate) fn convert<'a>(alloc: Global) -> Result<Command<'a>, Error> {
    let about = "Converts a stream of any size from one encoding to another, to standard output";
    let command = with_stream(alloc, CONVERT, about)?.after_help(
        "Example: gate convert --from shift_jis --to utf-8 --indexes standard --labels standard/encodings.json < in > out",
    );
    Ok(command.arg(to(alloc))?.arg(mode(alloc))?)
}

/// The command that checks a stream.
pub(crate) fn check<'a>(alloc: Global) -> Result<Command<'a>, Error> {
    let about =
        "Checks a stream of any size: prints its lengths, its line ends and its errors, as one row";
    let command = with_stream(alloc, CHECK, about)?.after_help(
        "Example: gate check --from shift_jis --indexes standard --labels standard/encodings.json < in",
    );
    Ok(command.arg(errors(alloc))?)
}
