//! The form of the command line, and the job that words of this form ask for.

use crate::job::{Access, Allowances, Job, Limits, Listening, Place, Recording, Sources};
use crate::streams::{CHECK, CONVERT, check, check_of, convert, convert_of};
use clap::error::ErrorKind;
use clap::{Arg, ArgAction, ArgGroup, ArgMatches, Command, Error, value_parser};
use std::alloc::Global;

/// The version of the program and its packages. With it goes the identity of the toolchain that proves
/// it, as printed by `rt version`.
const VERSION: &str = "0.5.0 (logic dac8208d650f15bf)";

/// The command that serves the standard streams with files.
const STDIO: &str = "stdio";

/// The command that plays a trace.
const TRACE: &str = "trace";

/// The command that compacts a record.
const COMPACT: &str = "compact";

/// The command that serves connections over TCP, one after another.
const TCP: &str = "tcp";

/// The command that serves live clients.
const SERVE: &str = "serve";

/// The job of the words; the program's name isn't one of them. The error is what `clap` says of words of another form, of a
/// question for help or the version, and of memory that ran out.
pub fn job_of(alloc: Global, words: &[String]) -> Result<Job<'_>, Error> {
    let mut command = command(alloc)?;
    let matches = command.try_get_matches_from_mut(words)?;
    match asked(&matches) {
        Some(job) => Ok(job),
        None => Err(command.error(ErrorKind::MissingRequiredArgument, "an option has no value")?),
    }
}

/// The job of accepted arguments. `None` if an option that it needs has no value.
fn asked<'a>(matches: &ArgMatches<'a>) -> Option<Job<'a>> {
    if let Some(given) = matches.subcommand_matches(STDIO) {
        return Some(Job::Stdio(sources_of(given)?, recording_of(given)));
    }
    if let Some(given) = matches.subcommand_matches(TRACE) {
        return Some(Job::Trace(sources_of(given)?));
    }
    if let Some(given) = matches.subcommand_matches(COMPACT) {
        let file = given.get_str("file")?;
        return Some(Job::Compact(sources_of(given)?, file, allowances_of(given)));
    }
    if let Some(given) = matches.subcommand_matches(CONVERT) {
        return convert_of(given);
    }
    if let Some(given) = matches.subcommand_matches(CHECK) {
        return check_of(given);
    }
    if let Some(given) = matches.subcommand_matches(TCP) {
        return tcp_of(given);
    }
    match matches.subcommand_matches(SERVE) {
        Some(given) => serve_of(given),
        None => Some(Job::Plain),
    }
}

/// The files that the words name.
pub(crate) fn sources_of<'a>(given: &ArgMatches<'a>) -> Option<Sources<'a>> {
    Some(Sources {
        indexes: given.get_str("indexes")?,
        labels: given.get_str("labels"),
    })
}

/// The record of events that the arguments ask for, if any.
fn recording_of<'a>(given: &ArgMatches<'a>) -> Option<Recording<'a>> {
    let sync = given.get_flag("sync");
    let allowances = allowances_of(given);
    if let Some(file) = given.get_str("resume") {
        return Some(Recording {
            file,
            resumes: true,
            sync,
            allowances,
        });
    }
    Some(Recording {
        file: given.get_str("record")?,
        resumes: false,
        sync,
        allowances,
    })
}

/// Which other records the words allow.
fn allowances_of(given: &ArgMatches<'_>) -> Allowances {
    Allowances {
        other_files: given.get_flag("other-files"),
        old_record: given.get_flag("old-record"),
    }
}

/// The job of the command that listens.
fn tcp_of<'a>(given: &ArgMatches<'a>) -> Option<Job<'a>> {
    let sources = sources_of(given)?;
    let listening = Listening {
        port: given.get_one::<u16>("port")?,
        connections: given.get_one::<u32>("serve")?,
    };
    Some(Job::Tcp(sources, recording_of(given), listening))
}

/// The job of the command that serves live clients.
fn serve_of<'a>(given: &ArgMatches<'a>) -> Option<Job<'a>> {
    let sources = sources_of(given)?;
    let place = match given.get_str("socket") {
        Some(path) => Place::Path(path),
        None => Place::Port(given.get_one::<u16>("port")?, access_of(given)),
    };
    let limits = Limits {
        clients: given.get_one::<u32>("serve"),
        idle: given.get_one::<u32>("idle"),
    };
    Some(Job::Serve(sources, recording_of(given), place, limits))
}

/// The clients that are let in at a port.
fn access_of<'a>(given: &ArgMatches<'a>) -> Access<'a> {
    match given.get_str("token-file") {
        Some(file) => Access::Token(file),
        None => Access::Object,
    }
}

/// The folder of index files.
fn indexes<'a>(alloc: Global) -> Arg<'a> {
    Arg::new(alloc, "indexes")
        .long("indexes")
        .value_name("DIR")
        .help("The folder of the index files; a file that isn't there is an absent index")
        .required(true)
        .action(ArgAction::Set)
}

/// The label file.
fn labels<'a>(alloc: Global) -> Arg<'a> {
    Arg::new(alloc, "labels")
        .long("labels")
        .value_name("FILE")
        .help("The label file; without one the 40 names are the labels")
        .action(ArgAction::Set)
}

/// The port that is listened on.
fn port<'a>(alloc: Global) -> Arg<'a> {
    Arg::new(alloc, "port")
        .long("port")
        .value_name("N")
        .help("The port on 127.0.0.1, from 1 to 65535")
        .value_parser(value_parser!(u16).range(1..))
        .action(ArgAction::Set)
}

/// The option with the number of connections that are served.
fn connections<'a>(alloc: Global) -> Arg<'a> {
    Arg::new(alloc, "serve")
        .long("serve")
        .value_name("N")
        .help("How many connections to serve, from 1 to 1000000")
        .value_parser(value_parser!(u32).range(1..=1_000_000))
        .action(ArgAction::Set)
}

/// The socket that is listened at.
fn socket<'a>(alloc: Global) -> Arg<'a> {
    Arg::new(alloc, "socket")
        .long("socket")
        .value_name("PATH")
        .help("The path of the Unix socket, to which only the user may connect")
        .action(ArgAction::Set)
}

/// The file of the token that clients send first.
fn token_file<'a>(alloc: Global) -> Arg<'a> {
    Arg::new(alloc, "token-file")
        .long("token-file")
        .value_name("FILE")
        .help(
            "Let in the clients at the port that send the token in FILE first; without FILE create it with a new token",
        )
        .action(ArgAction::Set)
}

/// Whether the clients at a port need no token.
fn no_token<'a>(alloc: Global) -> Arg<'a> {
    Arg::new(alloc, "no-token")
        .long("no-token")
        .help("Let in every program of this machine at the port")
        .action(ArgAction::SetTrue)
}

/// The option with the time that no client may be connected.
fn idle<'a>(alloc: Global) -> Arg<'a> {
    Arg::new(alloc, "idle")
        .long("idle")
        .value_name("S")
        .help("End where no client has been there for S seconds, from 1 on")
        .value_parser(value_parser!(u32).range(1..))
        .action(ArgAction::Set)
}

/// The file of a new record.
fn record<'a>(alloc: Global) -> Arg<'a> {
    Arg::new(alloc, "record")
        .long("record")
        .value_name("FILE")
        .help(
            "Record each event in FILE, as a line of a trace, before its reply goes out; nothing may be recorded there",
        )
        .action(ArgAction::Set)
}

/// The option with the file of a record to resume.
fn resume<'a>(alloc: Global) -> Arg<'a> {
    Arg::new(alloc, "resume")
        .long("resume")
        .value_name("FILE")
        .help(
            "Go on with the documents of the record in FILE, and record there; without FILE begin it",
        )
        .action(ArgAction::Set)
}

/// The file of a record that is compacted.
fn compacted<'a>(alloc: Global) -> Arg<'a> {
    Arg::new(alloc, "file")
        .value_name("RECORD")
        .help("The file of the record, in which no gate may be recording")
        .required(true)
        .action(ArgAction::Set)
}

/// Whether a record is taken that was written with other index files or labels.
fn other_files<'a>(alloc: Global) -> Arg<'a> {
    Arg::new(alloc, "other-files")
        .long("other-files")
        .help(
            "Take a record that was written with other index files or labels; it stays beside the new one",
        )
        .action(ArgAction::SetTrue)
}

/// Whether a record is taken that has no first line.
fn old_record<'a>(alloc: Global) -> Arg<'a> {
    Arg::new(alloc, "old-record")
        .long("old-record")
        .help(
            "Take a record without a first line, of gate 0.4.0 or earlier; it stays beside the new one",
        )
        .action(ArgAction::SetTrue)
}

/// Whether what is recorded is written to the disk.
fn sync<'a>(alloc: Global) -> Arg<'a> {
    Arg::new(alloc, "sync")
        .long("sync")
        .help("Have each event on the disk before its reply goes out")
        .action(ArgAction::SetTrue)
}

/// A command that may record its events.
fn with_recording<'a>(alloc: Global, command: Command<'a>) -> Result<Command<'a>, Error> {
    let command = command.arg(record(alloc))?.arg(resume(alloc))?;
    let file = ArgGroup::new(alloc, "recording")
        .arg("record")?
        .arg("resume")?;
    let command = command.group(file)?;
    let command = command.arg(sync(alloc).requires_arg("recording")?)?;
    let command = command.arg(with_resume(other_files(alloc))?)?;
    Ok(command.arg(with_resume(old_record(alloc))?)?)
}

/// An option that is given with `--resume` alone.
fn with_resume(option: Arg<'_>) -> Result<Arg<'_>, Error> {
    Ok(option.requires_arg("resume")?.conflicts_with("record")?)
}

/// An option that is given with `--port` alone.
fn with_port(option: Arg<'_>) -> Result<Arg<'_>, Error> {
    Ok(option.requires_arg("port")?.conflicts_with("socket")?)
}

/// A command that serves with files. Each argument goes into the command as soon as it is made, here
/// and below. So none is left over if memory is refused: its drop would be long to prove.
pub(crate) fn with_sources<'a>(
    alloc: Global,
    name: &'a str,
    about: &'a str,
) -> Result<Command<'a>, Error> {
    let command = Command::new(alloc, name).about(about).arg(indexes(alloc))?;
    Ok(command.arg(labels(alloc))?)
}

/// The command that compacts a record.
fn compact<'a>(alloc: Global) -> Result<Command<'a>, Error> {
    let about =
        "Puts a record of the documents as they are in the place of a record, with index files and labels";
    let command = with_sources(alloc, COMPACT, about)?.after_help(
        "Example: gate compact --indexes standard --labels standard/encodings.json record",
    );
    let command = command.arg(compacted(alloc))?;
    let command = command.arg(other_files(alloc))?;
    Ok(command.arg(old_record(alloc))?)
}

/// The command that listens.
fn tcp<'a>(alloc: Global) -> Result<Command<'a>, Error> {
    let about = "Serves connections on 127.0.0.1, one after another, with index files and labels";
    let command = with_sources(alloc, TCP, about)?.after_help(
        "Example: gate tcp --indexes standard --labels standard/encodings.json --port 7117 --serve 10",
    );
    let command = with_recording(alloc, command)?;
    let command = command.arg(port(alloc).default_value("7117"))?;
    Ok(command.arg(connections(alloc).default_value("1"))?)
}

/// The command that serves live clients, at a socket or at a port.
fn serve<'a>(alloc: Global) -> Result<Command<'a>, Error> {
    let about =
        "Serves up to sixteen clients at once, at a Unix socket or on 127.0.0.1, with index files and labels";
    let command = with_sources(alloc, SERVE, about)?.after_help(
        "Example: gate serve --indexes standard --labels standard/encodings.json --socket gate.sock --idle 60",
    );
    let command = with_recording(alloc, command)?;
    let port = port(alloc).requires_arg("access")?;
    let command = command.arg(socket(alloc))?.arg(port)?;
    let command = command.arg(with_port(token_file(alloc))?)?;
    let command = command.arg(with_port(no_token(alloc))?)?;
    let access = ArgGroup::new(alloc, "access")
        .arg("token-file")?
        .arg("no-token")?;
    let command = command.group(access)?;
    let command = command.arg(connections(alloc))?.arg(idle(alloc))?;
    let place = ArgGroup::new(alloc, "place").arg("socket")?.arg("port")?;
    Ok(command.group(place.required(true))?)
}

/// The command line's form.
fn command<'a>(alloc: Global) -> Result<Command<'a>, Error> {
    let about = "Serves standard input with index files and labels";
    let stdio = with_sources(alloc, STDIO, about)?.after_help(
        "Example: gate stdio --indexes standard --labels standard/encodings.json < session.jsonl",
    );
    let stdio = with_recording(alloc, stdio)?;
    let about =
        "Plays the trace on standard input, the events of many connections, with index files and labels";
    let trace = with_sources(alloc, TRACE, about)?.after_help(
        "Example: gate trace --indexes standard < two-connections.trace",
    );
    let gate = Command::new(alloc, "gate")
        .bin_name("gate")?
        .version(VERSION)
        .about(
            "A live transcoding gateway for edited legacy documents: JSON lines in, replies out. Without a command it serves standard input with no index file.",
        )
        .after_help(
            "Example: gate < session.jsonl\n\nStatuses: gate(1). Commands, replies and limits: docs/PROTOCOL.md in the program's repository",
        )
        .no_binary_name(true)
        .subcommand(stdio)?
        .subcommand(trace)?
        .subcommand(compact(alloc)?)?
        .subcommand(convert(alloc)?)?
        .subcommand(check(alloc)?)?
        .subcommand(tcp(alloc)?)?
        .subcommand(serve(alloc)?)?;
    Ok(gate)
}
