//! All that the program does with its arguments.
ghost use Rattle.std.specs.Prelude.{◌≡◌, ◌≢◌, None, Err, IfOk, replicate};
ghost use Rattle.gateway.specs.Events.{connections};
ghost use Rattle.gate.specs.Places.{IsServed};

use crate::beginning::beginning;
use crate::checking::check_stream;
use crate::conversion::convert_stream;
use crate::failure::Failure;
use crate::labels::{labels_in, names};
use crate::record_file::{compacted, recorded};
use crate::replay::replay;
use crate::stdio::{failure_of, serve_stdio};
use crate::text_outlet::TextOutlet;
use crate::token_file::token_line;
use crate::watched::Named;
use command_line::{Access, Allowances, Job, Limits, Listening, Place, Recording, Sources, job_of};
use enc_names::Labels;
use gateway::{CONNECTIONS, Feed, Gateway, KeepsEvents, Outlet, run};
use index_files::{indexes_in, summed_indexes_in};
use index_loader::Indexes;
use records::Origin;
use serving::{Refusal, ServingFault, serve_clients};
use sessions::Sessions;
use sha2::{Digest, Sha256};
use std::alloc::Global;
use std::fs::{self, File, Files};
use std::io::Print;
use std::net::Net;
use std::time::Clock;

/// Runs what the arguments say, with `input` as standard input, `output` as standard output and
/// `error` as standard error, and returns the exit status. The program's name isn't one of the
/// arguments. A text that can't be written to `error` changes no status.
pub fn perform<T: Files<File = File> + Net + Clock + Print, R: Feed, W: Outlet, E: Outlet>(
    rt: &T,
    alloc: Global,
    words: &[String],
    input: &mut R,
    output: &mut W,
    error: &mut E,
) -> u8 {
    match attempt(rt, alloc, words, input, output, error) {
        Ok(()) => 0,
        Err(failure) => {
            failure.print(error);
            failure.status()
        }
    }
}

/// Reads the command line first, then the files, and then serves.
fn attempt<'a, T: Files<File = File> + Net + Clock + Print, R: Feed, W: Outlet, E: Outlet>(
    rt: &'a T,
    alloc: Global,
    words: &'a [String],
    input: &mut R,
    output: &mut W,
    error: &mut E,
) -> Result<(), Failure<'a>> {
    let job = match job_of(alloc, words) {
        Ok(job) => job,
        Err(why) => return refused(why, output),
    };
    match job {
        Job::Plain => serve_plain(alloc, input, output)?,
        Job::Stdio(sources, recording) => {
            serve_input(rt, alloc, sources, recording, input, output, error)?
        }
        Job::Trace(sources) => replay_input(rt, alloc, sources, input, output)?,
        Job::Compact(sources, name, allowances) => {
            compact_record(rt, alloc, sources, name, allowances)?
        }
        Job::Convert(sources, stream, target) => {
            convert_stream(rt, alloc, sources, stream, target, input)?
        }
        Job::Check(sources, stream, errors) => {
            check_stream(rt, alloc, sources, stream, errors, input, output)?
        }
        Job::Tcp(sources, recording, listening) => {
            let place = Place::Port(listening.port, Access::NoRequest);
            let limits = one_by_one(listening);
            serve_live(rt, alloc, sources, recording, place, limits, error)?
        }
        Job::Serve(sources, recording, place, limits) => {
            serve_live(rt, alloc, sources, recording, place, at_once(limits), error)?
        }
    }
    Ok(())
}

// What holds index files has a frame of its own. One frame for all of them would be more than the 128 KiB of stack that a
// process is given at its start. More stack may be refused if memory has run out.

/// Serves the standard streams with the names as labels and without index files.
#[inline(never)]
fn serve_plain<'a, R: Feed, W: Outlet>(
    alloc: Global,
    input: &mut R,
    output: &mut W,
) -> Result<(), Failure<'a>> {
    let labels = names(alloc)?;
    serve_stdio(alloc, &Indexes::new(), labels, input, output)
}

/// Serves the standard streams over the files that are named, and records what happens.
#[inline(never)]
fn serve_input<'a, T: Files<File = File>, R: Feed, W: Outlet, E: Outlet>(
    rt: &'a T,
    alloc: Global,
    sources: Sources<'a>,
    recording: Option<Recording<'a>>,
    input: &mut R,
    output: &mut W,
    error: &mut E,
) -> Result<(), Failure<'a>> {
    match recording {
        Some(recording) => {
            let (indexes, labels, origin) = known_files_of(rt, alloc, sources)?;
            let gateway = beginning(alloc, &indexes, labels);
            let named = Named {
                rt,
                name: recording.file,
            };
            record_input(
                named, alloc, gateway, &origin, recording, input, output, error,
            )
        }
        None => {
            let (indexes, labels) = files_of(rt, alloc, sources)?;
            serve_stdio(alloc, &indexes, labels, input, output)
        }
    }
}

/// Serves the standard streams by a gateway whose events are recorded.
#[inline(never)]
fn record_input<'i, 'a, T: Files<File = File>, R: Feed, W: Outlet, E: Outlet>(
    named: Named<'i, T>,
    alloc: Global,
    gateway: Gateway<'i>,
    origin: &Origin,
    recording: Recording<'a>,
    input: &mut R,
    output: &mut W,
    error: &mut E,
) -> Result<(), Failure<'a>> {
    let mut gateway = recorded(named, alloc, gateway, origin, recording, error)?;
    match run(&mut gateway, 0, input, output) {
        Ok(()) => {}
        Err(fault) => return Err(failure_of(fault)),
    }
    whole(gateway.is_whole())
}

/// A failure unless all that happened is recorded.
fn whole<'a>(is_whole: bool) -> Result<(), Failure<'a>> {
    if is_whole {
        Ok(())
    } else {
        Err(Failure::Record)
    }
}

/// Plays a trace over the files that are named.
#[inline(never)]
fn replay_input<'a, T: Files, R: Feed, W: Outlet>(
    rt: &T,
    alloc: Global,
    sources: Sources<'a>,
    input: &mut R,
    output: &mut W,
) -> Result<(), Failure<'a>> {
    let (indexes, labels) = files_of(rt, alloc, sources)?;
    replay(alloc, &indexes, labels, input, output)
}

/// Compacts a record over the files that are named. If there were no folder of index files, such as
/// after a mistake in its name, documents would be missing for good.
#[inline(never)]
fn compact_record<'a, T: Files<File = File>>(
    rt: &'a T,
    alloc: Global,
    sources: Sources<'a>,
    name: &'a str,
    allowances: Allowances,
) -> Result<(), Failure<'a>> {
    match fs::metadata(rt, sources.indexes) {
        Ok(found) if found.is_dir() => {}
        _ => return Err(Failure::CannotRead(sources.indexes)),
    }
    let (indexes, labels, origin) = known_files_of(rt, alloc, sources)?;
    let gateway = beginning(alloc, &indexes, labels);
    compacted(rt, alloc, gateway, &origin, name, allowances)
}

/// Serves live clients over the files that are named, and records what happens.
#[inline(never)]
fn serve_live<'a, T: Files<File = File> + Net + Clock, E: Outlet>(
    rt: &'a T,
    alloc: Global,
    sources: Sources<'a>,
    recording: Option<Recording<'a>>,
    place: Place<'a>,
    limits: serving::Limits,
    error: &mut E,
) -> Result<(), Failure<'a>> {
    match recording {
        Some(recording) => {
            let (indexes, labels, origin) = known_files_of(rt, alloc, sources)?;
            let gateway = beginning(alloc, &indexes, labels);
            let named = Named {
                rt,
                name: recording.file,
            };
            record_live(
                named, alloc, gateway, &origin, recording, place, limits, error,
            )
        }
        None => {
            let (indexes, labels) = files_of(rt, alloc, sources)?;
            let gateway = beginning(alloc, &indexes, labels);
            serve(rt, alloc, &mut Sessions::new(alloc, gateway), place, limits)
        }
    }
}

/// Serves live clients by a gateway whose events are recorded.
#[inline(never)]
fn record_live<'i, 'a, T: Files<File = File> + Net + Clock, E: Outlet>(
    named: Named<'i, T>,
    alloc: Global,
    gateway: Gateway<'i>,
    origin: &Origin,
    recording: Recording<'a>,
    place: Place<'a>,
    limits: serving::Limits,
    error: &mut E,
) -> Result<(), Failure<'a>> {
    let rt = named.rt;
    let served = served_at(rt, place)?;
    let gateway = recorded(named, alloc, gateway, origin, recording, error)?;
    let mut sessions = Sessions::new(alloc, gateway);
    match serve_clients(rt, alloc, &mut sessions, served, limits) {
        Ok(()) => {}
        Err(fault) => return Err(failure_of_serving(fault, place)),
    }
    whole(sessions.gateway().is_whole())
}

/// Serves live clients of a gateway on which no connection is open.
fn serve<'a, T: Files<File = File> + Net + Clock, G: KeepsEvents + Drop>(
    rt: &T,
    alloc: Global,
    sessions: &mut Sessions<G>,
    place: Place<'a>,
    limits: serving::Limits,
) -> Result<(), Failure<'a>>
    requires { sessions.old.clients ≡ replicate connections None }
    ensures keeps { G.keeps_all → result ≢ Err Failure.Record }
{
    let served = served_at(rt, place)?;
    match serve_clients(rt, alloc, sessions, served, limits) {
        Ok(()) => Ok(()),
        Err(fault) => Err(failure_of_serving(fault, place)),
    }
}

/// The failure for a fault of serving at this place.
fn failure_of_serving<'a>(fault: ServingFault, place: Place<'a>) -> Failure<'a>
    ensures { fault ≢ ServingFault.Unkept → result ≢ Failure.Record }
{
    match fault {
        ServingFault::Listen => cannot_listen(place),
        ServingFault::Accept => Failure::Accept,
        ServingFault::Poll => Failure::Poll,
        ServingFault::Unkept => Failure::Record,
        ServingFault::OutOfMemory => Failure::OutOfMemory,
    }
}

/// One client after another, `connections` in all, until one can't be let in.
fn one_by_one(listening: Listening) -> serving::Limits {
    serving::Limits {
        places: 1,
        clients: Some(listening.connections),
        idle: None,
        refusal: Refusal::End,
    }
}

/// As many clients at once as there are connections.
fn at_once(limits: Limits) -> serving::Limits {
    serving::Limits {
        places: CONNECTIONS as u8,
        clients: limits.clients,
        idle: limits.idle,
        refusal: Refusal::Retry,
    }
}

/// The place that the arguments name, in the form of the crate that serves there. A token is read
/// from its file.
fn served_at<'a, T: Files<File = File>>(
    rt: &T,
    place: Place<'a>,
) -> Result<serving::Place<'a>, Failure<'a>>
    ensures place { IfOk result (IsServed place.entry) }
    ensures failed { result ≢ Err Failure.Record }
{
    let (port, access) = match place {
        Place::Path(path) => return Ok(serving::Place::Path(path)),
        Place::Port(port, access) => (port, access),
    };
    let access = match access {
        Access::Token(file) => serving::Access::Line(token_line(rt, file)?),
        Access::Object => serving::Access::Object,
        Access::NoRequest => serving::Access::NoRequest,
    };
    Ok(serving::Place::Port(port, access))
}

/// The failure for a place that can't be listened at.
fn cannot_listen(place: Place<'_>) -> Failure<'_>
    ensures { result ≢ Failure.Record }
{
    match place {
        Place::Path(path) => Failure::CannotListenAt(path),
        Place::Port(port, _) => Failure::CannotListen(port),
    }
}

/// The index files, and then the labels of the label file, or the names if there isn't one.
#[inline(never)]
fn files_of<'a, T: Files>(
    rt: &T,
    alloc: Global,
    sources: Sources<'a>,
) -> Result<(Indexes, Labels), Failure<'a>> {
    let indexes = indexes_in(rt, alloc, sources.indexes)?;
    let (labels, _) = labels_of(rt, alloc, sources)?;
    Ok((indexes, labels))
}

/// The index files and labels, and what a record says of them.
#[inline(never)]
fn known_files_of<'a, T: Files>(
    rt: &T,
    alloc: Global,
    sources: Sources<'a>,
) -> Result<(Indexes, Labels, Origin), Failure<'a>> {
    let (indexes, sums) = summed_indexes_in(rt, alloc, sources.indexes)?;
    let (labels, sum) = labels_of(rt, alloc, sources)?;
    let of_indexes = sums.indexes;
    let of_exceptions = sums.exceptions;
    let origin = Origin {
        indexes: of_indexes,
        exceptions: of_exceptions,
        labels: sum,
    };
    Ok((indexes, labels, origin))
}

/// The labels of the label file, or the names if there isn't one; and the SHA-256 of the file.
pub(crate) fn labels_of<'a, T: Files>(
    rt: &T,
    alloc: Global,
    sources: Sources<'a>,
) -> Result<(Labels, [u8; 32]), Failure<'a>> {
    match sources.labels {
        Some(name) => labels_in(rt, alloc, name),
        None => Ok((names(alloc)?, Sha256::digest(b""))),
    }
}

/// Help and the version are printed to the output; every other error of the command line is a failure.
fn refused<'a, W: Outlet>(error: clap::Error, output: &mut W) -> Result<(), Failure<'a>> {
    if error.kind() == clap::error::ErrorKind::OutOfMemory {
        return Err(Failure::OutOfMemory);
    }
    if error.use_stderr() {
        return Err(Failure::Words(error));
    }
    TextOutlet::new(output)
        .put(&error)
        .map_err(|_| Failure::Write)
}
