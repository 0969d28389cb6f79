//! The job that the program is asked to do.

/// The job of the program.
#[derive(Clone, Copy)]
pub enum Job<'a> {
    /// Serve the standard streams without files.
    Plain,
    /// Serve the standard streams with these files, and record there what happens.
    Stdio(Sources<'a>, Option<Recording<'a>>),
    /// Play the trace on standard input with these files.
    Trace(Sources<'a>),
    /// Compact the record in this file with these files.
    Compact(Sources<'a>, &'a str, Allowances),
    /// Convert a stream with these files.
    Convert(Sources<'a>, Stream<'a>, Target<'a>),
    /// Check a stream with these files, and print so many errors at most.
    Check(Sources<'a>, Stream<'a>, u32),
    /// Serve connections over TCP with these files, and record there what happens.
    Tcp(Sources<'a>, Option<Recording<'a>>, Listening),
    /// Serve live clients with these files, at this place, within these limits. Record the events there.
    Serve(Sources<'a>, Option<Recording<'a>>, Place<'a>, Limits),
}

/// The files that the program is to read.
#[derive(Clone, Copy)]
pub struct Sources<'a> {
    /// The folder of the index files.
    pub indexes: &'a str,
    /// The label file; without one the encodings' names are the labels.
    pub labels: Option<&'a str>,
}

/// The file in which events are recorded.
#[derive(Clone, Copy)]
pub struct Recording<'a> {
    /// The file of the record.
    pub file: &'a str,
    /// Whether the program resumes the record.
    pub resumes: bool,
    /// Whether each event is written to the disk before its reply goes out.
    pub sync: bool,
    /// What else than a record of these files is resumed.
    pub allowances: Allowances,
}

/// Which records are taken besides those that were written with the same index files and labels. They
/// are written anew.
#[derive(Clone, Copy)]
pub struct Allowances {
    /// One that was written with others.
    pub other_files: bool,
    /// One without a first line, as versions before this one wrote it.
    pub old_record: bool,
}

/// The place where the program listens, and the number of connections that it serves.
#[derive(Clone, Copy)]
pub struct Listening {
    /// The port on 127.0.0.1, at least 1.
    pub port: u16,
    /// The number of connections, from 1 up to 1,000,000.
    pub connections: u32,
}

/// The place to which live clients connect.
#[derive(Clone, Copy)]
pub enum Place<'a> {
    /// A Unix socket of this path.
    Path(&'a str),
    /// A port of 127.0.0.1, at least 1, for these clients.
    Port(u16, Access<'a>),
}

/// The clients that are let in at a port.
#[derive(Clone, Copy)]
pub enum Access<'a> {
    /// Those that send the token in this file first.
    Token(&'a str),
    /// Those that send an object first, which no web page can.
    Object,
    /// Those that don't send a request of HTTP or TLS first.
    NoRequest,
}

/// The limits after which live clients are served no longer. Without a limit they are served until a
/// signal ends the program.
#[derive(Clone, Copy)]
pub struct Limits {
    /// The number of clients that are served, from 1 up to 1,000,000.
    pub clients: Option<u32>,
    /// The seconds without a client after which it ends, at least 1.
    pub idle: Option<u32>,
}

/// A stream that is read.
#[derive(Clone, Copy)]
pub struct Stream<'a> {
    /// The label of its encoding.
    pub from: &'a str,
    /// Whether the bytes of a byte order mark are text like others.
    pub keeps_mark: bool,
    /// Its file; without one it is standard input.
    pub file: Option<&'a str>,
}

/// What a stream is converted to.
#[derive(Clone, Copy)]
pub struct Target<'a> {
    /// The label of the encoding that is written.
    pub to: &'a str,
    /// What is done about damage.
    pub mode: Mode,
}

/// What a conversion does about bytes that don't decode, and about code points that the target lacks.
#[derive(Clone, Copy)]
pub enum Mode {
    /// Either ends it.
    Fatal,
    /// Bytes that don't decode become U+FFFD; a code point that the target lacks ends it.
    Replacement,
    /// Bytes that don't decode become U+FFFD, and a code point that the target lacks a decimal
    /// character reference.
    Html,
}
