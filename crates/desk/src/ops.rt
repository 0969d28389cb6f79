//! The table of the ops: what is asked, what is answered, and by what. Each op has a file of its own.
ghost use Rattle.desk.specs.{Commands.asked, Desk.Decides, Documents.reply_of};

mod change;
mod changes;
mod close;
mod diagnostics;
mod documents;
mod encode;
mod errors;
mod hello;
mod lines;
mod offset;
mod open;
mod place;
mod plan;
mod position;
mod replace;
mod since;
mod source;
mod splice;
mod stat;
mod text;

use crate::desk::Desk;
use crate::fault::Fault;
use crate::reply::{BytesReply, EditedReply};
pub use change::{Change, ChangeReply};
pub use changes::{Changes, ChangesReply, ContentChange};
pub use close::Close;
pub use diagnostics::{Diagnostics, DiagnosticsReply};
pub use documents::DocumentsReply;
pub use encode::Encode;
pub use errors::{Errors, ErrorsReply};
pub use hello::HelloReply;
pub use lines::{Lines, LinesReply};
pub use offset::{Offset, OffsetReply};
pub use open::Open;
pub use place::{Place, PlaceReply};
pub use plan::{Plan, PlanReply};
pub use position::{Position, PositionReply};
pub use replace::Replace;
pub use since::{Since, SinceReply};
pub use source::Source;
pub use splice::Splice;
pub use stat::{Stat, StatReply};
pub use text::{Text, TextReply};

/// One command. Its texts are borrowed from the line that it was parsed from.
#[derive(Drop)]
pub enum Command<'a> {
    /// Opens a document.
    Open(Open<'a>),
    /// Closes a document.
    Close(Close<'a>),
    /// Replaces bytes of a document.
    Splice(Splice<'a>),
    /// Replaces a range of a document's text.
    Change(Change<'a>),
    /// Makes a list of changes of a document's text.
    Changes(Changes<'a>),
    /// Replaces a range of a document's text by given bytes.
    Replace(Replace<'a>),
    /// Returns what a change of a document's text would do.
    Plan(Plan<'a>),
    /// Returns code points of a document's text.
    Text(Text<'a>),
    /// Returns bytes of a document as they are.
    Source(Source<'a>),
    /// Returns code points of a document's text, encoded.
    Encode(Encode<'a>),
    /// Returns a page of the places of a document's errors.
    Errors(Errors<'a>),
    /// Returns a page of a document's errors with their positions.
    Diagnostics(Diagnostics<'a>),
    /// Returns a page of a document's lines.
    Lines(Lines<'a>),
    /// Returns the position of an offset.
    Position(Position<'a>),
    /// Returns the offset of a position.
    Offset(Offset<'a>),
    /// Returns an offset in all units, and the place of the code point there.
    Place(Place<'a>),
    /// Returns the splice that leads from an earlier revision to the one now.
    Since(Since<'a>),
    /// Returns how long a document and its text are.
    Stat(Stat<'a>),
}

/// The answer to one command. The members of a reply are declared next to its op, or in `reply.rt` if
/// two ops share them.
#[derive(Drop)]
pub enum Reply {
    /// An open or a splice was accepted.
    Edited(EditedReply),
    /// A change of a range was accepted, or given bytes in its place.
    Change(ChangeReply),
    /// A list of changes was accepted.
    Changes(ChangesReply),
    /// The plan of a change.
    Plan(PlanReply),
    /// A document was closed.
    Closed {
        /// The revision that it had.
        rev: u64,
    },
    /// The text asked for.
    Text(TextReply),
    /// The bytes asked for.
    Bytes(BytesReply),
    /// A page of the places of errors.
    Errors(ErrorsReply),
    /// A page of errors with their positions.
    Diagnostics(DiagnosticsReply),
    /// A page of lines.
    Lines(LinesReply),
    /// The position of an offset.
    Position(PositionReply),
    /// The offset of a position.
    Offset(OffsetReply),
    /// An offset in each unit, and the place of the code point there.
    Place(PlaceReply),
    /// The splice since a revision.
    Since(SinceReply),
    /// The lengths of a document and its text.
    Stat(StatReply),
    /// The command was refused, and changed nothing.
    Refused {
        /// The first cause, in the order of `Fault`'s variants.
        fault: Fault,
    },
}

impl Desk<'_> {
    /// The reply to a command, or why it is refused.
    pub(crate) fn decide(&mut self, command: &Command<'_>) -> Result<Reply, Fault>
        ensures { Decides self.old (asked command.now) (reply_of result) self.new }
    {
        match command {
            Command::Open(open) => self.open(open),
            Command::Close(close) => self.documents.close(close.doc),
            Command::Splice(splice) => self.splice(splice),
            Command::Change(change) => self.change(change),
            Command::Changes(changes) => self.changes(changes),
            Command::Replace(replace) => self.replace(replace),
            Command::Plan(plan) => self.ask(plan.doc, plan),
            Command::Text(text) => self.ask(text.doc, text),
            Command::Source(source) => self.ask(source.doc, source),
            Command::Encode(encode) => self.ask(encode.doc, encode),
            Command::Errors(errors) => self.ask(errors.doc, errors),
            Command::Diagnostics(diagnostics) => self.ask(diagnostics.doc, diagnostics),
            Command::Lines(lines) => self.ask(lines.doc, lines),
            Command::Position(position) => self.ask(position.doc, position),
            Command::Offset(offset) => self.ask(offset.doc, offset),
            Command::Place(place) => self.ask(place.doc, place),
            Command::Since(since) => self.ask(since.doc, since),
            Command::Stat(stat) => self.ask(stat.doc, stat),
        }
    }
}
