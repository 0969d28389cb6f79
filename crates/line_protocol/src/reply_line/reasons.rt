//! Refusals: the table of what each line says, and the line that says it.
ghost use Rattle.std.specs.Prelude.{◌≡◌, ◌≤◌, ◌+◌, ◌&&◌, length, IsTrue};
ghost use Rattle.serde_json.specs.Data.{object};
ghost use Rattle.line_protocol.specs.Inline.{IsShortLine};
ghost use Rattle.line_protocol.specs.Replies.{fault_reason, plain_reason, field_name, merged, reason_data, refusal_reason};
ghost use Rattle.line_protocol.specs.Writing.{all_plain, are_plain, members_in, members_of, name_room, reason_of, reason_room, room_of};

use crate::reply_line::members::{Content, Member, merged_line};
use crate::reply_line::short_text::{CAPACITY, ShortText};
use crate::request::{Field, Refusal};
use desk::Fault;

/// The reason of a refusal, as its line reports it.
#[derive(Clone, Copy)]
pub(crate) struct Reason {
    /// The fault's name in replies.
    name: &'static str,
    /// The request that is refused, where the line has its number.
    id: Option<u64>,
    /// The number of the refused change in a list of changes, counted from 0.
    change: Option<u64>,
    /// The further members of the line.
    more: More,
}

/// The further members of such a line, in the order of their keys.
#[derive(Clone, Copy)]
pub(super) enum More {
    /// None.
    NoMore,
    /// One: its key and its value.
    One(&'static str, Content<'static>),
    /// Two, each with its key and its value.
    Two(&'static str, Content<'static>, &'static str, Content<'static>),
}

impl Reason {
    /// Memory ran out, which is reported without a number.
    pub(super) const OUT_OF_MEMORY: Reason = Reason {
        name: "OutOfMemory",
        id: None,
        change: None,
        more: More::NoMore,
    };

    /// The reason why the desk refuses the request with this number.
    pub(crate) fn of_fault(id: u64, fault: Fault) -> Reason
        ensures value { reason_of result ≡ fault_reason id fault }
        ensures plain { IsTrue (all_plain result.name.now && are_plain (members_in result.more)) }
        ensures room { length result.name.now + room_of (members_in result.more) ≤ reason_room }
    {
        match fault {
            Fault::InChange { change, cause } => {
                let alone = Reason::of_plain(id, Fault::from(cause));
                Reason {
                    name: alone.name,
                    id: alone.id,
                    change: Some(change),
                    more: alone.more,
                }
            }
            fault => Reason::of_plain(id, fault),
        }
    }

    /// The reason why the desk refuses this request, except a change of a list.
    fn of_plain(id: u64, fault: Fault) -> Reason
        ensures value { reason_of result ≡ plain_reason id fault }
        ensures plain { IsTrue (all_plain result.name.now && are_plain (members_in result.more)) }
        ensures room { length result.name.now + room_of (members_in result.more) ≤ reason_room }
    {
        let (name, more) = match fault {
            Fault::BadBase64 => ("BadBase64", More::NoMore),
            Fault::NoDocument => ("NoDocument", More::NoMore),
            Fault::NameTaken => ("NameTaken", More::NoMore),
            Fault::UnknownLabel => ("UnknownLabel", More::NoMore),
            Fault::NoIndex => ("NoIndex", More::NoMore),
            Fault::TooManyDocuments => ("TooManyDocuments", More::NoMore),
            Fault::Stale { rev } => ("Stale", More::One("rev", Content::Number(rev))),
            Fault::RevisionsSpent => ("RevisionsSpent", More::NoMore),
            Fault::OutOfRange => ("OutOfRange", More::NoMore),
            Fault::Forgotten { rev } => ("Forgotten", More::One("rev", Content::Number(rev))),
            Fault::SplitsCharacter => ("SplitsCharacter", More::NoMore),
            Fault::SplitsItem => ("SplitsItem", More::NoMore),
            Fault::NoEncoder => ("NoEncoder", More::NoMore),
            Fault::Unencodable { code_point, index } => {
                let code_point = Content::Number(u64::from(code_point));
                let index = Content::Number(index);
                (
                    "Unencodable",
                    More::Two("code_point", code_point, "index", index),
                )
            }
            Fault::TooLarge => ("TooLarge", More::NoMore),
            Fault::NotKept => ("NotKept", More::NoMore),
            Fault::InChange { .. } => ("InChange", More::NoMore),
            Fault::Malformed { place } => ("Malformed", More::One("place", Content::At(place))),
            Fault::OutOfMemory => return Reason::OUT_OF_MEMORY,
        };
        Reason {
            name,
            id: Some(id),
            change: None,
            more,
        }
    }

    /// The reason why a line is refused before the desk sees it.
    pub(super) fn of_line(refusal: Refusal) -> Reason
        ensures value { reason_of result ≡ refusal_reason refusal }
        ensures plain { IsTrue (all_plain result.name.now && are_plain (members_in result.more)) }
        ensures room { length result.name.now + room_of (members_in result.more) ≤ reason_room }
    {
        let (name, id, more) = match refusal {
            Refusal::LineTooLong => ("LineTooLong", None, More::NoMore),
            Refusal::BadJson => ("BadJson", None, More::NoMore),
            Refusal::BadRequest { id, field } => {
                let field = Content::Text(field_name(field));
                ("BadRequest", id, More::One("field", field))
            }
            Refusal::UnknownOp { id } => ("UnknownOp", Some(id), More::NoMore),
            Refusal::OutOfMemory => return Reason::OUT_OF_MEMORY,
        };
        Reason {
            name,
            id,
            change: None,
            more,
        }
    }

    /// Writes the line with this reason. The members `change`, `fault` and `id` are placed among the
    /// others in the order of the keys.
    pub(crate) fn line(&self) -> ShortText
        requires plain { IsTrue (all_plain self.now.name.now && are_plain (members_in self.now.more)) }
        requires room { length self.now.name.now + room_of (members_in self.now.more) ≤ reason_room }
        ensures { IsShortLine (reason_data (reason_of self.now)) result }
    {
        let fault = ("fault", Content::Text(self.name));
        match (self.change, self.id) {
            (None, None) => with_more(&[fault], self.more),
            (None, Some(id)) => with_more(&[fault, ("id", Content::Number(id))], self.more),
            (Some(change), None) => {
                with_more(&[("change", Content::Number(change)), fault], self.more)
            }
            (Some(change), Some(id)) => {
                let (change, id) = (Content::Number(change), Content::Number(id));
                with_more(&[("change", change), fault, ("id", id)], self.more)
            }
        }
    }
}

/// The line of an object with these members and further ones.
fn with_more(own: &[Member<'_>], more: More) -> ShortText
    requires plain { IsTrue (are_plain own.now && are_plain (members_in more)) }
    requires room { room_of own.now + room_of (members_in more) + 1 ≤ CAPACITY }
    ensures { IsShortLine (object (merged (members_of own.now) (members_of (members_in more)))) result }
{
    match more {
        More::NoMore => merged_line(own, &[]),
        More::One(key, content) => merged_line(own, &[(key, content)]),
        More::Two(key, content, other, behind) => {
            merged_line(own, &[(key, content), (other, behind)])
        }
    }
}

/// A field's name in replies.
fn field_name(field: Field) -> &'static str
    ensures value { result.now ≡ field_name field }
    ensures plain { IsTrue (all_plain result.now) }
    ensures len { length result.now ≤ name_room }
{
    match field {
        Field::Object => "",
        Field::Id => "id",
        Field::Op => "op",
        Field::Doc => "doc",
        Field::Label => "label",
        Field::Bytes => "bytes",
        Field::Bom => "bom",
        Field::Rev => "rev",
        Field::At => "at",
        Field::Del => "del",
        Field::Len => "len",
        Field::From => "from",
        Field::To => "to",
        Field::Mode => "mode",
        Field::Max => "max",
        Field::Offset => "offset",
        Field::Line => "line",
        Field::Character => "character",
        Field::Unit => "unit",
        Field::Value => "value",
        Field::Range => "range",
        Field::Text => "text",
        Field::Changes => "changes",
    }
}
