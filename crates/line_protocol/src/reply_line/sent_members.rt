//! The replies that hold a text: objects that a serializer writes, member by member.
ghost use Rattle.std.specs.Prelude.{IfOk, OnOk};
ghost use Rattle.serde_json.specs.Data.{Data, array, object};
ghost use Rattle.serde_json.specs.Events.{SendsItems, SendsMembers, SendsValue};
ghost use Rattle.line_protocol.specs.Values.{items_of};
ghost use Rattle.line_protocol.specs.{Inline.IsLongLine, Writing.IsLineOf, Writing.content_data, Writing.members_of};

use crate::reply_line::members::{Content, Member};
use serde::{Described, Serialize, Serializer};
use std::alloc::{AllocError, Global};

/// Writes the line of an object with these members, in this order. It fails only if memory runs out: no key,
/// number or text is refused.
pub(crate) fn sent_line(alloc: Global, members: &[Member<'_>]) -> Result<Vec<u8>, AllocError>
    ensures { IsLongLine (object (members_of members.now)) result }
{
    serialized_line(alloc, &Sent { members })
}

/// The text of a value, and a line end.
pub(crate) fn serialized_line<T: Serialize>(alloc: Global, value: &T) -> Result<Vec<u8>, AllocError>
    ensures { IfOk result (λ line. IsLineOf (T.writes value.now) line.items) }
{
    let Ok(mut line) = serde_json::to_vec(alloc, value) else {
        return Err(AllocError);
    };
    line.push(b'\n')?;
    Ok(line)
}

/// An object with these members.
#[derive(Clone, Copy)]
struct Sent<'a> {
    members: &'a [Member<'a>],
}

impl Described for Sent<'_> {
    ghost writes = { λ s. SendsValue (object (members_of s.members.now)) };
}

impl Serialize for Sent<'_> {
    fn serialize<S: Serializer>(&self, out: &mut S) -> Result<(), S::Error> {
        out.begin_map(Some(self.members.len()))?;
        send_members(out, self.members)
    }
}

/// Sends members and the end of their object.
fn send_members<S: Serializer>(out: &mut S, members: &[Member<'_>]) -> Result<(), S::Error>
    ensures { OnOk result (SendsMembers (members_of members.now) (S.written out.old) (S.written out.new)) }
{
    match members.split_first() {
        Some((member, rest)) => {
            out.key(member.0)?;
            send(out, member.1)?;
            send_members(out, rest)
        }
        None => out.end_map(),
    }
}

/// Sends the value of a member.
fn send<S: Serializer>(out: &mut S, content: Content<'_>) -> Result<(), S::Error>
    ensures { OnOk result (SendsValue (content_data content.entry) (S.written out.old) (S.written out.new)) }
{
    match content {
        Content::Number(number) => out.u64(number),
        Content::Small(number) => out.u64(u64::from(number)),
        Content::Text(text) => out.str(text),
        Content::Flag(flag) => out.bool(flag),
        Content::At(place) => {
            out.begin_seq(Some(2))?;
            out.u64(place.from)?;
            out.u64(place.to)?;
            out.end_seq()
        }
        Content::Point(position) => {
            out.begin_map(Some(2))?;
            out.key("character")?;
            out.u64(position.character)?;
            out.key("line")?;
            out.u64(position.line)?;
            out.end_map()
        }
        Content::Nothing => out.unit(),
    }
}

/// An item of a list. Contracts see its data.
pub(crate) trait Item {
    ghost json: { Self → Data };

    /// Sends the item.
    fn send<S: Serializer>(&self, out: &mut S) -> Result<(), S::Error>
        ensures { OnOk result (SendsValue (json self.now) (S.written out.old) (S.written out.new)) };
}

/// Sends a list.
pub(crate) fn send_list<S: Serializer, T: Item>(out: &mut S, items: &[T]) -> Result<(), S::Error>
    ensures { OnOk result (SendsValue (array (items_of T.json items.now)) (S.written out.old) (S.written out.new)) }
{
    out.begin_seq(Some(items.len()))?;
    send_items(out, items)
}

/// Sends items and the end of their list.
fn send_items<S: Serializer, T: Item>(out: &mut S, items: &[T]) -> Result<(), S::Error>
    ensures { OnOk result (SendsItems (items_of T.json items.now) (S.written out.old) (S.written out.new)) }
{
    match items.split_first() {
        Some((item, rest)) => {
            item.send(out)?;
            send_items(out, rest)
        }
        None => out.end_seq(),
    }
}
