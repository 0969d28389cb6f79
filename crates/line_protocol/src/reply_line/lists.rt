//! The replies that hold a list, each entry of which is a list of numbers. Their text is put together here: that takes half
//! the instructions that a serializer takes.
ghost use Rattle.std.specs.Prelude.{◌≡◌, ◌≤◌, ◌+◌, ◌++◌, ◌&&◌, [], length, IfOk, IsTrue, OnOk};
ghost use Rattle.serde_json.specs.Data.{Data, array, member, object};
ghost use Rattle.serde_json.specs.Written.{compact_text};
ghost use Rattle.line_protocol.specs.Writing.{all_plain, are_plain, entry_room, followed, members_of, room_of};
ghost use Rattle.line_protocol.specs.{Replies.line_of, Values.items_of};

use crate::reply_line::digits::Digits;
use crate::reply_line::members::{Member, put_all, put_front, put_key};
use crate::reply_line::short_text::{CAPACITY, ShortText};
use desk::ReplyList;
use std::alloc::{AllocError, Global};

/// Writes the line of an object with a list under this key, between other members.
pub(crate) fn list_line<'a, T: Entry + Drop>(
    alloc: Global,
    front: &'a [Member<'a>],
    key: &str,
    entries: &ReplyList<T>,
    back: &'a [Member<'a>],
) -> Result<Vec<u8>, AllocError>
    requires plain { IsTrue (are_plain front.now && (all_plain key.now && are_plain back.now)) }
    requires front { room_of front.now + length key.now + 5 ≤ CAPACITY }
    requires back { room_of back.now + 1 ≤ entry_room }
    ensures { IfOk result
        (λ line. line.items ≡ line_of (object (followed front.now (member key.now (array (items_of T.json entries.now)) (members_of back.now))))) }
{
    let mut line = Vec::new(alloc);
    let mut text = ShortText::new();
    text.push(b'{');
    let later = put_front(&mut text, false, front);
    put_key(&mut text, later, key);
    put_list(&mut line, &mut text, entries.as_slice())?;
    put_all(&mut text, true, back, &[]);
    text.push(b'\n');
    move_on(&mut line, &mut text)?;
    Ok(line)
}

/// The most bytes of an entry, with the comma before it. An entry has at most six numbers.
const ENTRY_ROOM: usize = 129;

/// An entry of a list. Contracts see its data.
pub(crate) trait Entry {
    ghost json: { Self → Data };

    /// Appends the entry. The digits are those of a number before it, since most of them are the same for one near it.
    fn put(&self, text: &mut ShortText, digits: &mut Digits)
        requires { length text.old + entry_room ≤ CAPACITY }
        ensures text { text.new ≡ text.old ++ compact_text (json self.now) }
        ensures room { length text.new ≤ length text.old + entry_room };
}

/// Moves a text to the end of a line.
fn move_on(line: &mut Vec<u8>, text: &mut ShortText) -> Result<(), AllocError>
    ensures line { OnOk result (line.new.items ≡ line.old.items ++ text.old) }
    ensures empty { OnOk result (text.new ≡ []) }
{
    line.extend_from_slice(text.as_slice())?;
    text.clear();
    Ok(())
}

/// Moves a text to the end of a line unless another entry fits in it.
fn make_room(line: &mut Vec<u8>, text: &mut ShortText) -> Result<(), AllocError>
    ensures same { OnOk result (line.new.items ++ text.new ≡ line.old.items ++ text.old) }
    ensures room { OnOk result (length text.new + entry_room + 1 ≤ CAPACITY) }
{
    if text.as_slice().len() + ENTRY_ROOM <= CAPACITY {
        return Ok(());
    }
    move_on(line, text)
}

/// Appends a list to the text after a line. When the text is full, it is moved into the line.
fn put_list<T: Entry>(
    line: &mut Vec<u8>,
    text: &mut ShortText,
    entries: &[T],
) -> Result<(), AllocError>
    requires { length text.old + 1 ≤ CAPACITY }
    ensures text { OnOk result (line.new.items ++ text.new ≡ (line.old.items ++ text.old) ++ compact_text (array (items_of T.json entries.now))) }
    ensures room { OnOk result (length text.new + entry_room ≤ CAPACITY) }
{
    text.push(b'[');
    let mut digits = Digits::of(0);
    let mut later = false;
    'entries: for entry in entries {
        make_room(line, text)?;
        if later {
            text.push(b',');
        }
        entry.put(text, &mut digits);
        later = true;
    }
    make_room(line, text)?;
    text.push(b']');
    Ok(())
}
