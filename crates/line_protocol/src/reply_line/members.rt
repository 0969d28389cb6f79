//! An object of JSON on one line, put together without memory.
ghost use Rattle.std.specs.Prelude.{◌≡◌, ◌≤◌, ◌+◌, ◌++◌, ◌∷◌, ◌&&◌, [], None, IfSome, length, IsTrue};
ghost use Rattle.std.specs.Fmt.{decimal};
ghost use Rattle.serde_json.specs.Written.{compact_text, comma_if, members_text};
ghost use Rattle.serde_json.specs.Data.{object};
ghost use Rattle.enc_names.specs.Names.{name_of};
ghost use Rattle.json.specs.Print.{quoted};
ghost use Rattle.line_protocol.specs.Writing.{all_plain, encoding_room, members_of, are_plain, room_of, content_data, content_is_plain, content_room};
ghost use Rattle.line_protocol.specs.Writing.{front_text, is_later, near_room, number_room, place_room, point_room, small_room, IsNext};
ghost use Rattle.line_protocol.specs.Values.{whole, numbers_data, place_data, point_data};
ghost use Rattle.line_protocol.specs.{Inline.IsShortLine, Replies.merged};

use crate::reply_line::digits::Digits;
use crate::reply_line::short_text::{CAPACITY, ShortText};
use enc_names::{Encoding, Place};
use itoa::Buffer;
use position_map::Position;

/// The value of a member.
#[derive(Clone, Copy)]
pub(crate) enum Content<'a> {
    /// A whole number.
    Number(u64),
    /// A whole number of 32 bits.
    Small(u32),
    /// A text, in a line that is stored inline with nothing that JSON escapes.
    Text(&'a str),
    /// `true` or `false`.
    Flag(bool),
    /// The two ends of a place, as a list.
    At(Place),
    /// An object with a line and the units on it.
    Point(Position),
    /// `null`.
    Nothing,
}

/// The encoding's name in the Encoding Standard.
pub(crate) fn encoding_name(encoding: Encoding) -> &'static str
    ensures value { result.now ≡ name_of encoding }
    ensures plain { IsTrue (all_plain result.now) }
    ensures len { length result.now ≤ encoding_room }
{
    encoding.name()
}

/// A member of an object: its key and its value.
pub(crate) type Member<'a> = (&'a str, Content<'a>);

/// The line of an object with these members, in this order.
#[tactic(auto, using(crate::proofs::Merging::merged_none))]
pub(crate) fn short_line(members: &[Member<'_>]) -> ShortText
    requires plain { IsTrue (are_plain members.now) }
    requires room { room_of members.now + 2 ≤ CAPACITY }
    ensures { IsShortLine (object (members_of members.now)) result }
{
    merged_line(members, &[])
}

/// Writes the line of an object with the members of both lists. Each list is in the order of its
/// keys.
pub(crate) fn merged_line<'a>(first: &'a [Member<'a>], second: &'a [Member<'a>]) -> ShortText
    requires plain { IsTrue (are_plain first.now && are_plain second.now) }
    requires room { room_of first.now + room_of second.now + 1 ≤ CAPACITY }
    ensures { IsShortLine (object (merged (members_of first.now) (members_of second.now))) result }
{
    let mut line = ShortText::new();
    line.push(b'{');
    put_all(&mut line, false, first, second);
    line.push(b'\n');
    line
}

/// Appends the members of both lists, in the order of the keys. A comma separates them, and precedes them if
/// they are later members.
pub(crate) fn put_all<'a>(
    line: &mut ShortText,
    later: bool,
    first: &'a [Member<'a>],
    second: &'a [Member<'a>],
)
    requires plain { IsTrue (are_plain first.now && are_plain second.now) }
    requires room { length line.old + room_of first.now + room_of second.now ≤ CAPACITY }
    ensures text { line.new ≡ line.old ++ members_text later (merged (members_of first.now) (members_of second.now)) }
    ensures room { length line.new + 1 ≤ length line.old + room_of first.now + room_of second.now }
{
    match next(first, second) {
        Some((member, rest, other)) => {
            put(line, later, member.0, member.1);
            put_all(line, true, rest, other);
        }
        None => line.push(b'}'),
    }
}

/// The member whose key comes first, and what is left of both lists behind it.
fn next<'a>(
    first: &'a [Member<'a>],
    second: &'a [Member<'a>],
) -> Option<(Member<'a>, &'a [Member<'a>], &'a [Member<'a>])>
    ensures end { result ≡ None → (first.now ≡ []) × (second.now ≡ []) }
    ensures next { IfSome result (λ r. IsNext first.now second.now r.0 r.1.now r.2.now) }
{
    match (first.split_first(), second.split_first()) {
        (None, None) => None,
        (Some((member, rest)), None) => Some((*member, rest, second)),
        (None, Some((member, rest))) => Some((*member, first, rest)),
        (Some((member, rest)), Some((other, behind))) => {
            if member.0 < other.0 {
                Some((*member, rest, second))
            } else {
                Some((*other, first, behind))
            }
        }
    }
}

/// Appends members, with a comma between them, and in front if these are later ones. Returns whether what comes next is
/// a later one.
pub(crate) fn put_front(line: &mut ShortText, later: bool, members: &[Member<'_>]) -> bool
    requires plain { IsTrue (are_plain members.now) }
    requires room { length line.old + room_of members.now ≤ CAPACITY }
    ensures text { line.new ≡ line.old ++ front_text later members.now }
    ensures later { result ≡ is_later later members.now }
    ensures room { length line.new + 1 ≤ length line.old + room_of members.now }
{
    match members.split_first() {
        Some((member, rest)) => {
            put(line, later, member.0, member.1);
            put_front(line, true, rest)
        }
        None => later,
    }
}

/// Appends a key and a colon. A comma precedes the key if its member isn't the first.
pub(crate) fn put_key(line: &mut ShortText, later: bool, key: &str)
    requires plain { IsTrue (all_plain key.now) }
    requires room { length line.old + length key.now + 4 ≤ CAPACITY }
    ensures text { line.new ≡ line.old ++ (comma_if later ++ (quoted key.now ++ 58 ∷ [])) }
    ensures room { length line.new ≤ length line.old + length key.now + 4 }
{
    if later {
        line.push(b',');
    }
    line.quote(key);
    line.push(b':');
}

/// Appends a member, with a comma in front if it is a later one.
fn put(line: &mut ShortText, later: bool, key: &str, content: Content<'_>)
    requires plain { IsTrue (all_plain key.now) }
    requires plain_content { IsTrue (content_is_plain content) }
    requires room { length line.old + length key.now + 4 + content_room content ≤ CAPACITY }
    ensures text { line.new ≡ line.old ++ (comma_if later
        ++ (quoted key.now ++ 58 ∷ compact_text (content_data content.entry))) }
    ensures room { length line.new ≤ length line.old + length key.now + 4
        + content_room content.entry }
{
    put_key(line, later, key);
    match content {
        Content::Number(number) => put_number(line, number),
        Content::Small(number) => put_small(line, number),
        Content::Text(text) => line.quote(text),
        Content::Flag(true) => line.extend(b"true"),
        Content::Flag(false) => line.extend(b"false"),
        Content::At(place) => put_place(line, place),
        Content::Point(position) => put_point(line, position),
        Content::Nothing => line.extend(b"null"),
    }
}

/// Appends a number in decimal digits.
fn put_number(line: &mut ShortText, number: u64)
    requires { length line.old + number_room ≤ CAPACITY }
    ensures text { line.new ≡ line.old ++ compact_text (whole number) }
    ensures room { length line.new ≤ length line.old + number_room }
{
    Digits::of(number).put(line);
}

/// Appends a number of 32 bits in decimal digits.
fn put_small(line: &mut ShortText, number: u32)
    requires { length line.old + small_room ≤ CAPACITY }
    ensures text { line.new ≡ line.old ++ compact_text (whole number) }
    ensures room { length line.new ≤ length line.old + small_room }
{
    line.extend(Buffer::new().format(number).as_bytes());
}

/// Appends a place as a list of its two ends.
fn put_place(line: &mut ShortText, place: Place)
    requires { length line.old + place_room ≤ CAPACITY }
    ensures text { line.new ≡ line.old ++ compact_text (place_data place) }
    ensures room { length line.new ≤ length line.old + place_room }
{
    put_pair(line, &mut Digits::of(0), place.from, place.to)
}

/// Appends a position as an object.
fn put_point(line: &mut ShortText, position: Position)
    requires { length line.old + point_room ≤ CAPACITY }
    ensures text { line.new ≡ line.old ++ compact_text (point_data position) }
    ensures room { length line.new ≤ length line.old + point_room }
{
    line.push(b'{');
    put_key(line, false, "character");
    put_number(line, position.character);
    put_key(line, true, "line");
    put_number(line, position.line);
    line.push(b'}');
}

/// Appends two numbers by the digits of earlier ones. The second number is mostly near the first, and the first is near
/// the number that these digits are of.
// In the loop over the entries of a list.
#[inline(always)]
pub(crate) fn put_near(line: &mut ShortText, digits: &mut Digits, first: u64, second: u64)
    requires { length line.old + near_room ≤ CAPACITY }
    ensures text { line.new ≡ line.old ++ (decimal first ++ 44 ∷ decimal second) }
    ensures room { length line.new ≤ length line.old + near_room }
{
    digits.write(first);
    digits.put(line);
    line.push(b',');
    digits.go_on(first, second);
    digits.put(line);
}

/// Appends a list of two numbers that are near as `put_near` says.
// In the loop over the entries of a list.
#[inline(always)]
pub(crate) fn put_pair(line: &mut ShortText, digits: &mut Digits, first: u64, second: u64)
    requires { length line.old + place_room ≤ CAPACITY }
    ensures text { line.new ≡ line.old ++ compact_text (numbers_data (first ∷ second ∷ [])) }
    ensures room { length line.new ≤ length line.old + place_room }
{
    line.push(b'[');
    put_near(line, digits, first, second);
    line.push(b']');
}
