//! A flat object read off a line.
ghost use Rattle.std.specs.Prelude.{◌≡◌, ◌≤◌, true, length, drop, Some, IfSome};
ghost use Rattle.serde_json.specs.Read.{read as read_text};
ghost use Rattle.enc_names.specs.Json.{json_of};
ghost use Rattle.line_protocol.specs.Flat.{object_data, IsMember, IsValue};

use crate::request::flat::lexemes::{gap_end, quoted_text};
use crate::request::flat::object::{FlatMember, FlatObject, FlatValue};
use crate::request::flat::ranges::{key, range, whole};

/// Reads the object in a line into an empty one, if the line is flat. Flat lines are laid out as most
/// programs write them. Returns whether the line is flat.
// It borrows the object, since a returned one is moved several times.
pub(crate) fn flat_object<'a>(line: &'a [u8], object: &mut FlatObject<'a>) -> bool
    requires { object.old.count ≡ 0 }
    ensures { result ≡ true → json_of line.now ≡ Some (object_data object.new) }
{
    match simdutf8::compat::from_utf8(line) {
        Ok(text) => object_in(text, object),
        Err(_) => false,
    }
}

/// Like `flat_object`, for a line that is UTF-8.
fn object_in<'a>(text: &'a str, object: &mut FlatObject<'a>) -> bool
    requires { object.old.count ≡ 0 }
    ensures { result ≡ true → read_text text.now ≡ Some (object_data object.new) }
{
    let line = text.as_bytes();
    if line.is_empty() || line[0] != b'{' {
        return false;
    }
    let mut at = 1;
    'members: while object.has_room() {
        let Some((member, end)) = member(text, at) else {
            return false;
        };
        object.push(member);
        if end >= line.len() {
            return false;
        }
        at = end + 1;
        if line[end] != b',' {
            return line[end] == b'}' && at == line.len();
        }
    }
    false
}

/// Reads the member here. Returns it and the offset after it.
fn member<'a>(text: &'a str, from: usize) -> Option<(FlatMember<'a>, usize)>
    requires { from ≤ length text.now }
    ensures { IfSome result (λ r. IsMember (drop from text.now) r.0 (drop r.1 text.now) × (r.1 ≤ length text.now)) }
{
    let (key, behind) = key(text, from)?;
    let (value, end) = value(text, behind)?;
    Some(((key, value), end))
}

/// Reads the value here. Returns it and the offset after it.
fn value<'a>(text: &'a str, from: usize) -> Option<(FlatValue<'a>, usize)>
    requires { from ≤ length text.now }
    ensures { IfSome result (λ r. IsValue (drop from text.now) r.0 (drop r.1 text.now) × (r.1 ≤ length text.now)) }
{
    let line = text.as_bytes();
    if let Some((found, end)) = quoted_text(text, gap_end(line, from)) {
        return Some((FlatValue::Text(found), end));
    }
    if let Some((number, end)) = whole(text, from) {
        return Some((FlatValue::Whole(number), end));
    }
    let (range, end) = range(text, from)?;
    Some((FlatValue::Range(range), end))
}
