//! Look-ups among members.
ghost use Rattle.std.specs.Prelude.{◌≡◌, option_map};
ghost use Rattle.serde_json.specs.Find.{get, get_member};
ghost use Rattle.line_protocol.specs.Flat.{whole_data, position_data, range_data, value_data, members_data};

use crate::request::flat::object::{FlatMember, FlatValue};
use position_map::{Position, Range};

/// The value of the last member with this key.
pub(crate) fn find<'a>(members: &[FlatMember<'a>], name: &str) -> Option<FlatValue<'a>>
    ensures { option_map value_data result ≡ get_member name.now (members_data members.now) }
{
    let mut left = members.len();
    'members: while left > 0 {
        left -= 1;
        let member = &members[left];
        if member.0 == name {
            return Some(member.1);
        }
    }
    None
}

/// The number of this name in a position.
pub(crate) fn coordinate(point: Position, name: &str) -> Option<u64>
    ensures { option_map whole_data result ≡ get name.now (position_data point) }
{
    if name == "character" {
        return Some(point.character);
    }
    if name == "line" {
        return Some(point.line);
    }
    None
}

/// The position of this name in a range.
pub(crate) fn bound(range: Range, name: &str) -> Option<Position>
    ensures { option_map position_data result ≡ get name.now (range_data range) }
{
    if name == "end" {
        return Some(range.end);
    }
    if name == "start" {
        return Some(range.start);
    }
    None
}
