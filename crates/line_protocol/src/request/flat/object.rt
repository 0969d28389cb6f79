//! An object of JSON whose members are texts, whole numbers and ranges, as most requests are.
ghost use Rattle.std.specs.Prelude.{◌≡◌, ◌≤◌, length};
ghost use Rattle.line_protocol.specs.declared.request.flat.object.TheConstants.{MOST_MEMBERS};

use crate::request::flat::find::{bound, coordinate, find};
use position_map::{Position, Range};

/// The value of a member.
#[derive(Clone, Copy)]
pub(crate) enum FlatValue<'a> {
    /// A whole number.
    Whole(u64),
    /// A text.
    Text(&'a str),
    /// A position, as an object of its line and its character.
    Point(Position),
    /// A range, as an object of its start and its end.
    Range(Range),
}

impl<'a> FlatValue<'a> {
    ghost use Rattle.std.specs.Prelude.{option_map};
    ghost use Rattle.serde_json.specs.Find.{get};
    ghost use Rattle.line_protocol.specs.Flat.{value_data};

    /// The member of this name, of a position or a range.
    pub(crate) fn get(self, name: &str) -> Option<FlatValue<'a>>
        ensures { option_map value_data result ≡ get name.now (value_data self.entry) }
    {
        match self {
            FlatValue::Whole(_) | FlatValue::Text(_) => None,
            FlatValue::Point(point) => match coordinate(point, name) {
                Some(number) => Some(FlatValue::Whole(number)),
                None => None,
            },
            FlatValue::Range(range) => match bound(range, name) {
                Some(point) => Some(FlatValue::Point(point)),
                None => None,
            },
        }
    }
}

/// A member: its key and its value.
pub(crate) type FlatMember<'a> = (&'a str, FlatValue<'a>);

/// The most members of a flat object.
pub(crate) const MOST_MEMBERS: usize = 8;

/// An object of at most eight members, which takes no memory. If a key occurs twice, the last one
/// counts.
#[derive(Drop)]
pub(crate) struct FlatObject<'a> {
    members: [FlatMember<'a>; MOST_MEMBERS],
    count: usize,
    ghost within: { (count ≤ MOST_MEMBERS) × (length members ≡ MOST_MEMBERS) },
}

impl<'a> FlatObject<'a> {
    ghost use Rattle.std.specs.Prelude.{◌+◌, ◌<◌, ◌++◌, ◌∷◌, [], ◌↔◌, IsTrue, take, option_map};
    ghost use Rattle.serde_json.specs.Find.{get};
    ghost use Rattle.line_protocol.specs.Flat.{value_data, object_data};

    /// The object without members.
    pub(crate) fn new() -> FlatObject<'a>
        ensures { result.count ≡ 0 }
    {
        FlatObject {
            members: [("", FlatValue::Whole(0)); MOST_MEMBERS],
            count: 0,
        }
    }

    /// Whether one more member has room.
    pub(crate) fn has_room(&self) -> bool
        ensures { IsTrue result ↔ (self.now.count < MOST_MEMBERS) }
    {
        self.count < MOST_MEMBERS
    }

    /// Appends a member.
    pub(crate) fn push(&mut self, member: FlatMember<'a>)
        requires { self.old.count < MOST_MEMBERS }
        ensures members { take self.new.count self.new.members ≡ take self.old.count self.old.members ++ member.entry ∷ [] }
        ensures count { self.new.count ≡ self.old.count + 1 }
    {
        self.members[self.count] = member;
        self.count += 1;
    }

    /// The value of a member.
    pub(crate) fn get(&self, name: &str) -> Option<FlatValue<'a>>
        ensures { option_map value_data result ≡ get name.now (object_data self.now) }
    {
        find(&self.members[..self.count], name)
    }
}
