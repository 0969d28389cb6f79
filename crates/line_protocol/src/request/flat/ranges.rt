//! Keys and numbers after gaps, and the positions and ranges among values.
ghost use Rattle.std.specs.Prelude.{◌≡◌, ◌≤◌, ◌∷◌, length, drop, IfSome};
ghost use Rattle.line_protocol.specs.Flat.{IsKey, IsOpened, IsWhole, IsPoint, IsRange};

use crate::request::flat::lexemes::{gap_end, mark_end, quoted_text, whole_number};
use position_map::{Position, Range};

/// Reads the key here. Returns it and the offset after its colon.
pub(crate) fn key(text: &str, from: usize) -> Option<(&str, usize)>
    requires { from ≤ length text.now }
    ensures { IfSome result (λ r. IsKey (drop from text.now) r.0.now (drop r.1 text.now) × (r.1 ≤ length text.now)) }
{
    let line = text.as_bytes();
    let (key, end) = quoted_text(text, gap_end(line, from))?;
    let behind = mark_end(line, end, b':')?;
    Some((key, behind))
}

/// The offset after the colon of this key, if the key is here.
fn named(text: &str, from: usize, name: &str) -> Option<usize>
    requires { from ≤ length text.now }
    ensures { IfSome result (λ end. IsKey (drop from text.now) name.now (drop end text.now) × (end ≤ length text.now)) }
{
    let (found, end) = key(text, from)?;
    if found == name { Some(end) } else { None }
}

/// Reads the number here. Returns it and the offset after it.
pub(crate) fn whole(text: &str, from: usize) -> Option<(u64, usize)>
    requires { from ≤ length text.now }
    ensures { IfSome result (λ r. IsWhole (drop from text.now) r.0 (drop r.1 text.now) × (r.1 ≤ length text.now)) }
{
    let line = text.as_bytes();
    whole_number(line, gap_end(line, from))
}

/// The offset after the brace that opens an object, if the brace is here.
fn opened(text: &str, from: usize) -> Option<usize>
    requires { from ≤ length text.now }
    ensures { IfSome result (λ end. IsOpened (drop from text.now) (drop end text.now) × (end ≤ length text.now)) }
{
    let line = text.as_bytes();
    mark_end(line, gap_end(line, from), b'{')
}

/// The offset after this byte, if the byte is here.
fn behind(text: &str, from: usize, mark: u8) -> Option<usize>
    requires { from ≤ length text.now }
    ensures { IfSome result (λ end. (drop from text.now ≡ mark ∷ drop end text.now) × (end ≤ length text.now)) }
{
    mark_end(text.as_bytes(), from, mark)
}

/// Reads the position here, with its line before its character.
fn point(text: &str, from: usize) -> Option<(Position, usize)>
    requires { from ≤ length text.now }
    ensures { IfSome result (λ r. IsPoint (drop from text.now) r.0 (drop r.1 text.now) × (r.1 ≤ length text.now)) }
{
    let first = opened(text, from)?;
    let line_at = named(text, first, "line")?;
    let (line, comma) = whole(text, line_at)?;
    let second = behind(text, comma, b',')?;
    let character_at = named(text, second, "character")?;
    let (character, brace) = whole(text, character_at)?;
    let end = behind(text, brace, b'}')?;
    Some((Position { line, character }, end))
}

/// Reads the range here, with its start before its end.
pub(crate) fn range(text: &str, from: usize) -> Option<(Range, usize)>
    requires { from ≤ length text.now }
    ensures { IfSome result (λ r. IsRange (drop from text.now) r.0 (drop r.1 text.now) × (r.1 ≤ length text.now)) }
{
    let first = opened(text, from)?;
    let start_at = named(text, first, "start")?;
    let (start, comma) = point(text, start_at)?;
    let second = behind(text, comma, b',')?;
    let end_at = named(text, second, "end")?;
    let (end, brace) = point(text, end_at)?;
    let closed = behind(text, brace, b'}')?;
    Some((Range { start, end }, closed))
}
