//! Places in a text, counted in code points.
ghost use Rattle.std.specs.Prelude.{◌≡◌, ◌-◌, ◌^◌, ◌<◌, ◌&&◌, nat_le, length, take, drop, IfSome, is_some};
ghost use Rattle.std.specs.Str.{chars, encode_utf8_all};

use lane_utf::count_scalars;
use state_memo::split_at_scalar;

/// The number of code points of the text.
pub(crate) fn scalar_count(text: &str) -> u64
    ensures count { result ≡ length (chars text.now) }
    ensures few { result < 2 ^ 63 }
{
    // As a slice the text has fewer than 2^63 bytes.
    let _bytes = text.as_bytes();
    count_scalars(text) as u64
}

/// The code points `i..j` of the text, if it has these.
pub(crate) fn scalars_between(text: &str, i: u64, j: u64) -> Option<&str>
    ensures variant { is_some result ≡ (nat_le i j && nat_le j (length (chars text.now))) }
    ensures part { IfSome result (λ part. part.now ≡ encode_utf8_all (take (j - i) (drop i (chars text.now)))) }
    ensures chars { IfSome result (λ part. chars part.now ≡ take (j - i) (drop i (chars text.now))) }
{
    let count = j.checked_sub(i)?;
    let (_, rest) = split_at_scalar(text, i as usize)?;
    let (part, _) = split_at_scalar(rest, count as usize)?;
    Some(part)
}
