//! Parts of a text, counted in code points.
ghost use Rattle.std.specs.Prelude.{◌≡◌, ◌-◌, ◌<◌, ◌≤◌, nat_le, length, take, drop, MatchOption, IfSome, is_some};
ghost use Rattle.std.specs.Str.{chars, encode_utf8_all};
ghost use Rattle.lane_utf.specs.Selected.{scalar_place};
ghost use Rattle.state_memo.specs.Parts.{IsScalarCut};

use lane_utf::nth_scalar;

/// Splits a text after its first `n` code points (`cut`). It returns `None` if there are fewer
/// (`variant`). The first part has these code points (`front`) and is their UTF-8 form (`bytes`);
/// the second has the others (`back`).
pub fn split_at_scalar(text: &str, n: usize) -> Option<(&str, &str)>
    ensures cut { MatchOption result (length (chars text.now) < n)
        (λ x. IsScalarCut (chars text.now) n (chars x.0.now) (chars x.1.now)) }
    ensures variant { is_some result ≡ nat_le n (length (chars text.now)) }
    ensures bytes { IfSome result (λ x. x.0.now ≡ encode_utf8_all (take n (chars text.now))) }
    ensures front { IfSome result (λ x. chars x.0.now ≡ take n (chars text.now)) }
    ensures back { IfSome result (λ x. chars x.1.now ≡ drop n (chars text.now)) }
{
    match scalar_index(text, n) {
        None => None,
        Some(at) => Some(text.split_at(at)),
    }
}

/// The byte after the first `n` code points, if there are so many. A line end, which is what is cut
/// off most often, is one or two bytes of ASCII.
fn scalar_index(text: &str, n: usize) -> Option<usize>
    ensures { result ≡ scalar_place (chars text.now) n }
{
    let bytes = text.as_bytes();
    if n == 0 || n > 2 || n > bytes.len() || bytes[0] >= 0x80 || bytes[n - 1] >= 0x80 {
        return nth_scalar(text, n);
    }
    Some(n)
}

/// Splits a text after its first `n` code points. It has as many.
fn parts_at(text: &str, n: usize) -> (&str, &str)
    requires { n ≤ length (chars text.now) }
    ensures front { chars result.0.now ≡ take n (chars text.now) }
    ensures back { chars result.1.now ≡ drop n (chars text.now) }
{
    match split_at_scalar(text, n) {
        Some(parts) => parts,
        None => unreachable!(),
    }
}

/// The code points `from..to` of the text.
pub(crate) fn part_of(text: &str, from: usize, to: usize) -> &str
    requires order { from ≤ to }
    requires within { to ≤ length (chars text.now) }
    ensures { chars result.now ≡ take (to - from) (drop from (chars text.now)) }
{
    let (_, rest) = parts_at(text, from);
    let (part, _) = parts_at(rest, to - from);
    part
}
