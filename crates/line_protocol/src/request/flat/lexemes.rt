//! The next lexeme of a line: a space, a quoted text, a whole number.
ghost use Rattle.std.specs.Prelude.{◌≡◌, ℕ, ◌≤◌, List, ◌∷◌, ◌++◌, length, drop, decimal, IfSome};
ghost use Rattle.json.specs.{Print.quoted, Spaced.IsGap};

use crate::request::flat::plain::plain_end;

/// The offset after the space that may be here.
pub(crate) fn gap_end(line: &[u8], from: usize) -> usize
    requires { from ≤ length line.now }
    ensures gap { (gap : List ℕ) × IsGap gap × (drop from line.now ≡ gap ++ drop result line.now) }
    ensures within { result ≤ length line.now }
{
    if from < line.len() && line[from] == b' ' {
        from + 1
    } else {
        from
    }
}

/// Reads the quoted text here, if it has no escape. Returns it and the offset after it.
pub(crate) fn quoted_text<'a>(text: &'a str, from: usize) -> Option<(&'a str, usize)>
    requires { from ≤ length text.now }
    ensures { IfSome result (λ r. (drop from text.now ≡ quoted r.0.now ++ drop r.1 text.now) × (r.1 ≤ length text.now)) }
{
    let line = text.as_bytes();
    if from >= line.len() || line[from] != b'"' {
        return None;
    }
    let end = plain_end(line, from + 1);
    if end >= line.len() || line[end] != b'"' {
        return None;
    }
    Some((&text[from + 1..end], end + 1))
}

/// A number below this one has room for one more digit.
const SHORT: u64 = 1_000_000_000_000_000_000;

/// Reads the whole number here, if it fits. Returns it and the offset after it. A leading zero is a
/// number by itself.
pub(crate) fn whole_number(line: &[u8], from: usize) -> Option<(u64, usize)>
    requires { from ≤ length line.now }
    ensures { IfSome result (λ r. (drop from line.now ≡ decimal r.0 ++ drop r.1 line.now) × (r.1 ≤ length line.now)) }
{
    if from >= line.len() {
        return None;
    }
    if line[from] == b'0' {
        return Some((0, from + 1));
    }
    let mut number = 0u64;
    let mut at = from;
    'digits: while at < line.len() && line[at].is_ascii_digit() && number < SHORT {
        number = number * 10 + u64::from(line[at] - b'0');
        at += 1;
    }
    if at == from {
        return None;
    }
    Some((number, at))
}

/// The offset after this byte, if it is here.
pub(crate) fn mark_end(line: &[u8], from: usize, mark: u8) -> Option<usize>
    requires { from ≤ length line.now }
    ensures { IfSome result (λ end. (drop from line.now ≡ mark ∷ drop end line.now) × (end ≤ length line.now)) }
{
    if from < line.len() && line[from] == mark {
        Some(from + 1)
    } else {
        None
    }
}
