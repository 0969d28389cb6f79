//! The longest prefix that is UTF-8.
ghost use Rattle.std.specs.Prelude.{◌≡◌, ℕ, ◌<◌, ◌≤◌, length, take};
ghost use Rattle.std.specs.Str.{IsUtf8};
ghost use Rattle.std.specs.Str.Lossy.{utf8_valid_len};

use simdutf8::compat::from_utf8;

/// The length in bytes of the longest prefix that is well-formed UTF-8 (`longest`). Well-formed is
/// as in Unicode, chapter 3, D92 and table 3-7. The prefix is UTF-8 (`valid`), and no longer prefix
/// is (`no_longer`).
pub fn valid_run(bytes: &[u8]) -> usize
    ensures longest { result ≡ utf8_valid_len bytes.now }
    ensures valid { IsUtf8 (take result bytes.now) }
    ensures no_longer { (n : ℕ) → result < n → n ≤ length bytes.now → ¬ (IsUtf8 (take n bytes.now)) }
{
    match from_utf8(bytes) {
        Ok(text) => text.len(),
        Err(fault) => fault.valid_up_to(),
    }
}
