//! Laws that other crates' proofs depend on.
ghost use Rattle.std.specs.Prelude.{◌≡◌, ℕ, List, length, ◌++◌};
ghost use Rattle.std.specs.Str.{chars, IsAscii, IsUtf8};
ghost use Rattle.lane_ascii.specs.Leads.{leads};
ghost use Rattle.lane_utf.specs.{Utf16.utf16_forms, Widths.total_width, Widths.utf16_width};

/// States that as many bytes begin a code point as a text has code points. The call does nothing.
pub fn law_leads()
    ensures { (bytes : List ℕ) → IsUtf8 bytes → leads bytes ≡ length (chars bytes) }
{}

/// States how UTF-16 forms join. The form of two lists of code points in a row is the two forms in
/// a row (`joined`). The form of ASCII is its bytes (`ascii`). A form has as many units as its code
/// points' widths add up to (`widths`). The call does nothing.
pub fn law_forms()
    ensures joined { (cs ds : List ℕ) → utf16_forms (cs ++ ds) ≡ utf16_forms cs ++ utf16_forms ds }
    ensures ascii { (bs : List ℕ) → IsAscii bs → utf16_forms bs ≡ bs }
    ensures widths { (cs : List ℕ) → length (utf16_forms cs) ≡ total_width utf16_width cs }
{}
