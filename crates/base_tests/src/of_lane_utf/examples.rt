//! Worked examples of the definitions, which the check computes.
ghost use Rattle.std.specs.Prelude.{◌≡◌, ◌∷◌, [], Some, None};
ghost use Rattle.lane_utf.specs.declared.select.Select.TheVariants.{At, Inside, Past};
ghost use Rattle.lane_utf.specs.Selected.{scalar_place, selected};
ghost use Rattle.lane_utf.specs.Utf16.{code_points, first_lone, utf16_forms};
ghost use Rattle.lane_utf.specs.Widths.{pair_width, total_width, utf8_width, utf16_width, utf32_width};
ghost use Rattle.lane_utf.specs.Within.{within};

/// The widths of one code point of each length in UTF-8.
fn widths_of_four_code_points()
    ensures utf8 { total_width utf8_width (0x7F ∷ 0x7FF ∷ 0xFFFF ∷ 0x10FFFF ∷ []) ≡ 10 }
    ensures utf16 { total_width utf16_width (0x7F ∷ 0x7FF ∷ 0xFFFF ∷ 0x10FFFF ∷ []) ≡ 5 }
    ensures utf32 { total_width utf32_width (0x7F ∷ 0x7FF ∷ 0xFFFF ∷ 0x10FFFF ∷ []) ≡ 4 }
    ensures pairs { total_width pair_width (0x7F ∷ 0x7FF ∷ 0xFFFF ∷ 0x10FFFF ∷ []) ≡ 7 }
{}

/// `a` and U+1F600 take three units, the last two of which are one code point.
fn places_in_a_and_a_pair()
    ensures front { selected utf16_width (0x61 ∷ 0x1F600 ∷ []) 1 ≡ At 1 }
    ensures inside { selected utf16_width (0x61 ∷ 0x1F600 ∷ []) 2 ≡ Inside }
    ensures end { selected utf16_width (0x61 ∷ 0x1F600 ∷ []) 3 ≡ At 5 }
    ensures past { selected utf16_width (0x61 ∷ 0x1F600 ∷ []) 4 ≡ Past }
    ensures scalar { scalar_place (0x61 ∷ 0x1F600 ∷ []) 2 ≡ Some 5 }
    ensures none { scalar_place (0x61 ∷ 0x1F600 ∷ []) 3 ≡ None }
{}

/// `a` and U+00E9 take three bytes in an encoding of pairs. In UTF-8 U+00E9 is two bytes.
fn places_in_a_and_two_bytes()
    ensures front { selected pair_width (0x61 ∷ 0xE9 ∷ []) 1 ≡ At 1 }
    ensures inside { selected pair_width (0x61 ∷ 0xE9 ∷ []) 2 ≡ Inside }
    ensures end { selected pair_width (0x61 ∷ 0xE9 ∷ []) 3 ≡ At 3 }
    ensures past { selected pair_width (0x61 ∷ 0xE9 ∷ []) 4 ≡ Past }
{}

/// The lengths of `a`, U+00E9 and U+1F600 together. They take 4 units of UTF-16, 5 bytes in an
/// encoding of pairs and 7 of UTF-8.
fn fronts_of_three_code_points()
    ensures none { within utf16_width (0x61 ∷ 0xE9 ∷ 0x1F600 ∷ []) 0 ≡ 0 }
    ensures utf16 { within utf16_width (0x61 ∷ 0xE9 ∷ 0x1F600 ∷ []) 3 ≡ 2 }
    ensures pairs { within pair_width (0x61 ∷ 0xE9 ∷ 0x1F600 ∷ []) 2 ≡ 1 }
    ensures utf8 { within utf8_width (0x61 ∷ 0xE9 ∷ 0x1F600 ∷ []) 6 ≡ 2 }
    ensures all { within utf8_width (0x61 ∷ 0xE9 ∷ 0x1F600 ∷ []) 7 ≡ 3 }
    ensures past { within utf16_width (0x61 ∷ 0xE9 ∷ 0x1F600 ∷ []) 9 ≡ 3 }
{}

/// A pair is one code point, and its code point is that pair.
fn form_of_a_and_a_pair()
    ensures form { utf16_forms (0x61 ∷ 0x1F600 ∷ []) ≡ 0x61 ∷ 0xD83D ∷ 0xDE00 ∷ [] }
    ensures back { code_points (0x61 ∷ 0xD83D ∷ 0xDE00 ∷ []) ≡ 0x61 ∷ 0x1F600 ∷ [] }
    ensures last { utf16_forms (0x10FFFF ∷ []) ≡ 0xDBFF ∷ 0xDFFF ∷ [] }
{}

/// Lone surrogates at four places. They are a trail after a pair, a lead before a letter, a lead at
/// the end, and a trail at the start.
fn lone_surrogates()
    ensures trail { first_lone (0xD83D ∷ 0xDE00 ∷ 0xDE00 ∷ []) ≡ Some 2 }
    ensures lead { first_lone (0xD800 ∷ 0x61 ∷ []) ≡ Some 0 }
    ensures end { first_lone (0x61 ∷ 0xD800 ∷ []) ≡ Some 1 }
    ensures front { first_lone (0xDC00 ∷ 0xD800 ∷ 0xDC00 ∷ []) ≡ Some 0 }
    ensures none { first_lone (0xD83D ∷ 0xDE00 ∷ 0xE000 ∷ []) ≡ None }
{}
