//! The definitions, computed at worked examples (LSP 3.17, "Text Documents" and "Position").
#![tactic(auto, unfolding(crate::specs::Lines::lines_of, crate::specs::Positions::offset_of, crate::specs::Positions::position_of, crate::specs::Positions::converted, crate::specs::Places::scalar_of_byte))]

ghost use Rattle.std.specs.Prelude.{◌≡◌, [], ◌∷◌};
ghost use Rattle.piece_rope.specs.Decode.{One, Two, Error};
ghost use Rattle.position_map.specs.declared.unit.Unit.TheVariants.{Utf8, Utf16, Utf32};
ghost use Rattle.position_map.specs.declared.fault.PosFault.TheVariants.{OutOfRange, SplitsCharacter};
ghost use Rattle.position_map.specs.Positions.{offset_of, position_of, converted};
ghost use Rattle.position_map.specs.{Lines.lines_of, Places.scalar_of_byte, Places.place_of, Widths.width};

/// No text is one line.
fn empty_text()
    ensures { lines_of [] ≡ record { start = 0; end = 0 } ∷ [] }
{}

/// `a`, U+1F600, CR, LF, `b`.
fn pair_and_cr_lf()
    ensures lines { lines_of (0x61 ∷ 0x1F600 ∷ 0x0D ∷ 0x0A ∷ 0x62 ∷ [])
        ≡ record { start = 0; end = 2 } ∷ record { start = 4; end = 5 } ∷ [] }
    ensures utf8 { width Utf8 (0x61 ∷ 0x1F600 ∷ 0x0D ∷ 0x0A ∷ 0x62 ∷ []) ≡ 8 }
    ensures utf16 { width Utf16 (0x61 ∷ 0x1F600 ∷ 0x0D ∷ 0x0A ∷ 0x62 ∷ []) ≡ 6 }
    ensures utf32 { width Utf32 (0x61 ∷ 0x1F600 ∷ 0x0D ∷ 0x0A ∷ 0x62 ∷ []) ≡ 5 }
    ensures inside_a_pair { offset_of (0x61 ∷ 0x1F600 ∷ 0x0D ∷ 0x0A ∷ 0x62 ∷ []) Utf16 (record { line = 0; character = 2 })
        ≡ Err SplitsCharacter }
    ensures past_the_line { offset_of (0x61 ∷ 0x1F600 ∷ 0x0D ∷ 0x0A ∷ 0x62 ∷ []) Utf16 (record { line = 0; character = 99 })
        ≡ Ok 2 }
    ensures past_the_last_line { offset_of (0x61 ∷ 0x1F600 ∷ 0x0D ∷ 0x0A ∷ 0x62 ∷ []) Utf16 (record { line = 9; character = 0 })
        ≡ Ok 5 }
    ensures between_cr_and_lf { position_of (0x61 ∷ 0x1F600 ∷ 0x0D ∷ 0x0A ∷ 0x62 ∷ []) Utf16 3
        ≡ Ok (record { line = 0; character = 3 }) }
    ensures past_the_text { position_of (0x61 ∷ 0x1F600 ∷ 0x0D ∷ 0x0A ∷ 0x62 ∷ []) Utf16 6 ≡ Err OutOfRange }
    ensures split { converted (0x61 ∷ 0x1F600 ∷ 0x0D ∷ 0x0A ∷ 0x62 ∷ []) Utf16 Utf32 2 ≡ Err SplitsCharacter }
    ensures to_utf8 { converted (0x61 ∷ 0x1F600 ∷ 0x0D ∷ 0x0A ∷ 0x62 ∷ []) Utf16 Utf8 3 ≡ Ok 5 }
    ensures end { converted (0x61 ∷ 0x1F600 ∷ 0x0D ∷ 0x0A ∷ 0x62 ∷ []) Utf8 Utf16 8 ≡ Ok 6 }
    ensures past { converted (0x61 ∷ 0x1F600 ∷ 0x0D ∷ 0x0A ∷ 0x62 ∷ []) Utf8 Utf16 9 ≡ Err OutOfRange }
{}

/// CR, CR LF.
fn cr_and_cr_lf()
    ensures { lines_of (0x0D ∷ 0x0D ∷ 0x0A ∷ [])
        ≡ record { start = 0; end = 0 } ∷ record { start = 1; end = 1 } ∷ record { start = 3; end = 3 } ∷ [] }
{}

/// UTF-8 `E2 82 41`: an error of two bytes, and `A`.
fn truncated_sequence()
    ensures inside { scalar_of_byte 3 (record { item = Error; from = 0; to = 2 } ∷ record { item = One 0x41; from = 2; to = 3 } ∷ []) 1
        ≡ Ok 0 }
    ensures end { scalar_of_byte 3 (record { item = Error; from = 0; to = 2 } ∷ record { item = One 0x41; from = 2; to = 3 } ∷ []) 3
        ≡ Ok 2 }
    ensures past { scalar_of_byte 3 (record { item = Error; from = 0; to = 2 } ∷ record { item = One 0x41; from = 2; to = 3 } ∷ []) 4
        ≡ Err OutOfRange }
    ensures first { place_of (record { item = Error; from = 0; to = 2 } ∷ record { item = One 0x41; from = 2; to = 3 } ∷ []) 0
        ≡ Some (record { from = 0; to = 2 }) }
    ensures none { place_of (record { item = Error; from = 0; to = 2 } ∷ record { item = One 0x41; from = 2; to = 3 } ∷ []) 2 ≡ None }
    ensures utf8 { width Utf8 (0xFFFD ∷ 0x41 ∷ []) ≡ 4 }
{}

/// Big5 `88 62`: one item of two code points.
fn two_code_points()
    ensures inside { scalar_of_byte 2 (record { item = Two 0xCA 0x304; from = 0; to = 2 } ∷ []) 1 ≡ Ok 0 }
    ensures behind { scalar_of_byte 2 (record { item = Two 0xCA 0x304; from = 0; to = 2 } ∷ []) 2 ≡ Ok 2 }
    ensures second { place_of (record { item = Two 0xCA 0x304; from = 0; to = 2 } ∷ []) 1
        ≡ Some (record { from = 0; to = 2 }) }
{}

/// ISO-2022-JP `1B 24 42 24 1B 41`: an item without bytes.
fn empty_place()
    ensures before { scalar_of_byte 6 (record { item = Error; from = 0; to = 5 } ∷ record { item = Error; from = 5; to = 5 }
        ∷ record { item = Error; from = 5; to = 6 } ∷ []) 4
        ≡ Ok 0 }
    ensures both { scalar_of_byte 6 (record { item = Error; from = 0; to = 5 } ∷ record { item = Error; from = 5; to = 5 }
        ∷ record { item = Error; from = 5; to = 6 } ∷ []) 5
        ≡ Ok 2 }
    ensures first { place_of (record { item = Error; from = 0; to = 5 } ∷ record { item = Error; from = 5; to = 5 }
        ∷ record { item = Error; from = 5; to = 6 } ∷ []) 0
        ≡ Some (record { from = 0; to = 5 }) }
    ensures empty { place_of (record { item = Error; from = 0; to = 5 } ∷ record { item = Error; from = 5; to = 5 }
        ∷ record { item = Error; from = 5; to = 6 } ∷ []) 1
        ≡ Some (record { from = 5; to = 5 }) }
    ensures last { place_of (record { item = Error; from = 0; to = 5 } ∷ record { item = Error; from = 5; to = 5 }
        ∷ record { item = Error; from = 5; to = 6 } ∷ []) 2
        ≡ Some (record { from = 5; to = 6 }) }
{}
