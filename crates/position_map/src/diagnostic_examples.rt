//! Diagnostics, computed at worked examples.
#![tactic(auto, unfolding(index_loader::specs::Kinds::slot_of, crate::specs::Diagnostics::diagnostics_of, crate::specs::Diagnostics::errors_before_line, crate::specs::Lines::lines_of, piece_rope::specs::Document::decoded_text, piece_rope::specs::Decode::decode, piece_rope::specs::Decode::run, piece_rope::specs::Decode::turns, piece_rope::specs::Decode::feed, piece_rope::specs::Decode::feed_for))]

ghost use Rattle.std.specs.Prelude.{◌≡◌, [], ◌∷◌};
ghost use Rattle.enc_names.specs.declared.encoding.Encoding.TheVariants.{Iso2022Jp, Utf8};
ghost use Rattle.position_map.specs.declared.unit.Unit.TheVariants.{Utf8 as by_utf8, Utf16, Utf32};
ghost use Rattle.position_map.specs.{Diagnostics.diagnostics_of, Diagnostics.errors_before_line, PlanExamples.in_encoding, PlanExamples.on_first_line};

/// ISO-2022-JP `1B 24 42 24 1B 41`: three errors, of which the second has no bytes and the third
/// begins where it does.
fn error_without_bytes()
    ensures utf8 { diagnostics_of (in_encoding Iso2022Jp (0x1B ∷ 0x24 ∷ 0x42 ∷ 0x24 ∷ 0x1B ∷ 0x41 ∷ [])) by_utf8
        ≡ record { place = record { from = 0; to = 5 }; range = on_first_line 0 3 }
        ∷ record { place = record { from = 5; to = 5 }; range = on_first_line 3 6 }
        ∷ record { place = record { from = 5; to = 6 }; range = on_first_line 6 9 } ∷ [] }
    ensures utf16 { diagnostics_of (in_encoding Iso2022Jp (0x1B ∷ 0x24 ∷ 0x42 ∷ 0x24 ∷ 0x1B ∷ 0x41 ∷ [])) Utf16
        ≡ record { place = record { from = 0; to = 5 }; range = on_first_line 0 1 }
        ∷ record { place = record { from = 5; to = 5 }; range = on_first_line 1 2 }
        ∷ record { place = record { from = 5; to = 6 }; range = on_first_line 2 3 } ∷ [] }
    ensures utf32 { diagnostics_of (in_encoding Iso2022Jp (0x1B ∷ 0x24 ∷ 0x42 ∷ 0x24 ∷ 0x1B ∷ 0x41 ∷ [])) Utf32
        ≡ record { place = record { from = 0; to = 5 }; range = on_first_line 0 1 }
        ∷ record { place = record { from = 5; to = 5 }; range = on_first_line 1 2 }
        ∷ record { place = record { from = 5; to = 6 }; range = on_first_line 2 3 } ∷ [] }
{}

/// UTF-8 `FF 0D FF`: an error before CR, and one after it.
fn error_behind_cr()
    ensures places { diagnostics_of (in_encoding Utf8 (0xFF ∷ 0x0D ∷ 0xFF ∷ [])) Utf16
        ≡ record { place = record { from = 0; to = 1 }; range = on_first_line 0 1 }
        ∷ record {
          place = record { from = 2; to = 3 };
          range = record { start = record { line = 1; character = 0 }; end = record { line = 1; character = 1 } };
        } ∷ [] }
    ensures first { errors_before_line (in_encoding Utf8 (0xFF ∷ 0x0D ∷ 0xFF ∷ [])) 0 ≡ 0 }
    ensures second { errors_before_line (in_encoding Utf8 (0xFF ∷ 0x0D ∷ 0xFF ∷ [])) 1 ≡ 1 }
    ensures past { errors_before_line (in_encoding Utf8 (0xFF ∷ 0x0D ∷ 0xFF ∷ [])) 2 ≡ 2 }
{}

/// UTF-8 `F0 9F 98 80 FF`: an error after U+1F600.
fn error_behind_a_pair()
    ensures utf8 { diagnostics_of (in_encoding Utf8 (0xF0 ∷ 0x9F ∷ 0x98 ∷ 0x80 ∷ 0xFF ∷ [])) by_utf8
        ≡ record { place = record { from = 4; to = 5 }; range = on_first_line 4 7 } ∷ [] }
    ensures utf16 { diagnostics_of (in_encoding Utf8 (0xF0 ∷ 0x9F ∷ 0x98 ∷ 0x80 ∷ 0xFF ∷ [])) Utf16
        ≡ record { place = record { from = 4; to = 5 }; range = on_first_line 2 3 } ∷ [] }
    ensures utf32 { diagnostics_of (in_encoding Utf8 (0xF0 ∷ 0x9F ∷ 0x98 ∷ 0x80 ∷ 0xFF ∷ [])) Utf32
        ≡ record { place = record { from = 4; to = 5 }; range = on_first_line 1 2 } ∷ [] }
{}
