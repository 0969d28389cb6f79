//! Planned changes, computed at worked examples.
#![tactic(auto, unfolding(index_loader::specs::Kinds::slot_of, crate::specs::Plan::planned, crate::specs::Plan::replacing, crate::specs::Lines::lines_of, crate::specs::Positions::offset_of, piece_rope::specs::Document::decoded_text, piece_rope::specs::Decode::decode, piece_rope::specs::Decode::output_behind, piece_rope::specs::Decode::run, piece_rope::specs::Decode::turns, piece_rope::specs::Decode::feed, piece_rope::specs::Decode::feed_for))]

ghost use Rattle.std.specs.Prelude.{◌≡◌, ℕ, List, [], ◌∷◌, Some, None, Ok, Err, false};
ghost use Rattle.enc_names.specs.declared.encoding.Encoding.TheVariants.{Big5, ShiftJis, Iso2022Jp, Utf8, Replacement, Windows1252};
ghost use Rattle.position_map.specs.declared.change_fault.ChangeFault.TheVariants.{OutOfRange, SplitsCharacter, SplitsItem, NoEncoder, Unencodable};
ghost use Rattle.position_map.specs.declared.unit.Unit.TheVariants.{Utf8 as by_utf8, Utf16};
ghost use Rattle.position_map.specs.PlanExamples.{in_encoding, keeping, on_first_line};
ghost use Rattle.position_map.specs.{declared.position.Range.Range, Plan.planned, Plan.is_behind, Plan.Encoded, Plan.Given};

/// Big5 `88 62`: one item of two code points. There is no cut between them, whatever is put in. An
/// end inside one of them is reported first, and so is a range that starts after its end.
fn inside_an_item()
    ensures letter { planned (in_encoding Big5 (0x88 ∷ 0x62 ∷ [])) (Some (on_first_line 1 1)) Utf16 (Encoded (0x41 ∷ [])) ≡ Err SplitsItem }
    ensures no_bytes { planned (in_encoding Big5 (0x88 ∷ 0x62 ∷ [])) (Some (on_first_line 1 1)) Utf16 (Encoded (0x1F600 ∷ [])) ≡ Err SplitsItem }
    ensures right { planned (in_encoding Big5 (0x88 ∷ 0x62 ∷ [])) (Some (on_first_line 0 1)) Utf16 (Encoded (0x1F600 ∷ [])) ≡ Err SplitsItem }
    ensures whole_item { planned (in_encoding Big5 (0x88 ∷ 0x62 ∷ [])) (Some (on_first_line 0 2)) Utf16 (Encoded (0x1F600 ∷ []))
        ≡ Err (Unencodable (record { index = 0; code_point = 0x1F600 })) }
    ensures character { planned (in_encoding Big5 (0x88 ∷ 0x62 ∷ [])) (Some (on_first_line 2 3)) by_utf8 (Encoded (0x1F600 ∷ [])) ≡ Err SplitsCharacter }
    ensures order { planned (in_encoding Big5 (0x88 ∷ 0x62 ∷ [])) (Some (on_first_line 3 2)) by_utf8 (Encoded (0x1F600 ∷ [])) ≡ Err OutOfRange }
{}

/// Shift_JIS: a letter after a lead byte that would swallow it, and a yen sign, whose byte decodes
/// to another character.
fn shift_jis()
    ensures behind_a_lead { planned (in_encoding ShiftJis (0x81 ∷ [])) (Some (on_first_line 1 1)) Utf16 (Encoded (0x41 ∷ []))
        ≡ Ok (record { at = 1; del = 0; ins = 0x41 ∷ []; i = 1; j = 1 }) }
    ensures yen_sign { planned (in_encoding ShiftJis (0x41 ∷ [])) (Some (on_first_line 1 1)) Utf16 (Encoded (0xA5 ∷ []))
        ≡ Ok (record { at = 1; del = 0; ins = 0x5C ∷ []; i = 1; j = 1 }) }
{}

/// ISO-2022-JP `41 1B 24 42 24 22 1B 28 42`: before the shift a kanji needs one of its own, and the
/// next escape leads on. A deleted character leaves no escape except the one after it.
fn before_a_shift()
    ensures inserted { planned (in_encoding Iso2022Jp (0x41 ∷ 0x1B ∷ 0x24 ∷ 0x42 ∷ 0x24 ∷ 0x22 ∷ 0x1B ∷ 0x28 ∷ 0x42 ∷ []))
        (Some (on_first_line 1 1)) Utf16 (Encoded (0x4E9C ∷ []))
        ≡ Ok (record { at = 1; del = 0; ins = 0x1B ∷ 0x24 ∷ 0x42 ∷ 0x30 ∷ 0x21 ∷ []; i = 1; j = 1 }) }
    ensures deleted { planned (in_encoding Iso2022Jp (0x41 ∷ 0x1B ∷ 0x24 ∷ 0x42 ∷ 0x24 ∷ 0x22 ∷ 0x1B ∷ 0x28 ∷ 0x42 ∷ []))
        (Some (on_first_line 1 2)) Utf16 (Encoded [])
        ≡ Ok (record { at = 1; del = 5; ins = []; i = 1; j = 2 }) }
{}

/// ISO-2022-JP `41 1B 24 40 24 22`: an escape of 1978 leads on too.
fn before_a_shift_of_1978()
    ensures { planned (in_encoding Iso2022Jp (0x41 ∷ 0x1B ∷ 0x24 ∷ 0x40 ∷ 0x24 ∷ 0x22 ∷ [])) (Some (on_first_line 1 1)) Utf16 (Encoded (0x4E9C ∷ []))
        ≡ Ok (record { at = 1; del = 0; ins = 0x1B ∷ 0x24 ∷ 0x42 ∷ 0x30 ∷ 0x21 ∷ []; i = 1; j = 1 }) }
{}

/// ISO-2022-JP `1B 24 42 24 22`: a letter after it is put in ASCII, and the state leads back. So it
/// does if nothing is put in; a kanji continues in the state.
fn back_to_the_state_behind()
    ensures letter { planned (in_encoding Iso2022Jp (0x1B ∷ 0x24 ∷ 0x42 ∷ 0x24 ∷ 0x22 ∷ [])) (Some (on_first_line 1 1)) Utf16 (Encoded (0x41 ∷ []))
        ≡ Ok (record { at = 5; del = 0; ins = 0x1B ∷ 0x28 ∷ 0x42 ∷ 0x41 ∷ 0x1B ∷ 0x24 ∷ 0x42 ∷ []; i = 1; j = 1 }) }
    ensures nothing { planned (in_encoding Iso2022Jp (0x1B ∷ 0x24 ∷ 0x42 ∷ 0x24 ∷ 0x22 ∷ [])) (Some (on_first_line 0 1)) Utf16 (Encoded [])
        ≡ Ok (record { at = 0; del = 5; ins = 0x1B ∷ 0x24 ∷ 0x42 ∷ []; i = 0; j = 1 }) }
    ensures kanji { planned (in_encoding Iso2022Jp (0x1B ∷ 0x24 ∷ 0x42 ∷ 0x24 ∷ 0x22 ∷ [])) (Some (on_first_line 1 1)) Utf16 (Encoded (0x4E9C ∷ []))
        ≡ Ok (record { at = 5; del = 0; ins = 0x30 ∷ 0x21 ∷ []; i = 1; j = 1 }) }
{}

/// ISO-2022-JP `1B 28 49 41`: no letter is put in the state of katakana, and it is led back to; a
/// yen sign is put in that of Roman, and nothing as nothing.
fn behind_katakana()
    ensures letter { planned (in_encoding Iso2022Jp (0x1B ∷ 0x28 ∷ 0x49 ∷ 0x41 ∷ [])) (Some (on_first_line 1 1)) Utf16 (Encoded (0x41 ∷ []))
        ≡ Ok (record { at = 4; del = 0; ins = 0x1B ∷ 0x28 ∷ 0x42 ∷ 0x41 ∷ 0x1B ∷ 0x28 ∷ 0x49 ∷ []; i = 1; j = 1 }) }
    ensures yen_sign { planned (in_encoding Iso2022Jp (0x1B ∷ 0x28 ∷ 0x49 ∷ 0x41 ∷ [])) (Some (on_first_line 1 1)) Utf16 (Encoded (0xA5 ∷ []))
        ≡ Ok (record { at = 4; del = 0; ins = 0x1B ∷ 0x28 ∷ 0x4A ∷ 0x5C ∷ 0x1B ∷ 0x28 ∷ 0x49 ∷ []; i = 1; j = 1 }) }
    ensures nothing { planned (in_encoding Iso2022Jp (0x1B ∷ 0x28 ∷ 0x49 ∷ 0x41 ∷ [])) (Some (on_first_line 1 1)) Utf16 (Encoded [])
        ≡ Ok (record { at = 4; del = 0; ins = []; i = 1; j = 1 }) }
{}

/// `a`, U+1F600, CR, LF, `b`: a pair of surrogates is one code point, and no end may be inside it.
fn pair_of_surrogates()
    ensures replaced { planned (in_encoding Utf8 (0x61 ∷ 0xF0 ∷ 0x9F ∷ 0x98 ∷ 0x80 ∷ 0x0D ∷ 0x0A ∷ 0x62 ∷ []))
        (Some (on_first_line 1 3)) Utf16 (Encoded (0x78 ∷ []))
        ≡ Ok (record { at = 1; del = 4; ins = 0x78 ∷ []; i = 1; j = 2 }) }
    ensures inside { planned (in_encoding Utf8 (0x61 ∷ 0xF0 ∷ 0x9F ∷ 0x98 ∷ 0x80 ∷ 0x0D ∷ 0x0A ∷ 0x62 ∷ []))
        (Some (on_first_line 2 3)) Utf16 (Encoded (0x78 ∷ [])) ≡ Err SplitsCharacter }
    ensures start_behind_end { planned (in_encoding Utf8 (0x61 ∷ 0xF0 ∷ 0x9F ∷ 0x98 ∷ 0x80 ∷ 0x0D ∷ 0x0A ∷ 0x62 ∷ []))
        (Some (on_first_line 3 2)) Utf16 (Encoded (0x78 ∷ [])) ≡ Err OutOfRange }
{}

/// replacement has no encoder: every change of `41` is refused so, whatever is put in, except a
/// range that starts after its end. In UTF-16 no end is inside the one code point that it decodes
/// to.
fn replacement()
    ensures range { (range : Range) (text : List ℕ) → is_behind range.start range.end ≡ false
        → planned (in_encoding Replacement (0x41 ∷ [])) (Some range) Utf16 (Encoded text) ≡ Err NoEncoder }
    ensures whole { (text : List ℕ) → planned (in_encoding Replacement (0x41 ∷ [])) None Utf16 (Encoded text) ≡ Err NoEncoder }
{}

/// Given bytes are put in as they are, in an encoding without an encoder too. In ISO-2022-JP `1B 24
/// 42 24 22` no escape leads to them or back. They don't move an end out of an item.
fn given_bytes()
    ensures duplicate { planned (in_encoding ShiftJis (0x41 ∷ [])) (Some (on_first_line 0 1)) Utf16 (Given (0xFA ∷ 0x5B ∷ []))
        ≡ Ok (record { at = 0; del = 1; ins = 0xFA ∷ 0x5B ∷ []; i = 0; j = 1 }) }
    ensures no_escape { planned (in_encoding Iso2022Jp (0x1B ∷ 0x24 ∷ 0x42 ∷ 0x24 ∷ 0x22 ∷ [])) (Some (on_first_line 1 1)) Utf16 (Given (0x41 ∷ []))
        ≡ Ok (record { at = 5; del = 0; ins = 0x41 ∷ []; i = 1; j = 1 }) }
    ensures replacement { planned (in_encoding Replacement (0x41 ∷ [])) None Utf16 (Given (0x42 ∷ []))
        ≡ Ok (record { at = 0; del = 1; ins = 0x42 ∷ []; i = 0; j = 1 }) }
    ensures item { planned (in_encoding Big5 (0x88 ∷ 0x62 ∷ [])) (Some (on_first_line 1 1)) Utf16 (Given (0x41 ∷ [])) ≡ Err SplitsItem }
{}

/// windows-1252 has no hiragana, and ISO-2022-JP has U+3042, but no U+1F600.
fn no_bytes()
    ensures hiragana { planned (in_encoding Windows1252 (0x41 ∷ [])) (Some (on_first_line 1 1)) Utf16 (Encoded (0x3042 ∷ []))
        ≡ Err (Unencodable (record { index = 0; code_point = 0x3042 })) }
    ensures second { planned (in_encoding Iso2022Jp (0x41 ∷ [])) (Some (on_first_line 1 1)) Utf16 (Encoded (0x3042 ∷ 0x1F600 ∷ []))
        ≡ Err (Unencodable (record { index = 1; code_point = 0x1F600 })) }
{}

/// Without a range the whole text is replaced, and the byte order mark stays; a mark that is kept is
/// part of the text.
fn whole_text()
    ensures unmarked { planned (in_encoding Utf8 (0x41 ∷ [])) None Utf16 (Encoded (0xFEFF ∷ 0x78 ∷ []))
        ≡ Ok (record { at = 0; del = 1; ins = 0xEF ∷ 0xBB ∷ 0xBF ∷ 0x78 ∷ []; i = 0; j = 1 }) }
    ensures marked { planned (in_encoding Utf8 (0xEF ∷ 0xBB ∷ 0xBF ∷ [])) None Utf16 (Encoded (0xFEFF ∷ []))
        ≡ Ok (record { at = 3; del = 0; ins = 0xEF ∷ 0xBB ∷ 0xBF ∷ []; i = 0; j = 0 }) }
    ensures kept { planned (keeping Utf8 (0xEF ∷ 0xBB ∷ 0xBF ∷ [])) None Utf16 (Encoded (0xFEFF ∷ 0x78 ∷ []))
        ≡ Ok (record { at = 0; del = 3; ins = 0xEF ∷ 0xBB ∷ 0xBF ∷ 0x78 ∷ []; i = 0; j = 1 }) }
{}
