//! Worked examples of the encoder, as equations over the definitions that computing them proves.
#![tactic(auto, unfolding(crate::proofs::Computing::of_references))]

ghost use Rattle.std.specs.Prelude.{◌≡◌, [], ◌∷◌, Ok, Err, false, true};
ghost use Rattle.iso2022jp.specs.declared.output.OutputState.TheVariants.{Ascii, Roman, Katakana, Jis0208};
ghost use Rattle.codec_tests.specs.EncoderEntries.{grinning_face_reference, replacement_reference};
ghost use Rattle.iso2022jp.specs.EncoderExamples.{jis0208_pairs, katakana_pairs};
ghost use Rattle.decoder_core.specs.EncoderSteps.{encoded_from};
ghost use Rattle.iso2022jp.specs.Iso2022JpEncoder.{ended, iso_2022_jp_encoder, iso_pointer};

/// A character reference is put in ASCII, so the state jis0208 is left before it.
fn reference_in_ascii()
    ensures { ended true (encoded_from (iso_2022_jp_encoder (iso_pointer jis0208_pairs katakana_pairs)) true 0 Ascii
        (0x3042 ∷ 0x1F600 ∷ [])) ≡ Ok (record { bytes = 0x1B ∷ 0x24 ∷ 0x42 ∷ 0x24 ∷ 0x22 ∷ 0x1B ∷ 0x28 ∷ 0x42 ∷ grinning_face_reference; state = Ascii }) }
{}

/// The first code point without bytes, by its place among the code points.
fn unencodable_by_code_points()
    ensures { encoded_from (iso_2022_jp_encoder (iso_pointer jis0208_pairs katakana_pairs)) false 0 Ascii (0x3042 ∷ 0x1F600 ∷ [])
        ≡ Err (record { index = 1; code_point = 0x1F600 }) }
{}

/// A half-width katakana is put as the full-width one, and the end returns to ASCII.
fn half_width_katakana()
    ensures { ended true (encoded_from (iso_2022_jp_encoder (iso_pointer jis0208_pairs katakana_pairs)) false 0 Ascii (0xFF61 ∷ []))
        ≡ Ok (record { bytes = 0x1B ∷ 0x24 ∷ 0x42 ∷ 0x21 ∷ 0x23 ∷ 0x1B ∷ 0x28 ∷ 0x42 ∷ []; state = Ascii }) }
{}

/// The yen sign is in the state Roman. It is encoded with the return to ASCII and without, from
/// ASCII and from katakana.
fn yen_sign()
    ensures ended { ended true (encoded_from (iso_2022_jp_encoder (iso_pointer jis0208_pairs katakana_pairs)) false 0 Ascii (0xA5 ∷ []))
        ≡ Ok (record { bytes = 0x1B ∷ 0x28 ∷ 0x4A ∷ 0x5C ∷ 0x1B ∷ 0x28 ∷ 0x42 ∷ []; state = Ascii }) }
    ensures open { ended false (encoded_from (iso_2022_jp_encoder (iso_pointer jis0208_pairs katakana_pairs)) false 0 Katakana (0xA5 ∷ []))
        ≡ Ok (record { bytes = 0x1B ∷ 0x28 ∷ 0x4A ∷ 0x5C ∷ []; state = Roman }) }
{}

/// SO is an error that names U+FFFD in ASCII and Roman; jis0208 and katakana are left before it.
fn shift_out()
    ensures fatal { encoded_from (iso_2022_jp_encoder (iso_pointer jis0208_pairs katakana_pairs)) false 0 Ascii (0x0E ∷ [])
        ≡ Err (record { index = 0; code_point = 0xFFFD }) }
    ensures html { encoded_from (iso_2022_jp_encoder (iso_pointer jis0208_pairs katakana_pairs)) true 0 Roman (0x0E ∷ [])
        ≡ Ok (record { bytes = replacement_reference; state = Roman }) }
    ensures behind_pairs { encoded_from (iso_2022_jp_encoder (iso_pointer jis0208_pairs katakana_pairs)) true 0 Jis0208 (0x0E ∷ [])
        ≡ Ok (record { bytes = 0x1B ∷ 0x28 ∷ 0x42 ∷ replacement_reference; state = Ascii }) }
{}

/// A pointer after the 94 rows has no pair.
fn pointer_behind_the_rows()
    ensures { encoded_from (iso_2022_jp_encoder (iso_pointer jis0208_pairs katakana_pairs)) false 0 Ascii (0x2170 ∷ [])
        ≡ Err (record { index = 0; code_point = 0x2170 }) }
{}

/// A backslash isn't in the state Roman, another letter is.
fn roman()
    ensures { encoded_from (iso_2022_jp_encoder (iso_pointer jis0208_pairs katakana_pairs)) false 0 Roman (0x41 ∷ 0x203E ∷ 0x5C ∷ [])
        ≡ Ok (record { bytes = 0x41 ∷ 0x7E ∷ 0x1B ∷ 0x28 ∷ 0x42 ∷ 0x5C ∷ []; state = Ascii }) }
{}
