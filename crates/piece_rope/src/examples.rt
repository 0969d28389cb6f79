//! The definitions, computed at worked examples (Encoding Standard, "UTF-8 decoder").
#![tactic(auto, unfolding(crate::specs::Document::decoded_text, crate::specs::Document::decoded_errors, state_memo::specs::Decoding::decode, state_memo::specs::Decoding::run, state_memo::specs::Decoding::turns))]

ghost use Rattle.std.specs.Prelude.{◌≡◌, [], ◌∷◌};
ghost use Rattle.piece_rope.specs.{Document.text_of, Document.errors_of, Examples.in_utf8, Examples.at};

/// No bytes, no text.
fn empty_document()
    ensures text { text_of (in_utf8 []) ≡ [] }
    ensures errors { errors_of (in_utf8 []) ≡ [] }
{}

/// A sequence of three bytes whose third is ASCII: its two bytes are one error, the byte is kept.
fn sequence_cut_short_by_ascii()
    ensures text { text_of (in_utf8 (0xE2 ∷ 0x82 ∷ 0x41 ∷ [])) ≡ 0xFFFD ∷ 0x41 ∷ [] }
    ensures errors { errors_of (in_utf8 (0xE2 ∷ 0x82 ∷ 0x41 ∷ [])) ≡ at 0 2 ∷ [] }
{}

/// A sequence of four bytes without the last: one error.
fn sequence_cut_short_by_the_end()
    ensures text { text_of (in_utf8 (0xF0 ∷ 0x9F ∷ 0x98 ∷ [])) ≡ 0xFFFD ∷ [] }
    ensures errors { errors_of (in_utf8 (0xF0 ∷ 0x9F ∷ 0x98 ∷ [])) ≡ at 0 3 ∷ [] }
{}

/// An overlong form: each byte is an error.
fn overlong_form()
    ensures text { text_of (in_utf8 (0xC0 ∷ 0x80 ∷ [])) ≡ 0xFFFD ∷ 0xFFFD ∷ [] }
    ensures errors { errors_of (in_utf8 (0xC0 ∷ 0x80 ∷ [])) ≡ at 0 1 ∷ at 1 2 ∷ [] }
{}

/// The euro sign.
fn euro_sign()
    ensures text { text_of (in_utf8 (0xE2 ∷ 0x82 ∷ 0xAC ∷ [])) ≡ 0x20AC ∷ [] }
    ensures errors { errors_of (in_utf8 (0xE2 ∷ 0x82 ∷ 0xAC ∷ [])) ≡ [] }
{}
