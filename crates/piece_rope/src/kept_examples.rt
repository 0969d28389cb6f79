//! Kept splices, computed at worked examples.
#![tactic(auto, unfolding(crate::specs::Document::decoded_text, state_memo::specs::Decoding::decode, state_memo::specs::Decoding::run, state_memo::specs::Decoding::turns, state_memo::specs::Decoding::feed, state_memo::specs::Feeding::feed_for, index_loader::specs::Kinds::slot_of))]

ghost use Rattle.std.specs.Prelude.{◌≡◌, [], ◌∷◌, true, false};
ghost use Rattle.piece_rope.specs.KeptExamples.{lead, letter, accented, shifted, unreturned};
ghost use Rattle.piece_rope.specs.{Edits.is_kept, Examples.in_utf8, Examples.in_utf8_keeping};

/// A lead byte swallows the letter after it; a lead byte before it stays.
fn letter_beside_a_lead()
    ensures behind { is_kept lead 1 0 (0x41 ∷ []) 1 1 (0x41 ∷ []) ≡ false }
    ensures before { is_kept lead 0 0 (0x41 ∷ []) 0 0 (0x41 ∷ []) ≡ true }
{}

/// The byte that a yen sign is encoded to is decoded to a backslash.
fn yen_sign_is_a_backslash()
    ensures yen { is_kept letter 1 0 (0x5C ∷ []) 1 1 (0xA5 ∷ []) ≡ false }
    ensures backslash { is_kept letter 1 0 (0x5C ∷ []) 1 1 (0x5C ∷ []) ≡ true }
{}

/// Two bytes that are two code points go together.
fn code_points_of_one_item()
    ensures both { is_kept accented 0 2 [] 0 2 [] ≡ true }
    ensures first { is_kept accented 0 1 [] 0 1 [] ≡ false }
    ensures second { is_kept accented 1 1 [] 1 2 [] ≡ false }
{}

/// A kanji before a switch to kanji needs no switch back; a deleted kana takes its switch along.
fn before_a_switch()
    ensures kanji { is_kept shifted 1 0 (0x1B ∷ 0x24 ∷ 0x42 ∷ 0x30 ∷ 0x21 ∷ []) 1 1 (0x4E9C ∷ []) ≡ true }
    ensures deleted { is_kept shifted 1 5 [] 1 2 [] ≡ true }
{}

/// A letter after a kana needs a switch of its own.
fn behind_a_kana()
    ensures bare { is_kept unreturned 5 0 (0x41 ∷ []) 1 1 (0x41 ∷ []) ≡ false }
    ensures switched { is_kept unreturned 5 0 (0x1B ∷ 0x28 ∷ 0x42 ∷ 0x41 ∷ 0x1B ∷ 0x24 ∷ 0x42 ∷ []) 1 1 (0x41 ∷ []) ≡ true }
{}

/// U+FEFF at the start of the bytes is a byte order mark. It isn't part of the text, unless marks are
/// kept; a second one is text.
fn byte_order_marks()
    ensures mark { is_kept (in_utf8 (0x41 ∷ [])) 0 1 (0xEF ∷ 0xBB ∷ 0xBF ∷ 0x78 ∷ []) 0 1 (0xFEFF ∷ 0x78 ∷ []) ≡ false }
    ensures kept { is_kept (in_utf8_keeping (0x41 ∷ [])) 0 1 (0xEF ∷ 0xBB ∷ 0xBF ∷ 0x78 ∷ []) 0 1 (0xFEFF ∷ 0x78 ∷ []) ≡ true }
    ensures second { is_kept (in_utf8 (0xEF ∷ 0xBB ∷ 0xBF ∷ [])) 3 0 (0xEF ∷ 0xBB ∷ 0xBF ∷ []) 0 0 (0xFEFF ∷ []) ≡ true }
{}
