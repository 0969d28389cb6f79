//! Worked examples, as equations over the table that computing them proves.
#![tactic(auto, unfolding(decoder_core::specs::Queue::run, decoder_core::specs::Queue::turns))]

ghost use Rattle.std.specs.Prelude.{◌≡◌, [], ◌∷◌, true, false};
ghost use Rattle.decoder_core.specs.declared.item.Item.TheVariants.{One, Error};
ghost use Rattle.decoder_core.specs.{Placed.places, Queue.run, Queue.feed};
ghost use Rattle.codec_tests.specs.DecoderEntries.{jis0208_entries};
ghost use Rattle.iso2022jp.specs.Iso2022Jp.{iso_2022_jp, iso_2022_jp_start, values};
ghost use Rattle.iso2022jp.specs.declared.output.OutputState.TheVariants.{Ascii, Roman, Katakana, Jis0208};
ghost use Rattle.iso2022jp.specs.declared.state.DecoderState.TheVariants.{Ready, EscapeStart, Escape};

/// 1B instead of a trail is an error, and no escape follows it. 41 is a lead at the end: the second
/// of three errors has no byte.
fn three_errors_of_a_cut_pair()
    ensures { places 6 0 (run (iso_2022_jp jis0208_entries) iso_2022_jp_start (0x1B ∷ 0x24 ∷ 0x42 ∷ 0x24 ∷ 0x1B ∷ 0x41 ∷ []))
        ≡ record { item = Error; from = 0; to = 5 }
        ∷ record { item = Error; from = 5; to = 5 }
        ∷ record { item = Error; from = 5; to = 6 }
        ∷ [] }
{}

/// Two escapes with nothing between them.
fn two_escapes_in_a_row()
    ensures { places 7 0 (run (iso_2022_jp jis0208_entries) iso_2022_jp_start (0x1B ∷ 0x28 ∷ 0x42 ∷ 0x1B ∷ 0x28 ∷ 0x42 ∷ 0x41 ∷ []))
        ≡ record { item = Error; from = 0; to = 6 }
        ∷ record { item = One 0x41; from = 6; to = 7 }
        ∷ [] }
{}

/// Roman has a yen sign and an overline.
fn roman()
    ensures { places 6 0 (run (iso_2022_jp jis0208_entries) iso_2022_jp_start (0x1B ∷ 0x28 ∷ 0x4A ∷ 0x5C ∷ 0x7E ∷ 0x41 ∷ []))
        ≡ record { item = One 0xA5; from = 0; to = 4 }
        ∷ record { item = One 0x203E; from = 4; to = 5 }
        ∷ record { item = One 0x41; from = 5; to = 6 }
        ∷ [] }
{}

/// The ends of the half-width katakana, and the bytes beside them.
fn katakana()
    ensures { places 7 0 (run (iso_2022_jp jis0208_entries) iso_2022_jp_start (0x1B ∷ 0x28 ∷ 0x49 ∷ 0x20 ∷ 0x21 ∷ 0x5F ∷ 0x60 ∷ []))
        ≡ record { item = Error; from = 0; to = 4 }
        ∷ record { item = One 0xFF61; from = 4; to = 5 }
        ∷ record { item = One 0xFF9F; from = 5; to = 6 }
        ∷ record { item = Error; from = 6; to = 7 }
        ∷ [] }
{}

/// Pairs after both escapes to them, one of them null, and a backslash.
fn pairs()
    ensures { places 16 0
        (run (iso_2022_jp jis0208_entries) iso_2022_jp_start (0x1B ∷ 0x24 ∷ 0x40 ∷ 0x24 ∷ 0x22 ∷ 0x1B ∷ 0x24 ∷ 0x42 ∷ 0x30 ∷ 0x21 ∷ 0x7E
        ∷ 0x7E ∷ 0x1B ∷ 0x28 ∷ 0x42 ∷ 0x5C ∷ []))
        ≡ record { item = One 0x3042; from = 0; to = 5 }
        ∷ record { item = One 0x4E9C; from = 5; to = 10 }
        ∷ record { item = Error; from = 10; to = 12 }
        ∷ record { item = One 0x5C; from = 12; to = 16 }
        ∷ [] }
{}

/// The end inside an escape: the byte after 1B is put back, and is a parenthesis.
fn escape_at_the_end()
    ensures { places 3 0 (run (iso_2022_jp jis0208_entries) iso_2022_jp_start (0x41 ∷ 0x1B ∷ 0x28 ∷ []))
        ≡ record { item = One 0x41; from = 0; to = 1 }
        ∷ record { item = Error; from = 1; to = 2 }
        ∷ record { item = One 0x28; from = 2; to = 3 }
        ∷ [] }
{}

/// Two bytes put back after 1B are a pair if pairs are read.
#[tactic(auto, unfolding(decoder_core::specs::Queue::feed, decoder_core::specs::Queue::feed_for))]
fn step_that_gives_a_pair_back()
    ensures { feed (iso_2022_jp jis0208_entries) (values (Escape 0x24) Jis0208 true) (0x22 ∷ []) ≡ record {
      state = values (Ready Jis0208) Jis0208 false;
      items = record { item = Error; back = 2 }
          ∷ record { item = One 0x3042; back = 0 }
          ∷ [];
    } }
{}

/// 1B after 1B begins another escape, and then the flag is false.
#[tactic(auto, unfolding(decoder_core::specs::Queue::feed, decoder_core::specs::Queue::feed_for))]
fn step_that_begins_an_escape_anew()
    ensures { feed (iso_2022_jp jis0208_entries) (values EscapeStart Roman true) (0x1B ∷ []) ≡ record {
      state = values EscapeStart Roman false;
      items = record { item = Error; back = 1 } ∷ [];
    } }
{}

/// The five escapes, and the flag that each sets.
#[tactic(auto, unfolding(decoder_core::specs::Queue::feed, decoder_core::specs::Queue::feed_for))]
fn five_escapes()
    ensures ascii { (feed (iso_2022_jp jis0208_entries) iso_2022_jp_start (0x1B ∷ 0x28 ∷ 0x42 ∷ [])).state ≡ values (Ready Ascii) Ascii true }
    ensures roman { (feed (iso_2022_jp jis0208_entries) iso_2022_jp_start (0x1B ∷ 0x28 ∷ 0x4A ∷ [])).state ≡ values (Ready Roman) Roman true }
    ensures katakana { (feed (iso_2022_jp jis0208_entries) iso_2022_jp_start (0x1B ∷ 0x28 ∷ 0x49 ∷ [])).state ≡ values (Ready Katakana) Katakana true }
    ensures jis_1978 { (feed (iso_2022_jp jis0208_entries) iso_2022_jp_start (0x1B ∷ 0x24 ∷ 0x40 ∷ [])).state ≡ values (Ready Jis0208) Jis0208 true }
    ensures jis_1983 { (feed (iso_2022_jp jis0208_entries) iso_2022_jp_start (0x1B ∷ 0x24 ∷ 0x42 ∷ [])).state ≡ values (Ready Jis0208) Jis0208 true }
{}
