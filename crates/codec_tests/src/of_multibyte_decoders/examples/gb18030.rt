//! gb18030.
#![tactic(auto, unfolding(decoder_core::specs::Queue::run, decoder_core::specs::Queue::turns))]

ghost use Rattle.std.specs.Prelude.{◌≡◌, [], ◌∷◌};
ghost use Rattle.decoder_core.specs.declared.item.Item.TheVariants.{One, Error};
ghost use Rattle.decoder_core.specs.{Placed.places, Queue.run, Queue.feed};
ghost use Rattle.multibyte_decoders.specs.declared.gb18030.Gb18030State.TheVariants.{Idle, Second, Third};
ghost use Rattle.multibyte_decoders.specs.Gb18030.{gb18030};
ghost use Rattle.codec_tests.specs.DecoderEntries.{gb18030_entries, gb18030_ranged_entries};

/// Four bytes whose fourth is bad: the last three are put back.
fn bad_fourth_byte()
    ensures { places 4 0 (run (gb18030 gb18030_entries gb18030_ranged_entries) Idle (0x81 ∷ 0x30 ∷ 0x81 ∷ 0x41 ∷ []))
        ≡ record { item = Error; from = 0; to = 1 }
        ∷ record { item = One 0x30; from = 1; to = 2 }
        ∷ record { item = One 0x4E04; from = 2; to = 4 }
        ∷ [] }
{}

/// Three bytes whose third is bad: the last two are put back.
fn bad_third_byte()
    ensures { places 3 0 (run (gb18030 gb18030_entries gb18030_ranged_entries) Idle (0x81 ∷ 0x30 ∷ 0x41 ∷ []))
        ≡ record { item = Error; from = 0; to = 1 }
        ∷ record { item = One 0x30; from = 1; to = 2 }
        ∷ record { item = One 0x41; from = 2; to = 3 }
        ∷ [] }
{}

/// Pairs whose second byte is bad: an ASCII byte is put back, FF isn't.
fn bad_second_byte()
    ensures { places 6 0 (run (gb18030 gb18030_entries gb18030_ranged_entries) Idle (0x81 ∷ 0x2F ∷ 0x81 ∷ 0x7F ∷ 0x81 ∷ 0xFF ∷ []))
        ≡ record { item = Error; from = 0; to = 1 }
        ∷ record { item = One 0x2F; from = 1; to = 2 }
        ∷ record { item = Error; from = 2; to = 3 }
        ∷ record { item = One 0x7F; from = 3; to = 4 }
        ∷ record { item = Error; from = 4; to = 6 }
        ∷ [] }
{}

/// Four bytes with a code point, and one past the last.
fn four_bytes()
    ensures { places 16 0
        (run (gb18030 gb18030_entries gb18030_ranged_entries) Idle
        (0x81 ∷ 0x30 ∷ 0x81 ∷ 0x30 ∷ 0x90 ∷ 0x30 ∷ 0x81 ∷ 0x30 ∷ 0xE3 ∷ 0x32 ∷ 0x9A ∷ 0x35 ∷ 0xE3 ∷ 0x32 ∷ 0x9A ∷ 0x36 ∷ []))
        ≡ record { item = One 0x80; from = 0; to = 4 }
        ∷ record { item = One 0x10000; from = 4; to = 8 }
        ∷ record { item = One 0x10FFFF; from = 8; to = 12 }
        ∷ record { item = Error; from = 12; to = 16 }
        ∷ [] }
{}

/// 80 is the euro sign, and FF isn't a first byte.
fn single_bytes()
    ensures { places 3 0 (run (gb18030 gb18030_entries gb18030_ranged_entries) Idle (0x41 ∷ 0x80 ∷ 0xFF ∷ []))
        ≡ record { item = One 0x41; from = 0; to = 1 }
        ∷ record { item = One 0x20AC; from = 1; to = 2 }
        ∷ record { item = Error; from = 2; to = 3 }
        ∷ [] }
{}

/// Three bytes at the end are one error.
fn three_bytes_at_the_end()
    ensures { places 3 0 (run (gb18030 gb18030_entries gb18030_ranged_entries) Idle (0x81 ∷ 0x30 ∷ 0x81 ∷ []))
        ≡ record { item = Error; from = 0; to = 3 }
        ∷ [] }
{}

/// The step that finds the fourth byte bad gives three items.
#[tactic(auto, unfolding(decoder_core::specs::Queue::feed, decoder_core::specs::Queue::feed_for))]
fn step_at_a_bad_fourth_byte()
    ensures { feed (gb18030 gb18030_entries gb18030_ranged_entries) (Third 0x81 0x30 0x81) (0x41 ∷ []) ≡ record {
      state = Idle;
      items = record { item = Error; back = 3 }
          ∷ record { item = One 0x30; back = 2 }
          ∷ record { item = One 0x4E04; back = 0 }
          ∷ [];
    } }
{}

/// The step that finds the third byte bad gives three items.
#[tactic(auto, unfolding(decoder_core::specs::Queue::feed, decoder_core::specs::Queue::feed_for))]
fn step_at_a_bad_third_byte()
    ensures { feed (gb18030 gb18030_entries gb18030_ranged_entries) (Second 0x81 0x30) (0x41 ∷ []) ≡ record {
      state = Idle;
      items = record { item = Error; back = 2 }
          ∷ record { item = One 0x30; back = 1 }
          ∷ record { item = One 0x41; back = 0 }
          ∷ [];
    } }
{}
