//! UTF-16BE and UTF-16LE.
#![tactic(auto, unfolding(decoder_core::specs::Queue::run, decoder_core::specs::Queue::turns))]

ghost use Rattle.std.specs.Prelude.{◌≡◌, [], ◌∷◌};
ghost use Rattle.decoder_core.specs.declared.item.Item.TheVariants.{One, Error};
ghost use Rattle.decoder_core.specs.declared.utf16.ByteOrder.TheVariants.{BigEndian, LittleEndian};
ghost use Rattle.decoder_core.specs.{Placed.places, Queue.run, Utf16.utf16, Utf16.utf16_start};

/// Half a unit; a lead surrogate and half a unit; a lead surrogate.
fn one_error_at_the_end()
    ensures half { places 1 0 (run (utf16 LittleEndian) utf16_start (0x41 ∷ [])) ≡ record { item = Error; from = 0; to = 1 } ∷ [] }
    ensures lead_and_half { places 3 0 (run (utf16 LittleEndian) utf16_start (0x3D ∷ 0xD8 ∷ 0x41 ∷ [])) ≡ record { item = Error; from = 0; to = 3 } ∷ [] }
    ensures lead { places 2 0 (run (utf16 BigEndian) utf16_start (0xD8 ∷ 0x3D ∷ [])) ≡ record { item = Error; from = 0; to = 2 } ∷ [] }
{}

/// A lead surrogate before another, which begins a pair.
fn lead_before_a_pair()
    ensures { places 6 0 (run (utf16 LittleEndian) utf16_start (0x3D ∷ 0xD8 ∷ 0x3D ∷ 0xD8 ∷ 0x00 ∷ 0xDE ∷ []))
        ≡ record { item = Error; from = 0; to = 2 }
        ∷ record { item = One 0x1F600; from = 2; to = 6 }
        ∷ [] }
{}

/// A lead surrogate before a letter, whose two bytes are read again.
fn lead_before_a_letter()
    ensures { places 4 0 (run (utf16 LittleEndian) utf16_start (0x3D ∷ 0xD8 ∷ 0x41 ∷ 0x00 ∷ []))
        ≡ record { item = Error; from = 0; to = 2 }
        ∷ record { item = One 0x41; from = 2; to = 4 }
        ∷ [] }
{}

/// A pair, a letter and a trail surrogate with no lead.
fn pair_and_lone_trail()
    ensures { places 8 0 (run (utf16 BigEndian) utf16_start (0xD8 ∷ 0x3D ∷ 0xDE ∷ 0x00 ∷ 0x00 ∷ 0x41 ∷ 0xDE ∷ 0x00 ∷ []))
        ≡ record { item = One 0x1F600; from = 0; to = 4 }
        ∷ record { item = One 0x41; from = 4; to = 6 }
        ∷ record { item = Error; from = 6; to = 8 }
        ∷ [] }
{}
