//! The single-byte encodings, x-user-defined and replacement.
#![tactic(auto, unfolding(decoder_core::specs::Queue::run, decoder_core::specs::Queue::turns))]

ghost use Rattle.std.specs.Prelude.{◌≡◌, [], ◌∷◌};
ghost use Rattle.decoder_core.specs.declared.item.Item.TheVariants.{One, Error};
ghost use Rattle.decoder_core.specs.{declared.one_byte.OneByteState.TheVariants.Idle, declared.replacement.ReplacementState.TheVariants.Unread, Placed.places};
ghost use Rattle.decoder_core.specs.{Queue.run, Replacement.replacement, SingleByte.single_byte, XUserDefined.x_user_defined};
ghost use Rattle.codec_tests.specs.DecoderEntries.{windows_1252_entries};

/// Two entries, an ASCII byte, and a byte without an entry.
fn windows_1252()
    ensures { places 4 0 (run (single_byte windows_1252_entries) Idle (0x80 ∷ 0xBB ∷ 0x41 ∷ 0xFF ∷ []))
        ≡ record { item = One 0x20AC; from = 0; to = 1 }
        ∷ record { item = One 0xBB; from = 1; to = 2 }
        ∷ record { item = One 0x41; from = 2; to = 3 }
        ∷ record { item = Error; from = 3; to = 4 }
        ∷ [] }
{}

/// An ASCII byte, and the ends of the others.
fn x_user_defined_bytes()
    ensures { places 3 0 (run x_user_defined Idle (0x41 ∷ 0x80 ∷ 0xFF ∷ []))
        ≡ record { item = One 0x41; from = 0; to = 1 }
        ∷ record { item = One 0xF780; from = 1; to = 2 }
        ∷ record { item = One 0xF7FF; from = 2; to = 3 }
        ∷ [] }
{}

/// One error, whatever the bytes, and none if there is no byte.
fn replacement_of_two_bytes()
    ensures none { places 0 0 (run replacement Unread []) ≡ [] }
    ensures two { places 2 0 (run replacement Unread (0x41 ∷ 0x42 ∷ [])) ≡ record { item = Error; from = 0; to = 1 } ∷ [] }
    ensures three { places 3 0 (run replacement Unread (0x41 ∷ 0x42 ∷ 0x43 ∷ [])) ≡ record { item = Error; from = 0; to = 1 } ∷ [] }
{}
