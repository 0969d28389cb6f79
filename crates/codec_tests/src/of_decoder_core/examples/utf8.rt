//! UTF-8.
#![tactic(auto, unfolding(decoder_core::specs::Queue::run, decoder_core::specs::Queue::turns))]

ghost use Rattle.std.specs.Prelude.{◌≡◌, [], ◌∷◌};
ghost use Rattle.decoder_core.specs.declared.item.Item.TheVariants.{One, Error};
ghost use Rattle.decoder_core.specs.{Queue.run, Placed.places, Text.code_points, Text.error_places, Utf8.utf8, Utf8.utf8_start};

fn no_byte_gives_nothing()
    ensures { places 0 0 (run utf8 utf8_start []) ≡ [] }
{}

fn cut_sequence_then_letter()
    ensures { places 3 0 (run utf8 utf8_start (0xE2 ∷ 0x82 ∷ 0x41 ∷ [])) ≡ record { item = Error; from = 0; to = 2 }
        ∷ record { item = One 0x41; from = 2; to = 3 } ∷ [] }
{}

fn cut_sequence_at_the_end()
    ensures { places 3 0 (run utf8 utf8_start (0xF0 ∷ 0x9F ∷ 0x98 ∷ [])) ≡ record { item = Error; from = 0; to = 3 } ∷ [] }
{}

fn overlong_nul()
    ensures { places 2 0 (run utf8 utf8_start (0xC0 ∷ 0x80 ∷ [])) ≡ record { item = Error; from = 0; to = 1 } ∷ record { item = Error; from = 1; to = 2 } ∷ [] }
{}

fn text_and_error_places()
    ensures text { code_points (places 3 0 (run utf8 utf8_start (0xE2 ∷ 0x82 ∷ 0x41 ∷ []))) ≡ 0xFFFD ∷ 0x41 ∷ [] }
    ensures errors { error_places (places 3 0 (run utf8 utf8_start (0xE2 ∷ 0x82 ∷ 0x41 ∷ []))) ≡ record { from = 0; to = 2 } ∷ [] }
{}
