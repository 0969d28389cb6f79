//! EUC-JP.
#![tactic(auto, unfolding(decoder_core::specs::Queue::run, decoder_core::specs::Queue::turns))]

ghost use Rattle.std.specs.Prelude.{◌≡◌, [], ◌∷◌};
ghost use Rattle.decoder_core.specs.declared.item.Item.TheVariants.{One, Error};
ghost use Rattle.decoder_core.specs.{Placed.places, Queue.run};
ghost use Rattle.multibyte_decoders.specs.{declared.euc_jp.EucJpState.TheVariants.Idle, EucJp.euc_jp};
ghost use Rattle.codec_tests.specs.DecoderEntries.{jis0208_entries, jis0212_entries};

/// A pair of jis0212 after 8F, a half-width katakana and a pair of jis0208. A bad pair puts an
/// ASCII byte back.
fn each_kind()
    ensures { places 9 0 (run (euc_jp jis0208_entries jis0212_entries) Idle (0x8F ∷ 0xA2 ∷ 0xAF ∷ 0x8E ∷ 0xB1 ∷ 0xA4 ∷ 0xA2 ∷ 0x8E ∷ 0x41 ∷ []))
        ≡ record { item = One 0x2D8; from = 0; to = 3 }
        ∷ record { item = One 0xFF71; from = 3; to = 5 }
        ∷ record { item = One 0x3042; from = 5; to = 7 }
        ∷ record { item = Error; from = 7; to = 8 }
        ∷ record { item = One 0x41; from = 8; to = 9 }
        ∷ [] }
{}

/// A bad pair clears the jis0212 flag: the same two bytes after it are a pair of jis0208.
fn bad_pair_clears_the_flag()
    ensures { places 8 0 (run (euc_jp jis0208_entries jis0212_entries) Idle (0x8F ∷ 0xA2 ∷ 0x41 ∷ 0xA2 ∷ 0xAF ∷ 0x8F ∷ 0xA4 ∷ 0xA2 ∷ []))
        ≡ record { item = Error; from = 0; to = 2 }
        ∷ record { item = One 0x41; from = 2; to = 3 }
        ∷ record { item = Error; from = 3; to = 5 }
        ∷ record { item = Error; from = 5; to = 8 }
        ∷ [] }
{}

/// A lead at the end.
fn lead_at_the_end()
    ensures { places 1 0 (run (euc_jp jis0208_entries jis0212_entries) Idle (0x8E ∷ []))
        ≡ record { item = Error; from = 0; to = 1 }
        ∷ [] }
{}

/// 8F and a lead at the end are one error.
fn jis0212_lead_at_the_end()
    ensures { places 2 0 (run (euc_jp jis0208_entries jis0212_entries) Idle (0x8F ∷ 0xA2 ∷ []))
        ≡ record { item = Error; from = 0; to = 2 }
        ∷ [] }
{}

/// 80, 8D, 90, A0 and FF aren't leads. A1 and DF after 8E are the ends of the half-width katakana,
/// and E0 is past them.
fn no_leads()
    ensures { places 11 0 (run (euc_jp jis0208_entries jis0212_entries) Idle (0x80 ∷ 0x8D ∷ 0x90 ∷ 0xA0 ∷ 0xFF ∷ 0x8E ∷ 0xA1 ∷ 0x8E ∷ 0xDF ∷ 0x8E ∷ 0xE0 ∷ []))
        ≡ record { item = Error; from = 0; to = 1 }
        ∷ record { item = Error; from = 1; to = 2 }
        ∷ record { item = Error; from = 2; to = 3 }
        ∷ record { item = Error; from = 3; to = 4 }
        ∷ record { item = Error; from = 4; to = 5 }
        ∷ record { item = One 0xFF61; from = 5; to = 7 }
        ∷ record { item = One 0xFF9F; from = 7; to = 9 }
        ∷ record { item = Error; from = 9; to = 11 }
        ∷ [] }
{}
