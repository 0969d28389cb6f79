//! Worked examples, as equations over the definitions that computing them proves.
#![tactic(auto, unfolding(decoder_core::specs::Queue::run, decoder_core::specs::Queue::turns, decoder_core::specs::Queue::feed, decoder_core::specs::Queue::feed_for, codec::specs::Decode::decode, codec::specs::Behind::state_behind, index_loader::specs::Kinds::slot_of))]

ghost use Rattle.std.specs.Prelude.{◌≡◌, ℕ, List, [], ◌∷◌, length};
ghost use Rattle.enc_names.specs.declared.bom.Bom.TheVariants.{Sniff, Keep};
ghost use Rattle.enc_names.specs.declared.encoding.Encoding.TheVariants.{Utf8, Replacement, Utf16Be, Utf16Le, Windows1252};
ghost use Rattle.enc_names.specs.{declared.encoding.Encoding.Encoding, Settings.setting_of};
ghost use Rattle.index_loader.specs.Files.{Files, no_files, with_index};
ghost use Rattle.decoder_core.specs.declared.item.Item.TheVariants.{One, Error};
ghost use Rattle.decoder_core.specs.{Placed.places, Utf8.utf8_start, Utf16.utf16_start};
ghost use Rattle.codec.specs.declared.prefix.Prefix.TheVariants.{Nothing, EfBb};
ghost use Rattle.codec.specs.declared.state.AnyState.TheVariants.{Sniffing, Utf8 as in_utf8, Utf16Be as in_utf16_be};
ghost use Rattle.codec.specs.{Behind.state_behind, Behind.state_in, Decode.decode, Decode.run_in};
ghost use Rattle.codec_tests.specs.DecoderEntries.{windows_1252};

/// A mark makes its encoding effective, and isn't part of the text.
fn marks()
    ensures utf16_be { decode no_files (setting_of Utf16Le Sniff) (0xFE ∷ 0xFF ∷ 0x00 ∷ 0x41 ∷ [])
        ≡ record { encoding = Utf16Be; bom = 2; items = record { item = One 0x41; from = 2; to = 4 } ∷ [] } }
    ensures utf8 { decode no_files (setting_of Replacement Sniff) (0xEF ∷ 0xBB ∷ 0xBF ∷ 0x41 ∷ [])
        ≡ record { encoding = Utf8; bom = 3; items = record { item = One 0x41; from = 3; to = 4 } ∷ [] } }
    ensures utf16_le { decode no_files (setting_of Utf8 Sniff) (0xFF ∷ 0xFE ∷ []) ≡ record { encoding = Utf16Le; bom = 2; items = [] } }
{}

/// The beginning of a mark isn't a mark.
fn half_a_mark()
    ensures { decode no_files (setting_of Utf8 Sniff) (0xEF ∷ 0xBB ∷ [])
        ≡ record { encoding = Utf8; bom = 0; items = record { item = Error; from = 0; to = 2 } ∷ [] } }
{}

/// A mark that is kept is text, or what its bytes are in the encoding.
fn kept_marks()
    ensures utf8 { decode no_files (setting_of Utf8 Keep) (0xEF ∷ 0xBB ∷ 0xBF ∷ 0x41 ∷ [])
        ≡ record { encoding = Utf8; bom = 0; items = record { item = One 0xFEFF; from = 0; to = 3 } ∷ record { item = One 0x41; from = 3; to = 4 } ∷ [] } }
    ensures utf16_le { decode no_files (setting_of Utf16Le Keep) (0xFF ∷ 0xFE ∷ [])
        ≡ record { encoding = Utf16Le; bom = 0; items = record { item = One 0xFEFF; from = 0; to = 2 } ∷ [] } }
    ensures windows_1252 { decode (with_index no_files windows_1252) (setting_of Windows1252 Keep) (0xEF ∷ 0xBB ∷ 0xBF ∷ [])
        ≡ record {
          encoding = Windows1252;
          bom = 0;
          items = record { item = Error; from = 0; to = 1 } ∷ record { item = One 0xBB; from = 1; to = 2 }
              ∷ record { item = One 0xBF; from = 2; to = 3 } ∷ [];
        } }
{}

/// Any bytes give the run of the declared encoding if marks are kept. The run begins with the first
/// byte, and the state after it is that of the encoding's own decoder.
fn keeping()
    ensures decode { (files : Files) (given : Encoding) (bytes : List ℕ)
        → decode files (setting_of given Keep) bytes ≡ record { encoding = given; bom = 0; items = places (length bytes) 0 (run_in files given bytes) } }
    ensures state { (files : Files) (given : Encoding) (bytes : List ℕ) → state_behind files (setting_of given Keep) bytes ≡ state_in files given bytes }
{}

/// The bytes themselves while they may become a mark, then the effective encoding's state.
fn states_behind_bytes()
    ensures none { state_behind no_files (setting_of Utf8 Sniff) [] ≡ Sniffing Nothing }
    ensures half { state_behind no_files (setting_of Utf16Be Sniff) (0xEF ∷ 0xBB ∷ []) ≡ Sniffing EfBb }
    ensures mark { state_behind no_files (setting_of Utf16Be Sniff) (0xEF ∷ 0xBB ∷ 0xBF ∷ []) ≡ in_utf8 utf8_start }
    ensures text { state_behind no_files (setting_of Utf8 Sniff) (0x41 ∷ []) ≡ in_utf8 utf8_start }
    ensures another { state_behind no_files (setting_of Utf8 Sniff) (0xFE ∷ 0xFF ∷ []) ≡ in_utf16_be utf16_start }
{}
