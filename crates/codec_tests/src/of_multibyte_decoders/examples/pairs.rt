//! Single bytes and pairs.
#![tactic(auto, unfolding(decoder_core::specs::Queue::run, decoder_core::specs::Queue::turns))]

ghost use Rattle.std.specs.Prelude.{◌≡◌, [], ◌∷◌};
ghost use Rattle.decoder_core.specs.declared.item.Item.TheVariants.{One, Two, Error};
ghost use Rattle.index_loader.specs.declared.kind.PairEncoding.TheVariants.{Big5, EucKr, ShiftJis};
ghost use Rattle.codec_tests.specs.EncoderEntries.{entry_of, jis0208};
ghost use Rattle.codec_tests.specs.PairExamples.{decoded, item_at};
ghost use Rattle.encoders.specs.Examples.{big5};

/// Shift_JIS has single bytes, pairs and private use. The bytes are a pair, a half-width katakana, 80,
/// a private use pointer, a bad trail that is an ASCII byte, and a lead at the end. The private use
/// range ends at F0 40 and F9 FC; EF FC and FA 40 are outside it. A0, FD, FE and FF aren't leads. A1
/// and DF are the ends of the half-width katakana.
fn shift_jis()
    ensures each_kind { decoded ShiftJis jis0208 (0x82 ∷ 0xA0 ∷ 0xB1 ∷ 0x80 ∷ 0xF0 ∷ 0x40 ∷ 0x81 ∷ 0x2F ∷ [])
        ≡ item_at 0 (One 0x3042) 2 ∷ item_at 2 (One 0xFF71) 3 ∷ item_at 3 (One 0x80) 4 ∷ item_at 4 (One 0xE000) 6 ∷ item_at 6 Error 7
        ∷ item_at 7 (One 0x2F) 8 ∷ [] }
    ensures lead_at_the_end { decoded ShiftJis jis0208 (0x81 ∷ []) ≡ item_at 0 Error 1 ∷ [] }
    ensures private_use_ends { decoded ShiftJis jis0208 (0xF0 ∷ 0x40 ∷ 0xF9 ∷ 0xFC ∷ 0xEF ∷ 0xFC ∷ 0xFA ∷ 0x40 ∷ [])
        ≡ item_at 0 (One 0xE000) 2 ∷ item_at 2 (One 0xE757) 4 ∷ item_at 4 Error 6 ∷ item_at 6 Error 7 ∷ item_at 7 (One 0x40) 8 ∷ [] }
    ensures no_leads { decoded ShiftJis jis0208 (0xA0 ∷ 0xFD ∷ 0xFE ∷ 0xFF ∷ 0xA1 ∷ 0xDF ∷ [])
        ≡ item_at 0 Error 1 ∷ item_at 1 Error 2 ∷ item_at 2 Error 3 ∷ item_at 3 Error 4 ∷ item_at 4 (One 0xFF61) 5 ∷ item_at 5 (One 0xFF9F) 6 ∷ [] }
{}

/// A pair, a bad pair that puts an ASCII byte back, and FF. 80 isn't a lead, FF isn't a trail, and 81
/// and FE are the ends of the leads.
fn euc_kr()
    ensures each_kind { decoded EucKr (entry_of EucKr 9026 0xAC00) (0xB0 ∷ 0xA1 ∷ 0xB0 ∷ 0x41 ∷ 0xFF ∷ [])
        ≡ item_at 0 (One 0xAC00) 2 ∷ item_at 2 Error 3 ∷ item_at 3 (One 0x41) 4 ∷ item_at 4 Error 5 ∷ [] }
    ensures ends_of_the_leads { decoded EucKr (entry_of EucKr 9026 0xAC00) (0x80 ∷ 0x81 ∷ 0xFF ∷ 0xFE ∷ 0xFF ∷ 0xFE ∷ [])
        ≡ item_at 0 Error 1 ∷ item_at 1 Error 3 ∷ item_at 3 Error 5 ∷ item_at 5 Error 6 ∷ [] }
{}

/// The four pairs of two code points. A pair, a bad pair that puts an ASCII byte back, one that
/// doesn't, and a lead at the end. 80 and FF aren't leads; 7F after a lead is an ASCII byte.
fn big5()
    ensures two_code_points { decoded Big5 big5 (0x88 ∷ 0x62 ∷ 0x88 ∷ 0x64 ∷ 0x88 ∷ 0xA3 ∷ 0x88 ∷ 0xA5 ∷ [])
        ≡ item_at 0 (Two 0xCA 0x304) 2 ∷ item_at 2 (Two 0xCA 0x30C) 4 ∷ item_at 4 (Two 0xEA 0x304) 6 ∷ item_at 6 (Two 0xEA 0x30C) 8 ∷ [] }
    ensures each_kind { decoded Big5 big5 (0xA4 ∷ 0x40 ∷ 0xA4 ∷ 0x3F ∷ 0xA4 ∷ 0xA0 ∷ 0xA4 ∷ [])
        ≡ item_at 0 (One 0x4E00) 2 ∷ item_at 2 Error 3 ∷ item_at 3 (One 0x3F) 4 ∷ item_at 4 Error 6 ∷ item_at 6 Error 7 ∷ [] }
    ensures no_leads { decoded Big5 big5 (0x80 ∷ 0xFF ∷ 0x81 ∷ 0x7F ∷ [])
        ≡ item_at 0 Error 1 ∷ item_at 1 Error 2 ∷ item_at 2 Error 3 ∷ item_at 3 (One 0x7F) 4 ∷ [] }
{}
