//! Worked examples, as equations over the definitions that computing them proves.
#![tactic(auto, unfolding(crate::proofs::Computing::of_references))]

ghost use Rattle.std.specs.Prelude.{◌≡◌, [], ◌∷◌, None, Ok, Some, Err, false, true};
ghost use Rattle.decoder_core.specs.declared.utf16.ByteOrder.TheVariants.{BigEndian};
ghost use Rattle.codec_tests.specs.EncoderEntries.{big5_twice, entry_of, gb18030, gb18030_ranges, jis0208};
ghost use Rattle.codec_tests.specs.EncoderEntries.{jis0208_duplicate_alone, jis0208_duplicates, private_use_reference};
ghost use Rattle.index_loader.specs.declared.kind.PairEncoding.TheVariants.{EucKr};
ghost use Rattle.encoders.specs.{EucJp.euc_jp_bytes, Examples.big5, Gb18030.gb18030_bytes};
ghost use Rattle.encoders.specs.Pairs.{Big5.big5_bytes, ShiftJis.shift_jis_bytes, writing_of};
ghost use Rattle.encoders.specs.{SingleByte.x_user_defined_bytes, Stateless.stateless, Steps.encoded_from, Utf16.utf16_bytes};

/// The minus sign is taken as the full-width one, and a letter by its pointer.
fn shift_jis()
    ensures minus { shift_jis_bytes jis0208 0x2212 ≡ Some (0x81 ∷ 0x7C ∷ []) }
    ensures hiragana { shift_jis_bytes jis0208 0x3042 ≡ Some (0x82 ∷ 0xA0 ∷ []) }
    ensures katakana { shift_jis_bytes jis0208 0xFF71 ≡ Some (0xB1 ∷ []) }
{}

/// A duplicate is skipped in Shift_JIS, and alone it isn't a duplicate; EUC-JP has it.
fn shift_jis_duplicates()
    ensures passed_over { shift_jis_bytes jis0208_duplicates 0x2170 ≡ Some (0xFA ∷ 0x54 ∷ []) }
    ensures alone { encoded_from (stateless (shift_jis_bytes jis0208_duplicate_alone)) false 0 tt (0x2170 ∷ [])
        ≡ Err (record { index = 0; code_point = 0x2170 }) }
    ensures euc_jp { euc_jp_bytes jis0208_duplicates 0x2170 ≡ Some (0xF9 ∷ 0xA1 ∷ []) }
{}

/// A letter, and a half-width katakana.
fn euc_jp()
    ensures letter { euc_jp_bytes jis0208 0x4E9C ≡ Some (0xB0 ∷ 0xA1 ∷ []) }
    ensures katakana { euc_jp_bytes jis0208 0xFF71 ≡ Some (0x8E ∷ 0xB1 ∷ []) }
{}

/// A letter in each.
fn korean_and_chinese()
    ensures korean { (writing_of EucKr).bytes (entry_of EucKr 9026 0xAC00) 0xAC00 ≡ Some (0xB0 ∷ 0xA1 ∷ []) }
    ensures chinese { big5_bytes big5 0x4E00 ≡ Some (0xA4 ∷ 0x40 ∷ []) }
{}

/// Six code points take their last pointer, all others the first after the supplement's.
fn big5_pointers()
    ensures last { big5_bytes big5_twice 0x5341 ≡ Some (0xA4 ∷ 0x51 ∷ []) }
    ensures first { big5_bytes big5_twice 0x5140 ≡ Some (0xA2 ∷ 0xCD ∷ []) }
{}

/// Code points are encoded by the index and by the ranges; U+E5E5 has no bytes.
fn gb18030_encoder()
    ensures pair { gb18030_bytes false [] gb18030 gb18030_ranges 0x554A ≡ Some (0xB0 ∷ 0xA1 ∷ []) }
    ensures euro { gb18030_bytes false [] gb18030 gb18030_ranges 0x20AC ≡ Some (0x81 ∷ 0x36 ∷ 0xC4 ∷ 0x36 ∷ []) }
    ensures private_use { gb18030_bytes false [] gb18030 gb18030_ranges 0xE7C7 ≡ Some (0x81 ∷ 0x35 ∷ 0xF4 ∷ 0x37 ∷ []) }
    ensures none { gb18030_bytes false [] gb18030 gb18030_ranges 0xE5E5 ≡ None }
{}

/// GBK has a byte for U+20AC and no four bytes.
fn gbk_encoder()
    ensures euro { gb18030_bytes true [] gb18030 gb18030_ranges 0x20AC ≡ Some (0x80 ∷ []) }
    ensures html { encoded_from (stateless (gb18030_bytes true [] gb18030 gb18030_ranges)) true 0 tt (0xE7C7 ∷ [])
        ≡ Ok (record { bytes = private_use_reference; state = tt }) }
{}

/// The ends of the private use area of x-user-defined, and a surrogate pair.
fn without_an_index()
    ensures first { x_user_defined_bytes 0xF780 ≡ Some (0x80 ∷ []) }
    ensures last { x_user_defined_bytes 0xF7FF ≡ Some (0xFF ∷ []) }
    ensures behind { x_user_defined_bytes 0xF800 ≡ None }
    ensures utf_16 { utf16_bytes BigEndian 0x1F600 ≡ Some (0xD8 ∷ 0x3D ∷ 0xDE ∷ 0x00 ∷ []) }
{}
