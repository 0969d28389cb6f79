//! The texts that are measured, as far as no index file is needed.

use codec::decode_whole;
use enc_names::{Bom, Encoding};
use index_loader::Indexes;
use oracle::texts::TEXTS;
use std::test::Fail;

/// The minutes in the encoding of this name, or no bytes without minutes.
fn minutes(name: &str) -> &'static [u8] {
    for texts in &TEXTS {
        if texts.name == name {
            return texts.ordinary;
        }
    }
    b""
}

#[test]
fn the_japanese_minutes_are_one_text(rt: HostRuntime) -> Result<(), Fail> {
    let indexes = Indexes::new();
    let eight = decode_whole(
        rt.alloc(),
        &indexes,
        Encoding::Utf8,
        Bom::Sniff,
        minutes("UTF-8"),
    )?;
    let sixteen = decode_whole(
        rt.alloc(),
        &indexes,
        Encoding::Utf16Le,
        Bom::Sniff,
        minutes("UTF-16LE"),
    )?;
    assert!(rt; eight.errors.is_empty() && sixteen.errors.is_empty());
    let lines = sixteen.text.replace(rt.alloc(), "\r\n", "\n")?;
    assert!(rt; lines.as_str() == eight.text.as_str() && !lines.is_empty());
    Ok(())
}

/// U+3400 in gb18030, which only its ranges have.
const OF_FOUR_BYTES: &[u8] = b"\x81\x39\xee\x39";

#[test]
fn the_chinese_minutes_differ_in_a_character_of_four_bytes(rt: HostRuntime) -> Result<(), Fail> {
    let with = minutes("gb18030");
    let mut without = Vec::new(rt.alloc());
    for byte in minutes("GBK") {
        if *byte != b'\r' {
            without.push(*byte)?;
        }
    }
    let at = with.windows(4).position(|four| four == OF_FOUR_BYTES);
    let Some((before, behind)) = at.and_then(|at| without.split_at_checked(at)) else {
        assert!(rt; false, "no such character");
        return Ok(());
    };
    assert!(rt; with.starts_with(before) && with.ends_with(behind));
    assert!(rt; with.len() == without.len() + OF_FOUR_BYTES.len());
    Ok(())
}
