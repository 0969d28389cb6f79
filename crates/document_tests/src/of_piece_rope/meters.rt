//! The bytes that a splice decodes, in documents of several pieces and if it is refused.

use super::scripts::{Opening, Step, play};
use super::*;

/// A letter is put into a mebibyte of letters at several places. They are the start, near it, the
/// middle and the end.
const ONE_BYTE_EACH: [Step; 6] = [
    Step::Few(0, 0, b"a", 8193),
    Step::Few(1, 0, b"a", 8193),
    Step::Few(524_288, 0, b"a", 8193),
    Step::Few(1_048_576, 0, b"a", 8193),
    Step::Scalars(1_048_580),
    Step::Sized,
];

#[test]
fn one_byte_into_a_mebibyte(rt: HostRuntime) -> Result<(), Fail> {
    let bytes = behind_letters(rt.alloc(), 1_048_576, &[])?;
    for bom in [Bom::Sniff, Bom::Keep] {
        let opening = Opening {
            given: Encoding::Utf8,
            bom,
            bytes: &bytes,
        };
        play(&rt, rt.alloc(), &opening, &ONE_BYTE_EACH)?;
    }
    Ok(())
}

/// A shift is put in front, and taken away again.
const SHIFT: [Step; 4] = [
    Step::Splice(0, 0, &[0x1B, 0x28, 0x4A]),
    Step::Text(5000, 5001, "\u{A5}"),
    Step::Few(0, 3, &[], 13_193),
    Step::Text(5000, 5001, "\\"),
];

#[test]
fn shift_taken_away_changes_all_behind_it(rt: HostRuntime) -> Result<(), Fail> {
    let bytes = behind_letters(rt.alloc(), 5000, &[0x5C])?;
    let opening = Opening {
        given: Encoding::Iso2022Jp,
        bom: Bom::Sniff,
        bytes: &bytes,
    };
    play(&rt, rt.alloc(), &opening, &SHIFT)?;
    Ok(())
}

/// A splice of a letter alone, far past its end.
const FAR_PAST_THE_END: [Step; 3] = [
    Step::Refused(u64::MAX, 1, &[]),
    Step::Bytes(1),
    Step::Text(0, 1, "a"),
];

#[test]
fn splice_far_past_the_end_decodes_nothing(rt: HostRuntime) -> Result<(), Fail> {
    let opening = Opening {
        given: Encoding::Utf8,
        bom: Bom::Sniff,
        bytes: b"a",
    };
    play(&rt, rt.alloc(), &opening, &FAR_PAST_THE_END)?;
    Ok(())
}

/// A byte is put between the units and removed again. It moves all units.
const REMEMBERED: [Step; 3] = [
    Step::Splice(4, 0, &[0x00]),
    Step::Few(4, 1, &[], 8192),
    Step::Text(32_766, 32_768, "AA"),
];

#[test]
fn remembered_states(rt: HostRuntime) -> Result<(), Fail> {
    let bytes = letters(rt.alloc(), 32_768)?;
    let opening = Opening {
        given: Encoding::Utf16Le,
        bom: Bom::Sniff,
        bytes: &bytes,
    };
    play(&rt, rt.alloc(), &opening, &REMEMBERED)?;
    Ok(())
}

/// A shift is put before errors and removed again. Each error is three bytes of text.
const WITHOUT_ROOM: [Step; 3] = [
    Step::Splice(0, 0, &[0x1B, 0x28, 0x4A]),
    Step::Many(0, 3, &[], 65_536),
    Step::AsOpened,
];

#[test]
fn states_without_room_are_forgotten(rt: HostRuntime) -> Result<(), Fail> {
    let mut bytes = Vec::new(rt.alloc());
    bytes.resize(65_536, 0x0E)?;
    let opening = Opening {
        given: Encoding::Iso2022Jp,
        bom: Bom::Sniff,
        bytes: &bytes,
    };
    play(&rt, rt.alloc(), &opening, &WITHOUT_ROOM)?;
    Ok(())
}

/// Letters are entered in four states one after the other. In the third each two are an error, and in
/// the fourth each. Three of them have room together and the first doesn't, in whichever of the three the
/// letters are entered.
const IN_FOUR_STATES: [Step; 7] = [
    Step::Splice(0, 0, &[0x1B, 0x28, 0x4A]),
    Step::Splice(0, 3, &[0x1B, 0x24, 0x42]),
    Step::Splice(0, 3, &[0x1B, 0x28, 0x49]),
    Step::Few(0, 3, &[0x1B, 0x28, 0x4A], 8192),
    Step::Few(0, 3, &[0x1B, 0x28, 0x49], 8192),
    Step::Many(0, 3, &[0x1B, 0x28, 0x42], 65_536),
    Step::Few(0, 3, &[0x1B, 0x28, 0x49], 8192),
];

#[test]
fn state_before_is_remembered(rt: HostRuntime) -> Result<(), Fail> {
    let bytes = behind_letters(rt.alloc(), 65_536, &[])?;
    let opening = Opening {
        given: Encoding::Iso2022Jp,
        bom: Bom::Sniff,
        bytes: &bytes,
    };
    play(&rt, rt.alloc(), &opening, &IN_FOUR_STATES)?;
    Ok(())
}
