//! The items of an outcome, over small indexes: their runs, their places, and the memory that they
//! take.

use super::*;

/// Whether the outcome has this shape.
pub fn is_shaped(here: &Outcome, shape: Shape<'_>) -> bool {
    match shape {
        Shape::OneRun(last) => is_one_run(here, last),
        Shape::Ends(ends) => has_ends(here, ends),
        Shape::Turns(first, second, count) => are_turns(here, first, second, count),
        Shape::Memory(bytes) => here.memory() == bytes,
        Shape::TwoCodePoints => are_before(here) && are_items(here),
        Shape::Yen => is_yen(here),
    }
}

/// Whether the items are one run, the last of which is this.
fn is_one_run(outcome: &Outcome, last: Ended) -> bool {
    has_runs(outcome, 1)
        && outcome.items().last() == Some(last)
        && outcome.items().get(outcome.sum().scalars as u64).is_none()
}

/// Whether the bytes of ASCII letters are these in the encoding.
fn has_letters(encoding: Encoding) -> bool {
    !matches!(
        encoding,
        Encoding::Utf16Be | Encoding::Utf16Le | Encoding::Replacement
    )
}

#[test]
fn letters_are_one_run(rt: HostRuntime) -> Result<(), Fail> {
    let last = Shape::OneRun(one(2048, false, OutputState::Ascii));
    for (encoding, _, _) in &FAMILIES {
        if has_letters(*encoding) {
            has_shape_behind_two(&rt, rt.alloc(), *encoding, &[0x61; 2048], last)?;
        }
    }
    // The units 6161 of UTF-16.
    has_shape_behind_two(&rt, rt.alloc(), Encoding::Utf16Le, &[0x61; 2048], last)
}

/// Whether the items are code points that end at `ends`. Each must be found by its number, by its code point and by its
/// end, and in the runs.
fn has_ends(here: &Outcome, ends: &[i64]) -> bool {
    for (k, end) in ends.iter().enumerate() {
        if !ends_at(here, k as u64, *end) || !is_found(here, k as u64, *end) {
            return false;
        }
    }
    let count = ends.len() as u64;
    here.items().get(count).is_none() && here.item_of(count).is_none() && end_in_runs(here, ends)
}

/// Whether both find the item of this number. It is one code point that ends at `end`.
fn is_found(here: &Outcome, k: u64, end: i64) -> bool {
    here.item_of(k) == Some(k)
        && here.scalars_before(end) == k.saturating_add(1)
        && here.scalars_before(end.saturating_sub(1)) == k
}

/// Whether the items of the runs end at `ends`.
fn end_in_runs(here: &Outcome, ends: &[i64]) -> bool {
    let mut runs = here.items().runs();
    let mut passed = 0_u64;
    for end in ends {
        let Some(run) = runs.first() else {
            return false;
        };
        if !run.item(passed).is_some_and(|item| item.end == *end) {
            return false;
        }
        passed = passed.saturating_add(1);
        if passed == run.count() {
            runs.advance();
            passed = 0;
        }
    }
    runs.first().is_none()
}

/// Whether the items are `count` runs.
fn has_runs(here: &Outcome, count: usize) -> bool {
    let mut runs = here.items().runs();
    for _ in 0..count {
        if runs.first().is_none() {
            return false;
        }
        runs.advance();
    }
    runs.first().is_none()
}

/// Whether the item of this number is a code point that ends there.
fn ends_at(here: &Outcome, k: u64, end: i64) -> bool {
    here.items().get(k) == Some(one(end, false, OutputState::Ascii))
}

#[test]
fn code_points_of_several_widths(rt: HostRuntime) -> Result<(), Fail> {
    let cases: [(Encoding, &[u8], &[i64]); 5] = [
        (
            Encoding::ShiftJis,
            b"ab\x82\xA0\x88\x9F\x82\xA0cde",
            &[1, 2, 4, 6, 8, 9, 10, 11],
        ),
        // A letter of one byte that isn't ASCII is among pairs.
        (
            Encoding::ShiftJis,
            b"\x82\xA0ab\x82\xA0\xB1\x88\x9Fc",
            &[2, 3, 4, 6, 7, 9, 10],
        ),
        (
            Encoding::Utf8,
            "ab\u{E9}\u{E9}\u{20AC}\u{20AC}\u{1F600}\u{1F600}\u{20AC}\u{20AC}cd".as_bytes(),
            &[1, 2, 4, 6, 9, 12, 16, 20, 23, 26, 27, 28],
        ),
        (
            Encoding::Utf16Le,
            b"A\0B\0\x3D\xD8\0\xDE\x3D\xD8\0\xDEC\0D\0",
            &[2, 4, 8, 12, 14, 16],
        ),
        (
            Encoding::Windows1252,
            b"abcdefghijklmnop\x80\x80\x80abcdefghijklmnop",
            &[
                1, 2, 3, 4, 5, 6, 7, 8, 9, 10, 11, 12, 13, 14, 15, 16, 17, 18, 19, 20, 21, 22, 23,
                24, 25, 26, 27, 28, 29, 30, 31, 32, 33, 34, 35,
            ],
        ),
    ];
    for (encoding, bytes, ends) in cases.iter() {
        has_shape_behind_two(&rt, rt.alloc(), *encoding, bytes, Shape::Ends(ends))?;
    }
    Ok(())
}

/// One of two items that take turns.
#[derive(Clone, Copy)]
pub struct Turn {
    /// The distance of its end from the end of the one before it, in bytes.
    width: i64,
    /// The number of its code points.
    scalars: u8,
    /// Whether it is an error.
    error: bool,
}

/// A code point of one byte.
const LETTER: Turn = Turn {
    width: 1,
    scalars: 1,
    error: false,
};

/// Two code points of two bytes.
const TWO: Turn = Turn {
    width: 2,
    scalars: 2,
    error: false,
};

/// An error of one byte.
const ERROR: Turn = Turn {
    width: 1,
    scalars: 1,
    error: true,
};

/// Whether the items are these two in turn, `count` together. Each must be found by its number, by its code
/// points and by its end. They must take no more memory than a byte each and six for each shape of a run.
/// There are two shapes, and that of the first.
fn are_turns(here: &Outcome, first: Turn, second: Turn, count: u64) -> bool {
    let (mut end, mut scalars, mut errors) = (0_i64, 0_u64, 0_u64);
    for k in 0..count {
        let turn = if k % 2 == 0 { first } else { second };
        end = end.saturating_add(turn.width);
        let item = Ended {
            scalars: turn.scalars,
            end,
            error: turn.error,
            output: OutputState::Ascii,
        };
        if here.items().get(k) != Some(item) || here.item_of(scalars) != Some(k) {
            return false;
        }
        scalars = scalars.saturating_add(u64::from(turn.scalars));
        errors = errors.saturating_add(u64::from(turn.error));
        if here.scalars_before(end) != scalars {
            return false;
        }
    }
    let text = here.sum().utf8 as u64;
    let most = text.saturating_add(count).saturating_add(18);
    here.sum().errors as u64 == errors
        && here.items().get(count).is_none()
        && here.item_of(scalars).is_none()
        && here.memory() <= most
}

/// The number of times that the two items are in a piece. It is so large that they are kept by the
/// shapes of their runs.
const TURNS: usize = 256;

#[test]
fn items_in_turn(rt: HostRuntime) -> Result<(), Fail> {
    let cases: [(Encoding, &[u8], Turn, Turn); 4] = [
        (Encoding::Utf8, b"\xFFa", ERROR, LETTER),
        (Encoding::Windows1252, b"ab", LETTER, LETTER),
        (Encoding::ShiftJis, b"\x81 ", ERROR, LETTER),
        (Encoding::Big5, b"\x88b\xFF", TWO, ERROR),
    ];
    for (encoding, bytes, first, second) in cases.iter() {
        let all = bytes.repeat(rt.alloc(), TURNS)?;
        let shape = Shape::Turns(*first, *second, 2 * TURNS as u64);
        let trial = Trial::Behind(b"", all.as_slice(), shape);
        is_tried(&rt, rt.alloc(), *encoding, trial)?;
    }
    Ok(())
}

/// Words of four pairs and a half-width katakana, two runs each. The text of a whole piece takes sixteen bytes for ten,
/// and they are kept by shapes. In half a piece they are kept as runs, of six bytes each.
#[test]
fn memory_of_words(rt: HostRuntime) -> Result<(), Fail> {
    for (words, memory) in [
        (204, 204 * 16 + 2 * 204 + 18),
        (102, 102 * 16 + 6 * 2 * 102),
    ] {
        let bytes = b"\x82\xA0\x82\xA0\x82\xA0\x82\xA0\xB1 ".repeat(rt.alloc(), words)?;
        let trial = Trial::Behind(b"", bytes.as_slice(), Shape::Memory(memory));
        is_tried(&rt, rt.alloc(), Encoding::ShiftJis, trial)?;
    }
    Ok(())
}

/// Whether the right code points end before each place. The bytes are a pair that is two code
/// points, and a letter.
fn are_before(here: &Outcome) -> bool {
    here.scalars_before(1) == 0
        && here.scalars_before(2) == 2
        && here.scalars_before(3) == 3
        && here.scalars_before(-1) == 0
}

/// The items of their code points.
fn are_items(here: &Outcome) -> bool {
    here.item_of(0) == Some(0)
        && here.item_of(1) == Some(0)
        && here.item_of(2) == Some(1)
        && here.item_of(3).is_none()
}

#[test]
fn items_of_two_code_points(rt: HostRuntime) -> Result<(), Fail> {
    let trial = Trial::Behind(b"", b"\x88\x62A", Shape::TwoCodePoints);
    is_tried(&rt, rt.alloc(), Encoding::Big5, trial)
}

/// A yen sign after an escape.
fn is_yen(here: &Outcome) -> bool {
    here.text().as_str() == "\u{A5}"
        && here.items().last() == Some(one(4, false, OutputState::Roman))
        && here.exit().output() == OutputState::Roman
}

#[test]
fn output_state_behind_an_escape(rt: HostRuntime) -> Result<(), Fail> {
    let trial = Trial::Behind(b"", b"\x1B(J\\", Shape::Yen);
    is_tried(&rt, rt.alloc(), Encoding::Iso2022Jp, trial)
}
