//! The number of leading code points that fit within a number of units, by each width.

use super::{ALIGNMENTS, pair_width, utf16_width};
use lane_utf::{pairs_within, utf8_within, utf16_within};
use rand::rngs::SmallRng;
use rand::seq::IndexedRandom;
use rand::{RngExt, SeedableRng};
use std::ops::Fn;

/// The first and the last code point of each length in UTF-8.
const BORDERS: [char; 8] = [
    '\0',
    '\u{7F}',
    '\u{80}',
    '\u{7FF}',
    '\u{800}',
    '\u{FFFF}',
    '\u{10000}',
    '\u{10FFFF}',
];

/// The bytes of the longest text that is drawn.
const ROOM: usize = 300;

fn utf8_width(c: char) -> usize {
    c.len_utf8()
}

fn plain_within<F: Fn(char) -> usize>(text: &str, n: usize, width: F) -> usize
    requires { F.IsAlwaysCallable width }
{
    let mut left = n;
    let mut count: usize = 0;
    for c in text.chars() {
        let units = width(c);
        if units > left {
            return count;
        }
        left -= units;
        count = count.wrapping_add(1);
    }
    count
}

/// Whether each kernel counts as many as a plain loop.
fn front_agrees(text: &str, n: usize) -> bool {
    utf16_within(text, n) == plain_within(text, n, utf16_width)
        && pairs_within(text, n) == plain_within(text, n, pair_width)
        && utf8_within(text, n) == plain_within(text, n, utf8_width)
}

/// Fills a room with code points that look random, and returns their end. Of eight in a row about as
/// many are letters as is drawn first.
fn fill(rng: &mut SmallRng, room: &mut [u8]) -> usize {
    let letters = rng.random_range(0..=8usize);
    let mut end: usize = 0;
    for _ in 0..room.len() {
        let drawn = BORDERS.as_slice().choose(rng).copied().unwrap_or('a');
        let c = if rng.random_range(0..8usize) < letters {
            'a'
        } else {
            drawn
        };
        let mut buffer = [0; 4];
        let bytes = c.encode_utf8(&mut buffer).as_bytes();
        let next = end.wrapping_add(bytes.len());
        let Some(place) = room.get_mut(end..next) else {
            return end;
        };
        place.copy_from_slice(bytes);
        end = next;
    }
    end
}

/// Whether every front of a text agrees.
fn fronts_agree(bytes: &[u8]) -> bool {
    let Ok(text) = str::from_utf8(bytes) else {
        return false;
    };
    for n in 0..ROOM + 2 {
        if !front_agrees(text, n) {
            return false;
        }
    }
    front_agrees(text, usize::MAX)
}

/// Like `fronts_agree`, for a text that looks random.
fn drawn_agrees(rng: &mut SmallRng) -> bool {
    let mut room = [0; ALIGNMENTS + ROOM];
    let start = rng.random_range(0..ALIGNMENTS);
    let len = rng.random_range(0..=ROOM);
    let Some(part) = room.get_mut(start..start.wrapping_add(len)) else {
        return false;
    };
    let end = start.wrapping_add(fill(rng, part));
    match room.get(start..end) {
        Some(bytes) => fronts_agree(bytes),
        None => false,
    }
}

#[test]
fn fronts_of_texts_that_look_random(rt: HostRuntime) {
    let mut rng = SmallRng::seed_from_u64(5);
    for _ in 0..200 {
        assert!(rt; drawn_agrees(&mut rng));
    }
}

/// A letter, and characters of two, three and four bytes. The last is a pair of surrogates.
const ONE_OF_EACH: &str = "a\u{E9}\u{6F22}\u{1F600}";

#[test]
fn fronts_that_end_within(rt: HostRuntime) {
    for (n, utf16, pairs, utf8) in [
        (0, 0, 0, 0),
        (1, 1, 1, 1),
        (2, 2, 1, 1),
        (3, 3, 2, 2),
        (4, 3, 2, 2),
        (5, 4, 3, 2),
        (6, 4, 3, 3),
        (7, 4, 4, 3),
        (9, 4, 4, 3),
        (10, 4, 4, 4),
        (11, 4, 4, 4),
        (usize::MAX, 4, 4, 4),
    ] {
        assert!(rt; utf16_within(ONE_OF_EACH, n) == utf16);
        assert!(rt; pairs_within(ONE_OF_EACH, n) == pairs);
        assert!(rt; utf8_within(ONE_OF_EACH, n) == utf8);
    }
}

#[test]
fn fronts_of_no_text(rt: HostRuntime) {
    for n in [0, 1, usize::MAX] {
        assert!(rt; utf16_within("", n) == 0);
        assert!(rt; pairs_within("", n) == 0);
        assert!(rt; utf8_within("", n) == 0);
    }
}

/// Twenty of these in a row.
const TWENTY: &str = "\u{1F600}\u{1F600}\u{1F600}\u{1F600}\u{1F600}\u{1F600}\u{1F600}\u{1F600}\
    \u{1F600}\u{1F600}\u{1F600}\u{1F600}\u{1F600}\u{1F600}\u{1F600}\u{1F600}\u{1F600}\u{1F600}\
    \u{1F600}\u{1F600}";

#[test]
fn fronts_of_more_than_a_block(rt: HostRuntime) {
    for (n, pairs, utf8) in [
        (31, 15, 7),
        (32, 16, 8),
        (33, 16, 8),
        (39, 19, 9),
        (40, 20, 10),
        (41, 20, 10),
        (79, 20, 19),
        (80, 20, 20),
    ] {
        assert!(rt; utf16_within(TWENTY, n) == pairs);
        assert!(rt; pairs_within(TWENTY, n) == pairs);
        assert!(rt; utf8_within(TWENTY, n) == utf8);
    }
}
