//! The digits of numbers most of which are near the one before.

use crate::reply_line::short_text::{CAPACITY, ShortText};
use itoa::write_digits;
use std::marker::Model;

/// The most digits of a number.
const PLACES: usize = 20;

/// Room for `PLACES` bytes after any digit, so that as many bytes can be copied.
const ROOM: usize = 40;

/// The digits of a number. Contracts see them.
#[derive(Drop)]
pub(crate) struct Digits {
    /// The text, which ends at `PLACES`.
    text: [u8; ROOM],
    /// The offset at which they begin.
    begin: usize,
    /// The number that has zeros for the last four of these digits; the greatest one if there are no four, so that none is near.
    base: u64,
}

impl Model for Digits {
    ghost use Rattle.std.specs.Prelude.{ℕ, List, take, drop};
    ghost use Rattle.line_protocol.specs.Writing.{IsFront};

    ghost Value = { List ℕ };

    ghost view = { λ d. drop d.begin (take 20 d.text) };

    ghost invariant = { λ d. IsFront d.base d.begin d.text };
}

impl Digits {
    ghost use Rattle.std.specs.Prelude.{◌≡◌, ◌≤◌, ◌+◌, ◌++◌, length};
    ghost use Rattle.std.specs.Fmt.{decimal};
    ghost use Rattle.line_protocol.specs.Writing.{number_room};

    /// The digits of a number.
    // In the loop over the entries of a list.
    #[inline(always)]
    pub(crate) fn of(number: u64) -> Digits
        ensures { result ≡ decimal number }
    {
        let mut text = [0; ROOM];
        let begin = write_digits(number, &mut text, PLACES);
        let base = if number < 1_000 {
            u64::MAX
        } else {
            number - number % 10_000
        };
        Digits { text, begin, base }
    }

    /// Replaces the digits by those of another number. If the two numbers are close, only the last
    /// four digits change.
    // In the loop over the entries of a list.
    #[inline(always)]
    pub(crate) fn write(&mut self, number: u64)
        ensures { self.new ≡ decimal number }
    {
        if number >= self.base {
            let low = number - self.base;
            if low >= 1_000 && low < 10_000 {
                write_digits(low, &mut self.text, PLACES);
                return;
            }
        }
        self.write_all(number);
    }

    /// The digits of another number, in place of these.
    // Seldom: what is left in the loop over the entries is small.
    #[inline(never)]
    fn write_all(&mut self, number: u64)
        ensures { self.new ≡ decimal number }
    {
        *self = Digits::of(number);
    }

    /// Replaces the digits of the first number by those of a second. If the two numbers are close, only the
    /// last digit changes.
    // In the loop over the entries of a list.
    #[inline(always)]
    pub(crate) fn go_on(&mut self, first: u64, second: u64)
        requires { self.old ≡ decimal first }
        ensures { self.new ≡ decimal second }
    {
        if second >= first && second - first <= (b'9' - self.text[PLACES - 1]) as u64 {
            self.text[PLACES - 1] += (second - first) as u8;
        } else {
            self.write(second);
        }
    }

    /// Appends the digits.
    // In the loop over the entries of a list.
    #[inline(always)]
    pub(crate) fn put(&self, line: &mut ShortText)
        requires { length line.old + number_room ≤ CAPACITY }
        ensures text { line.new ≡ line.old ++ self.now }
        ensures room { length line.new ≤ length line.old + number_room }
    {
        let end = self.begin + PLACES;
        if let Some(digits) = self.text[self.begin..end].as_array::<PLACES>() {
            line.extend_first(digits, PLACES - self.begin);
        }
    }
}
