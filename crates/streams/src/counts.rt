//! Numbers of a text that comes in parts.
ghost use Rattle.std.specs.Prelude.{◌≡◌, ◌+◌, ◌<◌, ◌∷◌, [], IfOk};
ghost use Rattle.std.specs.Str.{chars};
ghost use Rattle.lane_ascii.specs.Marks.{marks};
ghost use Rattle.decoder_core.specs.Text.{item_code_points};
ghost use Rattle.streams.specs.Counting.{column_on, count_of, counted, no_counts, pairs};

use decoder_core::{Item, OutOfMemory};
use lane_ascii::lead_of;
use lane_utf::{count_scalars, law_leads};
use state_memo::{count_marks, ends_cr};
use std::alloc::AllocError;

/// The numbers of a text so far.
#[derive(Clone, Copy, PartialEq, Eq, Debug)]
pub(crate) struct Counts {
    /// Its code points.
    pub(crate) characters: u64,
    /// Its line ends: CR LF, CR and LF.
    pub(crate) lines: u64,
    /// Its CRs.
    pub(crate) crs: u64,
    /// Its CRs that an LF follows.
    pub(crate) pairs: u64,
    /// Its code points after the last CR or LF.
    pub(crate) column: u64,
    /// Whether its last code point is a CR.
    pub(crate) after_cr: bool,
}

impl Counts {
    /// Those of no text.
    pub(crate) fn none() -> Counts
        ensures { result ≡ no_counts }
    {
        Counts {
            characters: 0,
            lines: 0,
            crs: 0,
            pairs: 0,
            column: 0,
            after_cr: false,
        }
    }

    /// Those with more text.
    pub(crate) fn with(self, text: &str) -> Result<Counts, OutOfMemory>
        ensures { IfOk result (λ c. c ≡ counted self (chars text.now)) }
    {
        let scalars = count_scalars(text) as u64;
        let lines = count_marks(text, self.after_cr);
        let crs = count_of(text, b'\r');
        let pairs = pairs_in(text, self.after_cr, lines, crs);
        let column = if lines == 0 && pairs == 0 {
            more(self.column, scalars)?
        } else {
            column_after(text, self.column)?
        };
        Ok(Counts {
            characters: more(self.characters, scalars)?,
            lines: more(self.lines, lines)?,
            crs: more(self.crs, crs)?,
            pairs: more(self.pairs, pairs)?,
            column,
            after_cr: ends_cr(text, self.after_cr),
        })
    }

    /// Those with an item.
    pub(crate) fn with_item(self, item: Item) -> Result<Counts, OutOfMemory>
        ensures { IfOk result (λ c. c ≡ counted self (item_code_points item)) }
    {
        match item {
            Item::One(c) => self.with_char(c.to_char()),
            Item::Two(first, second) => {
                let one = self.with_char(first.to_char())?;
                one.with_char(second.to_char())
            }
            Item::Error => self.with_char(char::REPLACEMENT_CHARACTER),
        }
    }

    /// Those with a code point.
    fn with_char(self, c: char) -> Result<Counts, OutOfMemory>
        ensures { IfOk result (λ n. n ≡ counted self (c ∷ [])) }
    {
        let mut form = [0; 4];
        self.with(c.encode_utf8(&mut form))
    }
}

/// The sum of two counts. One that doesn't fit is refused; no stream that is read is so long.
pub(crate) fn more(count: u64, by: u64) -> Result<u64, OutOfMemory>
    ensures { IfOk result (λ n. n ≡ count + by) }
{
    match count.checked_add(by) {
        Some(sum) => Ok(sum),
        None => Err(AllocError),
    }
}

/// The number of CRs that an LF follows in a text with these line ends and CRs. The first LF follows a CR
/// before it if `after_cr` says so.
fn pairs_in(text: &str, after_cr: bool, lines: u64, crs: u64) -> u64
    requires lines { lines ≡ marks after_cr (chars text.now) }
    requires crs { crs ≡ count_of 0x0D (chars text.now) }
    ensures { result ≡ pairs after_cr (chars text.now) }
{
    if crs == 0 && !after_cr {
        return 0;
    }
    // (a line end that isn't a CR is an LF that follows none)
    count_of(text, b'\n').saturating_sub(lines.saturating_sub(crs))
}

/// How often an ASCII code point is in a text.
fn count_of(text: &str, byte: u8) -> u64
    requires { byte < 0x80 }
    ensures { result ≡ count_of byte (chars text.now) }
{
    let mut count = 0;
    'bytes: for found in text.as_bytes() {
        count += u64::from(*found == byte);
    }
    count
}

/// The number of code points after the last CR or LF of a text, which follows `column` others on their
/// line.
fn column_after(text: &str, column: u64) -> Result<u64, OutOfMemory>
    ensures { IfOk result (λ n. n ≡ column_on column (chars text.now)) }
{
    law_leads();
    let bytes = text.as_bytes();
    let mut at = bytes.len();
    let mut count = 0;
    'back: while at > 0 {
        let byte = bytes[at - 1];
        if byte == b'\r' || byte == b'\n' {
            return Ok(count);
        }
        count += lead_of(byte) as u64;
        at -= 1;
    }
    more(column, count)
}
