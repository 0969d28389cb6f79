//! How far a conversion has come, for the places and lines of its faults.

use crate::conversion::Spot;
use codec::{Sniffed, sniff};
use enc_names::{Encoding, Place, Setting};
use lane_ascii::count_line_ends;

/// How many bytes begin a stream that may be a byte order mark.
const HEAD: usize = 3;

/// How far a conversion has come: the bytes before the part that is decoded now, where the last item
/// ended, and the line ends of the text before.
#[derive(Clone, Copy, PartialEq, Eq, Debug)]
pub(crate) struct Reached {
    setting: Setting,
    in_force: Encoding,
    bytes: u64,
    end: u64,
    lines: u64,
    after_cr: bool,
    head: [u8; 3],
}

impl Reached {
    /// The start of a stream.
    pub(crate) fn new(setting: Setting) -> Reached {
        Reached {
            setting,
            in_force: setting.given,
            bytes: 0,
            end: 0,
            lines: 0,
            after_cr: false,
            head: [0; 3],
        }
    }

    /// Notes the first bytes of the stream, which tell the length of its byte order mark.
    pub(crate) fn begin_part(&mut self, part: &[u8]) {
        if self.bytes >= HEAD as u64 {
            return;
        }
        let at = self.bytes as usize;
        let count = part.len().min(HEAD - at);
        self.head[at..at + count].copy_from_slice(&part[..count]);
        // The first item begins after the mark, in which none ends.
        let Sniffed { encoding, bom_len } = sniff(self.setting, &self.head[..at + count]);
        self.in_force = encoding;
        self.end = self.end.max(bom_len);
    }

    /// The effective encoding.
    pub(crate) fn encoding(&self) -> Encoding {
        self.in_force
    }

    /// Where the last item ended, in bytes from the start of the part: before it or at it, or in it
    /// where the byte order mark ends there.
    pub(crate) fn last_end(&self) -> i64 {
        match self.end.checked_sub(self.bytes) {
            Some(ahead) => i64::try_from(ahead).unwrap_or(0),
            None => -i64::try_from(self.bytes - self.end).unwrap_or(0),
        }
    }

    /// Counts the text and the bytes of a part that was converted.
    pub(crate) fn end_part(&mut self, part: &[u8], text: &str, end: i64) {
        self.end = self.bytes.saturating_add_signed(end);
        self.bytes = self.bytes.saturating_add(part.len() as u64);
        self.lines = self
            .lines
            .saturating_add(count_line_ends(text.as_bytes(), self.after_cr) as u64);
        self.after_cr = match text.as_bytes().last() {
            Some(last) => *last == b'\r',
            None => self.after_cr,
        };
    }

    /// The spot of the bytes from one end to another, in bytes from the start of the part, after the
    /// text of the part before them.
    pub(crate) fn spot(&self, before: &str, from: i64, to: i64) -> Spot {
        let lines = count_line_ends(before.as_bytes(), self.after_cr) as u64;
        Spot {
            place: Place {
                from: self.bytes.saturating_add_signed(from),
                to: self.bytes.saturating_add_signed(to),
            },
            line: self.lines.saturating_add(lines).saturating_add(1),
        }
    }
}
