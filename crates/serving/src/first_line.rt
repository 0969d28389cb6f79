//! The first line of a client, byte by byte.
ghost use Rattle.std.specs.Prelude.{◌≡◌, ◌∷◌, List, ℕ, false};
ghost use Rattle.serving.specs.Admitting.{is_blank};

use crate::access::LINE;

/// The most bytes of a first line, without its line feed.
pub const FIRST_LINE: u32 = 256;

/// What is known after a byte of the first line.
#[derive(Clone, Copy)]
pub enum Progress {
    /// The line isn't complete.
    Begun(FirstLine),
    /// It was the line that lets a client in.
    Right,
    /// It was another line, or is too long.
    Wrong,
}

/// The partial first line of a client, compared with the line that lets it in. Nothing is known of
/// the comparison before the line is complete.
#[derive(Clone, Copy)]
pub struct FirstLine {
    wanted: [u8; LINE],
    /// The number of bytes compared.
    at: usize,
    /// Whether one of them was another byte.
    differs: bool,
    /// The number of bytes that the line may still have.
    room: u32,
}

impl FirstLine {
    ghost use Rattle.serving.specs.Checking.{left_by, left_of};
    ghost use Rattle.serving.specs.declared.first_line.TheConstants.{FIRST_LINE};

    /// The line before its first byte.
    pub fn new(wanted: [u8; LINE]) -> FirstLine
        ensures wanted { result.wanted ≡ wanted }
        ensures at { result.at ≡ 0 }
        ensures differs { result.differs ≡ false }
        ensures room { result.room ≡ FIRST_LINE }
    {
        FirstLine {
            wanted,
            at: 0,
            differs: false,
            room: FIRST_LINE,
        }
    }

    /// Takes the next byte. What it takes for each byte doesn't depend on the bytes that are wanted.
    pub fn next(self, byte: u8) -> Progress
        ensures { (more : List ℕ) → left_by result more ≡ left_of self (byte ∷ more) }
    {
        if byte == b'\n' {
            return if self.at >= LINE && !self.differs {
                Progress::Right
            } else {
                Progress::Wrong
            };
        }
        if self.room == 0 {
            return Progress::Wrong;
        }
        let mut line = self;
        line.room -= 1;
        if is_blank(byte) {
            return Progress::Begun(line);
        }
        match line.wanted.get(line.at) {
            Some(wanted) => {
                line.differs |= byte != *wanted;
                line.at += 1;
            }
            None => line.differs = true,
        }
        Progress::Begun(line)
    }
}

/// Whether a byte is white space within a line.
fn is_blank(byte: u8) -> bool
    ensures { result ≡ is_blank byte }
{
    matches!(byte, b' ' | b'\t' | b'\r')
}
