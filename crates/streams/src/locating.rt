//! The sink that finds the bytes of a code point.

use decoder_core::{Ended, Item, OutOfMemory, Sink, Stride};

/// Finds the item that has a code point of this number, counted from 0 among those of the items.
#[derive(Drop)]
pub(crate) struct Locating {
    left: u64,
    from: i64,
    found: Option<i64>,
}

impl Locating {
    /// Looks for code point number `index`; the last item before ended at `end`.
    pub(crate) fn new(index: u64, end: i64) -> Locating {
        Locating {
            left: index,
            from: end,
            found: None,
        }
    }

    /// Where the item begins and ends, in bytes from the start of the part. One that wasn't found
    /// has no bytes.
    pub(crate) fn place(&self) -> (i64, i64) {
        (self.from, self.found.unwrap_or(self.from))
    }

    /// Takes the items that the end of the stream gives, after a part of so many bytes.
    pub(crate) fn pass_last(&mut self, items: &[Ended], read: usize) {
        let read = i64::try_from(read).unwrap_or(0);
        'items: for ended in items {
            self.pass(
                count_of(ended.item),
                read.saturating_sub(i64::from(ended.back)),
            );
        }
    }

    /// Takes an item of so many code points.
    fn pass(&mut self, count: u64, end: i64) {
        if self.found.is_some() {
            return;
        }
        if self.left < count {
            self.found = Some(end);
        } else {
            self.left -= count;
            self.from = end;
        }
    }
}

/// How many code points an item has.
fn count_of(item: Item) -> u64 {
    match item {
        Item::Two(_, _) => 2,
        Item::One(_) | Item::Error => 1,
    }
}

/// How many bytes an item of one code point has.
fn width_of(stride: Stride, c: char) -> i64 {
    match stride {
        Stride::Utf8 => c.len_utf8() as i64,
        Stride::Utf16 => 2 * c.len_utf16() as i64,
        Stride::Pairs => if c.is_ascii() { 1 } else { 2 },
        Stride::Bytes => 1,
    }
}

impl<S: Copy> Sink<S> for Locating {
    ghost use Rattle.std.specs.Prelude.{⊤};

    ghost Seen = { ⊤ };

    ghost seen = { λ s. tt };

    ghost taken = { λ seen shown. tt };

    fn item(&mut self, item: Item, end: i64, _after: S) -> Result<(), OutOfMemory> {
        self.pass(count_of(item), end);
        Ok(())
    }

    fn plain(
        &mut self,
        text: &str,
        width: usize,
        end: i64,
        stride: Stride,
        _after: S,
    ) -> Result<(), OutOfMemory> {
        let mut at = end.saturating_sub(i64::try_from(width).unwrap_or(0));
        'code_points: for c in text.chars() {
            at = at.saturating_add(width_of(stride, c));
            self.pass(1, at);
        }
        Ok(())
    }
}
