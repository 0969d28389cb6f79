//! The sink that finds where errors are.
ghost use Rattle.std.specs.Prelude.{◌≡◌, [], OnOk, OnErr, fold, length, nat_le};
ghost use Rattle.streams.specs.Finding.{Places, begun_at, with_item, with_shown, with_ended};

use crate::counts::Counts;
use crate::row::Found;
use decoder_core::{Ended, Item, OutOfMemory, Sink, Stride};
use enc_names::Place;
use std::alloc::{AllocError, Global};
use std::marker::Model;

/// Finds the first errors of a stream among the items of its parts: `most` of them. It has the number of
/// bytes before the part, the end of the last item, and the numbers of the text before.
#[derive(Drop)]
pub(crate) struct Placing {
    base: u64,
    from: u64,
    counts: Counts,
    most: usize,
    found: Vec<Found>,
}

impl Model for Placing {
    ghost Value = { Places };

    ghost view = { λ s. record { base = s.base; from = s.from; counts = s.counts; most = s.most; found = s.found.items } };
}

impl Placing {
    /// No errors yet.
    pub(crate) fn new(alloc: Global, most: usize) -> Placing
        ensures most { result.most ≡ most }
        ensures found { result.found ≡ [] }
    {
        Placing {
            base: 0,
            from: 0,
            counts: Counts::none(),
            most,
            found: Vec::new(alloc),
        }
    }

    /// Whether no more errors are asked for.
    pub(crate) fn is_full(&self) -> bool
        ensures { result ≡ nat_le self.now.most (length self.now.found) }
    {
        self.found.len() >= self.most
    }

    /// Begins a part before which there are so many bytes, where the last item ended at `from`, after a text
    /// with these numbers.
    pub(crate) fn begin(&mut self, base: u64, from: u64, counts: Counts)
        ensures { self.new ≡ begun_at base from counts self.old }
    {
        self.base = base;
        self.from = from;
        self.counts = counts;
    }

    /// The errors that were found.
    pub(crate) fn finish(self) -> Vec<Found>
        ensures { result.items ≡ self.found }
    {
        let Placing { found, .. } = self;
        found
    }

    /// Takes an item.
    fn take(&mut self, item: Item, end: i64) -> Result<(), OutOfMemory>
        ensures ok { OnOk result (self.new ≡ with_item self.old item end) }
        ensures err { OnErr result (self.new ≡ self.old) }
    {
        let is_error = matches!(&item, Item::Error);
        let to = self.base.saturating_add_signed(end);
        let counts = self.counts.with_item(item)?;
        if is_error && self.found.len() < self.most {
            let found = Found {
                place: Place {
                    from: self.from,
                    to,
                },
                line: self.counts.lines,
                character: self.counts.column,
            };
            self.found.push(found).map_err(AllocError::from)?;
        }
        self.from = to;
        self.counts = counts;
        Ok(())
    }

    /// Takes the items that the end of the stream gives.
    pub(crate) fn take_last(&mut self, items: &[Ended]) -> Result<(), OutOfMemory>
        ensures { OnOk result (self.new ≡ fold (with_ended 0) self.old items.now) }
    {
        'items: for ended in items {
            self.take(ended.item, -i64::from(ended.back))?;
        }
        Ok(())
    }
}

impl<S: Copy> Sink<S> for Placing {
    ghost Seen = { Places };

    ghost seen = { λ s. s };

    ghost taken = { with_shown };

    fn item(&mut self, item: Item, end: i64, _after: S) -> Result<(), OutOfMemory> {
        self.take(item, end)
    }

    fn plain(
        &mut self,
        text: &str,
        _width: usize,
        end: i64,
        _stride: Stride,
        _after: S,
    ) -> Result<(), OutOfMemory> {
        // (with no item the last end is unchanged)
        if text.is_empty() {
            return Ok(());
        }
        self.counts = self.counts.with(text)?;
        self.from = self.base.saturating_add_signed(end);
        Ok(())
    }
}
