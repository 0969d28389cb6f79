//! A sink that collects items with their places.
ghost use Rattle.std.specs.Prelude.{◌≡◌, pos, ◌+ℤ◌, ◌-ℤ◌, OnOk, OnErr};
ghost use Rattle.std.specs.Int.{saturate_unsigned, w64};
ghost use Rattle.decoder_core.specs.Collected.{Collected, collect_item, collect_one};
ghost use Rattle.decoder_core.specs.Seen.{seen_of};

use crate::bulk::Stride;
use crate::item::Item;
use crate::memory::OutOfMemory;
use crate::placed::Placed;
use crate::sink::Sink;
use crate::widths::width_of;
use enc_names::Scalar;
use std::alloc::AllocError;

/// The items that were collected.
#[derive(Drop)]
pub struct Collector {
    /// The items so far.
    pub all: Vec<Placed>,
    /// The number of bytes before the part that is now decoded.
    pub base: u64,
    /// The end of the last item, where the next begins.
    pub from: u64,
}

impl Collector {
    /// Takes an item that ends this many bytes after the part's start, less `left`.
    fn collect(&mut self, item: Item, end: i64, left: usize) -> Result<(), OutOfMemory>
        ensures ok { OnOk result (seen_of self.new ≡ collect_item (seen_of self.old) item (end -ℤ pos left)) }
        ensures err { OnErr result (seen_of self.new ≡ seen_of self.old) }
    {
        let to = place(self.base, end, left);
        let placed = Placed {
            item,
            from: self.from,
            to,
        };
        self.all.push(placed).map_err(AllocError::from)?;
        self.from = to;
        Ok(())
    }
}

impl<S: Copy> Sink<S> for Collector {
    ghost Seen = { Collected };

    ghost seen = { λ c. record { all = c.all.items; base = c.base; from = c.from } };

    ghost taken = { collect_one };

    fn item(&mut self, item: Item, end: i64, _after: S) -> Result<(), OutOfMemory> {
        self.collect(item, end, 0)
    }

    fn plain(
        &mut self,
        text: &str,
        width: usize,
        end: i64,
        stride: Stride,
        _after: S,
    ) -> Result<(), OutOfMemory> {
        let mut left = width;
        let mut rest = text.chars();
        'rest: while let Some(c) = rest.next() {
            left -= width_of(stride, c);
            self.collect(Item::One(Scalar::from(c)), end, left)?;
        }
        Ok(())
    }
}

/// The place `left` bytes before `end`, which is counted from the base. The sum may lie past what a
/// place can be, and is saturated.
fn place(base: u64, end: i64, left: usize) -> u64
    ensures { result ≡ saturate_unsigned w64 (pos base +ℤ (end -ℤ pos left)) }
{
    let sum = i128::from(base) + i128::from(end) - left as i128;
    if sum < 0 {
        0
    } else if sum > u64::MAX as i128 {
        u64::MAX
    } else {
        sum as u64
    }
}
