//! The sink in which the text of a part is gathered.
ghost use Rattle.std.specs.Prelude.{◌≡◌, ◌≤◌, ◌++◌, ◌&&◌, [], false, fold, is_some, pos, IfOk, OnOk, OnErr, string_bytes};
ghost use Rattle.std.specs.Str.{encode_utf8_all};
ghost use Rattle.decoder_core.specs.Text.{item_code_points};
ghost use Rattle.streams.specs.Gathering.{Gathered, is_error, with_error, with_item, with_shown, with_ended};

use crate::counts::more;
use codec::TextBlocks;
use decoder_core::{Ended, Item, OutOfMemory, Sink, Stride};
use std::alloc::Global;
use std::marker::Model;

/// The text of a part's items, and where the last of them ends, in bytes from the start of the
/// part. If it is strict, the first error stops it: nothing after it is taken.
#[derive(Drop)]
pub(crate) struct PartText {
    text: TextBlocks,
    is_strict: bool,
    end: i64,
    is_stopped: bool,
    stop: i64,
    errors: u64,
}

impl Model for PartText {
    ghost Value = { Gathered };

    ghost view = { λ s. record { text = s.text.bytes; strict = s.is_strict; end = s.end; stopped = s.is_stopped; stop = s.stop; errors = s.errors } };
}

/// The text of a part as one piece.
#[derive(Drop)]
pub(crate) struct Decoded {
    /// The text, with U+FFFD for each error that didn't stop it.
    pub(crate) text: String,
    /// The end of its last item, in bytes from the start of the part.
    pub(crate) end: i64,
    /// The end of the error that stopped it, if one did.
    pub(crate) stop: Option<i64>,
    /// The number of errors that didn't stop it.
    pub(crate) errors: u64,
}

impl PartText {
    /// No text yet; the last item before the part ended at `end`.
    pub(crate) fn new(alloc: Global, is_strict: bool, end: i64) -> PartText
        ensures { result ≡ record { text = []; strict = is_strict; end = end; stopped = false; stop = pos 0; errors = 0 } }
    {
        PartText {
            text: TextBlocks::new(alloc),
            is_strict,
            end,
            is_stopped: false,
            stop: 0,
            errors: 0,
        }
    }

    /// Whether an item is an error that stops the text.
    // In the loop over the bytes.
    #[inline(always)]
    fn is_stopped_by(&self, item: &Item) -> bool
        ensures { result ≡ (self.now.strict && is_error item.now) }
    {
        self.is_strict && matches!(item, Item::Error)
    }

    /// Takes an item, unless an error has stopped the text.
    // In the loop over the bytes.
    #[inline(always)]
    fn take(&mut self, item: Item, end: i64) -> Result<(), OutOfMemory>
        ensures ok { OnOk result (self.new ≡ with_item self.old item end) }
        ensures err { OnErr result (self.new ≡ self.old) }
    {
        if self.is_stopped {
            return Ok(());
        }
        if self.is_stopped_by(&item) {
            self.is_stopped = true;
            self.stop = end;
            return Ok(());
        }
        let errors = errors_with(self.errors, &item)?;
        self.text.reserve()?;
        put_item(&mut self.text, item);
        self.end = end;
        self.errors = errors;
        Ok(())
    }

    /// Takes the items that the end of the stream gives.
    pub(crate) fn take_last(&mut self, items: &[Ended]) -> Result<(), OutOfMemory>
        ensures { OnOk result (self.new ≡ fold (with_ended 0) self.old items.now) }
    {
        'items: for ended in items {
            self.take(ended.item, -i64::from(ended.back))?;
        }
        Ok(())
    }

    /// The text as one piece.
    pub(crate) fn finish(self) -> Result<Decoded, OutOfMemory>
        ensures text { IfOk result (λ d. string_bytes d.text ≡ self.text) }
        ensures stop { IfOk result (λ d. is_some d.stop ≡ self.stopped) }
        ensures end { IfOk result (λ d. d.end ≡ self.end) }
        ensures errors { IfOk result (λ d. d.errors ≡ self.errors) }
    {
        let PartText {
            text,
            end,
            is_stopped,
            stop,
            errors,
            ..
        } = self;
        let text = text.finish()?;
        let stop = if is_stopped { Some(stop) } else { None };
        Ok(Decoded {
            text,
            end,
            stop,
            errors,
        })
    }
}

impl<S: Copy> Sink<S> for PartText {
    ghost Seen = { Gathered };

    ghost seen = { λ s. s };

    ghost taken = { with_shown };

    // In the loop over the bytes.
    #[inline(always)]
    fn item(&mut self, item: Item, end: i64, _after: S) -> Result<(), OutOfMemory> {
        self.take(item, end)
    }

    // As a text is taken.
    #[inline(always)]
    fn plain(
        &mut self,
        text: &str,
        _width: usize,
        end: i64,
        _stride: Stride,
        _after: S,
    ) -> Result<(), OutOfMemory> {
        // (with no item the last end is unchanged)
        if self.is_stopped || text.is_empty() {
            return Ok(());
        }
        self.text.put_text(text)?;
        self.end = end;
        Ok(())
    }
}

/// The number of errors with an item.
// In the loop over the bytes.
#[inline(always)]
fn errors_with(errors: u64, item: &Item) -> Result<u64, OutOfMemory>
    ensures { IfOk result (λ n. n ≡ with_error item.now errors) }
{
    match item {
        Item::Error => more(errors, 1),
        Item::One(_) | Item::Two(_, _) => Ok(errors),
    }
}

/// Writes the code points of an item, an error as U+FFFD.
// In the loop over the bytes.
#[inline(always)]
fn put_item(text: &mut TextBlocks, item: Item)
    requires { 8 ≤ text.old.room }
    ensures { text.new.bytes ≡ text.old.bytes ++ encode_utf8_all (item_code_points item) }
{
    match item {
        Item::One(c) => text.put(c.to_char()),
        Item::Two(first, second) => {
            text.put(first.to_char());
            text.put(second.to_char());
        }
        Item::Error => text.put(char::REPLACEMENT_CHARACTER),
    }
}
