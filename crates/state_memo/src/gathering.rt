//! The sink in which a piece's outcome is gathered.
ghost use Rattle.std.specs.Prelude.{◌≡◌, ◌≤◌, ◌+◌, [], ◌∷◌, ◌++◌, ℕ, List, Some, IfSome, true, false, length, fold, IfOk, OnOk, OnErr};
ghost use Rattle.std.specs.Str.{chars, IsUtf8};
ghost use Rattle.decoder_core.specs.Text.{item_code_points};
ghost use Rattle.state_memo.specs.Gathering.{Gathered, with_shown, with_item, with_ended, with_more};
ghost use Rattle.state_memo.specs.Items.{all_scalars, errors_in, is_an_error, kept_item};
ghost use Rattle.state_memo.specs.Plain.{HasTail, IsPart, IsTail, part_items, tail_items};
ghost use Rattle.state_memo.specs.{declared.run.Run.Run, Facts.IsDone, Outcome.contents_of, Outcome.contents_by, Plain.own_gathered, Runs.error_of};
ghost use Rattle.state_memo.specs.{Runs.items_under_way, Sums.sum_of};

use crate::counting::sum_of;
use crate::items::{ItemRuns, OpenRuns};
use crate::kind::ItemKind;
use crate::outcome::{Body, Outcome, Text};
use crate::outputs::Outputs;
use crate::parts::split_at_scalar;
use crate::plain::{count_of, even_run, places};
use crate::plain_items::PlainItems;
use crate::run::Run;
use crate::tail::{PlainPart, PlainTail};
use codec::{AnyState, TextBlocks};
use decoder_core::{Ended, Item, OutOfMemory, Sink, Stride};
use iso2022jp::OutputState;
use lane_utf::count_scalars;
use std::alloc::{AllocError, Global};
use std::marker::Model;
use std::rc::Rc;

/// The text and the items so far. It has the number of code points, and whether one of the items may
/// be an error. Items that are the last code points of the text aren't runs yet.
#[derive(Drop)]
pub(crate) struct Gathering {
    text: TextBlocks,
    items: OpenRuns,
    tail: Option<PlainTail>,
    scalars: usize,
    erring: bool,
}

impl Model for Gathering {
    ghost use Rattle.std.specs.Prelude.{◌≡◌, false, length};
    ghost use Rattle.std.specs.Str.{chars};
    ghost use Rattle.std.specs.Prelude.{◌++◌};
    ghost use Rattle.state_memo.specs.{Gathering.Gathered, Items.errors_in, Plain.HasTail, Plain.tail_items, Runs.items_under_way};

    ghost Value = { Gathered };

    ghost view = { λ s. record {
      text = chars s.text.bytes;
      items = items_under_way s.items.closed.items s.items.last ++ tail_items s.tail (chars s.text.bytes);
    } };

    ghost invariant = { λ s. record {
      counted : s.scalars ≡ length (chars s.text.bytes);
      tail : HasTail s.tail (chars s.text.bytes) s.items.closed.items;
      none : s.erring ≡ false → errors_in (items_under_way s.items.closed.items s.items.last) ≡ 0;
    } };
}

impl Gathering {
    /// No item.
    pub(crate) fn new(alloc: Global) -> Gathering
        ensures { result ≡ record { text = []; items = [] } }
    {
        Gathering {
            text: TextBlocks::new(alloc),
            items: OpenRuns::new(alloc),
            tail: None,
            scalars: 0,
            erring: false,
        }
    }

    /// Takes an item. Its end is kept in 16 bits: one that no piece comes to is refused.
    // In the loop over the bytes.
    #[inline(always)]
    fn take(&mut self, item: Item, end: i64, output: OutputState) -> Result<(), OutOfMemory>
        ensures ok { OnOk result (self.new ≡ with_item self.old item end output) }
        ensures err { OnErr result (self.new ≡ self.old) }
    {
        let Ok(last) = i16::try_from(end) else {
            return Err(AllocError);
        };
        let (counted, added, behind, kept, written) = (item, item, item, item, item);
        let Some(scalars) = self.scalars.checked_add(scalars_of(counted)) else {
            return Err(AllocError);
        };
        if let Some(tail) = tail_with_item(self.tail, added, last, output) {
            self.text.reserve()?;
            put_item(&mut self.text, behind);
            self.scalars = scalars;
            self.tail = Some(tail);
            return Ok(());
        }
        settle(self.tail, &mut self.text, &mut self.items)?;
        self.tail = None;
        self.text.reserve()?;
        self.items.reserve(1)?;
        put_item(&mut self.text, written);
        let kind = ItemKind::of(kept, output);
        self.scalars = scalars;
        self.erring = may_err(self.erring, kind);
        self.items.put(Run::one(kind, last));
        Ok(())
    }

    /// Takes a text whose code points are the items of a part: as a tail, or else as runs.
    fn take_part(&mut self, text: &str, part: PlainPart) -> Result<(), OutOfMemory>
        requires { IsPart part (chars text.now) }
        ensures ok { OnOk result (self.new ≡ with_more self.old (chars text.now) (part_items part (chars text.now))) }
        ensures err { OnErr result (self.new ≡ self.old) }
    {
        let Some(scalars) = self.scalars.checked_add(part.count) else {
            return Err(AllocError);
        };
        let first = may_begin(&self.items, self.erring);
        if let Some(tail) = tail_with_part(self.tail, first, self.scalars, part) {
            self.text.put_text(text)?;
            self.scalars = scalars;
            self.tail = Some(tail);
            return Ok(());
        }
        settle(self.tail, &mut self.text, &mut self.items)?;
        self.tail = None;
        put_part(&mut self.text, &mut self.items, text, part)?;
        self.scalars = scalars;
        Ok(())
    }

    /// Takes the items of the end.
    pub(crate) fn take_last(
        &mut self,
        items: &[Ended],
        output: OutputState,
    ) -> Result<(), OutOfMemory>
        ensures { OnOk result (self.new ≡ fold (with_ended output) self.old items.now) }
    {
        'items: for ended in items {
            self.take(ended.item, -i64::from(ended.back), output)?;
        }
        Ok(())
    }

    /// The outcome of the part of `bytes` bytes that was decoded. Its text may share `held`.
    pub(crate) fn finish(
        self,
        bytes: usize,
        held: Option<&Rc<Vec<u8>>>,
        exit: AnyState,
    ) -> Result<Outcome, OutOfMemory>
        requires { IsDone bytes self }
        ensures { IfOk result (λ o. contents_of o ≡ record { text = self.text; items = self.items; exit = exit; sum = sum_of bytes self.text self.items }) }
    {
        let Gathering {
            text,
            items,
            tail,
            scalars,
            erring,
        } = self;
        let text = Text::of(text.finish()?, held)?;
        // Errors are looked for in the runs, where a walk over shapes takes longer.
        let own = if erring { 0 } else { text.own_bytes(held) };
        let items = finished(items, tail, &text, scalars, bytes, own)?;
        summed(text, items, scalars, erring, bytes, exit)
    }
}

impl<S: Outputs> Sink<S> for Gathering {
    ghost Seen = { Gathered };

    ghost seen = { λ s. s };

    ghost taken = { with_shown S.output_at };

    // In the loop over the bytes.
    #[inline(always)]
    fn item(&mut self, item: Item, end: i64, after: S) -> Result<(), OutOfMemory> {
        self.take(item, end, after.output_state())
    }

    fn plain(
        &mut self,
        text: &str,
        width: usize,
        end: i64,
        stride: Stride,
        after: S,
    ) -> Result<(), OutOfMemory> {
        let output = after.output_state();
        let count = count_of(text, width, stride);
        let Some((from, end)) = places(width, end) else {
            return Err(AllocError);
        };
        self.take_part(
            text,
            PlainPart {
                count,
                len: text.len(),
                from,
                end,
                stride,
                output,
            },
        )
    }
}

/// The tail with an item after it, if it continues in the same way.
// In the loop over the bytes.
#[inline(always)]
fn tail_with_item(
    tail: Option<PlainTail>,
    item: Item,
    end: i16,
    output: OutputState,
) -> Option<PlainTail>
    ensures tail { (cs : List ℕ) (closed : List Run) → HasTail tail cs closed → IfSome result (λ t. HasTail (Some t) (cs ++ item_code_points item) closed) }
    ensures items { (cs : List ℕ) (closed : List Run) → HasTail tail cs closed
        → IfSome result (λ t. tail_items (Some t) (cs ++ item_code_points item) ≡ tail_items tail cs ++ kept_item item end output ∷ []) }
    ensures right { IfSome result (λ _. is_an_error item ≡ false) }
{
    let tail = tail?;
    match item {
        Item::One(c) => tail.with_one(c.to_char(), end, output),
        _ => None,
    }
}

/// Whether a tail may begin after these items. They must be at most one run, without an error.
fn may_begin(items: &OpenRuns, erring: bool) -> bool
    ensures { result ≡ true → items.now.closed.items ≡ [] }
{
    !erring && items.are_unbroken()
}

/// The tail with a part after it, if it continues in the same way. Without a tail, the part begins one after `before`
/// code points, if that may be.
fn tail_with_part(
    tail: Option<PlainTail>,
    first: bool,
    before: usize,
    part: PlainPart,
) -> Option<PlainTail>
    ensures tail { (cs ds : List ℕ) (closed : List Run) → (first ≡ true → closed ≡ []) → HasTail tail cs closed → before ≡ length cs → IsPart part ds
        → IfSome result (λ t. HasTail (Some t) (cs ++ ds) closed) }
    ensures items { (cs ds : List ℕ) (closed : List Run) → HasTail tail cs closed → before ≡ length cs → IsPart part ds
        → IfSome result (λ t. tail_items (Some t) (cs ++ ds) ≡ tail_items tail cs ++ part_items part ds) }
{
    match tail {
        Some(tail) => tail.with(part),
        None if first => Some(PlainTail::of(before, part)),
        None => None,
    }
}

/// Makes runs of the items of a tail, if there is one.
// In the loop over the bytes.
#[inline(always)]
fn settle(
    tail: Option<PlainTail>,
    text: &mut TextBlocks,
    items: &mut OpenRuns,
) -> Result<(), OutOfMemory>
    requires { HasTail tail (chars text.old.bytes) items.old.closed.items }
    ensures text { text.new.bytes ≡ text.old.bytes }
    ensures ok { OnOk result (items_under_way items.new.closed.items items.new.last
        ≡ items_under_way items.old.closed.items items.old.last ++ tail_items tail (chars text.old.bytes)) }
    ensures err { OnErr result (items.new.closed.items ≡ items.old.closed.items) }
    ensures err_last { OnErr result (items.new.last ≡ items.old.last) }
{
    match tail {
        Some(tail) => settle_tail(tail, text, items),
        None => Ok(()),
    }
}

/// Makes runs of the items of a tail.
// Once in a piece.
#[inline(never)]
fn settle_tail(
    tail: PlainTail,
    text: &mut TextBlocks,
    items: &mut OpenRuns,
) -> Result<(), OutOfMemory>
    requires { IsTail tail (chars text.old.bytes) }
    ensures text { text.new.bytes ≡ text.old.bytes }
    ensures ok { OnOk result (items_under_way items.new.closed.items items.new.last
        ≡ items_under_way items.old.closed.items items.old.last ++ tail_items (Some tail) (chars text.old.bytes)) }
    ensures err { OnErr result (items.new.closed.items ≡ items.old.closed.items) }
    ensures err_last { OnErr result (items.new.last ≡ items.old.last) }
{
    text.flush()?;
    let Some((_, own)) = split_at_scalar(text.flushed(), tail.before) else {
        return Ok(());
    };
    items.reserve_for(count_scalars(own))?;
    items.put_plain(own, tail.from, tail.length(), tail.output);
    Ok(())
}

/// The items of `bytes` bytes, for a text of `scalars` code points. `own` is the number of bytes that
/// the text has for itself.
fn finished(
    items: OpenRuns,
    tail: Option<PlainTail>,
    text: &Text,
    scalars: usize,
    bytes: usize,
    own: usize,
) -> Result<ItemRuns, OutOfMemory>
    requires scalars { scalars ≡ length text.now }
    requires tail { HasTail tail text.now items.closed.items }
    requires counted { length text.now ≡ all_scalars (items_under_way items.closed.items items.last ++ tail_items tail text.now) }
    ensures { IfOk result (λ is. is ≡ items_under_way items.closed.items items.last ++ tail_items tail text.now) }
{
    let Some(tail) = tail else {
        return items.finish(bytes, own);
    };
    let front = items.last();
    Ok(ItemRuns::plain(PlainItems::of(text.share()?, scalars, front, tail)))
}

/// The outcome of a part: this text and these items. The part has `bytes` bytes, the text `scalars` code points.
/// `erring` says whether one of the items may be an error.
fn summed(
    text: Text,
    items: ItemRuns,
    scalars: usize,
    erring: bool,
    bytes: usize,
    exit: AnyState,
) -> Result<Outcome, OutOfMemory>
    requires done { IsDone bytes (record { text = text; items = items }) }
    requires scalars { scalars ≡ length text }
    requires none { erring ≡ false → errors_in items ≡ 0 }
    ensures { IfOk result (λ o. contents_of o ≡ record { text = text; items = items; exit = exit; sum = sum_of bytes text items }) }
{
    let alloc = text.allocator();
    let sum = sum_of(bytes, text.as_str(), scalars, &items, erring).ok_or(AllocError)?;
    let memory = sum
        .utf8
        .saturating_add(items.memory().min(u32::MAX as u64) as u32);
    let body = Body {
        text,
        items,
        exit,
        sum,
        memory,
    };
    Outcome::new(alloc, body)
}

/// The items of a piece that is this text.
fn own_items(text: &Text, scalars: usize, output: OutputState) -> Result<ItemRuns, OutOfMemory>
    requires { scalars ≡ length text.now }
    ensures { IfOk result (λ items. items ≡ (own_gathered output text.now).items) }
{
    let bytes = text.as_str();
    let Ok(end) = i16::try_from(bytes.len()) else {
        return Err(AllocError);
    };
    let part = PlainPart {
        count: scalars,
        len: bytes.len(),
        from: 0,
        end,
        stride: Stride::Utf8,
        output,
    };
    let tail = PlainTail::of(0, part);
    Ok(ItemRuns::plain(PlainItems::of(text.share()?, scalars, None, tail)))
}

/// The outcome of a piece whose bytes are its text, which shares them.
pub(crate) fn own_outcome(
    bytes: &Rc<Vec<u8>>,
    output: OutputState,
    exit: AnyState,
) -> Result<Outcome, OutOfMemory>
    requires utf8 { IsUtf8 bytes.now.value.items }
    requires done { IsDone (length bytes.now.value.items) (own_gathered output (chars bytes.now.value.items)) }
    ensures { IfOk result (λ o. contents_of o
        ≡ contents_by (length bytes.now.value.items) (own_gathered output (chars bytes.now.value.items)) exit) }
{
    let text = Text::shared(bytes)?;
    let scalars = count_scalars(text.as_str());
    let items = own_items(&text, scalars, output)?;
    summed(text, items, scalars, false, bytes.as_slice().len(), exit)
}

/// Takes a text and the items of a part, which are its code points. They become runs: at most one each, and one if all
/// have the same length.
fn put_part(
    text: &mut TextBlocks,
    items: &mut OpenRuns,
    added: &str,
    part: PlainPart,
) -> Result<(), OutOfMemory>
    requires { IsPart part (chars added.now) }
    ensures text { OnOk result (text.new.bytes ≡ text.old.bytes ++ added.now) }
    ensures text_err { OnErr result (text.new.bytes ≡ text.old.bytes) }
    ensures ok { OnOk result (items_under_way items.new.closed.items items.new.last
        ≡ items_under_way items.old.closed.items items.old.last ++ part_items part (chars added.now)) }
    ensures err { OnErr result (items_under_way items.new.closed.items items.new.last ≡ items_under_way items.old.closed.items items.old.last) }
    ensures utf8 { OnOk result (IsUtf8 text.old.bytes) }
{
    if let Some(run) = even_run(part.count, part.from, part.end, part.stride, part.output) {
        items.reserve(1)?;
        text.put_text(added)?;
        items.put(run);
        return Ok(());
    }
    items.reserve_for(part.count)?;
    text.put_text(added)?;
    items.put_plain(added, part.from, part.stride, part.output);
    Ok(())
}

/// Whether an item may be an error, among earlier items and items of this kind.
// In the loop over the bytes.
#[inline(always)]
fn may_err(erring: bool, kind: ItemKind) -> bool
    ensures before { result ≡ false → erring ≡ false }
    ensures kind { result ≡ false → error_of kind ≡ false }
{
    erring || kind.is_error()
}

/// The number of code points of an item, one for an error.
// In the loop over the bytes.
#[inline(always)]
fn scalars_of(item: Item) -> usize
    ensures { result ≡ length (item_code_points item) }
{
    match item {
        Item::Two(_, _) => 2,
        _ => 1,
    }
}

/// Writes the code points of an item, an error as U+FFFD.
// In the loop over the bytes.
#[inline(always)]
fn put_item(text: &mut TextBlocks, item: Item)
    requires { 8 ≤ text.old.room }
    ensures { chars text.new.bytes ≡ chars text.old.bytes ++ item_code_points item }
{
    match item {
        Item::One(c) => put_char(text, c.to_char()),
        Item::Two(first, second) => {
            put_char(text, first.to_char());
            put_char(text, second.to_char());
        }
        Item::Error => put_char(text, char::REPLACEMENT_CHARACTER),
    }
}

/// Writes a code point.
// In the loop over the bytes.
#[inline(always)]
fn put_char(text: &mut TextBlocks, c: char)
    requires { 4 ≤ text.old.room }
    ensures text { chars text.new.bytes ≡ chars text.old.bytes ++ c ∷ [] }
    ensures room { text.old.room ≤ text.new.room + 4 }
{
    text.put(c);
}
