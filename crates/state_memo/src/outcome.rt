//! The result of decoding a piece.
ghost use Rattle.std.specs.Prelude.{◌≡◌, ◌-◌, ◌≤◌, length, take, drop, string_bytes, IfOk};
ghost use Rattle.std.specs.Str.{chars, IsUtf8};
ghost use Rattle.state_memo.specs.{Facts.IsSumOf, Facts.IsBounded, Items.scalars_before, Items.item_of};

use crate::items::ItemRuns;
use crate::parts::part_of;
use crate::same::are_same;
use crate::sum::Sum;
use codec::AnyState;
use decoder_core::OutOfMemory;
use std::alloc::{AllocError, Global};
use std::marker::Model;
use std::rc::Rc;

/// Text. Contracts see its code points. Its bytes may be those that were decoded, and are then shared with the piece.
#[derive(Drop)]
pub struct Text {
    bytes: Rc<Vec<u8>>,
}

impl Model for Text {
    ghost use Rattle.std.specs.Prelude.{List, ℕ};
    ghost use Rattle.std.specs.Str.{chars, IsUtf8};

    ghost Value = { List ℕ };

    ghost view = { λ t. chars t.bytes.value.items };

    ghost invariant = { λ t. IsUtf8 t.bytes.value.items };
}

impl Text {
    /// Makes a text in the memory of `bytes` if these are the same. Otherwise it has memory of its
    /// own, as much as it takes.
    pub(crate) fn of(text: String, bytes: Option<&Rc<Vec<u8>>>) -> Result<Text, OutOfMemory>
        ensures { IfOk result (λ t. t ≡ chars (string_bytes text)) }
    {
        let written = text.as_str().as_bytes();
        match bytes {
            Some(bytes) if are_same(written, bytes.as_slice()) => Text::shared(bytes),
            _ => Text::own(text),
        }
    }

    /// The bytes of memory that it takes, without those that it may share.
    pub(crate) fn own_bytes(&self, bytes: Option<&Rc<Vec<u8>>>) -> usize {
        match bytes {
            Some(bytes) if Rc::ptr_eq(&self.bytes, bytes) => 0,
            _ => self.bytes.len(),
        }
    }

    /// The allocator of its memory.
    pub(crate) fn allocator(&self) -> Global {
        *self.bytes.allocator()
    }

    /// The same text, in the same memory.
    pub(crate) fn share(&self) -> Result<Text, OutOfMemory>
        ensures { IfOk result (λ t. t ≡ self.now) }
    {
        Ok(Text {
            bytes: self.bytes.clone()?,
        })
    }

    /// The text that these bytes are, in their memory.
    pub(crate) fn shared(bytes: &Rc<Vec<u8>>) -> Result<Text, OutOfMemory>
        requires { IsUtf8 bytes.now.value.items }
        ensures { IfOk result (λ t. t ≡ chars bytes.now.value.items) }
    {
        Ok(Text {
            bytes: bytes.clone()?,
        })
    }

    /// Makes a text in as much memory as it takes. A text with spare room is copied: a block that is cut leaves its
    /// end, which is mostly too small for what is kept next.
    fn own(text: String) -> Result<Text, OutOfMemory>
        ensures { IfOk result (λ t. t ≡ chars (string_bytes text)) }
    {
        let alloc = *text.allocator();
        let fitted = if text.capacity() == text.len() {
            text
        } else {
            String::from_str(alloc, text.as_str())?
        };
        Ok(Text {
            bytes: Rc::new(alloc, fitted.into_bytes())?,
        })
    }

    /// The text.
    pub fn as_str(&self) -> &str
        ensures { chars result.now ≡ self.now }
    {
        // (the bytes of a text are UTF-8)
        unsafe { str::from_utf8_unchecked(self.bytes.as_slice()) }
    }

    /// The code points `from..to`. They are in this order (`order`), and the text has them (`within`).
    pub fn part(&self, from: usize, to: usize) -> &str
        requires order { from ≤ to }
        requires within { to ≤ length self.now }
        ensures { chars result.now ≡ take (to - from) (drop from self.now) }
    {
        part_of(self.as_str(), from, to)
    }
}

/// The contents of an outcome. Its facts are that the numbers are those of the text and the items, and
/// that these aren't more than the piece's bytes can give. It takes at least the memory of its text.
#[derive(Drop)]
pub(crate) struct Body {
    /// The code points of its items, U+FFFD for an error.
    pub text: Text,
    /// The items, with their ends from the piece's start.
    pub items: ItemRuns,
    /// The state after the piece.
    pub exit: AnyState,
    /// The numbers of the piece and its text.
    pub sum: Sum,
    /// The bytes of memory of its text and its items, without a few headers. It is less if the text is the piece's
    /// bytes.
    pub memory: u32,
    ghost summed: { IsSumOf text items sum },
    ghost bounded: { IsBounded sum },
    ghost held: { sum.utf8 ≤ memory },
}

/// The result of decoding a piece from a state. Contracts see its contents; copies share it.
#[derive(Drop)]
pub struct Outcome {
    body: Rc<Body>,
}

impl Model for Outcome {
    ghost use Rattle.state_memo.specs.declared.outcome.Body.{Body};

    ghost Value = { Body };

    ghost view = { λ o. o.body.value };
}

impl Outcome {
    /// An outcome that holds this.
    pub(crate) fn new(alloc: Global, body: Body) -> Result<Outcome, OutOfMemory>
        ensures { IfOk result (λ o. o ≡ body) }
    {
        Ok(Outcome {
            body: Rc::new(alloc, body)?,
        })
    }

    /// The code points of its items, U+FFFD for an error.
    // In the loops over pieces.
    #[inline(always)]
    pub fn text(&self) -> &Text
        ensures { result.now ≡ self.now.text }
    {
        &self.body.text
    }

    /// The items, with their ends from the piece's start.
    // In the loops over pieces.
    #[inline(always)]
    pub fn items(&self) -> &ItemRuns
        ensures { result.now ≡ self.now.items }
    {
        &self.body.items
    }

    /// The state after the piece.
    pub fn exit(&self) -> AnyState
        ensures { result ≡ self.now.exit }
    {
        self.body.exit
    }

    /// The numbers of the piece and its text.
    // In the loops over pieces.
    #[inline(always)]
    pub fn sum(&self) -> Sum
        ensures { result ≡ self.now.sum }
    {
        self.body.sum
    }

    /// The bytes of memory of its text and its items, without a few headers. It is less if the text is the piece's
    /// bytes.
    pub fn memory(&self) -> u64
        ensures { result ≡ self.now.memory }
    {
        self.body.memory as u64
    }

    /// Counts the code points in items that end at or before a place. The place is counted in bytes
    /// from the piece's start.
    pub fn scalars_before(&self, limit: i64) -> u64
        ensures { result ≡ scalars_before limit self.now.items }
    {
        let _scalars = self.body.sum.scalars;
        self.body.items.scalars_before(limit)
    }

    /// The number of the item that has code point number `n`, if any. Both are counted from 0.
    pub fn item_of(&self, n: u64) -> Option<u64>
        ensures { result ≡ item_of self.now.items n }
    {
        let _scalars = self.body.sum.scalars;
        self.body.items.item_of(n)
    }
}

impl Clone for Outcome {
    ghost is_clone = { λ o copy. copy ≡ o };

    fn clone(&self) -> Result<Outcome, AllocError> {
        Ok(Outcome {
            body: self.body.clone()?,
        })
    }
}
