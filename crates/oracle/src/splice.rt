//! Splices of documents.
ghost use Rattle.std.specs.Prelude.{◌≡◌, IfSome};
ghost use Rattle.piece_rope.specs.Edits.{spliced};

use std::alloc::Global;

/// A splice that replaces `del` bytes at `at` by `ins`.
#[derive(Drop)]
pub struct DrawnSplice {
    /// The offset.
    pub at: usize,
    /// The number of removed bytes.
    pub del: usize,
    /// The bytes put in.
    pub ins: Vec<u8>,
}

/// The bytes after the splice. `None` if memory is refused.
pub fn spliced(alloc: Global, bytes: &[u8], splice: &DrawnSplice) -> Option<Vec<u8>>
    ensures { IfSome result (λ new. new.items ≡ spliced bytes.now splice.now.at splice.now.del splice.now.ins.items) }
{
    let mut new = Vec::new(alloc);
    let front = bytes.get(..splice.at)?;
    let back = bytes.get(splice.at.checked_add(splice.del)?..)?;
    new.extend_from_slice(front).ok()?;
    new.extend_from_slice(&splice.ins).ok()?;
    new.extend_from_slice(back).ok()?;
    Some(new)
}
