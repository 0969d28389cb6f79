//! Bytes of a document, read from the pieces that hold them.
ghost use Rattle.std.specs.Prelude.{◌≡◌, ◌-◌, ◌≤◌, ◌++◌, length, take, drop, OnOk};
ghost use Rattle.piece_rope.specs.{Chain.bytes_of, Sizes.AreCounted};

use crate::pieces::Pieces;
use crate::window::seek;
use state_memo::OutOfMemory;

/// Appends the bytes `from..to`.
pub(crate) fn push_bytes(
    bytes: &mut Vec<u8>,
    pieces: &Pieces,
    from: usize,
    to: usize,
) -> Result<(), OutOfMemory>
    requires counted { AreCounted pieces.now.items }
    requires order { from ≤ to }
    requires within { to ≤ length (bytes_of pieces.now.items) }
    ensures { OnOk result (bytes.new.items ≡ bytes.old.items ++ take (to - from) (drop from (bytes_of pieces.now.items))) }
{
    // There are fewer than 2^64 pieces.
    let _count = pieces.len();
    let (first, start) = seek(pieces, from);
    let mut place = first;
    let mut skip = from - start;
    let mut left = to - from;
    'pieces: while left > 0 {
        let (_, rest) = pieces.get(place).bytes().split_at(skip);
        let count = left.min(rest.len());
        let (part, _) = rest.split_at(count);
        bytes.extend_from_slice(part)?;
        left -= count;
        skip = 0;
        place += 1;
    }
    Ok(())
}
