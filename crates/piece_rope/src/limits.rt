//! The limits of a document's bytes and of its pieces.
ghost use Rattle.std.specs.Prelude.{◌≡◌, ◌+◌, ◌≤◌, length, IfOk, OnOk};
ghost use Rattle.piece_rope.specs.Edits.{Faults, document_limit, source_fault, splice_fault, spliced};
ghost use Rattle.piece_rope.specs.{Chain.bytes_of, Room.piece_room, Sizes.AreCounted};

use crate::fault::DocFault;
use crate::pieces::Pieces;
use crate::window::count_bytes;

/// The most bytes that a document has.
pub const DOCUMENT_LIMIT: usize = 16_777_216;

/// The most bytes that a piece of a document has.
pub const LONGEST_PIECE: usize = 2_048;

/// The fewest bytes that a piece has in a document of several pieces.
pub const SHORTEST_PIECE: usize = 512;

/// The most memory that a piece with several outcomes uses to remember them. It is in bytes for
/// each byte of the piece. The outcomes are the one from the state in which it is entered, and the
/// others.
const MOST_REMEMBERED: u64 = 6;

/// The most memory in which a piece of these bytes remembers several outcomes. It is in bytes.
pub(crate) fn room_in(bytes: &[u8]) -> u64
    ensures { result ≡ piece_room bytes.now }
{
    (bytes.len() as u64).saturating_mul(MOST_REMEMBERED)
}

/// The start and the end of a splice's cut, as sizes in memory. Refused with `OutOfRange` and then
/// with `TooLarge`.
#[tactic(auto, unfolding(crate::specs::Edits::splice_fault))]
pub(crate) fn checked_cut(
    pieces: &Pieces,
    at: u64,
    del: u64,
    ins: &[u8],
) -> Result<(usize, usize), DocFault>
    requires counted { AreCounted pieces.now.items }
    requires within { length (bytes_of pieces.now.items) ≤ document_limit }
    ensures ok { IfOk result (λ cut. cut.0 ≡ at × cut.1 ≡ at + del) }
    ensures within { OnOk result (at + del ≤ length (bytes_of pieces.now.items)) }
    ensures small { OnOk result (length (spliced (bytes_of pieces.now.items) at del ins.now) ≤ document_limit) }
    ensures faults { Faults (splice_fault (bytes_of pieces.now.items) at del ins.now) result }
{
    let len = count_bytes(pieces);
    let end = at.checked_add(del).ok_or(DocFault::OutOfRange)?;
    if end > len as u64 {
        return Err(DocFault::OutOfRange);
    }
    if len - del as usize + ins.len() > DOCUMENT_LIMIT {
        return Err(DocFault::TooLarge);
    }
    Ok((at as usize, end as usize))
}

/// The start and the end of the `len` bytes at `at`, as sizes in memory. Refused with `OutOfRange`
/// if there are fewer bytes.
#[tactic(auto, unfolding(crate::specs::Edits::source_fault))]
pub(crate) fn checked_part(pieces: &Pieces, at: u64, len: u64) -> Result<(usize, usize), DocFault>
    requires counted { AreCounted pieces.now.items }
    ensures ok { IfOk result (λ cut. cut.0 ≡ at × cut.1 ≡ at + len) }
    ensures within { OnOk result (at + len ≤ length (bytes_of pieces.now.items)) }
    ensures faults { Faults (source_fault (bytes_of pieces.now.items) at len) result }
{
    let size = count_bytes(pieces) as u64;
    let end = at.checked_add(len).ok_or(DocFault::OutOfRange)?;
    if end > size {
        return Err(DocFault::OutOfRange);
    }
    Ok((at as usize, end as usize))
}
