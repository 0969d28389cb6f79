//! Runs of pairs of bytes in bulk, with ASCII between them or without.
ghost use Rattle.std.specs.Prelude.{◌≡◌, ◌+◌, ◌<◌, ◌≤◌, IfNone, IfSome, IsTrue, length};
ghost use Rattle.decoder_core.specs.{declared.ascii_runs.AsciiRuns.TheVariants.All, declared.bulk.Stride.TheVariants.Pairs};
ghost use Rattle.decoder_core.specs.{AsciiRuns.IsOf, AsciiRuns.TakesAscii, Bulk.IsBulk, Fronts.IsFrontPut};

use crate::ascii_runs::AsciiRuns;
use crate::bulk::{Bulk, Stride};
use crate::handler::Handler;
use crate::run_bulk::begins_ascii;
use lane_utf::put_scalar;

/// The most bytes that are taken. Each is at most two bytes of UTF-8, so the block has room for
/// them.
const MOST: usize = 512;

/// Takes the leading ASCII bytes and pairs, as far as the block has room.
// Once in some hundred bytes: its loop has the registers to itself.
#[inline(never)]
pub(crate) fn take_pairs<H: Handler>(
    handler: &H,
    state: H::State,
    bytes: &[u8],
    text: &mut [u8; 1024],
) -> Bulk
    requires { TakesAscii (H.table handler.now) state All }
    ensures { IsBulk (H.table handler.now) state bytes.now result text.new }
{
    take_with(handler, state, AsciiRuns::All, bytes, text)
}

/// Takes the leading pairs, as far as the block has room. In this state no byte is a character by
/// itself.
// Once in some hundred bytes: its loop has the registers to itself.
#[inline(never)]
pub(crate) fn take_pairs_alone<H: Handler>(
    handler: &H,
    state: H::State,
    bytes: &[u8],
    text: &mut [u8; 1024],
) -> Bulk
    ensures { IsBulk (H.table handler.now) state bytes.now result text.new }
{
    take_with(handler, state, AsciiRuns::None, bytes, text)
}

/// Takes the leading pairs and the ASCII bytes between them. It takes only the pairs if no ASCII
/// byte is known to be a character by itself. It takes them as far as the block has room.
#[inline(always)]
fn take_with<H: Handler>(
    handler: &H,
    state: H::State,
    runs: AsciiRuns,
    bytes: &[u8],
    text: &mut [u8; 1024],
) -> Bulk
    requires { TakesAscii (H.table handler.now) state runs }
    ensures { IsBulk (H.table handler.now) state bytes.now result text.new }
{
    let most = bytes.len().min(MOST);
    let last = most.saturating_sub(1);
    let mut taken = 0;
    let mut written = 0;
    // From here on a long run of ASCII is sought, which is taken by itself.
    let mut sought = 0;
    'pairs: while taken < last {
        let lead = bytes[taken];
        if is_own(runs, lead) {
            let Some(next) = sought_next(bytes, taken, sought) else {
                break;
            };
            sought = next;
            written = put_scalar(text, written, u32::from(lead));
            taken += 1;
            continue;
        }
        let Some(end) = put_pair(handler, state, bytes, taken, text, written) else {
            break;
        };
        written = end;
        taken += 2;
    }
    Bulk {
        taken,
        written,
        stride: Stride::Pairs,
    }
}

/// Whether the byte is taken as the ASCII code point that it is.
#[inline(always)]
fn is_own(runs: AsciiRuns, byte: u8) -> bool
    ensures of { IsTrue result → IsOf runs byte }
    ensures low { IsTrue result → byte < 0x80 }
{
    match runs {
        AsciiRuns::All => byte < 0x80,
        _ => false,
    }
}

/// The index at which a long run of ASCII is sought next. `None` means that a run was sought and
/// begins here. No run begins within 16 bytes of an index at which none did.
#[inline(always)]
fn sought_next(bytes: &[u8], at: usize, sought: usize) -> Option<usize>
    requires { at < length bytes.now }
{
    if at < sought {
        return Some(sought);
    }
    if begins_ascii(&bytes[at..]) {
        return None;
    }
    Some(at.saturating_add(16))
}

/// Writes the code point of a pair after the text, and returns its end. It writes nothing if the
/// pair isn't one item.
#[inline(always)]
fn put_pair<H: Handler>(
    handler: &H,
    state: H::State,
    bytes: &[u8],
    at: usize,
    text: &mut [u8; 1024],
    written: usize,
) -> Option<usize>
    requires within { at + 1 < length bytes.now }
    requires room { written + 4 ≤ 1024 }
    ensures some { IfSome result (λ end. IsFrontPut (H.table handler.now) state Pairs 2 bytes.now at text.old text.new written end) }
    ensures none { IfNone result (text.new ≡ text.old) }
{
    let form = handler.known_pair(state, bytes[at], bytes[at + 1]);
    if !form.is_wide() {
        // One byte of UTF-8 stands for one byte in the source, and here it would for two.
        return None;
    }
    form.put(text, written)
}
