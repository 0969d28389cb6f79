//! Runs of bytes that are characters, in bulk.
ghost use Rattle.std.specs.Prelude.{◌≡◌, ◌+◌, ◌<◌, ◌≤◌, IfNone, IfSome, None, length, slice_index_or, true};
ghost use Rattle.decoder_core.specs.Fronts.{AreTakenBytes, IsFrontPut, TakesByte};
ghost use Rattle.decoder_core.specs.{declared.ascii_runs.AsciiRuns.TheVariants.All, declared.bulk.Stride.TheVariants.Bytes, AsciiRuns.TakesAscii, Bulk.IsBulk};
ghost use Rattle.index_loader.specs.Form.{AreShort};

use crate::bulk::{Bulk, Stride};
use crate::handler::Handler;
use index_loader::Utf8Form;
use lane_utf::put_scalar;

/// The most bytes that are taken. Each is at most four bytes of UTF-8, so the block has room for
/// them.
const MOST: usize = 256;

/// Takes the leading bytes that are code points, as far as the block has room.
// Once in some hundred bytes: its loop has the registers to itself.
#[inline(never)]
pub(crate) fn take_bytes<H: Handler>(
    handler: &H,
    state: H::State,
    bytes: &[u8],
    text: &mut [u8; 1024],
) -> Bulk
    requires { TakesAscii (H.table handler.now) state All }
    ensures { IsBulk (H.table handler.now) state bytes.now result text.new }
{
    match handler.known_bytes(state) {
        Some(forms) if forms.are_short() => {
            take_by(handler, state, Some(forms.forms()), true, bytes, text)
        }
        Some(forms) => take_by(handler, state, Some(forms.forms()), false, bytes, text),
        None => take_by(handler, state, None, false, bytes, text),
    }
}

/// Like `take_bytes`, by the forms of all bytes if these are at hand. It may be known that each byte
/// has a form, of at most three bytes.
// Inlined, so that each way of knowing has a loop of its own.
#[inline(always)]
fn take_by<H: Handler>(
    handler: &H,
    state: H::State,
    forms: Option<&[Utf8Form; 256]>,
    short: bool,
    bytes: &[u8],
    text: &mut [u8; 1024],
) -> Bulk
    requires ascii { TakesAscii (H.table handler.now) state All }
    requires forms { IfSome forms (λ all. AreTakenBytes (H.table handler.now) state all.now) }
    requires short { short ≡ true → IfSome forms (λ all. AreShort all.now) }
    ensures { IsBulk (H.table handler.now) state bytes.now result text.new }
{
    let end = bytes.len().min(MOST);
    let mut taken = 0;
    let mut written = 0;
    'bytes: while taken < end {
        let Some(behind) = put_byte(handler, state, forms, short, bytes, taken, text, written)
        else {
            break;
        };
        written = behind;
        taken += 1;
    }
    Bulk {
        taken,
        written,
        stride: Stride::Bytes,
    }
}

/// Writes the code point of a byte after the text, and returns its end. It writes nothing if the
/// code point isn't known.
#[inline(always)]
fn put_byte<H: Handler>(
    handler: &H,
    state: H::State,
    forms: Option<&[Utf8Form; 256]>,
    short: bool,
    bytes: &[u8],
    at: usize,
    text: &mut [u8; 1024],
    written: usize,
) -> Option<usize>
    requires ascii { TakesAscii (H.table handler.now) state All }
    requires forms { IfSome forms (λ all. AreTakenBytes (H.table handler.now) state all.now) }
    requires short { short ≡ true → IfSome forms (λ all. AreShort all.now) }
    requires within { at < length bytes.now }
    requires room { written + 4 ≤ 1024 }
    ensures some { IfSome result (λ end. IsFrontPut (H.table handler.now) state Bytes 1 bytes.now at text.old text.new written end) }
    ensures none { IfNone result (text.new ≡ text.old) }
{
    let byte = bytes[at];
    if let Some(forms) = forms {
        // ASCII bytes are among these, so that there is no branch on that.
        let form = form_of(handler, state, forms, byte);
        if short {
            return Some(form.put_short(text, written));
        }
        return form.put(text, written);
    }
    if byte < 0x80 {
        return Some(put_scalar(text, written, u32::from(byte)));
    }
    let form = handler.known_byte(state, byte);
    form.put(text, written)
}

/// The form of a byte.
#[inline(always)]
fn form_of<H: Handler>(
    _handler: &H,
    _state: H::State,
    forms: &[Utf8Form; 256],
    byte: u8,
) -> Utf8Form
    requires { AreTakenBytes (H.table _handler.now) _state forms.now }
    ensures value { result ≡ slice_index_or forms.now byte None }
    ensures takes { IfSome result (λ code_point. TakesByte (H.table _handler.now) _state byte code_point) }
{
    forms[usize::from(byte)]
}
