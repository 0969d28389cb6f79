//! What is known of a client's first bytes.
ghost use Rattle.std.specs.Prelude.{◌≡◌, ◌≢◌, ◌⊎◌, List, [], ◌∷◌, ℕ};
ghost use Rattle.serving.specs.Admitting.{begins_object, begins_request};

use crate::access::Access;
use crate::first_line::{FirstLine, Progress};

/// What is known of what a client sent first.
#[derive(Clone, Copy)]
pub enum Check {
    /// It was right, or nothing is asked for. All later bytes are passed on.
    Passed,
    /// It was wrong, and no byte is passed on.
    Failed,
    /// The first byte is still to come. If it isn't one with which a request begins, all are passed on.
    NoRequest,
    /// The first byte is still to come. If an object begins with it, all are passed on.
    Object,
    /// The first line isn't complete.
    Line(FirstLine),
}

impl Check {
    ghost use Rattle.serving.specs.Admitting.{admitted};
    ghost use Rattle.serving.specs.Checking.{left_by, passed};

    /// What is known before the first byte.
    pub fn new(access: Access) -> Check
        ensures { (bytes : List ℕ) → admitted access bytes ≡ passed result bytes }
    {
        match access {
            Access::Any => Check::Passed,
            Access::NoRequest => Check::NoRequest,
            Access::Object => Check::Object,
            Access::Line(wanted) => Check::Line(FirstLine::new(wanted)),
        }
    }
    /// What is known after a byte of the first line.
    pub fn behind(progress: Progress) -> Check
        ensures { (bytes : List ℕ) → passed result bytes ≡ left_by progress bytes }
    {
        match progress {
            Progress::Begun(line) => Check::Line(line),
            Progress::Right => Check::Passed,
            Progress::Wrong => Check::Failed,
        }
    }

    /// What is known after the first byte. What is passed on from then on is all or nothing.
    pub fn after(self, first: u8) -> Check
        requires { (self ≡ Check.NoRequest) ⊎ (self ≡ Check.Object) }
        ensures passed { result ≡ Check.Passed → (more : List ℕ) → passed self (first ∷ more) ≡ first ∷ more }
        ensures failed { result ≢ Check.Passed → (result ≡ Check.Failed) × ((more : List ℕ) → passed self (first ∷ more) ≡ []) }
    {
        let is_right = match self {
            Check::Object => begins_object(first),
            _ => !begins_request(first),
        };
        if is_right {
            Check::Passed
        } else {
            Check::Failed
        }
    }
}

/// Whether a JSON object begins with this byte.
fn begins_object(byte: u8) -> bool
    ensures { result ≡ begins_object byte }
{
    byte == b'{'
}

/// Whether a request of HTTP or TLS may begin with this byte: a capital letter, or a control
/// character other than white space.
fn begins_request(byte: u8) -> bool
    ensures { result ≡ begins_request byte }
{
    byte.is_ascii_uppercase() || (byte < b' ' && !matches!(byte, b'\t' | b'\n' | b'\r'))
}
