//! Bytes that are compared as a whole.
ghost use Rattle.std.specs.Prelude.{◌≡◌, ◌≢◌, true, false};

/// Whether these bytes are those. All are compared, so that the loop has no branch and takes many at a time.
pub(crate) fn are_same(these: &[u8], those: &[u8]) -> bool
    ensures same { result ≡ true → these.now ≡ those.now }
    ensures other { result ≡ false → these.now ≢ those.now }
{
    if these.len() != those.len() {
        return false;
    }
    let mut same = true;
    'bytes: for i in 0..these.len() {
        same &= these[i] == those[i];
    }
    same
}
