//! Pointers of index jis0208 in pairs of the JIS X 0208 code space.
ghost use Rattle.std.specs.Prelude.{◌≡◌, ◌≤◌, IfSome};
ghost use Rattle.iso2022jp.specs.JisPointer.{jis_pointer};

use enc_names::Scalar;
use index_loader::Index;

/// The smallest pointer of a code point in index jis0208 (`value`). There is none outside of the 94
/// rows of 94 (`bound`): a greater pointer has no pair in EUC-JP or ISO-2022-JP.
pub fn row_pointer(jis0208: &Index, code_point: char) -> Option<u32>
    ensures value { result ≡ jis_pointer jis0208.now code_point }
    ensures bound { IfSome result (λ p. p ≤ 8835) }
{
    let pointer = jis0208.pointer(Scalar::from(code_point))?;
    if pointer <= 8835 { Some(pointer) } else { None }
}
