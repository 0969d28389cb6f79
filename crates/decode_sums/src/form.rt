//! The short documents that are decoded.
ghost use Rattle.std.specs.Prelude.{◌≡◌, IfOk};
ghost use Rattle.decode_sums.specs.Documents.{count_of, document_of, pair_of};
ghost use Rattle.decode_sums.specs.declared.form.Form.TheVariants.{Four};

use std::alloc::{AllocError, Global};

/// A form of short documents. The documents of a form are numbered from 0, in ascending order of
/// their bytes.
#[derive(Clone, Copy)]
pub enum Form {
    /// Every single byte.
    Single,
    /// Every pair of bytes.
    Pair,
    /// Every pair after this byte.
    PairBehind(u8),
    /// Every pair after the escape 1B and these bytes.
    PairBehindEscape(u8, u8),
    /// The four-byte forms of gb18030: 81 to FE, 30 to 39, 81 to FE, 30 to 39.
    Four,
}

/// All forms: bytes, pairs, the four-byte characters of gb18030, and forms for two encodings. These
/// are what the three-byte characters of EUC-JP and each state of ISO-2022-JP need in addition.
pub const FORMS: [Form; 9] = [
    Form::Single,
    Form::Pair,
    Form::PairBehind(0x8F),
    Form::PairBehindEscape(0x28, 0x42),
    Form::PairBehindEscape(0x28, 0x4A),
    Form::PairBehindEscape(0x28, 0x49),
    Form::PairBehindEscape(0x24, 0x40),
    Form::PairBehindEscape(0x24, 0x42),
    Form::Four,
];

impl Form {
    /// The number of documents of this form.
    pub fn count(self) -> u32
        ensures { result ≡ count_of self }
    {
        match self {
            Form::Single => 256,
            Form::Pair | Form::PairBehind(_) | Form::PairBehindEscape(_, _) => 65_536,
            Form::Four => 1_587_600,
        }
    }

    /// The document with this number.
    pub fn document(self, alloc: Global, number: u32) -> Result<Vec<u8>, AllocError>
        ensures { IfOk result (λ document. document.items ≡ document_of self number) }
    {
        let [high, low] = pair(number);
        match self {
            Form::Single => Vec::from_slice(alloc, &[low]),
            Form::Pair => Vec::from_slice(alloc, &[high, low]),
            Form::PairBehind(lead) => Vec::from_slice(alloc, &[lead, high, low]),
            Form::PairBehindEscape(second, third) => {
                Vec::from_slice(alloc, &[0x1B, second, third, high, low])
            }
            Form::Four => Vec::from_slice(alloc, &four(number)),
        }
    }
}

/// The pair with this number.
fn pair(number: u32) -> [u8; 2]
    ensures { result ≡ pair_of number }
{
    [(number / 256 % 256) as u8, (number % 256) as u8]
}

/// The four-byte form with this number.
fn four(number: u32) -> [u8; 4]
    ensures { result ≡ document_of Four number }
{
    [
        (0x81 + number / 12_600 % 126) as u8,
        (0x30 + number / 1_260 % 10) as u8,
        (0x81 + number / 10 % 126) as u8,
        (0x30 + number % 10) as u8,
    ]
}
