//! The index files that encodings need.
ghost use Rattle.std.specs.Prelude.{◌≡◌};
ghost use Rattle.index_files.specs.Needed.{is_needed, needs};

use enc_names::Encoding;
use index_loader::{IndexKind, PairEncoding};

/// Whether one of these encodings needs the index file of this kind.
pub(crate) fn is_needed(encodings: &[Encoding], kind: IndexKind) -> bool
    ensures { result ≡ is_needed encodings.now kind }
{
    encodings.iter().any(|encoding| needs(*encoding, kind))
}

/// Whether an encoding needs the index file of this kind (Encoding Standard, "Indexes").
fn needs(encoding: Encoding, kind: IndexKind) -> bool
    ensures { result ≡ needs encoding kind }
{
    match encoding {
        Encoding::Utf8
        | Encoding::Replacement
        | Encoding::Utf16Be
        | Encoding::Utf16Le
        | Encoding::XUserDefined => false,
        Encoding::Gb18030 | Encoding::Gbk => {
            matches!(kind, IndexKind::Gb18030 | IndexKind::Gb18030Ranges)
        }
        Encoding::EucJp => matches!(kind, IndexKind::Jis0208 | IndexKind::Jis0212),
        Encoding::Iso2022Jp => matches!(kind, IndexKind::Jis0208 | IndexKind::Katakana),
        Encoding::ShiftJis => matches!(kind, IndexKind::Jis0208),
        Encoding::EucKr => IndexKind::Pair(PairEncoding::EucKr) == kind,
        Encoding::Big5 => IndexKind::Pair(PairEncoding::Big5) == kind,
        Encoding::Iso8859_8I => IndexKind::SingleByte(Encoding::Iso8859_8) == kind,
        _ => IndexKind::SingleByte(encoding) == kind,
    }
}
