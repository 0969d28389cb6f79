//! The kinds of index files, with their files, and which of them each encoding needs.
ghost use Rattle.std.specs.Prelude.{◌≡◌, ◌<◌, ◌↔◌, IfSome, IsTrue, position};
ghost use Rattle.index_loader.specs.Index.{is_ranges};
ghost use Rattle.index_loader.specs.Kinds.{family_of, greatest_pointer, home_of, pairs_by, same_kind, slot_of};

use self::IndexKind::{Pair, SingleByte};
use crate::family::Family;
use enc_names::Encoding;

/// An encoding of single bytes and pairs that is decoded and encoded over one index.
#[derive(Clone, Copy, PartialEq, Eq, Debug)]
pub enum PairEncoding {
    /// Japanese, by the index of JIS X 0208.
    ShiftJis,
    /// Korean, with the extension of windows-949.
    EucKr,
    /// Traditional Chinese, with the Hong Kong supplement.
    Big5,
}

/// A kind of index file (Encoding Standard, "Indexes").
#[derive(Clone, Copy, PartialEq, Eq, Debug)]
pub enum IndexKind {
    /// The index of a single-byte encoding. ISO-8859-8-I has that of ISO-8859-8.
    SingleByte(Encoding),
    /// The index of an encoding of single bytes and pairs. Shift_JIS has that of JIS X 0208.
    Pair(PairEncoding),
    /// The index of JIS X 0208 with its neighbours, for EUC-JP, ISO-2022-JP and Shift_JIS.
    Jis0208,
    /// The index of JIS X 0212, for EUC-JP.
    Jis0212,
    /// The two-byte index of gb18030 and GBK.
    Gb18030,
    /// The ranges of gb18030, whose rows are looked up by a rule of their own.
    Gb18030Ranges,
    /// The half-width katakana of ISO-2022-JP.
    Katakana,
}

/// The index files: each kind with the name that its file has in a folder, in the order in which
/// the files are read. The place in this list is the one under which a loaded index is kept.
pub const INDEX_FILES: [(IndexKind, &str); 34] = [
    (SingleByte(Encoding::Ibm866), "index-ibm866.txt"),
    (SingleByte(Encoding::Iso8859_2), "index-iso-8859-2.txt"),
    (SingleByte(Encoding::Iso8859_3), "index-iso-8859-3.txt"),
    (SingleByte(Encoding::Iso8859_4), "index-iso-8859-4.txt"),
    (SingleByte(Encoding::Iso8859_5), "index-iso-8859-5.txt"),
    (SingleByte(Encoding::Iso8859_6), "index-iso-8859-6.txt"),
    (SingleByte(Encoding::Iso8859_7), "index-iso-8859-7.txt"),
    (SingleByte(Encoding::Iso8859_8), "index-iso-8859-8.txt"),
    (SingleByte(Encoding::Iso8859_10), "index-iso-8859-10.txt"),
    (SingleByte(Encoding::Iso8859_13), "index-iso-8859-13.txt"),
    (SingleByte(Encoding::Iso8859_14), "index-iso-8859-14.txt"),
    (SingleByte(Encoding::Iso8859_15), "index-iso-8859-15.txt"),
    (SingleByte(Encoding::Iso8859_16), "index-iso-8859-16.txt"),
    (SingleByte(Encoding::Koi8R), "index-koi8-r.txt"),
    (SingleByte(Encoding::Koi8U), "index-koi8-u.txt"),
    (SingleByte(Encoding::Macintosh), "index-macintosh.txt"),
    (SingleByte(Encoding::Windows874), "index-windows-874.txt"),
    (SingleByte(Encoding::Windows1250), "index-windows-1250.txt"),
    (SingleByte(Encoding::Windows1251), "index-windows-1251.txt"),
    (SingleByte(Encoding::Windows1252), "index-windows-1252.txt"),
    (SingleByte(Encoding::Windows1253), "index-windows-1253.txt"),
    (SingleByte(Encoding::Windows1254), "index-windows-1254.txt"),
    (SingleByte(Encoding::Windows1255), "index-windows-1255.txt"),
    (SingleByte(Encoding::Windows1256), "index-windows-1256.txt"),
    (SingleByte(Encoding::Windows1257), "index-windows-1257.txt"),
    (SingleByte(Encoding::Windows1258), "index-windows-1258.txt"),
    (
        SingleByte(Encoding::XMacCyrillic),
        "index-x-mac-cyrillic.txt",
    ),
    (IndexKind::Jis0208, "index-jis0208.txt"),
    (IndexKind::Jis0212, "index-jis0212.txt"),
    (IndexKind::Katakana, "index-iso-2022-jp-katakana.txt"),
    (Pair(PairEncoding::EucKr), "index-euc-kr.txt"),
    (Pair(PairEncoding::Big5), "index-big5.txt"),
    (IndexKind::Gb18030, "index-gb18030.txt"),
    (IndexKind::Gb18030Ranges, "index-gb18030-ranges.txt"),
];

/// The family of an encoding (Encoding Standard, "Names and labels"). It has the kinds of the index
/// files that the encoding needs.
pub(crate) fn family_of(encoding: Encoding) -> Family<IndexKind>
    ensures { result ≡ family_of encoding }
{
    match encoding {
        Encoding::Utf8 => Family::Utf8,
        Encoding::Gb18030 | Encoding::Gbk => Family::Gb18030 {
            index: IndexKind::Gb18030,
            ranges: IndexKind::Gb18030Ranges,
        },
        Encoding::EucJp => Family::EucJp {
            jis0208: IndexKind::Jis0208,
            jis0212: IndexKind::Jis0212,
        },
        Encoding::Iso2022Jp => Family::Iso2022Jp {
            jis0208: IndexKind::Jis0208,
            katakana: IndexKind::Katakana,
        },
        Encoding::ShiftJis => pairs_by(PairEncoding::ShiftJis),
        Encoding::EucKr => pairs_by(PairEncoding::EucKr),
        Encoding::Big5 => pairs_by(PairEncoding::Big5),
        Encoding::Replacement => Family::Replacement,
        Encoding::Utf16Be => Family::Utf16Be,
        Encoding::Utf16Le => Family::Utf16Le,
        Encoding::XUserDefined => Family::XUserDefined,
        _ => Family::SingleByte(SingleByte(encoding)),
    }
}

/// The family of an encoding of single bytes and pairs.
fn pairs_by(encoding: PairEncoding) -> Family<IndexKind>
    ensures { result ≡ pairs_by encoding }
{
    Family::Pair(encoding, Pair(encoding))
}

impl IndexKind {
    /// The position of this kind's file among the index files, if it has files.
    #[tactic(auto, unfolding(crate::specs::Kinds::slot_of))]
    pub(crate) fn slot(self) -> Option<usize>
        ensures value { result ≡ slot_of self }
        ensures bound { IfSome result (λ slot. slot < 34) }
    {
        place_of(self.home(), &INDEX_FILES)
    }

    /// The kind under which the file of this kind is kept: ISO-8859-8-I has that of ISO-8859-8, and
    /// Shift_JIS that of JIS X 0208.
    pub(crate) fn home(self) -> IndexKind
        ensures { result ≡ home_of self }
    {
        match self {
            SingleByte(Encoding::Iso8859_8I) => SingleByte(Encoding::Iso8859_8),
            Pair(PairEncoding::ShiftJis) => IndexKind::Jis0208,
            _ => self,
        }
    }

    /// The greatest pointer that a file of this kind may have. For the ranges it is that of the
    /// last row before the row of the planes above the first.
    pub(crate) fn greatest_pointer(self) -> u32
        ensures { result ≡ greatest_pointer self }
    {
        match self {
            SingleByte(_) => 127,
            Pair(PairEncoding::ShiftJis) | IndexKind::Jis0208 => 11_279,
            Pair(PairEncoding::EucKr) | IndexKind::Gb18030 => 23_939,
            Pair(PairEncoding::Big5) => 19_781,
            IndexKind::Jis0212 => 8_835,
            IndexKind::Gb18030Ranges => 39_419,
            IndexKind::Katakana => 62,
        }
    }

    /// Whether this is the kind of the ranges, which have rules of their own.
    pub(crate) fn is_ranges(self) -> bool
        ensures { result ≡ is_ranges self }
    {
        matches!(self, IndexKind::Gb18030Ranges)
    }
}

/// Whether both are one kind.
fn is_same(one: IndexKind, other: IndexKind) -> bool
    ensures value { result ≡ same_kind one other }
    ensures same { IsTrue result ↔ (one ≡ other) }
{
    one == other
}

/// The place of a kind's file among these.
fn place_of(kind: IndexKind, files: &[(IndexKind, &str)]) -> Option<usize>
    ensures { result ≡ position (λ file. same_kind kind file.0) files.now }
{
    files.iter().position(|file| is_same(kind, file.0))
}
