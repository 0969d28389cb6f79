//! Small index files: enough lines of each for one encoding in every family.
ghost use Rattle.std.specs.Prelude.{◌≡◌, true, IfSome};
ghost use Rattle.index_loader.specs.Files.{has_files};
ghost use Rattle.enc_names.specs.declared.encoding.Encoding.TheVariants.{Big5, EucJp, EucKr, Gb18030, Iso2022Jp, ShiftJis, Windows1252};

use enc_names::Encoding;
use index_loader::IndexKind::{self, Pair};
use index_loader::{Index, Indexes, PairEncoding};
use std::alloc::Global;

/// The kinds and a few lines of each.
const FILES: [(IndexKind, &[u8]); 8] = [
    (
        IndexKind::Jis0208,
        b"0\t0x3000\n1\t0x3001\n283\t0x3042\n1410\t0x4E9C\n",
    ),
    (IndexKind::Jis0212, b"108\t0x02D8\n"),
    (Pair(PairEncoding::Big5), b"5495\t0x4E00\n"),
    (Pair(PairEncoding::EucKr), b"9026\t0xAC00\n"),
    (IndexKind::Gb18030, b"1\t0x4E04\n"),
    (IndexKind::Gb18030Ranges, b"0\t0x0080\n189000\t0x10000\n"),
    (IndexKind::Katakana, b"0\t0x3002\n"),
    (
        IndexKind::SingleByte(Encoding::Windows1252),
        b"0\t0x20AC\n59\t0x00BB\n63\t0x00BF\n127\t0x00FF\n",
    ),
];

/// Loads these files, with all that a decoder of each legacy family needs. The Japanese encodings
/// (`japanese`) and the others (`others`) have their files. `None` if memory is refused.
pub fn small_indexes(alloc: Global) -> Option<Indexes>
    ensures japanese { IfSome result (λ indexes. (has_files indexes ShiftJis ≡ true) × (has_files indexes EucJp ≡ true)
        × (has_files indexes Iso2022Jp ≡ true)) }
    ensures others { IfSome result (λ indexes. (has_files indexes EucKr ≡ true) × (has_files indexes Big5 ≡ true)
        × (has_files indexes Gb18030 ≡ true) × (has_files indexes Windows1252 ≡ true)) }
{
    let mut indexes = Indexes::new();
    for (kind, file) in &FILES {
        indexes.put(Index::parse(alloc, *kind, file).ok()?);
    }
    if !indexes.has(Encoding::ShiftJis)
        || !indexes.has(Encoding::EucJp)
        || !indexes.has(Encoding::Iso2022Jp)
    {
        return None;
    }
    if !indexes.has(Encoding::EucKr)
        || !indexes.has(Encoding::Big5)
        || !indexes.has(Encoding::Gb18030)
        || !indexes.has(Encoding::Windows1252)
    {
        return None;
    }
    Some(indexes)
}
