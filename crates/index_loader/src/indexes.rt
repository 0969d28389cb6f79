//! The loaded index files.
ghost use Rattle.std.specs.Prelude.{◌≡◌, IfSome, MatchOption, None, Some, is_some};
ghost use Rattle.index_loader.specs.Exceptions.{exception_of};
ghost use Rattle.index_loader.specs.Families.{family_map};
ghost use Rattle.index_loader.specs.Files.{has_files, index_of, indexes_of, no_files, with_exceptions, with_index};

use crate::exceptions::Exceptions;
use crate::family::Family;
use crate::index::Index;
use crate::kind::{IndexKind, family_of};
use enc_names::{Encoding, Scalar};
use std::marker::Model;

/// The loaded index files, at most one of each kind, with the exceptions of gb18030.
#[derive(Drop)]
pub struct Indexes {
    /// The index of each kind, at the place of the kind.
    slots: [Option<Index>; 34],
    /// The exceptions of the gb18030 encoder, if their file was loaded.
    exceptions: Option<Exceptions>,
}

impl Model for Indexes {
    ghost use Rattle.index_loader.specs.Files.{Files};

    ghost Value = { Files };

    ghost use Rattle.std.specs.Prelude.{[], unwrap_or};
    ghost use Rattle.index_loader.specs.Slots.{AreInTheirSlots, pairs_kept};

    ghost view = { λ s. record { slots = pairs_kept s.slots; exceptions = unwrap_or s.exceptions [] } };

    ghost invariant = { λ s. AreInTheirSlots s.slots };
}

impl Indexes {
    /// No index file at all.
    pub fn new() -> Indexes
        ensures { result ≡ no_files }
    {
        Indexes {
            slots: [
                None, None, None, None, None, None, None, None, None, None, None, None, None, None,
                None, None, None, None, None, None, None, None, None, None, None, None, None, None,
                None, None, None, None, None, None,
            ],
            exceptions: None,
        }
    }

    /// Puts an index in place of the one of its kind.
    pub fn put(&mut self, index: Index)
        ensures { self.new ≡ with_index self.old index }
    {
        let Some(slot) = index.kind().slot() else {
            return;
        };
        self.slots[slot] = Some(index);
    }

    /// Puts the exceptions of the gb18030 encoder in place of those that are there.
    pub fn put_exceptions(&mut self, exceptions: Exceptions)
        ensures { self.new ≡ with_exceptions self.old exceptions }
    {
        self.exceptions = Some(exceptions);
    }

    /// The bytes of a code point that is an exception of the gb18030 encoder. There are none if the
    /// exceptions' file wasn't loaded. Takes no memory.
    pub fn exception_of(&self, code_point: Scalar) -> Option<[u8; 2]>
        ensures { result ≡ exception_of self.now.exceptions code_point }
    {
        self.exceptions.as_ref()?.bytes_of(code_point)
    }

    /// The index of this kind. A kind that has no files, as that of an encoding whose index isn't
    /// its own, has none.
    pub fn get(&self, kind: IndexKind) -> Option<&Index>
        ensures { MatchOption result (index_of self.now kind ≡ None) (λ index. index_of self.now kind ≡ Some index.now) }
    {
        self.slots[kind.slot()?].as_ref()
    }

    /// Borrows what an encoding needs of the index files (Encoding Standard, "Indexes") (`lent`). It
    /// is `None` if one of these files isn't loaded (`there`). Takes no memory.
    #[tactic(auto, unfolding(crate::specs::Files::has_files))]
    pub fn of(&self, encoding: Encoding) -> Option<Family<&Index>>
        ensures there { is_some result ≡ has_files self.now encoding }
        ensures lent { IfSome result (λ family. family_map (λ index. Some index.now) family ≡ indexes_of self.now encoding) }
    {
        Some(match family_of(encoding) {
            Family::Utf8 => Family::Utf8,
            Family::SingleByte(index) => Family::SingleByte(self.get(index)?),
            Family::Gb18030 { index, ranges } => Family::Gb18030 {
                index: self.get(index)?,
                ranges: self.get(ranges)?,
            },
            Family::Pair(encoding, index) => Family::Pair(encoding, self.get(index)?),
            Family::EucJp { jis0208, jis0212 } => Family::EucJp {
                jis0208: self.get(jis0208)?,
                jis0212: self.get(jis0212)?,
            },
            Family::Iso2022Jp { jis0208, katakana } => Family::Iso2022Jp {
                jis0208: self.get(jis0208)?,
                katakana: self.get(katakana)?,
            },
            Family::Replacement => Family::Replacement,
            Family::Utf16Be => Family::Utf16Be,
            Family::Utf16Le => Family::Utf16Le,
            Family::XUserDefined => Family::XUserDefined,
        })
    }

    /// Whether all files that the encoding needs are loaded. The exceptions aren't needed.
    pub fn has(&self, encoding: Encoding) -> bool
        ensures { result ≡ has_files self.now encoding }
    {
        self.of(encoding).is_some()
    }
}
