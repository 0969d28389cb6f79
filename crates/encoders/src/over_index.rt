//! Encoders over one index.
ghost use Rattle.std.specs.Prelude.{◌≡◌, ℕ, [], ◌∷◌, List, Option, Some, option_map, true};
ghost use Rattle.decoder_core.specs.{Steps.bytes_of, Forms.is_ascii};
ghost use Rattle.index_loader.specs.{Index.Loaded, Table.pointer_limit};

use crate::stateless::Stateless;
use decoder_core::Few;
use index_loader::Index;
use std::marker::{Model, PhantomData};

/// The rules of an encoding that keeps no state: the bytes of a code point, by its index.
pub(crate) trait IndexRules {
    ghost limit: { ℕ };

    ghost written: { Loaded → ℕ → Option (List ℕ) };

    /// The bytes of a code point, if it has any. The index has no pointer above the limit.
    fn bytes(index: &Index, code_point: char) -> Option<Few>
        requires { pointer_limit index.now.kind ≡ limit }
        ensures { option_map bytes_of result ≡ written index.now code_point };

    ghost ascii: { (index : Loaded) (c : ℕ) → is_ascii c ≡ true → written index c ≡ Some (c ∷ []) };
}

/// The encoder by these rules, which borrows its index. Contracts see the index.
#[derive(Drop)]
pub(crate) struct IndexEncoder<'i, R: IndexRules> {
    index: &'i Index,
    encoding: PhantomData<R>,
}

impl<'i, R: IndexRules> Model for IndexEncoder<'i, R> {
    ghost use Rattle.std.specs.Prelude.{◌≡◌};
    ghost use Rattle.index_loader.specs.{Index.Loaded, Table.pointer_limit};

    ghost Value = { Loaded };

    ghost view = { λ e. e.index.now };

    ghost invariant = { λ e. pointer_limit e.index.now.kind ≡ R.limit };
}

impl<'i, R: IndexRules> IndexEncoder<'i, R> {
    /// The encoder over its index.
    pub(crate) fn new(index: &'i Index) -> IndexEncoder<'i, R>
        requires { pointer_limit index.now.kind ≡ R.limit }
        ensures { result ≡ index.now }
    {
        IndexEncoder {
            index,
            encoding: PhantomData,
        }
    }
}

impl<'i, R: IndexRules> Stateless for IndexEncoder<'i, R> {
    ghost encodes = { R.written };

    #[inline(always)]
    fn bytes(&self, code_point: char) -> Option<Few> {
        R::bytes(self.index, code_point)
    }

    ghost ascii = { R.ascii };
}
