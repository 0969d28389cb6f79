//! Laws of every decoder, and of every document's items.
ghost use Rattle.piece_rope.specs.{Chained.ChainLaws, Laws.IsLawful};

use state_memo::{AnyDecoder, law_pieces};

/// States the laws of `law_pieces` as one fact. Functions here pass that fact to one another: if
/// each of them had all laws as premises, its proof would carry them from step to step. The call
/// does nothing.
pub(crate) fn law_decoder(decoder: &AnyDecoder<'_>)
    ensures { IsLawful decoder.now }
{
    law_pieces(decoder);
}

/// The laws by which the items of a document are in a row; the call does nothing.
pub fn law_chained()
    ensures { ChainLaws }
{}
