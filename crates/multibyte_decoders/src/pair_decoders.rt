//! The decoders of single bytes and pairs, each by the rules of its encoding.
ghost use Rattle.std.specs.Prelude.{◌≡◌};
ghost use Rattle.std.proofs.Common.{rules};
ghost use Rattle.index_loader.specs.Index.{code_point_of};
ghost use Rattle.decoder_core.specs.Holding.{falls_of, counts_of};
ghost use Rattle.multibyte_decoders.specs.declared.pairs.PairState.TheVariants.{Idle};
ghost use Rattle.multibyte_decoders.specs.{Holdings.pair_holding, PairRules.decoder_of, PairRules.over, PairRules.rule_of, PairRules.source};

mod big5;
mod euc_kr;
mod shift_jis;

use crate::pairs::{PairDecoder, PairState};
use decoder_core::{Handled, Handler};
use index_loader::{Index, PairEncoding};

/// The decoder of an encoding of single bytes and pairs.
#[derive(Drop)]
pub enum PairDecoders<'i> {
    /// The decoder of Shift_JIS.
    ShiftJis(PairDecoder<'i, shift_jis::ShiftJisRules>),
    /// The decoder of EUC-KR.
    EucKr(PairDecoder<'i, euc_kr::EucKrRules>),
    /// The decoder of Big5.
    Big5(PairDecoder<'i, big5::Big5Rules>),
}

/// Runs an arm with a decoder of pairs, found by one match: `$arm!(Pair, DECODER, $with ..)`.
#[macro_export]
macro_rules! by_pairs {
    ($pairs:expr, $arm:ident $(, $with:expr)*) => {
        match $pairs {
            $crate::PairDecoders::ShiftJis(d) => $arm!(Pair, d $(, $with)*),
            $crate::PairDecoders::EucKr(d) => $arm!(Pair, d $(, $with)*),
            $crate::PairDecoders::Big5(d) => $arm!(Pair, d $(, $with)*),
        }
    };
}

/// A turn of the decoder.
macro_rules! turn {
    ($name:ident, $decoder:expr, $state:expr, $byte:expr) => {
        $decoder.turn($state, $byte)
    };
}

impl<'i> PairDecoders<'i> {
    /// The decoder of an encoding over its index.
    pub fn new(encoding: PairEncoding, index: &'i Index) -> PairDecoders<'i>
        ensures { result ≡ over encoding index.now }
    {
        match encoding {
            PairEncoding::ShiftJis => PairDecoders::ShiftJis(PairDecoder::new(index)),
            PairEncoding::EucKr => PairDecoders::EucKr(PairDecoder::new(index)),
            PairEncoding::Big5 => PairDecoders::Big5(PairDecoder::new(index)),
        }
    }
}

impl<'i> Handler for PairDecoders<'i> {
    type State = PairState;

    ghost table = { decoder_of };

    ghost initial = { λ _. Idle };

    fn start_state(&self) -> PairState {
        PairState::Idle
    }

    fn turn(&self, state: PairState, byte: Option<u8>) -> Handled<PairState> {
        by_pairs!(self, turn, state, byte)
    }

    ghost ends = { λ d. falls_of _ (pair_holding (rule_of (source d).encoding) (code_point_of (source d).index)) };

    ghost counts = { λ d. counts_of _ (pair_holding (rule_of (source d).encoding) (code_point_of (source d).index)) };

    ghost exact = { λ a b h. Prim.search rules };
}
