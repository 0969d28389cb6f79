//! Steps of the decoders, and runs whose sink refuses.
use crate::indexes::WINDOWS_1252;
use decoder_core::{
    Decoder, Ended, Item, Items, OutOfMemory, SingleByteDecoder, Sink, Stride, Utf8Decoder,
    law_one_run, meter, run_piece,
};
use enc_names::{Encoding, Scalar};
use index_loader::{Index, IndexKind};
use std::alloc::AllocError;
use std::test::Fail;

mod bulk;
mod examples;

/// Whether these are the items of a step.
fn are(items: &Items, wanted: &[Ended]) -> bool {
    items.as_slice() == wanted
}

#[test]
fn a_step_gives_an_item_before_its_byte(rt: HostRuntime) {
    law_one_run(&Utf8Decoder);
    let error = |back: u8| Ended {
        item: Item::Error,
        back,
    };
    let a = Ended {
        item: Item::One(Scalar::from('A')),
        back: 0,
    };
    let pending = Utf8Decoder.step(Utf8Decoder.start(), 0xE2).state;
    let step = Utf8Decoder.step(pending, 0x41);
    assert!(rt; step.state == Utf8Decoder.start() && are(&step.items, &[error(1), a]));
    assert!(rt; are(&Utf8Decoder.finish(pending).items, &[error(0)]));
}

#[test]
fn eight_items(rt: HostRuntime) {
    let mut items = Items::none();
    for back in 0..8 {
        items.push(Item::Error, back);
    }
    let backs = items.as_slice().iter().map(|e| e.back);
    assert!(rt; backs.eq(0..8));
}

/// Takes as many items as there is room for and then refuses.
#[derive(Drop)]
struct Bounded {
    room: u8,
    ends: [i64; 4],
}

impl<S: Copy> Sink<S> for Bounded {
    ghost Seen = { Unit {0} };

    ghost seen = { λ _. tt };

    ghost taken = { λ _ _. tt };

    fn item(&mut self, _item: Item, end: i64, _after: S) -> Result<(), OutOfMemory> {
        if self.room == 0 {
            return Err(AllocError);
        }
        self.room -= 1;
        self.ends[3 - self.room as usize % 4] = end;
        Ok(())
    }

    fn plain(
        &mut self,
        _text: &str,
        _width: usize,
        end: i64,
        _stride: Stride,
        after: S,
    ) -> Result<(), OutOfMemory> {
        self.item(Item::Error, end, after)
    }
}

#[test]
fn a_refusing_sink_stops_the_run(rt: HostRuntime) -> Result<(), Fail> {
    // None of these bytes has a code point, so that they are stepped over.
    let kind = IndexKind::SingleByte(Encoding::Windows1252);
    let index = Index::parse(rt.alloc(), kind, WINDOWS_1252)?;
    let decoder = SingleByteDecoder::new(&index);
    let mut sink = Bounded {
        room: 2,
        ends: [0; 4],
    };
    let mut count = meter();
    let outcome = run_piece(&decoder, decoder.start(), &[0x81; 4], &mut sink, &mut count);
    assert!(rt; outcome.is_err() && sink.ends == [0, 0, 1, 2]);
    assert!(rt; count.decoded() == 4);
    Ok(())
}

#[test]
fn ends_are_counted_from_the_piece(rt: HostRuntime) {
    let mut sink = Bounded {
        room: 4,
        ends: [0; 4],
    };
    let mut count = meter();
    let pending = Utf8Decoder.step(Utf8Decoder.start(), 0xE2).state;
    let outcome = run_piece(&Utf8Decoder, pending, b"ab", &mut sink, &mut count);
    assert!(rt; outcome.is_ok() && sink.ends == [0, 1, 2, 0]);
    assert!(rt; count.decoded() == 2);
}
