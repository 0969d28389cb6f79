//! Tests of what the decoder takes in bulk.
use crate::indexes::JIS0208;
use decoder_core::Decoder;
use index_loader::{Index, IndexKind};
use iso2022jp::Iso2022JpDecoder;
use std::test::Fail;

/// Counts the bytes of a line that the decoder takes once it read some bytes. The second number is
/// that of the bytes that it reports as their own text.
fn taken_behind(decoder: &Iso2022JpDecoder<'_>, bytes: &[u8]) -> (usize, usize) {
    let mut state = decoder.start();
    for byte in bytes {
        state = decoder.step(state, *byte).state;
    }
    let mut block = [0; 1024];
    let line = b"of twenty-six letters each\x1B$B";
    let taken = decoder.bulk(state, line, &mut block).taken;
    (taken, decoder.own_text(state, line))
}

#[test]
fn bulk_in_the_state_ascii_alone(rt: HostRuntime) -> Result<(), Fail> {
    let jis0208 = Index::parse(rt.alloc(), IndexKind::Jis0208, JIS0208)?;
    let decoder = Iso2022JpDecoder::new(&jis0208);
    // The flag is true directly after an escape.
    let rows: [(&[u8], usize); 9] = [
        (b"", 26),
        (b"a", 26),
        (b"\x1B(B", 0),
        (b"\x1B(Ba", 26),
        (b"\x1B(Ja", 0),
        (b"\x1B(I1", 0),
        (b"\x1B$B$\x22", 0),
        (b"\x1B$B$", 0),
        (b"\x1B", 0),
    ];
    for (bytes, taken) in rows {
        assert!(rt; taken_behind(&decoder, bytes) == (taken, taken));
    }
    Ok(())
}
