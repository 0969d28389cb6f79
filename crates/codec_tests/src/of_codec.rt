//! The meter. That an encoding without its index files is refused is a row of `compare_rows`, and tried
//! on the program by tests/program/test_program.py.

use codec::{AnyDecoder, CodecFault, decode_any};
use decoder_core::meter;
use enc_names::{Bom, Encoding};
use index_loader::Indexes;
use std::test::Fail;

mod examples;
mod sniffing;

#[test]
fn meter_counts_the_bytes_behind_the_mark(rt: HostRuntime) -> Result<(), Fail> {
    let indexes = Indexes::new();
    let decoder = AnyDecoder::new(&indexes, Encoding::Utf8, Bom::Sniff).ok_or(CodecFault::NoIndex)?;
    let mut count = meter();
    let rows: [(&[u8], u64); 2] = [(b"\xEF\xBB\xBFAB", 2), (b"ABC", 5)];
    for (bytes, decoded) in rows {
        decode_any(rt.alloc(), &decoder, bytes, &mut count)?;
        assert!(rt; count.decoded() == decoded);
    }
    Ok(())
}
