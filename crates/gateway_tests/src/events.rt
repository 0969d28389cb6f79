//! Tests of what no trace brings: no bytes at all, and a run on a number that is not free.
ghost use Rattle.std.specs.Prelude.{◌≡◌, ◌∷◌, [], codes};
ghost use Rattle.connections.specs.Lines.{complete, unfinished};

use crate::plays::{SESSION, new_gateway};
use gateway::{Event, Gateway, MemFeed, MemOutlet, RunFault, run};
use index_loader::Indexes;
use std::alloc::Global;
use std::test::Fail;

/// Three line feeds in pieces: the lines that they complete, and the partial line after them.
fn cut_lines()
    ensures whole { complete [] (codes "ab\n\nc\r\nd") ≡ codes "ab" ∷ [] ∷ codes "c\r" ∷ [] }
    ensures rest { unfinished [] (codes "ab\n\nc\r\nd") ≡ codes "d" }
    ensures later { complete (codes "a") (codes "b\nc") ≡ codes "ab" ∷ [] }
    ensures none { unfinished (codes "a") (codes "b") ≡ codes "ab" }
{}

/// Whether an event is accepted, and nothing answered to it.
fn is_silent(gateway: &mut Gateway<'_>, event: Event<'_>) -> bool {
    match gateway.event(event) {
        Ok(out) => out.reply.is_none(),
        Err(_) => false,
    }
}

/// Whether a run on this number is refused, and nothing written.
fn is_refused(alloc: Global, gateway: &mut Gateway<'_>, number: u8) -> bool {
    let mut reader = MemFeed::new(SESSION.as_bytes());
    let mut writer = MemOutlet::new(alloc);
    let result = run(gateway, number, &mut reader, &mut writer);
    result == Err(RunFault::NotFree) && writer.bytes().is_empty()
}

#[test]
fn no_bytes_and_numbers_that_are_not_free(rt: HostRuntime) -> Result<(), Fail> {
    let indexes = Indexes::new();
    let mut gateway = new_gateway(rt.alloc(), &indexes)?;
    for event in [Event::Open(0), Event::Bytes(0, b""), Event::Open(15)] {
        assert!(rt; is_silent(&mut gateway, event));
    }
    for number in [0, 15, 16, 255] {
        assert!(rt;
            is_refused(rt.alloc(), &mut gateway, number),
            "connection {number}"
        );
    }
    Ok(())
}
