//! The gateway at the start of a run, a trace or a listener.
ghost use Rattle.std.specs.Prelude.{◌≡◌};
ghost use Rattle.gate.specs.Serving.{beginning};

use desk::Desk;
use enc_names::Labels;
use gateway::Gateway;
use index_loader::Indexes;
use std::alloc::Global;

/// A gateway with these index files and labels, without documents and open connections.
pub fn beginning<'i>(alloc: Global, indexes: &'i Indexes, labels: Labels) -> Gateway<'i>
    ensures { result ≡ beginning indexes.now labels }
{
    match Desk::new(alloc, indexes, labels) {
        Ok(desk) => Gateway::new(alloc, desk),
        Err(_) => unreachable!(),
    }
}
