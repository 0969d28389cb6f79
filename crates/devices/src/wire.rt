//! A device of which no call waits.
ghost use Rattle.std.specs.Prelude.{◌≡◌, ℕ, ◌<◌, ◌≤◌, ◌++◌, List, length, take, IfOk, OnErr};
ghost use Rattle.devices.specs.Wires.{arrived_count, arrived, ArrivesSome, taken_count};

use crate::device::Failed;

/// The result of a read of a wire.
#[derive(Clone, Copy, PartialEq, Eq, Debug)]
pub enum Arrival {
    /// Bytes: their number, at least one.
    Bytes(usize),
    /// No byte yet.
    NotYet,
    /// The end: no more bytes will come.
    End,
}

/// A wire that bytes are read from and written to, without waiting for either. Contracts see all
/// bytes that its reads returned and that its writes took. After a failure it is of no more use.
pub trait Wire {
    /// The bytes that its reads returned.
    ghost received: { Self → List ℕ };

    /// The bytes that its writes took.
    ghost sent: { Self → List ℕ };

    /// Whether its last read found no byte yet.
    ghost is_empty: { Self → Type 0 };

    /// Whether its last write would have had to wait.
    ghost is_full: { Self → Type 0 };

    /// Whether it has reported the end, or failed.
    ghost is_over: { Self → Type 0 };

    /// Reads bytes into the front of `buf`. It reads at most the length of `buf` (`bound`), and an
    /// arrival of bytes has at least one (`some`). What was received grows by these bytes
    /// (`received`); what was sent is unchanged (`sent`). `NotYet` means that the wire is empty for
    /// now (`empty`), `End` that it is over (`end`). After a failure it is over too (`failed`).
    fn read(&mut self, buf: &mut [u8]) -> Result<Arrival, Failed>
        ensures bound { arrived_count result ≤ length buf.new }
        ensures some { IfOk result ArrivesSome }
        ensures received { received self.new ≡ received self.old ++ arrived result buf.new }
        ensures sent { sent self.new ≡ sent self.old }
        ensures empty { IfOk result (λ arrival. arrival ≡ Arrival.NotYet → is_empty self.new) }
        ensures end { IfOk result (λ arrival. arrival ≡ Arrival.End → is_over self.new) }
        ensures failed { OnErr result (is_over self.new) };

    /// Writes bytes from the front of `buf`, and returns how many: none if it would have to wait. It
    /// writes at most the length of `buf` (`bound`). What was received is unchanged (`received`);
    /// what was sent grows by these bytes (`sent`). If it writes none of at least one byte, the wire
    /// is full (`full`). After a failure it is over (`failed`).
    fn write(&mut self, buf: &[u8]) -> Result<usize, Failed>
        ensures bound { taken_count result ≤ length buf.now }
        ensures received { received self.new ≡ received self.old }
        ensures sent { sent self.new ≡ sent self.old ++ take (taken_count result) buf.now }
        ensures full { IfOk result (λ n. n ≡ 0 → 0 < length buf.now → is_full self.new) }
        ensures failed { OnErr result (is_over self.new) };
}
