//! The loss of events that couldn't be recorded.
ghost use Rattle.std.specs.Prelude.{◌≡◌};
ghost use Rattle.connections.specs.Events.{with_line};

use connections::Gateway;
use std::snapshot::Snapshot;

/// A gateway before an event that couldn't be recorded. The connections that opened and closed
/// since are added. Only contracts read it.
#[derive(Drop)]
pub enum Loss<'i> {
    /// The gateway before the event.
    At(Snapshot<Gateway<'i>>),
    /// The loss after a connection opened or closed.
    Turned(Snapshot<Loss<'i>>, Snapshot<bool>, Snapshot<u8>),
}

impl<'i> Loss<'i> {
    ghost use Rattle.records.specs.Losses.{left_of, line_when};

    /// Creates the loss, with the gateway as it is now.
    pub(crate) fn of(gateway: &Gateway<'i>) -> Loss<'i>
        ensures { left_of result ≡ gateway.now }
    {
        Loss::At(Snapshot::of(gateway))
    }

    /// Adds that a connection opens or closes.
    pub(crate) fn turn(&mut self, opens: bool, c: u8)
        ensures { left_of self.new ≡ with_line (left_of self.old) c (line_when opens) }
    {
        *self = Loss::Turned(Snapshot::of(self), Snapshot::of(&opens), Snapshot::of(&c));
    }
}
