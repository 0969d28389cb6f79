//! The playing of a record that is read to its end.
ghost use Rattle.std.specs.Prelude.{◌+◌, ◌<◌, ◌^◌, length};
ghost use Rattle.devices.specs.Reading.{ReadUp, ended, most_bytes};
ghost use Rattle.records.specs.Playing.{PlaysRead};

use crate::laws::law_playing;
use crate::player::{PlayFault, Player};
use connections::Gateway;
use devices::{Feed, Stop, Taker, pump};

impl<'i, W> Taker<Gateway<'i>, W> for Player {
    ghost use Rattle.std.specs.Prelude.{◌+◌, ◌-◌, ◌<◌, ◌^◌, length};
    ghost use Rattle.records.specs.Playing.{PlaysOn, PlayStops};

    type Fault = PlayFault;

    ghost ready = { λ s. s.0.whole + length s.0.line < 2 ^ 64 };

    ghost room = { λ s. 2 ^ 64 - 1 - (s.0.whole + length s.0.line) };

    ghost takes = { λ bytes s t. PlaysOn bytes s.1 t.1 s.0 t.0 };

    ghost stops = { λ fault bytes s t. PlayStops fault bytes s.1 s.0 };

    fn take(
        &mut self,
        gateway: &mut Gateway<'i>,
        _writer: &mut W,
        bytes: &[u8],
    ) -> Result<usize, PlayFault> {
        Player::take(self, gateway, bytes)
    }
}

/// Plays a record without printing, to the end of its last whole line (`plays`). The reader is read
/// to its end, or up to the fault (`reads`).
pub fn play<R: Feed>(
    player: &mut Player,
    gateway: &mut Gateway<'_>,
    reader: &mut R,
) -> Result<(), Stop<PlayFault>>
    requires { player.old.whole + length player.old.line + most_bytes < 2 ^ 64 }
    ensures plays { PlaysRead result (R.seen reader.old) (R.seen reader.new) gateway.old gateway.new player.old player.new }
    ensures reads { ReadUp (ended result) (R.seen reader.old) (R.seen reader.new) }
{
    law_playing();
    pump(reader, player, gateway, &mut ())
}
