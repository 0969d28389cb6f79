//! Laws of replies to lines.
ghost use Rattle.std.specs.Prelude.{◌≡◌, ℕ, List};
ghost use Rattle.desk.specs.Desk.{Office};
ghost use Rattle.line_protocol.specs.{Replies.memory_text, Step.Replies};

use desk::law_refusals_change_nothing;

/// States that a line answered with `OutOfMemory` leaves the desk unchanged. The call does nothing.
pub fn law_out_of_memory_changes_nothing()
    ensures { (old new : Office) (line : List ℕ) → Replies old line memory_text new → new ≡ old }
{
    law_refusals_change_nothing();
}
