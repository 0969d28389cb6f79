//! Laws of records that begin with a head.
ghost use Rattle.records.specs.Heads.{CutHeadsArePlayed, HeadlessArePlayed, HeadsComeFirst};

use connections::{law_events_go_on, law_lines, law_replies_in_order};

/// Proves the laws of records that begin with a head; the call does nothing. The lines of the head
/// are obeyed first, and then the events are played (`first`). A record without a head is played as
/// its events are (`headless`). A record may be cut (`cut_played`). If it is cut within its head,
/// the whole lines of the head there are obeyed, and nothing else happens. If it is cut after its
/// head, it leads, from the documents of the head, to what `law_records` says.
pub fn law_headed_records()
    ensures first { HeadsComeFirst }
    ensures headless { HeadlessArePlayed }
    ensures cut_played { CutHeadsArePlayed }
{
    law_lines();
    law_events_go_on();
    law_replies_in_order();
}
