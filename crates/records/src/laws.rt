//! Laws of records, which every gateway meets.
ghost use Rattle.records.specs.Lines.{LinesAreEvents, RecordsAreCut};
ghost use Rattle.records.specs.Playing.{PlaysGoOn, StopsGoOn};
ghost use Rattle.records.specs.Records.{CutsArePlayed, EventsAreRecorded, RecordsArePlayed, RecordsGoOn};

use connections::{law_events_go_on, law_lines, law_replies_in_order};
use line_protocol::law_out_of_memory_changes_nothing;

/// Proves that bytes that are played in parts are played (`on`). If bytes can't be played after
/// others, both together can't be played (`stops`). The call does nothing. It is for callers that
/// give a `Player` the bytes that they read.
pub fn law_playing()
    ensures on { PlaysGoOn }
    ensures stops { StopsGoOn }
{
    law_lines();
}

/// Proves the laws of records; the call does nothing:
///
/// - A line of a record is read as its event (`lines`). If a record is cut anywhere, its whole
///   lines are read, and the rest isn't a line (`cut`).
/// - What is recorded of an event is a record of what it did (`recorded`). Two records, one after
///   the other, are a record (`go_on`).
/// - A record that is played leads to the desk that its gateway had (`played`). If the record is
///   cut anywhere, it leads to the desk after the last line that is whole (`cut_played`).
pub fn law_records()
    ensures lines { LinesAreEvents }
    ensures cut { RecordsAreCut }
    ensures recorded { EventsAreRecorded }
    ensures go_on { RecordsGoOn }
    ensures played { RecordsArePlayed }
    ensures cut_played { CutsArePlayed }
{
    law_lines();
    law_events_go_on();
    law_out_of_memory_changes_nothing();
    law_replies_in_order();
}
