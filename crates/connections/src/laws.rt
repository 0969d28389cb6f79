//! Laws of many connections, which every gateway meets, and laws that the crates above cite.
ghost use Rattle.connections.specs.Clients.{LinesAreOwn, NoneIsBegun, RepliesAreOwn, RepliesInOrder};
ghost use Rattle.connections.specs.CitedLaws.{EventsGoOn, EventTakesBytes, LinesCut};

/// Proves that all replies together are those of one desk. The desk takes the lines in the order of
/// their line feeds (`order`). While no connection is open, there is no partial line (`begin`). The
/// lines of a connection depend on its own events alone (`lines`). Its replies answer its own
/// lines, each once and in order (`replies`).
pub fn law_replies_in_order()
    ensures begin { NoneIsBegun }
    ensures order { RepliesInOrder }
    ensures lines { LinesAreOwn }
    ensures replies { RepliesAreOwn }
{}

/// Proves laws of cutting bytes at line feeds, in two parts and at the first. The call does
/// nothing. The crates above cite the laws, since they cut lines of their own.
pub fn law_lines()
    ensures { LinesCut }
{}

/// Proves laws of sequences of events. Two sequences, one after the other, are one sequence. The
/// lines that an event completes or starts belong to its own connection. The call does nothing; the
/// crates above cite the laws.
pub fn law_events_go_on()
    ensures { EventsGoOn }
{}

/// Proves laws of an event that brings bytes. The event takes at most its bytes, and at least one
/// if there is one. Its connection stays open. The call does nothing; the crates above cite the
/// laws.
pub fn law_events()
    ensures { EventTakesBytes }
{}
