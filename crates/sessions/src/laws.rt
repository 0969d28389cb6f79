//! Laws of sessions.
ghost use Rattle.sessions.specs.Reaching.{ActsAreEvents, ActsInARow, AnswersReach, InputIsLittle, LinesAreTaken, SessionsInOrder};

use connections::{law_events_go_on, law_lines, law_replies_in_order};

/// Proves that the acts of clients are events of one gateway, in order (`events`). All replies
/// together are those of one desk, which takes the lines in the order of their line feeds
/// (`order`).
pub fn law_sessions_in_order()
    ensures events { ActsAreEvents }
    ensures order { SessionsInOrder }
{
    law_events_go_on();
    law_replies_in_order();
}

/// Proves that each client gets the replies to its own lines. While a client stays, the bytes sent
/// to it and those not sent yet are these replies, each whole, once and in order.
pub fn law_answers_reach_their_client()
    ensures { AnswersReach }
{
    law_events_go_on();
}

/// Proves that each line of a client is taken once. While a client stays, its lines are those that
/// were answered and those still to be taken.
pub fn law_lines_are_taken_once()
    ensures { LinesAreTaken }
{
    law_lines();
    law_events_go_on();
    law_replies_in_order();
}

/// Proves that at most `READ_BUFFER` bytes of each client wait to be taken.
pub fn law_input_is_little()
    ensures { InputIsLittle }
{}

/// Proves that lists of acts, one after the other, are one list of acts. It is for loops over
/// sessions.
pub fn law_acts_in_a_row()
    ensures { ActsInARow }
{}
