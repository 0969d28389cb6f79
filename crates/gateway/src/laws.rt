//! Laws of traces, which every gateway meets.
ghost use Rattle.gateway.specs.Traced.{TracesAreEvents, TracesInOrder};

use connections::{law_events_go_on, law_replies_in_order};

/// Proves that a trace prints replies and refusals. The replies are those of the events on its
/// lines (`events`). They are also those of one desk, which takes the lines of all connections in
/// the order of their line feeds (`order`). So what `law_replies_in_order` says of each
/// connection's lines and replies holds for a trace.
pub fn law_traces_in_order()
    ensures events { TracesAreEvents }
    ensures order { TracesInOrder }
{
    law_events_go_on();
    law_replies_in_order();
}
