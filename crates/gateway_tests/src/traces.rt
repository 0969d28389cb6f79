//! Worked lines of traces, computed on the definition.
#![tactic(auto, unfolding(crate::proofs::Computing::of_traces))]

ghost use Rattle.std.specs.Prelude.{◌≡◌, ◌∷◌, [], codes, true, false, None, Some};
ghost use Rattle.connections.specs.Events.{Opening, Bringing, Closing};
ghost use Rattle.gateway.specs.Trace.{event_on, is_skipped, parts, text_lines};

/// Lines with an event.
fn events_on_lines()
    ensures opens { event_on (codes "open 3") ≡ Some (Opening 3) }
    ensures brings { event_on (codes "bytes 3 e30K") ≡ Some (Bringing 3 (123 ∷ 125 ∷ 10 ∷ [])) }
    ensures closes { event_on (codes "close 255") ≡ Some (Closing 255) }
{}

/// Words that aren't a decimal number from 0 to 255, and words in capitals. Leading zeros aren't
/// allowed.
fn lines_without_event()
    ensures leading_zero { event_on (codes "open 03") ≡ None }
    ensures sign { event_on (codes "open +3") ≡ None }
    ensures too_large { event_on (codes "open 256") ≡ None }
    ensures second_space { event_on (codes "open  3") ≡ None }
    ensures capitals { event_on (codes "OPEN 3") ≡ None }
{}

/// Lines that are skipped, and one that isn't since its comment doesn't begin it.
fn skipped_lines()
    ensures empty { is_skipped [] ≡ true }
    ensures comment { is_skipped (codes "# open 3") ≡ true }
    ensures space { is_skipped (codes " # open 3") ≡ false }
{}

/// Lines that bring no bytes have no event.
fn bytes_without_base64()
    ensures no_base64 { event_on (codes "bytes 3") ≡ None }
    ensures empty_base64 { event_on (codes "bytes 3 ") ≡ None }
{}

/// The last line may lack its line feed. An event of bytes goes up to a line feed.
fn lines_and_parts()
    ensures ended { text_lines [] (codes "open 3\n") ≡ codes "open 3" ∷ [] ∷ [] }
    ensures not_ended { text_lines [] (codes "#\nopen 3") ≡ codes "#" ∷ codes "open 3" ∷ [] }
    ensures parts { parts (Bringing 3 (codes "a\nb\n")) ≡ Bringing 3 (codes "a\nb\n") ∷ Bringing 3 (codes "b\n") ∷ [] }
{}
