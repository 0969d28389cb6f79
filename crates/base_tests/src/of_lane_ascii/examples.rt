//! Worked examples of the definitions, which the check computes.
ghost use Rattle.std.specs.Prelude.{◌≡◌, ◌∷◌, ◌++◌, [], true, false, replicate};
ghost use Rattle.lane_ascii.specs.Marks.{marks, IsNthMark};
ghost use Rattle.lane_ascii.specs.Pairs.{evens, spread, swapped};
ghost use Rattle.lane_ascii.specs.Runs.{ascii_len, plain_len};

/// A run ends at the first byte above ASCII.
fn run_of_64_letters()
    ensures { ascii_len (replicate 64 0x61 ++ 0x80 ∷ []) ≡ 64 }
{}

/// A shift, 0E or 0F, and an escape end a plain run of ISO-2022-JP.
fn shifts_and_escapes_end_a_plain_run()
    ensures shift_out { plain_len (0x41 ∷ 0x0E ∷ []) ≡ 1 }
    ensures shift_in { plain_len (0x41 ∷ 0x42 ∷ 0x0F ∷ []) ≡ 2 }
    ensures escape { plain_len (0x1B ∷ 0x28 ∷ 0x42 ∷ []) ≡ 0 }
    ensures controls { plain_len (0x00 ∷ 0x0D ∷ 0x1A ∷ 0x7F ∷ []) ≡ 4 }
{}

/// An odd last byte stays.
fn three_bytes_swapped()
    ensures { swapped (0x01 ∷ 0x02 ∷ 0x03 ∷ []) ≡ 0x02 ∷ 0x01 ∷ 0x03 ∷ [] }
{}

/// Two letters in UTF-16LE; three pairs with an odd last byte.
fn letters_in_pairs()
    ensures spread { spread (0x41 ∷ 0x42 ∷ []) ≡ 0x41 ∷ 0x00 ∷ 0x42 ∷ 0x00 ∷ [] }
    ensures evens { evens (0x01 ∷ 0x02 ∷ 0x03 ∷ 0x04 ∷ 0x05 ∷ 0x06 ∷ 0x07 ∷ []) ≡ 0x01 ∷ 0x03 ∷ 0x05 ∷ [] }
{}

/// LF CR LF CR after a CR: each LF belongs to the CR before it.
fn marks_behind_a_cr()
    ensures many { marks true (0x0A ∷ 0x0D ∷ 0x0A ∷ 0x0D ∷ []) ≡ 2 }
    ensures first { IsNthMark true (0x0A ∷ 0x0D ∷ 0x0A ∷ 0x0D ∷ []) 0 1 }
    ensures second { IsNthMark true (0x0A ∷ 0x0D ∷ 0x0A ∷ 0x0D ∷ []) 1 3 }
{}

/// Like `marks_behind_a_cr`, without a CR before the bytes.
fn marks_at_the_front()
    ensures many { marks false (0x0A ∷ 0x0D ∷ 0x0A ∷ 0x0D ∷ []) ≡ 3 }
    ensures first { IsNthMark false (0x0A ∷ 0x0D ∷ 0x0A ∷ 0x0D ∷ []) 0 0 }
{}
