//! The definitions of replies, computed at worked examples.
#![tactic(auto, unfolding(decoder_core::specs::Queue::run, decoder_core::specs::Queue::turns, piece_rope::specs::Decode::decode, piece_rope::specs::Document::decoded_text, piece_rope::specs::Document::decoded_errors, piece_rope::specs::Edits::number_fault, position_map::specs::Diagnostics::diagnostics_of, position_map::specs::Diagnostics::errors_before_line, position_map::specs::Lines::lines_of, position_map::specs::Places::scalar_of_byte, position_map::specs::Positions::offset_of, position_map::specs::Positions::position_of, position_map::specs::Positions::converted))]

ghost use Rattle.std.specs.Prelude.{◌≡◌, Ok, Err, Some, None, [], ◌∷◌};
ghost use Rattle.enc_names.specs.declared.encoding.Encoding.TheVariants.{Utf8};
ghost use Rattle.index_loader.specs.Files.{no_files};
ghost use Rattle.position_map.specs.declared.unit.Unit.TheVariants.{Utf16};
ghost use Rattle.desk.specs.{Stat.stat_reply, Diagnostics.diagnostics_reply, Lines.lines_reply, Offset.offset_reply, Place.place_reply};
ghost use Rattle.desk.specs.declared.fault.Fault.TheVariants.{OutOfRange, Forgotten, SplitsCharacter};
ghost use Rattle.desk.specs.declared.place_unit.PlaceUnit.TheVariants.{Byte, Text};
ghost use Rattle.desk.specs.declared.ops.Reply.TheVariants.{Stat, Diagnostics, Lines, Position, Offset, Place, Since};
ghost use Rattle.desk.specs.{Position.position_reply, Since.since_reply, declared.page_start.PageStart.TheVariants.Line};
ghost use Rattle.document_tests.specs.Session.{truncated, edited_twice, pair_and_cr_lf};
ghost use Rattle.document_tests.specs.Session.{edited_to_no_end};

/// `a`, U+1F600, CR, LF, `b` in UTF-8.
fn pair_and_cr_lf()
    ensures stat { stat_reply no_files pair_and_cr_lf
        ≡ Stat (record { rev = 0; given = Utf8; encoding = Utf8; bom = 0; bytes = 8; errors = 0; lines = 2; utf8 = 8; utf16 = 6; utf32 = 5 }) }
    ensures lines { lines_reply no_files pair_and_cr_lf 0 10
        ≡ Ok (Lines (record { rev = 0; count = 2; lines = record { start = 0; end = 2 } ∷ record { start = 4; end = 5 } ∷ [] })) }
    ensures position { position_reply no_files pair_and_cr_lf 3 Utf16 ≡ Ok (Position (record { rev = 0; line = 0; character = 3 })) }
    ensures offset { offset_reply no_files pair_and_cr_lf 0 99 Utf16 ≡ Ok (Offset (record { rev = 0; offset = 2 })) }
    ensures place { place_reply no_files pair_and_cr_lf (Text Utf16) 2 ≡ Err SplitsCharacter }
{}

/// UTF-8 `E2 82 41`: an error of two bytes, and `A`.
fn truncated_sequence()
    ensures inside { place_reply no_files truncated Byte 1
        ≡ Ok (Place (record { rev = 0; place = Some (record { from = 0; to = 2 }); utf8 = 0; utf16 = 0; utf32 = 0 })) }
    ensures end { place_reply no_files truncated Byte 3 ≡ Ok (Place (record { rev = 0; place = None; utf8 = 4; utf16 = 2; utf32 = 2 })) }
    ensures past { place_reply no_files truncated Byte 4 ≡ Err OutOfRange }
    ensures shown { diagnostics_reply no_files truncated (Line 0) 10 Utf16
        ≡ Ok (Diagnostics (record {
          rev = 0;
          total = 1;
          diagnostics = record {
            place = record { from = 0; to = 2 };
            range = record { start = record { line = 0; character = 0 }; end = record { line = 0; character = 1 } };
          } ∷ [];
        })) }
{}

/// UTF-8 `41`, then `E2 41`, then `E2 82 41`: what came in last ends inside of the error, and what came in since the first
/// revision is all of it.
fn edited_twice()
    ensures now { since_reply no_files edited_twice 7 None ≡ Ok (Since (record { patch = record { at = 0; del = 0; ins = 0 }; range = None; rev = 7 })) }
    ensures last { since_reply no_files edited_twice 6 (Some Utf16)
        ≡ Ok (Since (record {
          patch = record { at = 1; del = 0; ins = 1 };
          range = Some (record { start = record { line = 0; character = 0 }; end = record { line = 0; character = 1 } });
          rev = 7;
        })) }
    ensures both { since_reply no_files edited_twice 5 None ≡ Ok (Since (record { patch = record { at = 0; del = 0; ins = 2 }; range = None; rev = 7 })) }
    ensures forgotten { since_reply no_files edited_twice 4 None ≡ Err (Forgotten 5) }
    ensures nothing { since_reply no_files edited_to_no_end 3 None ≡ since_reply no_files edited_twice 5 None }
    ensures later { since_reply no_files edited_twice 8 (Some Utf16) ≡ Err OutOfRange }
{}
