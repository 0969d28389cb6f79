//! Worked lines: their requests, computed on the definition.
#![tactic(auto, unfolding(crate::proofs::Computing::of_requests))]

ghost use Rattle.std.specs.Prelude.{◌≡◌, ◌∷◌, [], codes, Ok, Err, Some, None};
ghost use Rattle.enc_names.specs.declared.bom.Bom.TheVariants.{Sniff, Keep};
ghost use Rattle.desk.specs.Commands.{Open, Close, Splice, Change, Changes, Replace};
ghost use Rattle.desk.specs.Commands.{Plan, Text, Source, Encode, Errors, Diagnostics, Lines, Position, Offset, Place, Since, Stat};
ghost use Rattle.line_protocol.specs.Fields.{position_of, range_of, text_change};
ghost use Rattle.line_protocol.specs.Request.{OfDesk, request_of_line};
ghost use Rattle.gateway_tests.specs.Requests.{asks_at, question_at};
ghost use Rattle.desk.specs.declared.overview.Overview.TheVariants as overview;
ghost use Rattle.position_map.specs.declared.unit.Unit.TheVariants.{Utf8, Utf16, Utf32};
ghost use Rattle.desk.specs.declared.page_start.PageStart.TheVariants as page_start;
ghost use Rattle.desk.specs.declared.place_unit.PlaceUnit.TheVariants as place_unit;
ghost use Rattle.encoders.specs.declared.mode.EncodeMode.TheVariants as encode_mode;
ghost use Rattle.desk.specs.declared.text_mode.TextMode.TheVariants.{Replacement, Fatal};
ghost use Rattle.line_protocol.specs.declared.request.field.Field.TheVariants as field;
ghost use Rattle.line_protocol.specs.declared.request.refusal.Refusal.TheVariants.{BadJson, BadRequest, UnknownOp};

fn lines_of_no_command()
    ensures empty { request_of_line [] ≡ Err BadJson }
    ensures cut { request_of_line (codes "{") ≡ Err BadJson }
    ensures not_utf8 { request_of_line (34 ∷ 255 ∷ 34 ∷ []) ≡ Err BadJson }
    ensures surrogate { request_of_line (codes "\"\\ud800\"") ≡ Err BadJson }
    ensures infinite { request_of_line (codes "1e400") ≡ Err BadJson }
    ensures list { request_of_line (codes "[]\r") ≡ Err (BadRequest None field.Object) }
    ensures no_id { request_of_line (codes "{\"op\":7}") ≡ Err (BadRequest None field.Id) }
    ensures no_op { request_of_line (codes "{\"id\":1}") ≡ Err (BadRequest (Some 1) field.Op) }
    ensures zap { request_of_line (codes "{\"id\":1,\"op\":\"zap\"}") ≡ Err (UnknownOp 1) }
{}

fn lines_about_the_desk()
    ensures documents { request_of_line (codes "{\"id\":4,\"op\":\"documents\"}") ≡ Ok (4, OfDesk overview.Documents) }
    ensures hello { request_of_line (codes "{\"doc\":7,\"id\":5,\"op\":\"hello\"}") ≡ Ok (5, OfDesk overview.Hello) }
    ensures no_id { request_of_line (codes "{\"op\":\"hello\"}") ≡ Err (BadRequest None field.Id) }
    ensures longer { request_of_line (codes "{\"id\":6,\"op\":\"hello!\"}") ≡ Err (UnknownOp 6) }
{}

fn numbers()
    ensures greatest { request_of_line (codes "{\"id\":9007199254740991,\"op\":\"\"}")
        ≡ Err (UnknownOp 9007199254740991) }
    ensures above { request_of_line (codes "{\"id\":9007199254740992,\"op\":\"\"}")
        ≡ Err (BadRequest None field.Id) }
    ensures point { request_of_line (codes "{\"id\":1.0,\"op\":\"\"}") ≡ Err (BadRequest None field.Id) }
    ensures exponent { request_of_line (codes "{\"id\":1e2,\"op\":\"\"}") ≡ Err (BadRequest None field.Id) }
    ensures minus { request_of_line (codes "{\"id\":-0,\"op\":\"\"}") ≡ Err (BadRequest None field.Id) }
    ensures text { request_of_line (codes "{\"id\":\"1\",\"op\":\"\"}") ≡ Err (BadRequest None field.Id) }
    ensures last { request_of_line (codes "{\"id\":1,\"op\":\"\",\"id\":2}") ≡ Err (UnknownOp 2) }
{}

fn commands_of_positions()
    ensures lines { request_of_line (codes "{\"id\":2,\"op\":\"lines\",\"doc\":\"d\",\"from\":0,\"max\":10}")
        ≡ Ok (2, question_at (codes "d") (Lines 0 10)) }
    ensures position { request_of_line (codes "{\"id\":3,\"op\":\"position\",\"doc\":\"d\",\"offset\":3}")
        ≡ Ok (3, question_at (codes "d") (Position 3 Utf16)) }
    ensures offset { request_of_line (codes
        "{\"id\":5,\"op\":\"offset\",\"doc\":\"d\",\"line\":1,\"character\":2,\"unit\":\"utf-8\"}")
        ≡ Ok (5, question_at (codes "d") (Offset 1 2 Utf8)) }
    ensures place { request_of_line (codes
        "{\"id\":4,\"op\":\"place\",\"doc\":\"d\",\"unit\":\"utf-32\",\"value\":2}")
        ≡ Ok (4, question_at (codes "d") (Place (place_unit.Text Utf32) 2)) }
    ensures byte { request_of_line (codes
        "{\"id\":4,\"op\":\"place\",\"doc\":\"d\",\"unit\":\"byte\",\"value\":2}")
        ≡ Ok (4, question_at (codes "d") (Place place_unit.Byte 2)) }
    ensures since { request_of_line (codes "{\"id\":5,\"op\":\"since\",\"doc\":\"d\",\"rev\":7}")
        ≡ Ok (5, question_at (codes "d") (Since 7 None)) }
    ensures ranged { request_of_line (codes
        "{\"id\":5,\"op\":\"since\",\"doc\":\"d\",\"rev\":7,\"unit\":\"utf-16\"}")
        ≡ Ok (5, question_at (codes "d") (Since 7 (Some Utf16))) }
    ensures null_range { request_of_line (codes
        "{\"id\":5,\"op\":\"since\",\"doc\":\"d\",\"rev\":7,\"unit\":null}")
        ≡ Err (BadRequest (Some 5) field.Unit) }
    ensures stat { request_of_line (codes "{\"id\":1,\"op\":\"stat\",\"doc\":\"d\"}")
        ≡ Ok (1, question_at (codes "d") Stat) }
    ensures no_unit { request_of_line (codes
        "{\"id\":4,\"op\":\"place\",\"doc\":\"d\",\"value\":-1}")
        ≡ Err (BadRequest (Some 4) field.Unit) }
    ensures null_unit { request_of_line (codes
        "{\"id\":3,\"op\":\"position\",\"doc\":\"d\",\"offset\":0,\"unit\":null}")
        ≡ Err (BadRequest (Some 3) field.Unit) }
{}

/// A byte order mark is looked for if the field is missing. `null` and every other text are faults
/// of the field, which come after those of the bytes.
fn opens()
    ensures absent { request_of_line (codes
        "{\"id\":1,\"op\":\"open\",\"doc\":\"a\",\"label\":\"utf-8\",\"bytes\":\"4oJB\"}")
        ≡ Ok (1, asks_at (codes "a") (Open (codes "utf-8") (codes "4oJB") Sniff)) }
    ensures sniff { request_of_line (codes
        "{\"id\":1,\"op\":\"open\",\"doc\":\"a\",\"label\":\"utf-8\",\"bytes\":\"4oJB\",\"bom\":\"sniff\"}")
        ≡ Ok (1, asks_at (codes "a") (Open (codes "utf-8") (codes "4oJB") Sniff)) }
    ensures keep { request_of_line (codes
        "{\"id\":1,\"op\":\"open\",\"doc\":\"a\",\"label\":\"utf-8\",\"bytes\":\"77u/QQ==\",\"bom\":\"keep\"}")
        ≡ Ok (1, asks_at (codes "a") (Open (codes "utf-8") (codes "77u/QQ==") Keep)) }
    ensures null_bom { request_of_line (codes
        "{\"id\":1,\"op\":\"open\",\"doc\":\"a\",\"label\":\"utf-8\",\"bytes\":\"\",\"bom\":null}")
        ≡ Err (BadRequest (Some 1) field.Bom) }
    ensures other_bom { request_of_line (codes
        "{\"id\":1,\"op\":\"open\",\"doc\":\"a\",\"label\":\"utf-8\",\"bytes\":\"\",\"bom\":\"Keep\"}")
        ≡ Err (BadRequest (Some 1) field.Bom) }
    ensures bytes_first { request_of_line (codes
        "{\"id\":1,\"op\":\"open\",\"doc\":\"a\",\"label\":\"utf-8\",\"bytes\":7,\"bom\":7}")
        ≡ Err (BadRequest (Some 1) field.Bytes) }
{}

fn commands()
    ensures close { request_of_line (codes "{\"id\":7,\"op\":\"close\",\"doc\":\"a\"}")
        ≡ Ok (7, asks_at (codes "a") Close) }
    ensures splice { request_of_line (codes
        "{\"id\":4,\"op\":\"splice\",\"doc\":\"a\",\"rev\":0,\"at\":2,\"del\":1,\"bytes\":\"rA==\"}")
        ≡ Ok (4, asks_at (codes "a") (Splice 0 2 1 (codes "rA=="))) }
    ensures text { request_of_line (codes "{\"id\":2,\"op\":\"text\",\"doc\":\"a\",\"from\":0,\"to\":2}")
        ≡ Ok (2, question_at (codes "a") (Text 0 2 Replacement)) }
    ensures mode { request_of_line (codes
        "{\"id\":2,\"op\":\"text\",\"doc\":\"a\",\"from\":0,\"to\":2,\"mode\":\"replacement\"}")
        ≡ Ok (2, question_at (codes "a") (Text 0 2 Replacement)) }
    ensures fatal { request_of_line (codes
        "{\"id\":2,\"op\":\"text\",\"doc\":\"a\",\"from\":0,\"to\":2,\"mode\":\"fatal\"}")
        ≡ Ok (2, question_at (codes "a") (Text 0 2 Fatal)) }
    ensures source { request_of_line (codes "{\"id\":5,\"op\":\"source\",\"doc\":\"a\",\"at\":1,\"len\":2}")
        ≡ Ok (5, question_at (codes "a") (Source 1 2)) }
    ensures encode { request_of_line (codes
        "{\"id\":6,\"op\":\"encode\",\"doc\":\"a\",\"from\":1,\"to\":2,\"label\":\"big5\"}")
        ≡ Ok (6, question_at (codes "a") (Encode 1 2 (codes "big5") encode_mode.Fatal)) }
    ensures html { request_of_line (codes
        "{\"id\":6,\"op\":\"encode\",\"doc\":\"a\",\"from\":1,\"to\":2,\"label\":\"big5\",\"mode\":\"html\"}")
        ≡ Ok (6, question_at (codes "a") (Encode 1 2 (codes "big5") encode_mode.Html)) }
    ensures errors { request_of_line (codes
        "{\"id\":3,\"op\":\"errors\",\"doc\":\"a\",\"from\":0,\"max\":10000}")
        ≡ Ok (3, question_at (codes "a") (Errors 0 10000)) }
    ensures diagnostics { request_of_line (codes
        "{\"id\":3,\"op\":\"diagnostics\",\"doc\":\"a\",\"line\":7,\"max\":1,\"unit\":\"utf-8\"}")
        ≡ Ok (3, question_at (codes "a") (Diagnostics (page_start.Line 7) 1 Utf8)) }
{}

/// A range is two positions. If the field is missing or null, it is the whole text.
fn changes()
    ensures range { request_of_line (codes
        "{\"id\":9,\"op\":\"change\",\"doc\":\"d\",\"rev\":0,\"range\":{\"start\":{\"line\":0,\"character\":1},\"end\":{\"line\":2,\"character\":3}},\"text\":\"x\"}")
        ≡ Ok (9, asks_at (codes "d") (Change 0 Utf16 (Some (range_of (position_of 0 1) (position_of 2 3))) (codes "x"))) }
    ensures whole { request_of_line (codes "{\"id\":9,\"op\":\"change\",\"doc\":\"d\",\"rev\":1,\"unit\":\"utf-8\",\"text\":\"\"}")
        ≡ Ok (9, asks_at (codes "d") (Change 1 Utf8 None [])) }
    ensures null_range { request_of_line (codes "{\"id\":9,\"op\":\"change\",\"doc\":\"d\",\"rev\":1,\"unit\":\"utf-32\",\"range\":null,\"text\":\"x\"}")
        ≡ Ok (9, asks_at (codes "d") (Change 1 Utf32 None (codes "x"))) }
    ensures last { request_of_line (codes
        "{\"id\":9,\"op\":\"change\",\"doc\":\"d\",\"rev\":0,\"range\":{\"end\":{\"character\":3,\"line\":0},\"start\":7,\"rangeLength\":1,\"start\":{\"line\":4,\"character\":1,\"line\":0}},\"text\":\"x\"}")
        ≡ Ok (9, asks_at (codes "d") (Change 0 Utf16 (Some (range_of (position_of 0 1) (position_of 0 3))) (codes "x"))) }
    ensures plan { request_of_line (codes "{\"id\":9,\"op\":\"plan\",\"doc\":\"d\",\"rev\":7,\"unit\":\"utf-8\",\"text\":\"x\"}")
        ≡ Ok (9, question_at (codes "d") (Plan Utf8 None (codes "x"))) }
{}

/// Given bytes come after the fields of a change.
fn given_bytes()
    ensures range { request_of_line (codes
        "{\"id\":9,\"op\":\"replace\",\"doc\":\"d\",\"rev\":2,\"unit\":\"utf-8\",\"range\":{\"start\":{\"line\":0,\"character\":1},\"end\":{\"line\":0,\"character\":3}},\"text\":\"x\",\"bytes\":\"eA==\"}")
        ≡ Ok (9, asks_at (codes "d") (Replace 2 Utf8 (Some (range_of (position_of 0 1) (position_of 0 3))) (codes "x") (codes "eA=="))) }
    ensures whole { request_of_line (codes "{\"id\":9,\"op\":\"replace\",\"doc\":\"d\",\"rev\":0,\"text\":\"\",\"bytes\":\"\"}")
        ≡ Ok (9, asks_at (codes "d") (Replace 0 Utf16 None [] [])) }
    ensures text { request_of_line (codes "{\"id\":1,\"op\":\"replace\",\"doc\":\"d\",\"rev\":0,\"bytes\":7}")
        ≡ Err (BadRequest (Some 1) field.Text) }
    ensures bytes { request_of_line (codes "{\"id\":1,\"op\":\"replace\",\"doc\":\"d\",\"rev\":0,\"text\":\"x\",\"bytes\":null}")
        ≡ Err (BadRequest (Some 1) field.Bytes) }
{}

/// A list of changes is read element by element.
fn lists_of_changes()
    ensures two { request_of_line (codes
        "{\"id\":9,\"op\":\"changes\",\"doc\":\"d\",\"rev\":0,\"changes\":[{\"range\":{\"start\":{\"line\":0,\"character\":1},\"end\":{\"line\":0,\"character\":3}},\"text\":\"x\"},{\"range\":null,\"text\":\"yz\"}]}")
        ≡ Ok (
          9,
          asks_at (codes "d") (Changes 0 Utf16
              (text_change (Some (range_of (position_of 0 1) (position_of 0 3))) (codes "x") ∷ text_change None (codes "yz") ∷ [])),
        ) }
    ensures none { request_of_line (codes "{\"id\":9,\"op\":\"changes\",\"doc\":\"d\",\"rev\":1,\"unit\":\"utf-8\",\"changes\":[]}")
        ≡ Ok (9, asks_at (codes "d") (Changes 1 Utf8 [])) }
    ensures absent { request_of_line (codes "{\"id\":1,\"op\":\"changes\",\"doc\":\"d\",\"rev\":0}")
        ≡ Err (BadRequest (Some 1) field.Changes) }
    ensures second { request_of_line (codes "{\"id\":1,\"op\":\"changes\",\"doc\":\"d\",\"rev\":0,\"changes\":[{\"text\":\"x\"},{\"text\":7}]}")
        ≡ Err (BadRequest (Some 1) field.Changes) }
    ensures range { request_of_line (codes "{\"id\":1,\"op\":\"changes\",\"doc\":\"d\",\"rev\":0,\"changes\":[{\"range\":{},\"text\":\"x\"}]}")
        ≡ Err (BadRequest (Some 1) field.Changes) }
{}

/// Whatever is wrong in a range, it is `range` that is named.
fn faulty_ranges()
    ensures no_range { request_of_line (codes "{\"id\":1,\"op\":\"change\",\"doc\":\"d\",\"rev\":0,\"range\":{},\"text\":\"x\"}")
        ≡ Err (BadRequest (Some 1) field.Range) }
    ensures no_end { request_of_line (codes
        "{\"id\":1,\"op\":\"change\",\"doc\":\"d\",\"rev\":0,\"range\":{\"start\":{\"line\":0,\"character\":1}},\"text\":\"x\"}")
        ≡ Err (BadRequest (Some 1) field.Range) }
    ensures character { request_of_line (codes
        "{\"id\":1,\"op\":\"change\",\"doc\":\"d\",\"rev\":0,\"range\":{\"start\":{\"line\":0,\"character\":1},\"end\":{\"line\":0,\"character\":1.0}},\"text\":7}")
        ≡ Err (BadRequest (Some 1) field.Range) }
    ensures number { request_of_line (codes
        "{\"id\":1,\"op\":\"change\",\"doc\":\"d\",\"rev\":0,\"range\":{\"start\":{\"line\":9007199254740992,\"character\":1},\"end\":{\"line\":0,\"character\":1}},\"text\":\"x\"}")
        ≡ Err (BadRequest (Some 1) field.Range) }
    ensures unit { request_of_line (codes "{\"id\":1,\"op\":\"change\",\"doc\":\"d\",\"rev\":0,\"unit\":null,\"range\":[]}")
        ≡ Err (BadRequest (Some 1) field.Unit) }
    ensures text { request_of_line (codes "{\"id\":1,\"op\":\"change\",\"doc\":\"d\",\"rev\":0,\"text\":null}")
        ≡ Err (BadRequest (Some 1) field.Text) }
{}

fn faulty_fields()
    ensures no_name { request_of_line (codes "{\"id\":1,\"op\":\"text\",\"doc\":\"\"}")
        ≡ Err (BadRequest (Some 1) field.Doc) }
    ensures first { request_of_line (codes "{\"id\":1,\"op\":\"text\",\"from\":-1}")
        ≡ Err (BadRequest (Some 1) field.Doc) }
    ensures null_mode { request_of_line (codes
        "{\"id\":1,\"op\":\"text\",\"doc\":\"a\",\"from\":0,\"to\":2,\"mode\":null}")
        ≡ Err (BadRequest (Some 1) field.Mode) }
    ensures other_mode { request_of_line (codes
        "{\"id\":1,\"op\":\"text\",\"doc\":\"a\",\"from\":0,\"to\":2,\"mode\":\"html\"}")
        ≡ Err (BadRequest (Some 1) field.Mode) }
    ensures max { request_of_line (codes
        "{\"id\":1,\"op\":\"errors\",\"doc\":\"a\",\"from\":0,\"max\":10001}")
        ≡ Err (BadRequest (Some 1) field.Max) }
    ensures starts { request_of_line (codes
        "{\"id\":1,\"op\":\"diagnostics\",\"doc\":\"a\",\"from\":0,\"line\":0,\"max\":-1}")
        ≡ Err (BadRequest (Some 1) field.Line) }
{}
