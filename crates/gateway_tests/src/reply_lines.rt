//! Worked reply lines, computed on the definition, and those that no session has, written.
#![tactic(auto, unfolding(crate::proofs::Computing::of_replies))]

ghost use Rattle.std.specs.Prelude.{◌≡◌, ◌++◌, ◌∷◌, [], false, codes, Some, None};
ghost use Rattle.enc_names.specs.declared.encoding.Encoding.TheVariants.{Iso2022Jp, Utf8};
ghost use Rattle.enc_names.specs.{declared.bom.Bom.TheVariants.Keep, declared.bom.Bom.TheVariants.Sniff, Settings.setting_of};
ghost use Rattle.desk.specs.Documents.{entry};
ghost use Rattle.desk.specs.declared.overview.OverviewReply.TheVariants as overviews;
ghost use Rattle.line_protocol.specs.{Ops.overview_data, Ops.reply_text, Replies.line_of, Replies.refusal_text};
ghost use Rattle.desk.specs.declared.change_cause.ChangeCause.TheVariants.{Plan};
ghost use Rattle.desk.specs.declared.fault.Fault.TheVariants as fault;
ghost use Rattle.position_map.specs.declared.change_fault.ChangeFault.TheVariants as change_fault;
ghost use Rattle.desk.specs.declared.ops.Reply.TheVariants.{Edited, Change, Changes, Closed, Text, Errors, Diagnostics};
ghost use Rattle.desk.specs.declared.ops.Reply.TheVariants.{Lines, Position, Offset, Since, Stat, Refused};
ghost use Rattle.desk.specs.declared.ops.Reply.TheVariants as replies;
ghost use Rattle.line_protocol.specs.declared.request.field.Field.TheVariants as field;
ghost use Rattle.line_protocol.specs.declared.request.refusal.Refusal.TheVariants as refusal;

use desk::{Fault, Reply};
use line_protocol::{Refusal, ReplyLine};
use std::test::Fail;

fn stored_session()
    ensures open { reply_text 1 (Edited (record { bom = 0; encoding = Utf8; rev = 0 }))
        ≡ codes "{\"bom\":0,\"encoding\":\"UTF-8\",\"id\":1,\"rev\":0}\n" }
    ensures replaced { reply_text 2 (Text (record { rev = 0; text = 239 ∷ 191 ∷ 189 ∷ 65 ∷ [] }))
        ≡ codes "{\"id\":2,\"rev\":0,\"text\":\"" ++ 239 ∷ 191 ∷ 189 ∷ codes "A\"}\n" }
    ensures errors { reply_text 3 (Errors (record { rev = 0; total = 1; places = record { from = 0; to = 2 } ∷ [] }))
        ≡ codes "{\"errors\":[[0,2]],\"id\":3,\"rev\":0,\"total\":1}\n" }
    ensures diagnostics { reply_text 3 (Diagnostics
        (record {
          rev = 0;
          total = 9;
          diagnostics = record {
            place = record { from = 0; to = 2 };
            range = record { start = record { line = 3; character = 4 }; end = record { line = 5; character = 6 } };
          } ∷ [];
        }))
        ≡ codes "{\"diagnostics\":[[0,2,3,4,5,6]],\"id\":3,\"rev\":0,\"total\":9}\n" }
    ensures splice { reply_text 4 (Edited (record { bom = 0; encoding = Utf8; rev = 1 }))
        ≡ codes "{\"bom\":0,\"encoding\":\"UTF-8\",\"id\":4,\"rev\":1}\n" }
    ensures whole { reply_text 5 (Text (record { rev = 1; text = 226 ∷ 130 ∷ 172 ∷ 65 ∷ [] }))
        ≡ codes "{\"id\":5,\"rev\":1,\"text\":\"" ++ 226 ∷ 130 ∷ 172 ∷ codes "A\"}\n" }
    ensures fault { reply_text 6 (Refused fault.OutOfRange)
        ≡ codes "{\"fault\":\"OutOfRange\",\"id\":6}\n" }
{}

fn replies_about_the_desk()
    ensures none { line_of (overview_data 1 (overviews.Documents (record { documents = []; turn = 0 })))
        ≡ codes "{\"documents\":[],\"id\":1,\"turn\":0}\n" }
    ensures two { line_of (overview_data 2
        (overviews.Documents (record {
          documents = (codes "a\"", entry (setting_of Iso2022Jp Keep) (65 ∷ 66 ∷ []) 7) ∷ (codes "b", entry (setting_of Utf8 Sniff) [] 0) ∷ [];
          turn = 9;
        })))
        ≡ codes "{\"documents\":[{\"bytes\":2,\"doc\":\"a\\\"\",\"given\":\"ISO-2022-JP\",\"rev\":7},"
        ++ codes "{\"bytes\":0,\"doc\":\"b\",\"given\":\"UTF-8\",\"rev\":0}],\"id\":2,\"turn\":9}\n" }
{}

fn other_replies()
    ensures closed { reply_text 7 (Closed 1) ≡ codes "{\"id\":7,\"rev\":1}\n" }
    ensures stale { reply_text 1 (Refused (fault.Stale 1))
        ≡ codes "{\"fault\":\"Stale\",\"id\":1,\"rev\":1}\n" }
    ensures malformed { reply_text 1 (Refused (fault.Malformed (record { from = 0; to = 2 })))
        ≡ codes "{\"fault\":\"Malformed\",\"id\":1,\"place\":[0,2]}\n" }
    ensures memory { reply_text 1 (Refused fault.OutOfMemory)
        ≡ codes "{\"fault\":\"OutOfMemory\"}\n" }
    ensures escapes { reply_text 1 (Text (record { rev = 0; text = 34 ∷ 92 ∷ 8 ∷ 9 ∷ 10 ∷ 12 ∷ 13 ∷ 31 ∷ 127 ∷ [] }))
        ≡ codes "{\"id\":1,\"rev\":0,\"text\":\"\\\"\\\\\\b\\t\\n\\f\\r\\u001f" ++ 127
        ∷ codes "\"}\n" }
{}

fn replies_on_positions()
    ensures stat { reply_text 1
        (Stat (record { rev = 0; given = Utf8; encoding = Utf8; bom = 0; bytes = 8; errors = 0; lines = 2; utf8 = 8; utf16 = 6; utf32 = 5 }))
        ≡ codes "{\"bom\":0,\"bytes\":8,\"encoding\":\"UTF-8\",\"errors\":0,\"given\":\"UTF-8\",\"id\":1,\"lines\":2,\"rev\":0,\"utf16\":6,\"utf32\":5,\"utf8\":8}\n" }
    ensures lines { reply_text 2 (Lines (record { rev = 0; count = 2; lines = record { start = 0; end = 2 } ∷ record { start = 4; end = 5 } ∷ [] }))
        ≡ codes "{\"count\":2,\"id\":2,\"lines\":[[0,2],[4,5]],\"rev\":0}\n" }
    ensures position { reply_text 3 (Position (record { rev = 0; line = 0; character = 3 })) ≡ codes "{\"character\":3,\"id\":3,\"line\":0,\"rev\":0}\n" }
    ensures offset { reply_text 6 (Offset (record { rev = 0; offset = 2 })) ≡ codes "{\"id\":6,\"offset\":2,\"rev\":0}\n" }
    ensures place { reply_text 1 (replies.Place (record { rev = 0; place = Some (record { from = 0; to = 2 }); utf8 = 0; utf16 = 0; utf32 = 0 }))
        ≡ codes "{\"id\":1,\"place\":[0,2],\"rev\":0,\"utf16\":0,\"utf32\":0,\"utf8\":0}\n" }
    ensures end { reply_text 2 (replies.Place (record { rev = 0; place = None; utf8 = 4; utf16 = 2; utf32 = 2 }))
        ≡ codes "{\"id\":2,\"place\":null,\"rev\":0,\"utf16\":2,\"utf32\":2,\"utf8\":4}\n" }
    ensures since { reply_text 5 (Since (record { patch = record { at = 3; del = 1; ins = 2 }; range = None; rev = 7 }))
        ≡ codes "{\"at\":3,\"del\":1,\"id\":5,\"ins\":2,\"rev\":7}\n" }
    ensures ranged { reply_text 5
        (Since (record {
          patch = record { at = 3; del = 1; ins = 2 };
          range = Some (record { start = record { line = 0; character = 3 }; end = record { line = 1; character = 0 } });
          rev = 7;
        }))
        ≡ codes "{\"at\":3,\"del\":1,\"end\":{\"character\":0,\"line\":1},\"id\":5,\"ins\":2,\"rev\":7,\"start\":{\"character\":3,\"line\":0}}\n" }
    ensures forgotten { reply_text 5 (Refused (fault.Forgotten 976))
        ≡ codes "{\"fault\":\"Forgotten\",\"id\":5,\"rev\":976}\n" }
    ensures splits { reply_text 4 (Refused fault.SplitsCharacter) ≡ codes "{\"fault\":\"SplitsCharacter\",\"id\":4}\n" }
{}

fn replies_to_changes()
    ensures changed { reply_text 9 (Change (record { at = 1; bom = 0; del = 4; encoding = Utf8; ins = 1; rev = 1 }))
        ≡ codes "{\"at\":1,\"bom\":0,\"del\":4,\"encoding\":\"UTF-8\",\"id\":9,\"ins\":1,\"rev\":1}\n" }
    ensures shifted { reply_text 2 (Change (record { at = 1; bom = 0; del = 0; encoding = Iso2022Jp; ins = 5; rev = 1 }))
        ≡ codes "{\"at\":1,\"bom\":0,\"del\":0,\"encoding\":\"ISO-2022-JP\",\"id\":2,\"ins\":5,\"rev\":1}\n" }
    ensures planned { reply_text 4 (replies.Plan (record { at = 0; bytes = 239 ∷ 187 ∷ 191 ∷ 120 ∷ []; kept = false; old = 97 ∷ []; rev = 1 }))
        ≡ codes "{\"at\":0,\"bytes\":\"77u/eA==\",\"del\":1,\"id\":4,\"kept\":false,\"old\":\"YQ==\",\"rev\":1}\n" }
    ensures splits { reply_text 4 (Refused fault.SplitsItem) ≡ codes "{\"fault\":\"SplitsItem\",\"id\":4}\n" }
    ensures kept { reply_text 4 (Refused fault.NotKept) ≡ codes "{\"fault\":\"NotKept\",\"id\":4}\n" }
    ensures encoder { reply_text 4 (Refused fault.NoEncoder) ≡ codes "{\"fault\":\"NoEncoder\",\"id\":4}\n" }
    ensures unencodable { reply_text 4 (Refused (fault.Unencodable 12354 0))
        ≡ codes "{\"code_point\":12354,\"fault\":\"Unencodable\",\"id\":4,\"index\":0}\n" }
{}

/// The number of the change that is refused takes the place of its key.
fn replies_to_lists()
    ensures made { reply_text 9 (Changes (record { applied = 2; bom = 0; encoding = Utf8; rev = 1 }))
        ≡ codes "{\"applied\":2,\"bom\":0,\"encoding\":\"UTF-8\",\"id\":9,\"rev\":1}\n" }
    ensures plan { reply_text 10 (Refused (fault.InChange 1 (Plan change_fault.SplitsCharacter)))
        ≡ codes "{\"change\":1,\"fault\":\"SplitsCharacter\",\"id\":10}\n" }
    ensures unencodable { reply_text 4 (Refused (fault.InChange 3 (Plan (change_fault.Unencodable (record { index = 0; code_point = 12354 })))))
        ≡ codes "{\"change\":3,\"code_point\":12354,\"fault\":\"Unencodable\",\"id\":4,\"index\":0}\n" }
{}

fn refused_lines()
    ensures long { refusal_text refusal.LineTooLong ≡ codes "{\"fault\":\"LineTooLong\"}\n" }
    ensures json { refusal_text refusal.BadJson ≡ codes "{\"fault\":\"BadJson\"}\n" }
    ensures list { refusal_text (refusal.BadRequest None field.Object)
        ≡ codes "{\"fault\":\"BadRequest\",\"field\":\"\"}\n" }
    ensures field { refusal_text (refusal.BadRequest (Some 3) field.Mode)
        ≡ codes "{\"fault\":\"BadRequest\",\"field\":\"mode\",\"id\":3}\n" }
    ensures op { refusal_text (refusal.UnknownOp 1) ≡ codes "{\"fault\":\"UnknownOp\",\"id\":1}\n" }
    ensures memory { refusal_text refusal.OutOfMemory ≡ codes "{\"fault\":\"OutOfMemory\"}\n" }
{}

#[test]
fn replies_where_memory_is_refused(rt: HostRuntime) -> Result<(), Fail> {
    let text = "{\"fault\":\"OutOfMemory\"}\n";
    let fault = Fault::OutOfMemory;
    let line = ReplyLine::of(rt.alloc(), 1, &Reply::Refused { fault })?;
    assert_eq!(rt; line.bytes(), text.as_bytes());
    let line = ReplyLine::refused(Refusal::OutOfMemory);
    assert_eq!(rt; line.bytes(), text.as_bytes());
    Ok(())
}
