//! Worked examples of the definitions, which the check computes.
#![tactic(auto, unfolding(crate::proofs::Computing::of_label_files))]

ghost use Rattle.std.specs.Prelude.{◌≡◌, ◌∷◌, ◌++◌, [], codes, Some, None};
ghost use Rattle.std.specs.Prelude.{Ok, Err};
ghost use Rattle.std.specs.List.{repeat};
ghost use Rattle.enc_names.specs.LabelFile.{labels_of_file};
ghost use Rattle.enc_names.specs.Labels.{lookup_in, name_labels};
ghost use Rattle.enc_names.specs.declared.encoding.Encoding.TheVariants as encoding;
ghost use Rattle.enc_names.specs.declared.labels.LabelFault.TheVariants as fault;

/// A name is its own label, whatever its case and the whitespace round it.
fn name_in_whitespace_and_lower_case()
    ensures cased { lookup_in name_labels (32 ∷ codes "Shift_JIS" ++ 9 ∷ [])
        ≡ Some encoding.ShiftJis }
    ensures lower { lookup_in name_labels (codes "shift_jis") ≡ Some encoding.ShiftJis }
    ensures every_space { lookup_in name_labels
        (9 ∷ 10 ∷ 12 ∷ 13 ∷ 32 ∷ codes "UTF-8" ++ 32 ∷ 13 ∷ 12 ∷ 10 ∷ 9 ∷ [])
        ≡ Some encoding.Utf8 }
{}

/// The names alone have no other label, and nothing but ASCII whitespace is stripped.
fn no_label_beside_the_names()
    ensures alias { lookup_in name_labels (codes "sjis") ≡ None }
    ensures empty { lookup_in name_labels [] ≡ None }
    ensures prefix { lookup_in name_labels (codes "UTF-1") ≡ None }
    ensures vertical_tab { lookup_in name_labels (11 ∷ codes "UTF-8") ≡ None }
    ensures inside { lookup_in name_labels (codes "UTF -8") ≡ None }
{}

/// A label file's labels are those of known encodings. No other name is a label.
fn label_file_with_an_unknown_encoding()
    ensures read { labels_of_file (codes "[{\"encodings\":[{\"name\":\"Shift_JIS\",\"labels\":[\"sjis\"]},{\"name\":\"other\",\"labels\":[\"x\"]}]}]")
        ≡ Ok ((codes "sjis", encoding.ShiftJis) ∷ []) }
    ensures known { lookup_in ((codes "sjis", encoding.ShiftJis) ∷ []) (codes "SJIS")
        ≡ Some encoding.ShiftJis }
    ensures unknown { lookup_in ((codes "sjis", encoding.ShiftJis) ∷ []) (codes "x") ≡ None }
    ensures name { lookup_in ((codes "sjis", encoding.ShiftJis) ∷ []) (codes "shift_jis") ≡ None }
{}

/// Names are compared without ASCII case and labels as they are written; equal labels are all in
/// the table, where the first counts.
fn label_file_with_equal_labels()
    ensures read { labels_of_file (codes "[{\"encodings\":[{\"labels\":[\"a\"],\"name\":\"big5\"}]},{\"encodings\":[{\"labels\":[\" a\",\"A\"],\"name\":\"KOI8-r\"},{\"labels\":[\"a\"],\"name\":\" GBK\"}]}]")
        ≡ Ok ((codes "a", encoding.Big5) ∷ (codes " a", encoding.Koi8R)
        ∷ (codes "A", encoding.Koi8R) ∷ []) }
    ensures first { lookup_in ((codes "a", encoding.Big5) ∷ (codes "A", encoding.Koi8R) ∷ [])
        (codes " A ") ≡ Some encoding.Big5 }
    ensures not_stripped { lookup_in ((codes " a", encoding.Koi8R) ∷ []) (codes " a") ≡ None }
{}

/// Another shape than a label file's is a fault, even if the encoding is unknown.
fn label_files_of_another_shape()
    ensures object { labels_of_file (codes "{}") ≡ Err fault.BadShape }
    ensures without_labels { labels_of_file (codes "[{\"encodings\":[{\"name\":\"other\"}]}]")
        ≡ Err fault.BadShape }
    ensures empty { labels_of_file (codes "[]") ≡ Ok [] }
{}

/// A text that isn't JSON has no shape.
fn label_files_that_are_no_json()
    ensures unfinished { labels_of_file (codes "[") ≡ Err fault.NotJson }
    ensures deep { labels_of_file (repeat 200 (codes "[")) ≡ Err fault.NotJson }
    ensures byte_order_mark { labels_of_file (239 ∷ 187 ∷ 191 ∷ codes "[]") ≡ Err fault.NotJson }
    ensures no_utf_8 { labels_of_file (91 ∷ 34 ∷ 255 ∷ 34 ∷ 93 ∷ []) ≡ Err fault.NotJson }
{}
