//! The label file: labels as the Encoding Standard's `encodings.json` lists them.
ghost use Rattle.std.specs.Prelude.{◌≡◌, option_and_then, option_map};
ghost use Rattle.std.specs.List.{flat_map};
ghost use Rattle.serde_json.specs.Find.{as_array, as_str, get};
ghost use Rattle.serde_json.specs.View.{items_view, view};
ghost use Rattle.enc_names.specs.LabelAnswers.{behind, Gathers};
ghost use Rattle.enc_names.specs.LabelEntries.{table_of};
ghost use Rattle.enc_names.specs.LabelFile.{group_of, label_of, labels_listed, listed_of, table_of_json, text_at};

use super::{Label, LabelFault};
use crate::encoding::Encoding;
use serde_json::Value;
use std::alloc::{AllocError, Global};

/// Adds the labels of a whole file.
pub(super) fn add_file(
    alloc: Global,
    labels: &mut Vec<Label>,
    file: &Value,
) -> Result<(), LabelFault>
    ensures { Gathers (behind (table_of labels.old.items) (table_of_json (view file.now))) result
        (table_of labels.new.items) }
{
    let groups = file.as_array().ok_or(LabelFault::BadShape)?;
    for group in groups {
        add_group(alloc, labels, group)?;
    }
    Ok(())
}

/// Adds the labels of one group of encodings.
fn add_group(alloc: Global, labels: &mut Vec<Label>, group: &Value) -> Result<(), LabelFault>
    ensures { Gathers (behind (table_of labels.old.items)
        (option_map (flat_map labels_listed) (group_of (view group.now)))) result
        (table_of labels.new.items) }
{
    let encodings = array_at(group, "encodings").ok_or(LabelFault::BadShape)?;
    for listed in encodings {
        add_encoding(alloc, labels, listed)?;
    }
    Ok(())
}

/// Adds the labels of one encoding. If its name is unknown, only its shape is checked.
fn add_encoding(alloc: Global, labels: &mut Vec<Label>, listed: &Value) -> Result<(), LabelFault>
    ensures { Gathers (behind (table_of labels.old.items)
        (option_map labels_listed (listed_of (view listed.now)))) result
        (table_of labels.new.items) }
{
    let name = text_at(listed, "name").ok_or(LabelFault::BadShape)?;
    let texts = array_at(listed, "labels").ok_or(LabelFault::BadShape)?;
    let encoding = Encoding::named(name);
    for text in texts {
        add_label(alloc, labels, encoding, text)?;
    }
    Ok(())
}

/// Adds one label, or none if its encoding is unknown.
fn add_label(
    alloc: Global,
    labels: &mut Vec<Label>,
    encoding: Option<Encoding>,
    label: &Value,
) -> Result<(), LabelFault>
    ensures { Gathers (behind (table_of labels.old.items)
        (option_map (label_of encoding) (as_str (view label.now)))) result
        (table_of labels.new.items) }
{
    let text = label.as_str().ok_or(LabelFault::BadShape)?;
    if let Some(encoding) = encoding {
        let text = String::from_str(alloc, text)?;
        labels
            .push(Label { text, encoding })
            .map_err(AllocError::from)?;
    }
    Ok(())
}

/// The array in a field of an object.
fn array_at<'a>(value: &'a Value, field: &str) -> Option<&'a [Value]>
    ensures { option_map (λ items. items_view items.now) result
        ≡ option_and_then as_array (get field.now (view value.now)) }
{
    value
        .get(field)
        .and_then(Value::as_array)
        .map(Vec::as_slice)
}

/// The text in a field of an object.
fn text_at<'a>(value: &'a Value, field: &str) -> Option<&'a str>
    ensures { option_map (λ text. text.now) result ≡ text_at (view value.now) field.now }
{
    value.get(field).and_then(Value::as_str)
}
