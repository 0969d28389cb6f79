//! A list of changes, element by element.
ghost use Rattle.std.specs.Prelude.{◌≡◌, option_map, IfOk, map};
ghost use Rattle.serde_json.specs.View.{view, items_view};
ghost use Rattle.desk.specs.Changes.{change_of};
ghost use Rattle.line_protocol.specs.Parsed.{parsed_data};
ghost use Rattle.line_protocol.specs.Fields.{as_change, as_changes, changes_at};

use crate::request::fields;
use crate::request::parsed::Parsed;
use desk::ops::ContentChange;
use serde_json::Value;
use std::alloc::{AllocError, Global};

/// The most changes of a list.
const MAX_CHANGES: usize = 1_000;

/// Reads the list of changes in an object: `None` if the object has no such list, or an element
/// isn't a change.
///
/// # Errors
///
/// Memory ran out.
#[tactic(auto, using(crate::proofs::ChangeLists::len_viewed))]
pub(crate) fn change_list(
    alloc: Global,
    value: Parsed<'_>,
) -> Result<Option<Vec<ContentChange<'_>>>, AllocError>
    ensures { IfOk result (λ found. option_map (λ list. map change_of list.items) found ≡ changes_at (parsed_data value.entry)) }
{
    let Some(elements) = value.get("changes").and_then(Parsed::as_array) else {
        return Ok(None);
    };
    if elements.len() > MAX_CHANGES {
        return Ok(None);
    }
    each(alloc, elements.as_slice())
}

/// Reads the changes in these elements: `None` if one of them isn't a change.
fn each(alloc: Global, elements: &[Value]) -> Result<Option<Vec<ContentChange<'_>>>, AllocError>
    ensures { IfOk result (λ found. option_map (λ list. map change_of list.items) found ≡ as_changes (items_view elements.now)) }
{
    let mut list = Vec::with_capacity(alloc, elements.len())?;
    for element in elements {
        let Some(change) = content_change(element) else {
            return Ok(None);
        };
        list.push(change)?;
    }
    Ok(Some(list))
}

/// A change: the range that it replaces, and the text.
fn content_change(value: &Value) -> Option<ContentChange<'_>>
    ensures { option_map change_of result ≡ as_change (view value.now) }
{
    let value = Parsed::Tree(value);
    let range = fields::range(value)?;
    let text = fields::text(value, "text")?;
    Some(ContentChange { range, text })
}
