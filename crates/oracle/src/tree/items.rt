//! A tree of items, and its edits at any place.
ghost use Rattle.std.specs.Prelude.{◌≡◌, IfOk, IfSome, IsTrue, slice_get, slice_set, Some};
ghost use Rattle.std.specs.List.{insert, remove};

use crate::tree::item::WeightedItem;
use crate::tree::load::Load;
use std::alloc::Global;
use sum_tree::{OutOfMemory, SumTree, law_sums_of_lists};

/// A list of items with the loads of its prefixes.
pub type Items = SumTree<WeightedItem, Load>;

/// The most items of a list.
pub const LIMIT: usize = 1_048_576;

/// Inserts an item before number `i`, if there is such a place. A place must be reserved for it.
pub fn put(items: &mut Items, i: usize, item: WeightedItem) -> bool
    ensures { IsTrue result → items.new.items ≡ insert items.old.items i item }
{
    if i > items.len() || items.spare() == 0 || items.len() >= LIMIT {
        return false;
    }
    law_sums_of_lists::<WeightedItem, Load>();
    items.insert(i, item);
    true
}

/// Takes item number `i` out, if there is one.
pub fn take(items: &mut Items, i: usize) -> Option<WeightedItem>
    ensures { IfSome result (λ _. items.new.items ≡ remove items.old.items i) }
{
    if i >= items.len() || items.len() >= LIMIT {
        return None;
    }
    law_sums_of_lists::<WeightedItem, Load>();
    Some(items.remove(i))
}

/// Replaces item number `i`, if there is one, and returns the old one.
pub fn swap(items: &mut Items, i: usize, item: WeightedItem) -> Option<WeightedItem>
    ensures { IfSome result (λ _. items.new.items ≡ slice_set items.old.items i item) }
{
    if i >= items.len() || items.len() >= LIMIT {
        return None;
    }
    law_sums_of_lists::<WeightedItem, Load>();
    Some(items.replace(i, item))
}

/// A list of these items, which it takes, if they are fewer than `LIMIT`.
pub fn built(alloc: Global, items: &mut Vec<WeightedItem>) -> Result<Option<Items>, OutOfMemory>
    ensures { IfOk result (λ o. IfSome o (λ list. list.items ≡ items.old.items)) }
{
    if items.len() >= LIMIT {
        return Ok(None);
    }
    law_sums_of_lists::<WeightedItem, Load>();
    Ok(Some(Items::build(alloc, items)?))
}
