//! The tree of sums against a plain vector, by items of a weight.

use oracle::tree::{Items, Load, LoadAxis, WeightedItem, built, light, put, swap, take};
use rand::rngs::SmallRng;
use rand::{RngExt, SeedableRng};
use std::alloc::Global;
use std::process::Abort;
use std::test::Fail;
use sum_tree::{SumTree, visits};

/// The sum with one more item.
fn with(sum: Load, item: &WeightedItem) -> Load {
    Load {
        count: sum.count.saturating_add(1),
        weight: sum.weight.saturating_add(item.weight),
    }
}

/// The sum of these items.
fn load_of(items: &[WeightedItem]) -> Load {
    let mut load = Load {
        count: 0,
        weight: 0,
    };
    for item in items {
        load = with(load, item);
    }
    load
}

/// Finds the first item after which the weight is above the target. Returns its place and the sum
/// before it; the end if there is none.
fn plain_find(items: &[WeightedItem], target: u64) -> (usize, Load, Option<WeightedItem>) {
    let mut before = load_of(&[]);
    for (i, item) in items.iter().enumerate() {
        let behind = with(before, item);
        if behind.weight > target {
            return (i, before, Some(*item));
        }
        before = behind;
    }
    (items.len(), before, None)
}

/// Whether this item has this place, and this sum before it.
fn is_at(items: &Items, i: usize, item: &WeightedItem, before: Load) -> bool {
    i < items.len() && items.get(i) == item && items.prefix(i, &mut visits()) == before
}

/// Whether a search by weight finds what it should.
fn finds(
    items: &Items,
    target: u64,
    (i, before, item): (usize, Load, Option<WeightedItem>),
) -> bool {
    let (sum, element) = items
        .finder()
        .find(&LoadAxis::Weight, target, &mut visits());
    sum == before
        && element.copied() == item
        && items.seek(&LoadAxis::Weight, target, &mut visits()) == (i, before)
}

/// The tree has these items, their sums and their places.
fn same(rt: &impl Abort, items: &Items, wanted: &[WeightedItem], target: u64) {
    assert!(rt; items.len() == wanted.len() && items.total() == load_of(wanted));
    let mut before = load_of(&[]);
    for (i, item) in wanted.iter().enumerate() {
        assert!(rt; is_at(items, i, item, before), "item {i}");
        before = with(before, item);
    }
    assert!(rt; finds(items, target, plain_find(wanted, target)));
}

#[test]
fn two_inserts_at_the_front(rt: HostRuntime) -> Result<(), Fail> {
    let mut items: Items = SumTree::new(rt.alloc());
    items.reserve(2)?;
    assert!(&rt; items.spare() == 2);
    assert!(&rt; put(&mut items, 0, light(1)));
    assert!(&rt; put(&mut items, 0, light(2)));
    same(&rt, &items, &[light(2), light(1)], 2);
    assert!(&rt; items.spare() == 0);
    Ok(())
}

/// Makes an insert, a remove or a replace in both the tree and the vector. The place looks random;
/// the greater `most` is, the more removes there are.
fn edit_both(
    rt: &impl Abort,
    rng: &mut SmallRng,
    items: &mut Items,
    wanted: &mut Vec<WeightedItem>,
    most: u32,
) -> Result<(), Fail> {
    let item = light(rng.random_range(0..65536usize));
    let i = rng.random_range(0..=wanted.len());
    match rng.random_range(0..=most) {
        0 if i < wanted.len() => {
            assert!(rt; swap(items, i, item) == Some(wanted[i]));
            wanted[i] = item;
        }
        1 | 4 | 5 if i < wanted.len() => {
            assert!(rt; take(items, i) == Some(wanted.remove(i)));
        }
        _ => {
            assert!(rt; put(items, i, item));
            wanted.insert(i, item)?;
        }
    }
    Ok(())
}

/// Thousands of edits.
#[test]
fn edits_against_a_vector(rt: HostRuntime) -> Result<(), Fail> {
    let mut rng = SmallRng::seed_from_u64(3);
    let mut items: Items = SumTree::new(rt.alloc());
    let mut wanted: Vec<WeightedItem> = Vec::new(rt.alloc());
    items.reserve(4000)?;
    for round in 0..6000 {
        let most = if round < 3000 { 3 } else { 5 };
        edit_both(&rt, &mut rng, &mut items, &mut wanted, most)?;
        if round % 500 == 0 {
            same(&rt, &items, &wanted, rng.random_range(0..100_000_000));
        }
    }
    same(&rt, &items, &wanted, 0);
    same(&rt, &items, &wanted, u64::MAX);
    Ok(())
}

/// Takes memory until a small block is refused, or nearly so.
fn all_memory(alloc: Global) -> Result<Vec<Vec<u8>>, Fail> {
    let mut taken = Vec::with_capacity(alloc, 1_048_576)?;
    for halvings in 0..42u32 {
        for _ in 0..16_384 {
            match Vec::<u8>::with_capacity(alloc, (1usize << 46) >> halvings) {
                Ok(block) => taken.push(block)?,
                Err(_) => break,
            }
        }
    }
    Ok(taken)
}

/// After a reservation inserts succeed even if no memory is left.
#[test]
fn inserts_without_memory(rt: HostRuntime) -> Result<(), Fail> {
    let mut items: Items = SumTree::new(rt.alloc());
    items.reserve(2000)?;
    let taken = all_memory(rt.alloc())?;
    let refused = items.reserve(1_000_000).is_err();
    let mut all = true;
    for i in 0..2000 {
        all = put(&mut items, i / 2, light(i)) && all;
    }
    drop(taken);
    assert!(&rt; refused && all);
    assert!(&rt; items.len() == 2000 && items.spare() == 0);
    Ok(())
}

#[test]
fn built_of_many(rt: HostRuntime) -> Result<(), Fail> {
    for n in [0, 1, 2, 3, 4, 5, 6, 7, 8, 100, 4097] {
        let mut rng = SmallRng::seed_from_u64(4);
        let mut items: Vec<WeightedItem> = Vec::new(rt.alloc());
        for _ in 0..n {
            items.push(light(rng.random_range(0..65536usize)))?;
        }
        let wanted = items.clone()?;
        let built = built(rt.alloc(), &mut items)?;
        assert!(&rt; items.is_empty());
        match built {
            Some(built) => same(&rt, &built, &wanted, 1000),
            None => assert!(&rt; false, "not built"),
        }
    }
    Ok(())
}
