//! The nodes that a search visits in a tree of items, and the time of edits and searches.

use crate::fastest::Fastest;
use index_files::EarlyEnd;
use oracle::tree::{Items, LoadAxis, light, put, take};
use rand::rngs::SmallRng;
use rand::{RngExt, SeedableRng};
use std::alloc::{AllocError, Global};
use std::io;
use std::time::{Duration, Instant};
use sum_tree::{SumTree, visits};

/// The sizes that are looked at.
const SIZES: [usize; 2] = [4097, 32769];

/// The number of times that each step is timed.
const ROUNDS: usize = 20;

/// The number of edits or searches in a step.
const STEPS: usize = 1000;

/// Prints how many nodes a search visits in a list of `count` items.
fn list_one(rt: &HostRuntime, count: usize) -> Result<(), EarlyEnd> {
    let items = grown(rt.alloc(), count)?;
    let (fewest, most) = visited(&items);
    drop(items);
    println!(rt; "{count:>6} items: a find visits {fewest} to {most} nodes")?;
    Ok(())
}

/// Prints how many nodes a search visits, and how to measure.
pub fn list(rt: &HostRuntime) -> Result<(), EarlyEnd> {
    for count in &SIZES {
        list_one(rt, *count)?;
    }
    println!(rt; "'speed tree' measures how long a step takes.")?;
    Ok(())
}

/// The fastest rounds of finds, of inserts and of removes.
#[derive(Clone, Copy)]
struct Steps {
    find: Fastest,
    insert: Fastest,
    remove: Fastest,
}

/// Prints what each step costs.
pub fn measure(rt: &HostRuntime) -> Result<(), EarlyEnd> {
    for count in &SIZES {
        let mut items = grown(rt.alloc(), *count)?;
        let steps = measure_one(rt, &mut items);
        drop(items);
        print_steps(rt, *count, steps?)?;
    }
    Ok(())
}

/// Prints what each step costs in a list of `count` items.
fn print_steps(rt: &HostRuntime, count: usize, steps: Steps) -> Result<(), EarlyEnd> {
    let (insert, remove) = (each(steps.insert.time), each(steps.remove.time));
    let find = each(steps.find.time);
    println!(rt; "{count:>6} items: insert {insert} ns, remove {remove} ns, find {find} ns")?;
    Ok(())
}

/// Measures each step in a list. It takes the fastest of some rounds of a thousand finds, inserts
/// and removes.
fn measure_one(rt: &HostRuntime, items: &mut Items) -> Result<Steps, EarlyEnd> {
    let mut rng = SmallRng::seed_from_u64(2);
    let mut steps = Steps {
        find: Fastest::new(),
        insert: Fastest::new(),
        remove: Fastest::new(),
    };
    for _ in 0..ROUNDS {
        let targets = targets(rt.alloc(), &mut rng, items.len())?;
        time_steps(rt, items, &targets, &mut steps)?;
    }
    Ok(steps)
}

/// Times a round of finds, of inserts and of removes of these items.
fn time_steps(
    rt: &HostRuntime,
    items: &mut Items,
    targets: &[usize],
    steps: &mut Steps,
) -> io::Result<()> {
    let start = Instant::now(rt)?;
    let visited = search(items, targets);
    steps.find.take(rt, start, visited)?;
    let start = Instant::now(rt)?;
    put_all(items, targets);
    steps.insert.take(rt, start, items.len())?;
    let start = Instant::now(rt)?;
    take_all(items, targets);
    steps.remove.take(rt, start, items.len())
}

/// Nanoseconds a step.
fn each(time: Duration) -> u128 {
    time.as_nanos() / STEPS as u128
}

/// Makes a list of `count` items at places that look random. It has places for more.
fn grown(alloc: Global, count: usize) -> Result<Items, AllocError> {
    let mut items = SumTree::new(alloc);
    items.reserve(count.saturating_add(STEPS))?;
    let mut rng = SmallRng::seed_from_u64(1);
    for _ in 0..count {
        let i = rng.random_range(0..=items.len());
        let weight = rng.random_range(0..65536usize);
        put(&mut items, i, light(weight));
    }
    Ok(items)
}

/// The fewest and the most nodes that a find by number visits.
fn visited(items: &Items) -> (u64, u64) {
    let finder = items.finder();
    let mut fewest = u64::MAX;
    let mut most = 0;
    for i in 0..items.len() {
        let mut count = visits();
        let _ = finder.find(&LoadAxis::Count, i as u64, &mut count);
        fewest = fewest.min(count.visited());
        most = most.max(count.visited());
    }
    (fewest, most)
}

/// The numbers of `STEPS` items of a list of length `len`, drawn at random.
fn targets(alloc: Global, rng: &mut SmallRng, len: usize) -> Result<Vec<usize>, AllocError> {
    let mut targets = Vec::new(alloc);
    for _ in 0..STEPS {
        targets.push(rng.random_range(0..len.max(1)))?;
    }
    Ok(targets)
}

/// Finds each of these items by its number, and returns the visited nodes.
fn search(items: &Items, targets: &[usize]) -> usize {
    let finder = items.finder();
    let mut count = visits();
    for target in targets {
        let _ = finder.find(&LoadAxis::Count, *target as u64, &mut count);
    }
    count.visited() as usize
}

/// Inserts an item before each of these places.
fn put_all(items: &mut Items, targets: &[usize]) {
    for target in targets {
        put(items, *target, light(*target));
    }
}

/// Takes the items at these places out.
fn take_all(items: &mut Items, targets: &[usize]) {
    for target in targets {
        take(items, *target);
    }
}
