//! The tree as a list.
ghost use Rattle.std.specs.Prelude.{◌≡◌, ℕ, ◌+◌, ◌-◌, ◌*◌, ◌^◌, ◌<◌, ◌≤◌, [], length, take, drop, slice_get};
ghost use Rattle.std.specs.Prelude.{slice_set, option_copied, vec_len, vec_capacity, IfOk, OnErr, OnOk};
ghost use Rattle.std.specs.List.{insert, remove};
ghost use Rattle.sum_tree.specs.Sums.{total, AllRunsFit, IsSummable};
ghost use Rattle.sum_tree.specs.{Row.IsSound, Reached.IsFirstAbove, Reached.IsSearched, Refilled.with_run};

use crate::build::built;
use crate::counter::Visits;
use crate::finder::Finder;
use crate::memory::OutOfMemory;
use crate::node::Child;
use crate::pool::{Pool, add_places};
use crate::root::{inserted, refilled, removed, replaced, searched, summed};
use crate::summary::{Dimension, Summary, Summed, TryCopy};
use std::alloc::{AllocError, Global};
use std::marker::Model;

/// A list of elements with the sums of its prefixes. Contracts see the list, and how many inserts
/// are certain to need no memory.
#[derive(Drop)]
pub struct SumTree<T: Summed<S> + Drop, S: Summary> {
    root: Option<Child<T, S>>,
    pool: Pool<T, S>,
    spare: usize,
    alloc: Global,
}

impl<T: Summed<S> + Drop, S: Summary> Model for SumTree<T, S> {
    ghost use Rattle.std.specs.Prelude.{vec_len, vec_capacity};
    ghost use Rattle.sum_tree.specs.Listed.{Listed, items_in, IsTree};

    ghost Value = { Listed T };

    ghost view = { λ a. record { items = items_in a.root; spare = a.spare } };

    ghost invariant = { λ a. IsTree S.fits S.empty S.op T.sum_of a.root (vec_len a.pool)
        (vec_capacity a.pool) a.spare };
}

impl<T: Summed<S> + Drop, S: Summary> SumTree<T, S> {
    /// Makes the empty list (`items`), without reserved places (`spare`). Its memory comes from
    /// `alloc`.
    pub fn new(alloc: Global) -> SumTree<T, S>
        ensures items { result.items ≡ [] }
        ensures spare { result.spare ≡ 0 }
    {
        SumTree {
            root: None,
            pool: Vec::new(alloc),
            spare: 0,
            alloc,
        }
    }

    /// Moves the elements into a new list (`list`) and leaves none behind (`ok`). It takes time
    /// proportional to their number. If memory is refused, they stay in `items` (`err`).
    pub fn build(alloc: Global, items: &mut Vec<T>) -> Result<SumTree<T, S>, OutOfMemory>
        requires { AllRunsFit S.fits S.empty S.op T.sum_of items.old.items }
        ensures ok { OnOk result (items.new.items ≡ []) }
        ensures list { IfOk result (λ tree. tree.items ≡ items.old.items) }
        ensures err { OnErr result (items.new.items ≡ items.old.items) }
    {
        let mut tree = SumTree::new(alloc);
        tree.reserve(items.len())?;
        tree.fill(items);
        Ok(tree)
    }

    /// Moves the elements into the empty list, within what was reserved.
    fn fill(&mut self, items: &mut Vec<T>)
        requires empty { self.old.items ≡ [] }
        requires room { length items.old.items ≤ self.old.spare }
        requires fit { AllRunsFit S.fits S.empty S.op T.sum_of items.old.items }
        ensures items { self.new.items ≡ items.old.items }
        ensures emptied { items.new.items ≡ [] }
    {
        let count = items.len();
        self.root = built(items, &mut self.pool);
        self.spare -= count;
    }

    /// The number of elements.
    pub fn len(&self) -> usize
        ensures { result ≡ length self.now.items }
    {
        match &self.root {
            Some(root) => root.count(),
            None => 0,
        }
    }

    /// Makes the list of the elements below this root, without reserved places.
    fn under(root: Child<T, S>, pool: Pool<T, S>, alloc: Global) -> SumTree<T, S>
        requires sound { IsSound root }
        requires summable { IsSummable S.fits S.empty S.op T.sum_of root.items }
        requires room { 2 * length root.items ≤ vec_len pool + root.nodes + 1 }
        requires space { vec_len pool + root.nodes ≤ vec_capacity pool }
        ensures { result.items ≡ root.items }
    {
        SumTree {
            root: Some(root),
            pool,
            spare: 0,
            alloc,
        }
    }

    /// The number of inserts that are certain to need no memory.
    pub fn spare(&self) -> usize
        ensures { result ≡ self.now.spare }
    {
        self.spare
    }

    /// Reserves places so that this many inserts need no memory (`ok`). The list is unchanged
    /// (`items`), and no place is lost (`kept`). If memory is refused, the places are unchanged too
    /// (`err`).
    pub fn reserve(&mut self, n: usize) -> Result<(), OutOfMemory>
        ensures items { self.new.items ≡ self.old.items }
        ensures ok { OnOk result (n ≤ self.new.spare) }
        ensures kept { self.old.spare ≤ self.new.spare }
        ensures err { OnErr result (self.new.spare ≡ self.old.spare) }
    {
        if n <= self.spare {
            return Ok(());
        }
        self.grow(n, n - self.spare)
    }

    /// Raises the number of places to `n`, by `missing`. If memory is refused, the list and its places
    /// are unchanged. Memory is always refused to a list of 2^32 elements, whose boxes would take
    /// about 10^12 bytes.
    fn grow(&mut self, n: usize, missing: usize) -> Result<(), OutOfMemory>
        requires { self.old.spare + missing ≡ n }
        ensures items { self.new.items ≡ self.old.items }
        ensures ok { OnOk result (self.new.spare ≡ n) }
        ensures err { OnErr result (self.new.spare ≡ self.old.spare) }
    {
        let len = self.len();
        if n > u32::MAX as usize - len {
            return Err(AllocError);
        }
        let boxes = 2 * (len + missing);
        self.pool.reserve(boxes)?;
        add_places(self.alloc, &mut self.pool, missing)?;
        self.spare = n;
        Ok(())
    }

    /// Inserts an element before number `i`, or at the end (`place`, `items`). It takes one of the
    /// reserved places (`spare`), so there must be one (`room`), and no memory. The sums of all runs
    /// of the new elements must fit (`fit`).
    pub fn insert(&mut self, i: usize, item: T)
        requires place { i ≤ length self.old.items }
        requires room { 0 < self.old.spare }
        requires fit { AllRunsFit S.fits S.empty S.op T.sum_of (insert self.old.items i item) }
        ensures items { self.new.items ≡ insert self.old.items i item }
        ensures spare { self.new.spare + 1 ≡ self.old.spare }
    {
        let _capacity = self.pool.capacity();
        let root = inserted(self.root.take(), i, item, &mut self.pool);
        self.root = Some(root);
        self.spare -= 1;
    }

    /// Removes element number `i` (`items`), which must be there (`place`), and returns it
    /// (`element`). The sums of all runs of the others must fit (`fit`). Its place is free for an
    /// insert (`spare`), and the call takes no memory.
    pub fn remove(&mut self, i: usize) -> T
        requires place { i < length self.old.items }
        requires fit { AllRunsFit S.fits S.empty S.op T.sum_of (remove self.old.items i) }
        ensures element { slice_get self.old.items i ≡ Some result }
        ensures items { self.new.items ≡ remove self.old.items i }
        ensures spare { self.new.spare ≡ self.old.spare + 1 }
    {
        let _capacity = self.pool.capacity();
        let (item, rest) = removed(self.root.take(), i, &mut self.pool);
        self.root = rest;
        self.spare += 1;
        item
    }

    /// Replaces element number `i`, which must be there (`place`), by this one (`items`) and returns
    /// the old one (`element`). The sums of all runs of the new elements must fit (`fit`). It takes
    /// no place (`spare`) and no memory.
    pub fn replace(&mut self, i: usize, item: T) -> T
        requires place { i < length self.old.items }
        requires fit { AllRunsFit S.fits S.empty S.op T.sum_of (slice_set self.old.items i item) }
        ensures element { slice_get self.old.items i ≡ Some result }
        ensures items { self.new.items ≡ slice_set self.old.items i item }
        ensures spare { self.new.spare ≡ self.old.spare }
    {
        let _capacity = self.pool.capacity();
        let (old, root) = replaced(self.root.take(), i, item);
        self.root = Some(root);
        old
    }

    /// Replaces the elements from number `from` to number `to` in one walk (`items`). The two are in
    /// this order (`order`), and in the tree (`within`). The new ones are the last of `items`, which
    /// has at least as many (`enough`), and keeps the rest (`rest`). The sums of all runs of the new
    /// elements must fit (`fit`). It takes no place (`spare`) and no memory.
    pub fn refill(&mut self, from: usize, to: usize, items: &mut Vec<T>)
        requires order { from ≤ to }
        requires within { to ≤ length self.old.items }
        requires enough { to ≤ length items.old.items + from }
        requires fit { AllRunsFit S.fits S.empty S.op T.sum_of
            (with_run self.old.items from to (drop (length items.old.items - (to - from)) items.old.items)) }
        ensures items { self.new.items
            ≡ with_run self.old.items from to (drop (length items.old.items - (to - from)) items.old.items) }
        ensures rest { items.new.items ≡ take (length items.old.items - (to - from)) items.old.items }
        ensures spare { self.new.spare ≡ self.old.spare }
    {
        let _capacity = self.pool.capacity();
        self.root = refilled(self.root.take(), from, to, items);
    }

    /// Element number `i`.
    pub fn get(&self, i: usize) -> &T
        requires { i < length self.now.items }
        ensures { slice_get self.now.items i ≡ Some result.now }
    {
        match &self.root {
            Some(root) => root.get(i),
            None => unreachable!(),
        }
    }

    /// The sum of all elements.
    pub fn total(&self) -> S
        ensures { result ≡ total S.empty S.op T.sum_of self.now.items }
    {
        match &self.root {
            Some(root) => root.total(),
            None => S::unit(),
        }
    }

    /// The sum of the first `i` elements (`sum`). It visits at most one node on each level
    /// (`most`), and at least one node if the list isn't empty (`least`). The count of visits never
    /// falls (`kept`).
    pub fn prefix(&self, i: usize, visits: &mut Visits) -> S
        requires { i ≤ length self.now.items }
        ensures sum { result ≡ total S.empty S.op T.sum_of (take i self.now.items) }
        ensures most { (d : ℕ) → length self.now.items < 2 ^ d → visits.new ≤ visits.old + (d + 2) }
        ensures least { 0 < length self.now.items
            → visits.old < 2 ^ 64 - 1 → visits.old < visits.new }
        ensures kept { visits.old ≤ visits.new }
    {
        match &self.root {
            Some(root) => summed(root, i, visits),
            None => S::unit(),
        }
    }

    /// Finds the first place after which the dimension is above the target. Returns it, or the
    /// number of elements, and the sum of the elements before it (`place`). It visits at most one
    /// node on each level (`most`), and at least one node if the list isn't empty (`least`). The
    /// count of visits never falls (`kept`).
    pub fn seek<D: Dimension<S>>(
        &self,
        dimension: &D,
        target: u64,
        visits: &mut Visits,
    ) -> (usize, S)
        ensures place { IsFirstAbove (D.measure dimension.now) target S.empty S.op T.sum_of
            self.now.items result.0 result.1 }
        ensures most { (d : ℕ) → length self.now.items < 2 ^ d → visits.new ≤ visits.old + (d + 2) }
        ensures least { 0 < length self.now.items
            → visits.old < 2 ^ 64 - 1 → visits.old < visits.new }
        ensures kept { visits.old ≤ visits.new }
    {
        let (k, sum, _) = self.search(dimension, target, visits);
        (k, sum)
    }

    /// The list for those who find elements by sums alone.
    pub fn finder(&self) -> Finder<'_, T, S>
        ensures { result ≡ self.now.items }
    {
        Finder::over(self)
    }

    /// The result of `seek`, with the element there.
    pub(crate) fn search<D: Dimension<S>>(
        &self,
        dimension: &D,
        target: u64,
        visits: &mut Visits,
    ) -> (usize, S, Option<&T>)
        ensures found { IsSearched (D.measure dimension.now) target S.empty S.op T.sum_of
            self.now.items result.0 result.1 (option_copied result.2) }
        ensures most { (d : ℕ) → length self.now.items < 2 ^ d → visits.new ≤ visits.old + (d + 2) }
        ensures least { 0 < length self.now.items
            → visits.old < 2 ^ 64 - 1 → visits.old < visits.new }
        ensures kept { visits.old ≤ visits.new }
    {
        match &self.root {
            Some(root) => searched(root, dimension, target, visits),
            None => (0, S::unit(), None),
        }
    }
}

impl<T: Summed<S> + TryCopy + Drop, S: Summary> SumTree<T, S> {
    /// A list of copies of the elements, in time proportional to their number. Its memory comes
    /// from `alloc`.
    pub fn copy(&self, alloc: Global) -> Result<SumTree<T, S>, OutOfMemory>
        ensures { IfOk result (λ tree. tree.items ≡ self.now.items) }
    {
        let Some(root) = &self.root else {
            return Ok(SumTree::new(alloc));
        };
        let count = root.count();
        let boxes = count.checked_mul(2).ok_or(AllocError)?;
        let mut pool = Vec::with_capacity(alloc, boxes)?;
        add_places(alloc, &mut pool, count)?;
        let root = root.copy(&mut pool)?;
        Ok(SumTree::under(root, pool, alloc))
    }
}
