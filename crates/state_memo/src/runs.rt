//! Runs one after the other.
ghost use Rattle.std.specs.Prelude.{◌≡◌, drop, slice_get};

use crate::plain_runs::PlainRuns;
use crate::run::Run;
use crate::shaped_runs::ShapedRuns;
use std::marker::Model;

/// The runs of a piece's items, one after the other. Contracts see the list of those that are left.
#[derive(Drop)]
pub struct Runs<'r> {
    listed: &'r [Run],
    shaped: ShapedRuns<'r>,
    plain: PlainRuns<'r>,
}

impl<'r> Model for Runs<'r> {
    ghost use Rattle.std.specs.Prelude.{List, ◌++◌};
    ghost use Rattle.state_memo.specs.declared.run.Run.{Run};

    ghost Value = { List Run };

    ghost view = { λ r. r.listed.now ++ r.shaped ++ r.plain };
}

impl<'r> Runs<'r> {
    /// Makes the iterator over these runs.
    pub(crate) fn listed(runs: &'r [Run]) -> Runs<'r>
        ensures { result ≡ runs.now }
    {
        Runs {
            listed: runs,
            shaped: ShapedRuns::none(),
            plain: PlainRuns::none(),
        }
    }

    /// Makes the iterator over runs that are kept by the numbers of their shapes.
    pub(crate) fn shaped(shaped: ShapedRuns<'r>) -> Runs<'r>
        ensures { result ≡ shaped.entry }
    {
        Runs {
            listed: &[],
            shaped,
            plain: PlainRuns::none(),
        }
    }

    /// Makes the iterator over the runs of code points of a text.
    pub(crate) fn plain(plain: PlainRuns<'r>) -> Runs<'r>
        ensures { result ≡ plain.entry }
    {
        Runs {
            listed: &[],
            shaped: ShapedRuns::none(),
            plain,
        }
    }

    /// The first one.
    // In the loops over runs.
    #[inline(always)]
    pub fn first(&self) -> Option<Run>
        ensures { result ≡ slice_get self.now 0 }
    {
        match self.listed.first() {
            Some(run) => Some(*run),
            None => match self.shaped.first() {
                Some(run) => Some(run),
                None => self.plain.first(),
            },
        }
    }

    /// Goes past the first one, if there is any.
    // In the loops over runs.
    #[inline(always)]
    pub fn advance(&mut self)
        ensures { self.new ≡ drop 1 self.old }
    {
        match self.listed.split_first() {
            Some((_, rest)) => self.listed = rest,
            None if self.shaped.is_done() => self.plain.advance(),
            None => self.shaped.advance(),
        }
    }
}
