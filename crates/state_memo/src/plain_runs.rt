//! Runs of the code points of a text, one after the other.
ghost use Rattle.std.specs.Prelude.{◌≡◌, ◌++◌, ◌^◌, [], drop, slice_get, pos, ◌+ℤ◌, ◌<ℤ◌};
ghost use Rattle.std.specs.Str.{chars};
ghost use Rattle.decoder_core.specs.Bulk.{run_width};
ghost use Rattle.state_memo.specs.{Plain.plain_runs, Runs.runs_of_last};

use crate::kind::ItemKind;
use crate::plain::split_first;
use crate::run::{Run, end_behind};
use decoder_core::Stride;
use std::marker::Model;

/// A leading run, if any, and one run for each code point of a text. There are no gaps. Contracts see the list of the
/// runs that are left.
#[derive(Drop)]
pub(crate) struct PlainRuns<'r> {
    front: Option<Run>,
    text: &'r str,
    /// The start of the text's first item.
    from: i16,
    /// The length of each.
    stride: Stride,
    /// The kind of each.
    kind: ItemKind,
}

impl<'r> Model for PlainRuns<'r> {
    ghost use Rattle.std.specs.Prelude.{◌++◌, ◌^◌, List, pos, ◌+ℤ◌, ◌<ℤ◌};
    ghost use Rattle.std.specs.Str.{chars};
    ghost use Rattle.decoder_core.specs.Bulk.{run_width};
    ghost use Rattle.state_memo.specs.{Plain.plain_runs, Runs.runs_of_last};
    ghost use Rattle.state_memo.specs.declared.run.Run.{Run};

    ghost Value = { List Run };

    ghost view = { λ r. runs_of_last r.front ++ plain_runs r.stride r.kind r.from (chars r.text.now) };

    ghost invariant = { λ r. (r.from +ℤ pos (run_width r.stride (chars r.text.now))) <ℤ pos (2 ^ 15) };
}

impl<'r> PlainRuns<'r> {
    /// A run and those of a text whose first item begins at `from`.
    pub(crate) fn new(
        front: Option<Run>,
        text: &'r str,
        from: i16,
        stride: Stride,
        kind: ItemKind,
    ) -> PlainRuns<'r>
        requires { (from +ℤ pos (run_width stride (chars text.now))) <ℤ pos (2 ^ 15) }
        ensures { result ≡ runs_of_last front ++ plain_runs stride kind from (chars text.now) }
    {
        PlainRuns {
            front,
            text,
            from,
            stride,
            kind,
        }
    }

    /// No run.
    pub(crate) fn none() -> PlainRuns<'r>
        ensures { result ≡ [] }
    {
        PlainRuns {
            front: None,
            text: "",
            from: 0,
            stride: Stride::Bytes,
            kind: ItemKind::AsciiOne,
        }
    }

    /// The first one.
    pub(crate) fn first(&self) -> Option<Run>
        ensures { result ≡ slice_get self.now 0 }
    {
        let from = self.from;
        if let Some(run) = self.front {
            return Some(run);
        }
        let (width, _) = split_first(self.text, self.stride)?;
        Some(Run::one(self.kind, end_behind(from, width)))
    }

    /// Goes past the first one, if there is any.
    pub(crate) fn advance(&mut self)
        ensures { self.new ≡ drop 1 self.old }
    {
        if self.front.is_some() {
            self.front = None;
            return;
        }
        let from = self.from;
        let Some((width, rest)) = split_first(self.text, self.stride) else {
            return;
        };
        self.from = end_behind(from, width);
        self.text = rest;
    }
}
