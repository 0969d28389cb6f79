//! Documents as their pieces and their tail.
ghost use Rattle.std.specs.Prelude.{◌≡◌, ℕ, ◌+◌, ◌-◌, ◌^◌, ◌<◌, ◌≤◌, length, map, take, drop, min, option_copied, true, IfOk, IfSome, Some};
ghost use Rattle.index_loader.specs.Files.{has_files};
ghost use Rattle.piece_rope.specs.Document.{decoded, errors_of, text_of};
ghost use Rattle.piece_rope.specs.{Entry.here_of, Search.measure, Sizes.longest};
ghost use Rattle.position_map.specs.Found.{IsFoundBy, IsFoundOutcome, errors_in_sum};
ghost use Rattle.position_map.specs.{ItemCuts.cut_of, Lines.lines_of, Placing.IsPlaced, Points.IsTextEnd, Whole.AreLengths, Whole.AreAllPieces};

use crate::places::Cut;
use crate::unit::{Point, Unit};
use enc_names::Encoding;
use index_loader::Indexes;
use iso2022jp::OutputState;
use piece_rope::{Axis, Doc, DocFault, Entered, ErrorCount, Finder, Lengths, Outcome, Sum, Visits};
use std::marker::Model;

/// A document as its tail and its pieces, which are reached by searches alone. Contracts see what
/// these decode to.
///
/// This crate's bodies reach a document only by the calls below. Each call counts its visits or reads
/// what is stored as a whole. There are two exceptions: the path of the tree to the first bytes, and
/// in `three_from` the path to one to three bytes. The type has no copies, so `three_from`, which
/// takes it, is called once.
#[derive(Drop)]
pub(crate) struct Parts<'d, 'i> {
    doc: &'d Doc<'i>,
    finder: Finder<'d, Entered, Sum>,
    tail: &'d Outcome,
    lengths: Lengths,
}

impl<'d, 'i> Model for Parts<'d, 'i> {
    ghost use Rattle.std.specs.Prelude.{map};
    ghost use Rattle.piece_rope.specs.{Entry.here_of, Sizes.longest};
    ghost use Rattle.position_map.specs.{Whole.AreLengths, Whole.Pieced, Whole.AreAllPieces};

    ghost Value = { Pieced };

    ghost view = { λ p. record { doc = p.doc.now; pieces = map here_of p.finder; tail = p.tail.now } };

    ghost invariant = { λ p. AreAllPieces p.doc.now (map here_of p.finder) p.tail.now × AreLengths p.doc.now p.lengths };
}

impl<'d, 'i> Parts<'d, 'i> {
    /// The parts of a document.
    pub(crate) fn of(doc: &'d Doc<'i>) -> Parts<'d, 'i>
        ensures doc { result.doc ≡ doc.now }
        ensures whole { AreAllPieces doc.now result.pieces result.tail }
    {
        Parts {
            doc,
            finder: doc.finder(),
            tail: doc.tail(),
            lengths: doc.lengths(),
        }
    }

    /// The outcome of the end of the bytes.
    pub(crate) fn tail(&self) -> &'d Outcome
        ensures tail { result.now ≡ self.now.tail }
        ensures whole { AreAllPieces self.now.doc self.now.pieces self.now.tail }
    {
        self.tail
    }

    /// The number of bytes.
    pub(crate) fn bytes(&self) -> u64
        ensures bytes { result ≡ length self.now.doc.bytes }
        ensures whole { AreAllPieces self.now.doc self.now.pieces self.now.tail }
    {
        self.lengths.bytes
    }

    /// The number of lines.
    pub(crate) fn line_count(&self) -> u64
        ensures lines { result ≡ length (lines_of (text_of self.now.doc)) }
        ensures whole { AreAllPieces self.now.doc self.now.pieces self.now.tail }
    {
        self.lengths.lines
    }

    /// The number of errors.
    pub(crate) fn errors(&self) -> u64
        ensures { result ≡ length (errors_of self.now.doc) }
    {
        self.lengths.errors
    }

    /// The indexes that the document was opened with.
    pub(crate) fn indexes(&self) -> &'i Indexes
        ensures { result.now ≡ self.now.doc.indexes }
    {
        self.doc.indexes()
    }

    /// The effective encoding.
    pub(crate) fn encoding(&self) -> Encoding
        ensures { result ≡ (decoded self.now.doc).encoding }
    {
        self.doc.encoding()
    }

    /// States the laws of the effective encoding (`Doc::law_in_force`). The call does nothing.
    pub(crate) fn law_in_force(&self)
        ensures files { has_files self.now.doc.indexes (decoded self.now.doc).encoding ≡ true }
        ensures within { (decoded self.now.doc).bom ≤ length self.now.doc.bytes }
    {
        self.doc.law_in_force();
    }

    /// The number of bytes of the byte order mark.
    pub(crate) fn bom(&self) -> u64
        ensures { result ≡ (decoded self.now.doc).bom }
    {
        self.doc.bom_len()
    }

    /// The cut before the first code point, after the byte order mark.
    pub(crate) fn first_cut(&self) -> Cut
        ensures { Some result ≡ cut_of self.now.doc 0 }
    {
        self.doc.law_in_force();
        Cut {
            at: self.doc.bom_len(),
            output: OutputState::Ascii,
        }
    }

    /// The text's end.
    pub(crate) fn end(&self, unit: Unit) -> Point
        ensures { IsTextEnd unit (text_of self.now.doc) result }
    {
        let scalars = self.lengths.scalars;
        let units = match unit {
            Unit::Utf8 => self.lengths.utf8,
            Unit::Utf16 => self.lengths.utf16,
            Unit::Utf32 => scalars,
        };
        Point { scalars, units }
    }

    /// Finds the first piece after which the axis is above the target. Returns the sum of the pieces
    /// before it, or of all if there is none.
    pub(crate) fn find(
        &self,
        axis: Axis,
        target: u64,
        visits: &mut Visits,
    ) -> (Sum, Option<&'d Outcome>)
        ensures place { IsFoundOutcome axis target self.now.pieces result.0 (option_copied result.1) }
        ensures small { IfSome result.1 (λ o. o.now.sum.bytes ≤ longest) }
        ensures most { (d : ℕ) → length self.now.pieces < 2 ^ d → visits.new ≤ visits.old + (d + 2) }
        ensures kept { visits.old ≤ visits.new }
    {
        let (before, found) = self.finder.find(&axis, target, visits);
        match found {
            Some(entered) => (before, Some(entered.here())),
            None => (before, None),
        }
    }

    /// Finds the first piece after which the axis is above `n`, or the tail. Returns the sum of the
    /// pieces before it.
    pub(crate) fn find_or_tail(&self, axis: Axis, n: u64, visits: &mut Visits) -> (Sum, &'d Outcome)
        ensures place { IsPlaced (measure axis) self.now n result.0 result.1.now }
        ensures whole { AreAllPieces self.now.doc self.now.pieces self.now.tail }
        ensures most { (d : ℕ) → length self.now.pieces < 2 ^ d → visits.new ≤ visits.old + (d + 2) }
        ensures kept { visits.old ≤ visits.new }
    {
        let tail = self.tail();
        let (before, found) = self.find(axis, n, visits);
        (before, found.unwrap_or(tail))
    }

    /// Finds the first piece after which there are more than `n` errors, or the tail. Returns the
    /// sum of the pieces before it.
    pub(crate) fn find_error(&self, n: u64, visits: &mut Visits) -> (Sum, &'d Outcome)
        ensures place { IsPlaced errors_in_sum self.now n result.0 result.1.now }
        ensures whole { AreAllPieces self.now.doc self.now.pieces self.now.tail }
        ensures most { (d : ℕ) → length self.now.pieces < 2 ^ d → visits.new ≤ visits.old + (d + 2) }
        ensures kept { visits.old ≤ visits.new }
    {
        let tail = self.tail();
        let (before, found) = self.find_with_error(n, visits);
        (before, found.unwrap_or(tail))
    }

    /// Finds the first piece after which there are more than `n` errors, if any. Returns the sum of
    /// the pieces before it, or of all.
    fn find_with_error(&self, n: u64, visits: &mut Visits) -> (Sum, Option<&'d Outcome>)
        ensures place { IsFoundBy errors_in_sum n self.now.pieces result.0 (option_copied result.1) }
        ensures most { (d : ℕ) → length self.now.pieces < 2 ^ d → visits.new ≤ visits.old + (d + 2) }
        ensures kept { visits.old ≤ visits.new }
    {
        let (before, found) = self.finder.find(&ErrorCount, n, visits);
        match found {
            Some(entered) => (before, Some(entered.here())),
            None => (before, None),
        }
    }

    /// The three bytes that begin at `at`, or as many as there are.
    pub(crate) fn three_from(self, at: u64) -> Result<Vec<u8>, DocFault>
        requires { at ≤ length self.doc.bytes }
        ensures { IfOk result (λ bytes. bytes.items ≡ take (min (length self.entry.doc.bytes - at) 3) (drop at self.entry.doc.bytes)) }
    {
        let rest = self.lengths.bytes - at;
        self.doc.source(at, rest.min(3))
    }
}
