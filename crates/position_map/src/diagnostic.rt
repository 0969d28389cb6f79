//! Errors of a document, with the ranges of the text that they give.
ghost use Rattle.std.specs.Prelude.{◌≡◌, ℕ, ◌+◌, ◌*◌, ◌^◌, ◌<◌, ◌≤◌, length, map, take, drop, nat_lt, count_by, IfOk, ◌-◌, ◌++◌, OnOk};
ghost use Rattle.piece_rope.specs.{Document.errors_of, Document.text_of, Outcomes.all_scalars};
ghost use Rattle.position_map.specs.Diagnostics.{all_errors, diagnostic_at, diagnostics_of, errors_before_line};
ghost use Rattle.position_map.specs.{Diagnostics.place_in, ErrorPlaces.end_or, ErrorPlaces.error_ats, ErrorScalars.error_scalars, ErrorScalars.scalar_of};
ghost use Rattle.position_map.specs.{Reaching.AreErrorsIn, Whole.pieces_most};

use crate::lines::line_start;
use crate::parts::Parts;
use crate::places::last_end;
use crate::position::Range;
use crate::reach::{Reached, show_next};
use crate::unit::Unit;
use enc_names::Place;
use piece_rope::{Axis, Doc, Ended, Outcome, Visits, law_chained, law_items};
use std::alloc::{AllocError, Global};

/// An error of a document, and the place of its code point, U+FFFD. The place is in the text (LSP
/// 3.17, "Diagnostic").
#[derive(Clone, Copy, PartialEq, Eq, Debug)]
pub struct Diagnostic {
    /// The bytes of the error.
    pub place: Place,
    /// The range from the position of its code point to the position after it.
    pub range: Range,
}

/// Lists at most `max` errors of the document, starting at number `from`, counted from 0. Each has
/// the positions before and after its code point (LSP 3.17, "Diagnostic") (`page`). Their places are
/// those of the document's errors (`places`).
///
/// An error may have no bytes, or come from inside a line end. So its position is that of the number
/// of its code point, which no place in the bytes gives. Both positions are found from those of the
/// error before. In another piece they are found by the sums before that piece. A number of visits
/// for each error bounds the search (`most`); the count of visits never falls (`kept`).
pub fn list_diagnostics(
    alloc: Global,
    doc: &Doc<'_>,
    from: u64,
    max: u64,
    unit: Unit,
    visits: &mut Visits,
) -> Result<Vec<Diagnostic>, AllocError>
    ensures page { IfOk result (λ page. page.items ≡ take max (drop from (diagnostics_of doc.now unit))) }
    ensures places { IfOk result (λ page. map place_in page.items ≡ take max (drop from (errors_of doc.now))) }
    ensures most { IfOk result (λ page. (d : ℕ) → pieces_most doc.now < 2 ^ d → visits.new ≤ visits.old + length page.items * (5 * d + 10)) }
    ensures kept { visits.old ≤ visits.new }
{
    let parts = Parts::of(doc);
    let count = max.min(parts.errors().saturating_sub(from));
    let errors = errors_from(alloc, &parts, from, count, visits)?;
    let page = show_errors(alloc, &parts, unit, &errors, visits)?;
    Ok(page)
}

/// Errors as they are shown.
fn show_errors(
    alloc: Global,
    parts: &Parts<'_, '_>,
    unit: Unit,
    errors: &[ErrorAt],
    visits: &mut Visits,
) -> Result<Vec<Diagnostic>, AllocError>
    requires { AreErrorsIn (text_of parts.now.doc) errors.now }
    ensures page { IfOk result (λ page. page.items ≡ map (diagnostic_at (text_of parts.now.doc) unit) errors.now) }
    ensures most { IfOk result (λ page. (d : ℕ) → length parts.now.pieces < 2 ^ d → visits.new ≤ visits.old + length errors.now * (3 * (d + 2))) }
    ensures kept { visits.old ≤ visits.new }
{
    let mut page = Vec::with_capacity(alloc, errors.len())?;
    let mut at = Reached {
        scalars: 0,
        units: 0,
        line: 0,
        start: 0,
        rest: "",
    };
    'errors: for error in errors {
        let (diagnostic, behind) = show_next(parts, unit, *error, at, visits);
        page.push(diagnostic)?;
        at = behind;
    }
    Ok(page)
}

/// Counts the errors on lines before line `line` (`number`). This is the number of the first error
/// on that line or after it. It is at most the number of all errors (`few`), which it is past the
/// last line. The search makes a bounded number of visits (`most`), and their count never falls
/// (`kept`).
pub fn first_error_from(doc: &Doc<'_>, line: u64, visits: &mut Visits) -> u64
    ensures number { result ≡ errors_before_line doc.now line }
    ensures few { result ≤ length (errors_of doc.now) }
    ensures most { (d : ℕ) → pieces_most doc.now < 2 ^ d → visits.new ≤ visits.old + (4 * d + 8) }
    ensures kept { visits.old ≤ visits.new }
{
    let parts = Parts::of(doc);
    match line_start(&parts, Unit::Utf8, line, visits) {
        None => parts.errors(),
        Some(start) => errors_before(&parts, start.scalars, visits),
    }
}

/// Counts the errors whose code points have a number below `n`.
fn errors_before(parts: &Parts<'_, '_>, n: u64, visits: &mut Visits) -> u64
    ensures count { result ≡ count_by (λ (s : ℕ). nat_lt s n) (map scalar_of (all_errors parts.now.doc)) }
    ensures most { (d : ℕ) → length parts.now.pieces < 2 ^ d → visits.new ≤ visits.old + (d + 2) }
    ensures kept { visits.old ≤ visits.new }
{
    let _end = parts.end(Unit::Utf32);
    let (before, here) = parts.find_or_tail(Axis::Scalar, n, visits);
    before.errors as u64 + errors_before_in(here, before.scalars as u64, n)
}

/// An error: its place in the bytes, and the number of its code point, which is U+FFFD. Two errors
/// may be at one byte, so only this number says which code point of the text is the error's.
#[derive(Clone, Copy)]
pub struct ErrorAt {
    /// The error's place in the bytes.
    pub place: Place,
    /// The number of its code point.
    pub scalar: u64,
}

/// The `count` errors that begin at number `from`. Each is found from the one before, and the first of
/// each piece by the sums before it.
fn errors_from(
    alloc: Global,
    parts: &Parts<'_, '_>,
    from: u64,
    count: u64,
    visits: &mut Visits,
) -> Result<Vec<ErrorAt>, AllocError>
    requires { count ≤ length (errors_of parts.now.doc) - from }
    ensures errors { IfOk result (λ errors. errors.items ≡ take count (drop from (all_errors parts.now.doc))) }
    ensures most { IfOk result (λ errors. (d : ℕ) → length parts.now.pieces < 2 ^ d → visits.new ≤ visits.old + length errors.items * (2 * (d + 2))) }
    ensures kept { visits.old ≤ visits.new }
{
    let mut errors = Vec::with_capacity(alloc, count as usize)?;
    'pieces: while (errors.len() as u64) < count {
        push_piece(&mut errors, parts, from, count, visits)?;
    }
    Ok(errors)
}

/// Appends errors of the document's next piece that has any. It stops when `count` errors are
/// listed.
fn push_piece(
    errors: &mut Vec<ErrorAt>,
    parts: &Parts<'_, '_>,
    from: u64,
    count: u64,
    visits: &mut Visits,
) -> Result<(), AllocError>
    requires some { length errors.old.items < count }
    requires within { from + count ≤ length (errors_of parts.now.doc) }
    requires listed { errors.old.items ≡ take (length errors.old.items) (drop from (all_errors parts.now.doc)) }
    ensures listed { OnOk result (errors.new.items ≡ take (length errors.new.items) (drop from (all_errors parts.now.doc))) }
    ensures more { OnOk result (length errors.old.items < length errors.new.items) }
    ensures few { OnOk result (length errors.new.items ≤ count) }
    ensures most { (d : ℕ) → length parts.now.pieces < 2 ^ d → visits.new ≤ visits.old + 2 * (d + 2) }
    ensures kept { visits.old ≤ visits.new }
{
    law_chained();
    let _end = parts.end(Unit::Utf32);
    let _all = parts.errors();
    let listed = errors.len() as u64;
    let next = from + listed;
    let left = count - listed;
    let (before, here) = parts.find_error(next, visits);
    let begin = last_end(parts, before.scalars as u64, visits);
    let first = next - before.errors as u64;
    push_errors(
        errors,
        here,
        before.bytes as u64,
        begin,
        before.scalars as u64,
        first,
        left,
    )?;
    Ok(())
}

/// Appends at most `max` errors of a piece, starting at number `first`. The piece begins at byte
/// `base`, its first item at byte `from`, with code point number `scalar`.
fn push_errors(
    errors: &mut Vec<ErrorAt>,
    here: &Outcome,
    base: u64,
    from: u64,
    scalar: u64,
    first: u64,
    max: u64,
) -> Result<(), AllocError>
    requires { scalar + all_scalars here.now.items < 2 ^ 64 }
    ensures { OnOk result (errors.new.items ≡ errors.old.items ++ take max (drop first (error_ats base from scalar here.now.items))) }
{
    let mut runs = here.items().runs();
    let (mut passed, mut left) = (first, max);
    let (mut begin, mut number) = (from, scalar);
    'runs: while let Some(run) = runs.first() {
        if left == 0 {
            return Ok(());
        }
        let count = run.errors();
        if count <= passed {
            passed -= count;
            begin = base.saturating_add_signed(i64::from(run.last));
            number += run.scalars();
            runs.advance();
        } else {
            let item = run.item(passed);
            let before = run.item(passed.saturating_sub(1));
            let place = place_in(base, begin, passed, before, item);
            errors.push(ErrorAt {
                place,
                scalar: number + passed,
            })?;
            passed += 1;
            left -= 1;
        }
    }
    Ok(())
}

/// The place of item number `k` of a run that begins at `from`. It is found by that item and the one
/// before it. The piece begins at byte `base`.
fn place_in(base: u64, from: u64, k: u64, before: Option<Ended>, item: Option<Ended>) -> Place
    ensures first { k ≡ 0 → result.from ≡ from }
    ensures later { 0 < k → result.from ≡ end_or base from before }
    ensures to { result.to ≡ end_or base from item }
{
    let to = end_or(base, from, item);
    if k == 0 {
        return Place { from, to };
    }
    let begun = end_or(base, from, before);
    Place { from: begun, to }
}

/// The end of an item, or `from` without one. The item's piece begins at byte `base`.
fn end_or(base: u64, from: u64, item: Option<Ended>) -> u64
    ensures { result ≡ end_or base from item }
{
    match item {
        Some(item) => base.saturating_add_signed(item.end),
        None => from,
    }
}

/// Counts the errors of a piece whose code points have numbers below `n`. The piece begins with
/// code point number `from`.
pub(crate) fn errors_before_in(here: &Outcome, from: u64, n: u64) -> u64
    requires { from + all_scalars here.now.items < 2 ^ 64 }
    ensures { result ≡ count_by (λ (s : ℕ). nat_lt s n) (error_scalars from here.now.items) }
{
    law_items();
    if here.sum().errors == 0 {
        return 0;
    }
    let mut runs = here.items().runs();
    let mut scalars = from;
    let mut errors = 0;
    'runs: while let Some(run) = runs.first() {
        errors += run.errors().min(n.saturating_sub(scalars));
        scalars += run.scalars();
        runs.advance();
    }
    errors
}
