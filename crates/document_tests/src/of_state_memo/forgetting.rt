//! The outcomes that a piece remembers, and those that it forgets.

use super::*;

/// Computes the outcome from the state after the beginning of a mark, and remembers it.
fn remember(
    piece: &mut Piece,
    decoder: &AnyDecoder<'_>,
    prefix: Prefix,
) -> Result<(), OutOfMemory> {
    let outcome = computed(piece, decoder, AnyState::Sniffing(prefix), &mut meter())?;
    piece.install(AnyState::Sniffing(prefix), outcome);
    Ok(())
}

/// Like `remember`, from each of these states.
fn remember_each(
    piece: &mut Piece,
    decoder: &AnyDecoder<'_>,
    prefixes: &[Prefix],
) -> Result<(), OutOfMemory> {
    for prefix in prefixes {
        remember(piece, decoder, *prefix)?;
    }
    Ok(())
}

/// The text that is remembered for the state after the beginning of a mark.
fn remembered(piece: &Piece, prefix: Prefix) -> Option<&str> {
    match piece.peek(AnyState::Sniffing(prefix)) {
        Some(outcome) => Some(outcome.text().as_str()),
        None => None,
    }
}

/// Asserts that these texts, or none, are remembered for these states.
fn are_remembered(rt: &impl Abort, piece: &Piece, rows: &[(Prefix, Option<&str>)]) {
    for (prefix, text) in rows {
        assert_eq!(rt; remembered(piece, *prefix), *text);
    }
}

/// Remembers four outcomes, moves the first of them to the front, and remembers a fifth.
fn remember_five(
    rt: &impl Abort,
    piece: &mut Piece,
    decoder: &AnyDecoder<'_>,
) -> Result<(), OutOfMemory> {
    let four = [Prefix::Nothing, Prefix::Ef, Prefix::EfBb, Prefix::Fe];
    remember_each(piece, decoder, &four)?;
    assert!(rt; piece.move_first(AnyState::Sniffing(Prefix::Nothing)));
    remember_each(piece, decoder, &[Prefix::Ff])
}

/// The texts that are then remembered.
const REMEMBERED: [(Prefix, Option<&str>); 5] = [
    (Prefix::Nothing, Some("a")),
    (Prefix::Ef, None),
    (Prefix::EfBb, Some("\u{FFFD}a")),
    (Prefix::Fe, Some("\u{FFFD}a")),
    (Prefix::Ff, Some("\u{FFFD}a")),
];

/// The bytes of memory of the outcome that is remembered for a state. It is the state after the
/// beginning of a mark.
fn memory_of(piece: &Piece, prefix: Prefix) -> u64 {
    match piece.peek(AnyState::Sniffing(prefix)) {
        Some(outcome) => outcome.memory(),
        None => 0,
    }
}

/// The outcomes that are left with room for three.
const WITH_ROOM_FOR_THREE: [(Prefix, Option<&str>); 4] = [
    (Prefix::Ff, Some("\u{FFFD}a")),
    (Prefix::Nothing, Some("a")),
    (Prefix::Fe, Some("\u{FFFD}a")),
    (Prefix::EfBb, None),
];

/// The outcomes that are left with room for two.
const WITH_ROOM_FOR_TWO: [(Prefix, Option<&str>); 3] = [
    (Prefix::Ff, Some("\u{FFFD}a")),
    (Prefix::Nothing, Some("a")),
    (Prefix::Fe, None),
];

/// The outcomes that are left with room for none.
const WITH_ROOM_FOR_NONE: [(Prefix, Option<&str>); 2] = [
    (Prefix::Ff, Some("\u{FFFD}a")),
    (Prefix::Nothing, None),
];

/// Asserts that the outcomes without room are forgotten, of the four.
fn forgets_without_room(rt: &impl Abort, piece: &mut Piece) {
    let two = memory_of(piece, Prefix::Ff).saturating_add(memory_of(piece, Prefix::Nothing));
    let three = two.saturating_add(memory_of(piece, Prefix::Fe));
    piece.forget(three);
    are_remembered(rt, piece, &WITH_ROOM_FOR_THREE);
    piece.forget(three.saturating_sub(1));
    are_remembered(rt, piece, &WITH_ROOM_FOR_TWO);
    piece.forget(0);
    are_remembered(rt, piece, &WITH_ROOM_FOR_NONE);
}

/// A fifth outcome forgets the one that was entered longest ago.
pub(super) fn forgets_the_first(
    rt: &impl Abort,
    alloc: Global,
    decoder: &AnyDecoder<'_>,
) -> Result<(), OutOfMemory> {
    let mut piece = Piece::new(alloc, b"a")?;
    remember_five(rt, &mut piece, decoder)?;
    are_remembered(rt, &piece, &REMEMBERED);
    assert!(rt; !piece.move_first(AnyState::Sniffing(Prefix::Ef)));
    forgets_without_room(rt, &mut piece);
    Ok(())
}

#[test]
fn a_fifth_outcome_forgets_the_one_entered_longest_ago(rt: HostRuntime) -> Result<(), Fail> {
    is_tried(&rt, rt.alloc(), Encoding::Utf8, Trial::Forgets)
}
