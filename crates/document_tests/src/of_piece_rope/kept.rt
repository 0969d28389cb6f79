//! Splices that are to keep the text, alone and among 3,000 letters: each is made or refused, and a
//! refused one changes nothing.

use super::*;
use crate::indexes::small_indexes;
use oracle::agrees;

/// A splice of some bytes, and the code points that it is to replace.
#[derive(Clone, Copy)]
struct Case {
    /// The subject of the example.
    shows: &'static str,
    given: Encoding,
    bytes: &'static [u8],
    /// The splice: its offset, the number of replaced bytes, and the new bytes.
    splice: (u64, u64, &'static [u8]),
    /// The replacement: the code points that are replaced, and the new text.
    replaced: (u64, u64, &'static str),
    /// The bytes that are left; `None` if the splice is refused.
    left: Option<&'static [u8]>,
}

/// A splice, and the code points that it is to replace.
#[derive(Clone, Copy)]
struct Edit {
    splice: (u64, u64, &'static [u8]),
    replaced: (u64, u64, &'static str),
}

/// The bytes with `front` letters before them and `back` after them.
fn between(alloc: Global, front: usize, bytes: &[u8], back: usize) -> Result<Vec<u8>, DocFault> {
    let mut all = behind_letters(alloc, front, bytes)?;
    let letters = behind_letters(alloc, back, &[])?;
    all.extend_from_slice(&letters)?;
    Ok(all)
}

/// The splice of the case after `front` letters, with the code points to replace.
fn moved(case: &Case, front: usize) -> Edit {
    let more = front as u64;
    let (at, del, ins) = case.splice;
    let (i, j, text) = case.replaced;
    Edit {
        splice: (at.saturating_add(more), del, ins),
        replaced: (i.saturating_add(more), j.saturating_add(more), text),
    }
}

/// Whether the document says that the splice would be made.
fn keeps(doc: &Doc<'_>, edit: &Edit, asked: &mut Meter) -> Option<bool> {
    let (at, del, ins) = edit.splice;
    let (i, j, text) = edit.replaced;
    doc.keeps(at, del, ins, i, j, text, asked).ok()
}

/// Makes the splice, and returns the fault that refuses it.
fn refusal(doc: &mut Doc<'_>, edit: &Edit, made: &mut Meter) -> Option<DocFault> {
    let (at, del, ins) = edit.splice;
    let (i, j, text) = edit.replaced;
    doc.splice_kept(at, del, ins, i, j, text, made).err()
}

/// Asserts that the splice is made or refused, after `front` letters. The case says which. The
/// document must foretell it, and it must decode as many bytes.
fn is_made_or_refused(rt: &impl Abort, doc: &mut Doc<'_>, case: &Case, front: usize) {
    let edit = moved(case, front);
    let (shows, is_made) = (case.shows, case.left.is_some());
    let (mut asked, mut made) = (meter(), meter());
    let kept = keeps(doc, &edit, &mut asked);
    assert!(rt; kept == Some(is_made), "{shows}, behind {front} letters");
    let refused = if is_made {
        None
    } else {
        Some(DocFault::NotKept)
    };
    assert!(rt;
        refusal(doc, &edit, &mut made) == refused,
        "{shows}, behind {front} letters"
    );
    assert!(rt;
        asked.decoded() == made.decoded(),
        "{shows}, behind {front} letters"
    );
}

/// Whether the document has the bytes that the case leaves. They are between `front` and `back`
/// letters.
fn is_left(
    alloc: Global,
    doc: &Doc<'_>,
    case: &Case,
    front: usize,
    back: usize,
) -> Result<bool, DocFault> {
    let wanted = between(alloc, front, case.left.unwrap_or(case.bytes), back)?;
    let setting = Setting::new(case.given, Bom::Sniff);
    Ok(agrees(alloc, doc, setting, &wanted) == Some(true))
}

/// Asserts that the splice is made or refused as the case says. It has `front` letters before it
/// and `back` after it.
fn is_answered(
    rt: &impl Abort,
    alloc: Global,
    case: &Case,
    front: usize,
    back: usize,
) -> Result<(), Fail> {
    let indexes = small_indexes(alloc)?;
    Ok(is_answered_over(rt, alloc, &indexes, case, front, back)?)
}

fn is_answered_over(
    rt: &impl Abort,
    alloc: Global,
    indexes: &Indexes,
    case: &Case,
    front: usize,
    back: usize,
) -> Result<(), DocFault> {
    let bytes = between(alloc, front, case.bytes, back)?;
    let mut doc = opened(alloc, indexes, case.given, Bom::Sniff, &bytes)?;
    is_made_or_refused(rt, &mut doc, case, front);
    let left = is_left(alloc, &doc, case, front, back)?;
    let shows = case.shows;
    assert!(rt; left, "{shows}, behind {front} letters");
    Ok(())
}

/// The splice is made or refused as the case says, alone and between letters.
fn is_answered_anywhere(rt: &impl Abort, alloc: Global, case: &Case) -> Result<(), Fail> {
    is_answered(rt, alloc, case, 0, 0)?;
    is_answered(rt, alloc, case, 3000, 3000)
}

/// Like `is_answered_anywhere`, for each case.
fn are_answered_anywhere(rt: &impl Abort, alloc: Global, cases: &[Case]) -> Result<(), Fail> {
    for case in cases {
        is_answered_anywhere(rt, alloc, case)?;
    }
    Ok(())
}

/// Splices that are refused at any place.
const REFUSED: [Case; 3] = [
    Case {
        shows: "lead byte swallows a letter",
        given: Encoding::ShiftJis,
        bytes: &[0x81],
        splice: (1, 0, b"A"),
        replaced: (1, 1, "A"),
        left: None,
    },
    Case {
        shows: "yen sign is a backslash",
        given: Encoding::ShiftJis,
        bytes: &[0x41],
        splice: (1, 0, &[0x5C]),
        replaced: (1, 1, "\u{A5}"),
        left: None,
    },
    Case {
        shows: "half of an item",
        given: Encoding::Big5,
        bytes: &[0x88, 0x62],
        splice: (0, 1, &[]),
        replaced: (0, 1, ""),
        left: None,
    },
];

/// Splices that are made at any place.
const MADE: [Case; 4] = [
    Case {
        shows: "kanji before a switch",
        given: Encoding::Iso2022Jp,
        bytes: &[0x41, 0x1B, 0x24, 0x42, 0x24, 0x22, 0x1B, 0x28, 0x42],
        splice: (1, 0, &[0x1B, 0x24, 0x42, 0x30, 0x21]),
        replaced: (1, 1, "\u{4E9C}"),
        left: Some(b"A\x1B$B0!\x1B$B$\"\x1B(B"),
    },
    Case {
        shows: "kana deleted with its switch",
        given: Encoding::Iso2022Jp,
        bytes: &[0x41, 0x1B, 0x24, 0x42, 0x24, 0x22, 0x1B, 0x28, 0x42],
        splice: (1, 5, &[]),
        replaced: (1, 2, ""),
        left: Some(&[0x41, 0x1B, 0x28, 0x42]),
    },
    Case {
        shows: "letter behind a kana",
        given: Encoding::Iso2022Jp,
        bytes: &[0x1B, 0x24, 0x42, 0x24, 0x22],
        splice: (5, 0, &[0x1B, 0x28, 0x42, 0x41, 0x1B, 0x24, 0x42]),
        replaced: (1, 1, "A"),
        left: Some(b"\x1B$B$\"\x1B(BA\x1B$B"),
    },
    Case {
        shows: "pair of surrogates replaced",
        given: Encoding::Utf8,
        bytes: b"a\xF0\x9F\x98\x80\r\nb",
        splice: (1, 4, b"x"),
        replaced: (1, 2, "x"),
        left: Some(b"ax\r\nb"),
    },
];

fn are_refused(rt: &impl Abort, alloc: Global) -> Result<(), Fail> {
    are_answered_anywhere(rt, alloc, &REFUSED)
}

fn are_made(rt: &impl Abort, alloc: Global) -> Result<(), Fail> {
    are_answered_anywhere(rt, alloc, &MADE)
}

#[test]
fn anywhere_among_letters(rt: HostRuntime) -> Result<(), Fail> {
    are_refused(&rt, rt.alloc())?;
    are_made(&rt, rt.alloc())
}

/// The bytes `A`, to be replaced by a byte order mark and a letter.
fn mark_for_a_letter(left: Option<&'static [u8]>) -> Case {
    Case {
        shows: "mark for a letter",
        given: Encoding::Utf8,
        bytes: b"A",
        splice: (0, 1, b"\xEF\xBB\xBFx"),
        replaced: (0, 1, "\u{FEFF}x"),
        left,
    }
}

#[test]
fn mark_at_the_start_is_no_text(rt: HostRuntime) -> Result<(), Fail> {
    let case = mark_for_a_letter(None);
    is_answered(&rt, rt.alloc(), &case, 0, 0)?;
    is_answered(&rt, rt.alloc(), &case, 0, 3000)?;
    Ok(())
}

#[test]
fn mark_behind_letters_is_text(rt: HostRuntime) -> Result<(), Fail> {
    let case = mark_for_a_letter(Some(b"\xEF\xBB\xBFx"));
    is_answered(&rt, rt.alloc(), &case, 3000, 3000)?;
    Ok(())
}

#[test]
fn mark_behind_a_mark_is_text(rt: HostRuntime) -> Result<(), Fail> {
    let case = Case {
        shows: "mark behind a mark",
        given: Encoding::Utf8,
        bytes: b"\xEF\xBB\xBF",
        splice: (3, 0, b"\xEF\xBB\xBF"),
        replaced: (0, 0, "\u{FEFF}"),
        left: Some(b"\xEF\xBB\xBF\xEF\xBB\xBF"),
    };
    is_answered(&rt, rt.alloc(), &case, 0, 3000)?;
    is_answered_anywhere(&rt, rt.alloc(), &case)?;
    Ok(())
}

/// Whether the splice is refused, and decodes at most `most` bytes, asked about and made.
fn is_refused_early(doc: &mut Doc<'_>, edit: &Edit, most: u64) -> bool {
    let (at, del, ins) = edit.splice;
    let (i, j, text) = edit.replaced;
    let (mut asked, mut made) = (meter(), meter());
    let kept = doc.keeps(at, del, ins, i, j, text, &mut asked).ok();
    let refused = doc.splice_kept(at, del, ins, i, j, text, &mut made).err();
    kept == Some(false)
        && refused == Some(DocFault::NotKept)
        && asked.decoded() <= most
        && made.decoded() <= most
}

/// Asserts that the splice is refused after decoding at most `most` bytes. The document has these
/// bytes.
fn is_seen_early(
    rt: &impl Abort,
    alloc: Global,
    given: Encoding,
    bytes: &[u8],
    edit: &Edit,
    most: u64,
) -> Result<(), Fail> {
    let indexes = small_indexes(alloc)?;
    let mut doc = opened(alloc, &indexes, given, Bom::Sniff, bytes)?;
    let early = is_refused_early(&mut doc, edit, most);
    assert!(rt; early, "refused within {most} bytes");
    Ok(())
}

/// Without the letter the bytes begin with a byte order mark. All that follows is other text.
#[test]
fn difference_in_the_first_piece_is_seen_there(rt: HostRuntime) -> Result<(), Fail> {
    let bytes = between(rt.alloc(), 0, b"a\xFF\xFE", 20_000)?;
    let edit = Edit {
        splice: (0, 1, &[]),
        replaced: (0, 1, ""),
    };
    is_seen_early(&rt, rt.alloc(), Encoding::Utf8, &bytes, &edit, 2048)
}

/// Behind the shift letters are the same, and a backslash is a yen sign.
#[test]
fn difference_in_the_third_piece_is_seen_there(rt: HostRuntime) -> Result<(), Fail> {
    let bytes = between(rt.alloc(), 5000, b"\\", 15_000)?;
    let edit = Edit {
        splice: (0, 0, b"\x1B(J"),
        replaced: (0, 0, ""),
    };
    is_seen_early(&rt, rt.alloc(), Encoding::Iso2022Jp, &bytes, &edit, 6147)
}
