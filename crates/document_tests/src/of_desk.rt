//! Tests of a desk that no op shows: a session worked by its definition, and documents that are
//! adopted. Commands and their replies are files of tests/program/sessions at the top.
ghost use Rattle.std.specs.Prelude.{◌≡◌};
ghost use Rattle.document_tests.specs.Session.{replies_to, office_without_files, session, session_replies};

use desk::ops::{Change, Close, Open, Splice, Text};
use desk::{Command, Desk, Fault, Reply, TextMode};
use enc_names::{Bom, Encoding, Labels};
use index_loader::Indexes;
use position_map::{Position, Range, Unit};
use std::alloc::{AllocError, Global};
use std::process::Abort;
use std::test::Fail;

mod examples;

/// A document opens with a truncated sequence in it, which a splice then completes.
fn truncated_sequence_is_completed()
    ensures { replies_to office_without_files session ≡ session_replies }
{}

/// The last revision.
const LAST: u64 = 9_007_199_254_740_991;

fn splice(doc: &str, rev: u64, at: u64) -> Command<'_> {
    Command::Splice(Splice {
        doc,
        rev,
        at,
        del: 0,
        bytes: "Yg==",
    })
}

/// A change whose range ends before it starts.
fn change(doc: &str, rev: u64) -> Command<'_> {
    let start = Position {
        line: 0,
        character: 1,
    };
    let end = Position {
        line: 0,
        character: 0,
    };
    Command::Change(Change {
        doc,
        rev,
        unit: Unit::Utf16,
        range: Some(Range { start, end }),
        text: "",
    })
}

/// The first two code points.
fn first_two(doc: &str) -> Command<'_> {
    Command::Text(Text {
        doc,
        from: 0,
        to: 2,
        mode: TextMode::Replacement,
    })
}

/// A document of no byte.
fn open(doc: &str) -> Command<'_> {
    Command::Open(Open {
        doc,
        label: "utf-8",
        bytes: "",
        bom: Bom::Sniff,
    })
}

/// The answer to a command.
#[derive(Clone, Copy)]
enum Answer<'a> {
    /// The command is refused for this cause.
    Refused(Fault),
    /// The command is an edit that leaves this revision.
    Edited(u64),
    /// The text at the revision is this.
    Text(u64, &'a str),
    /// The document is closed, and had this revision.
    Closed(u64),
}

/// Whether the reply is this answer.
fn is_answer(reply: &Reply, answer: Answer<'_>) -> bool {
    match (reply, answer) {
        (Reply::Refused { fault }, Answer::Refused(cause)) => *fault == cause,
        (Reply::Edited(reply), Answer::Edited(revision)) => reply.rev == revision,
        (Reply::Text(reply), Answer::Text(revision, text)) => {
            reply.rev == revision && reply.text.as_str() == text
        }
        (Reply::Closed { rev }, Answer::Closed(revision)) => *rev == revision,
        _ => false,
    }
}

/// Whether the command has this answer. The one call of `Desk::answer` here: to prove a function with it
/// takes long.
fn is_answered(desk: &mut Desk<'_>, command: &Command<'_>, answer: Answer<'_>) -> bool {
    is_answer(&desk.answer(command), answer)
}

/// The commands have these answers, one after another.
fn are_answered(rt: &impl Abort, desk: &mut Desk<'_>, rows: &[(Command<'_>, Answer<'_>)]) {
    for (number, (command, answer)) in rows.iter().enumerate() {
        assert!(rt; is_answered(desk, command, *answer), "row {number}");
    }
}

/// Whether adopting the document is refused for this cause, or not at all. The one call of
/// `Desk::adopt` here.
fn is_adopted(
    rt: &impl Abort,
    desk: &mut Desk<'_>,
    (name, given): (&str, Encoding),
    (bytes, revision): (&[u8], u64),
    cause: Option<Fault>,
) -> bool {
    assert!(rt; 1 <= name.len() && name.len() <= 64 && revision <= LAST);
    desk.adopt(name, given, Bom::Sniff, bytes, revision).err() == cause
}

/// A desk without index files, whose labels are the names alone.
fn new_desk<'i>(alloc: Global, indexes: &'i Indexes) -> Result<Desk<'i>, Fail> {
    Ok(Desk::new(alloc, indexes, Labels::names(alloc)?)?)
}

/// Edits of a document at the last revision but one, and at the last.
fn is_edited_once_more(rt: &impl Abort, desk: &mut Desk<'_>) {
    let stale = Answer::Refused(Fault::Stale { rev: LAST });
    let spent = Answer::Refused(Fault::RevisionsSpent);
    let rows = [
        (splice("d", LAST - 1, 1), Answer::Edited(LAST)),
        (splice("d", LAST - 1, 9), stale),
        (change("d", 7), stale),
        (splice("d", LAST, 9), spent),
        (change("d", LAST), spent),
        (first_two("d"), Answer::Text(LAST, "ab")),
        (Command::Close(Close { doc: "d" }), Answer::Closed(LAST)),
    ];
    assert!(rt; is_adopted(rt, desk, ("d", Encoding::Utf8), (b"a", LAST - 1), None));
    are_answered(rt, desk, &rows);
}

/// A document that is adopted at the last revision.
fn is_never_edited(rt: &impl Abort, desk: &mut Desk<'_>) {
    let rows = [
        (splice("e", LAST, 0), Answer::Refused(Fault::RevisionsSpent)),
        (first_two("e"), Answer::Text(LAST, "\u{fffd}A")),
        (open("e"), Answer::Refused(Fault::NameTaken)),
    ];
    assert!(rt; is_adopted(rt, desk, ("e", Encoding::Utf8), (b"\xE2\x82A", LAST), None));
    are_answered(rt, desk, &rows);
}

#[test]
fn adopted_at_the_last_revisions(rt: HostRuntime) -> Result<(), Fail> {
    truncated_sequence_is_completed();
    let indexes = Indexes::new();
    let mut desk = new_desk(rt.alloc(), &indexes)?;
    is_edited_once_more(&rt, &mut desk);
    is_never_edited(&rt, &mut desk);
    Ok(())
}

/// Adopts 63 documents of no byte, whose names are 1 to 63 letters.
fn adopt_sixty_three(
    rt: &impl Abort,
    alloc: Global,
    desk: &mut Desk<'_>,
) -> Result<(), AllocError> {
    let mut name = String::new(alloc);
    for _ in 0..63 {
        name.push_str("d")?;
        let adopted = is_adopted(rt, desk, (name.as_str(), Encoding::Utf8), (b"", 0), None);
        assert!(rt; adopted);
    }
    Ok(())
}

/// The adoptions on the desk with 63 documents, and why they are refused. One has a byte too many,
/// the other as many bytes as there may be.
const ADOPTIONS: [(&str, Encoding, Bytes, Option<Fault>); 2] = [
    ("e", Encoding::Utf8, Bytes::TooMany, Some(Fault::TooLarge)),
    ("e", Encoding::Utf8, Bytes::Most, None),
];

/// The adoptions on the desk with 64 documents.
const ADOPTIONS_PAST_THE_LAST: [(&str, Encoding, Bytes, Option<Fault>); 3] = [
    ("d", Encoding::Big5, Bytes::TooMany, Some(Fault::NameTaken)),
    ("f", Encoding::Big5, Bytes::TooMany, Some(Fault::NoIndex)),
    (
        "f",
        Encoding::Utf8,
        Bytes::TooMany,
        Some(Fault::TooManyDocuments),
    ),
];

/// The number of bytes of a document.
#[derive(Clone, Copy)]
enum Bytes {
    /// The most that there may be.
    Most,
    /// One more.
    TooMany,
}

/// Adopts the documents at revision 7, with all bytes or one less.
fn are_adopted(
    rt: &impl Abort,
    desk: &mut Desk<'_>,
    too_large: &[u8],
    rows: &[(&str, Encoding, Bytes, Option<Fault>)],
) {
    for (name, given, bytes, cause) in rows {
        let bytes = match bytes {
            Bytes::Most => too_large.get(1..).unwrap_or(&[]),
            Bytes::TooMany => too_large,
        };
        let adopted = is_adopted(rt, desk, (name, *given), (bytes, 7), *cause);
        assert!(rt; adopted, "{name}, {cause:?}");
    }
}

/// Adopts up to the last document and past it.
fn adopt_past_the_last(
    rt: &impl Abort,
    alloc: Global,
    desk: &mut Desk<'_>,
) -> Result<(), AllocError> {
    let too_large = vec![in alloc; b'a'; 16_777_217]?;
    adopt_sixty_three(rt, alloc, desk)?;
    are_adopted(rt, desk, &too_large, &ADOPTIONS);
    are_answered(rt, desk, &[(first_two("e"), Answer::Text(7, "aa"))]);
    are_adopted(rt, desk, &too_large, &ADOPTIONS_PAST_THE_LAST);
    Ok(())
}

#[test]
fn adoptions_refused_in_their_order(rt: HostRuntime) -> Result<(), Fail> {
    let indexes = Indexes::new();
    let mut desk = new_desk(rt.alloc(), &indexes)?;
    Ok(adopt_past_the_last(&rt, rt.alloc(), &mut desk)?)
}
