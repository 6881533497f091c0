//! Frames byte by byte.
ghost use Rattle.std.specs.Prelude.{IfOk};
ghost use Rattle.scan_wire.specs.Frames.{FitsReply};
ghost use Rattle.scan_wire.specs.Messages.{reply_parts};

use lit_base::{Ends, Fold, Profile};
use scan_wire::{
    Borrowed, Cause, Decoder, Fault, Reply, Request, append_hits, append_reply, encode_reply,
    first_request,
};
use std::alloc::{AllocError, Global};
use std::test::Fail;
use text_ends::Hit;

/// The Publish of `cat`, then the Open of stream 7 with plan 0.
static FRAMES: [u8; 34] = [
    0, 0, 0, 13, 1, 0, 0, 0, 0, 0, 0, 1, 0, 3, b'c', b'a', b't', 0, 0, 0, 13, 2, 0, 0, 0, 7, 0, 0,
    0, 0, 0, 0, 0, 0,
];

/// The Feed of `concat` to stream 7, its Close and its ShowPlan.
static FEED: [u8; 15] = [
    0, 0, 0, 11, 3, 0, 0, 0, 7, b'c', b'o', b'n', b'c', b'a', b't',
];

static CLOSE: [u8; 9] = [0, 0, 0, 5, 4, 0, 0, 0, 7];

static SHOW_PLAN: [u8; 9] = [0, 0, 0, 5, 5, 0, 0, 0, 7];

/// What a decoder made of pieces: how many requests, whether it is between frames, and the cause of
/// a bad frame.
#[derive(Clone, Copy, Debug, PartialEq, Eq)]
struct Outcome {
    requests: usize,
    between: bool,
    cause: Option<Cause>,
}

/// Why the prefix of the bytes is a bad frame, if it is one.
fn cause_of(alloc: Global, bytes: &[u8]) -> Result<Option<Cause>, AllocError> {
    match first_request(alloc, bytes) {
        Err(Fault::BadFrame { cause }) => Ok(Some(cause)),
        Err(Fault::OutOfMemory) => Err(AllocError),
        Ok(_) => Ok(None),
    }
}

/// Whether the prefix of the bytes is no whole frame, and none that is bad.
fn waits(alloc: Global, bytes: &[u8]) -> Result<bool, Fault> {
    Ok(first_request(alloc, bytes)?.is_none())
}

/// Feeds a piece, and says of a fault which it was.
fn feed(
    decoder: &mut Decoder,
    piece: &[u8],
    out: &mut Vec<Request>,
) -> Result<Option<Cause>, AllocError> {
    match decoder.feed(piece, out) {
        Ok(()) => Ok(None),
        Err(Fault::BadFrame { cause }) => Ok(Some(cause)),
        Err(Fault::OutOfMemory) => Err(AllocError),
    }
}

/// What a decoder makes of a text in two pieces.
fn in_two(alloc: Global, first: &[u8], second: &[u8]) -> Result<Outcome, Fail> {
    let mut decoder = Decoder::new(alloc)?;
    let mut out = Vec::new(alloc);
    let _ = feed(&mut decoder, first, &mut out)?;
    let cause = feed(&mut decoder, second, &mut out)?;
    Ok(Outcome {
        requests: out.len(),
        between: decoder.between(),
        cause,
    })
}

/// What a decoder makes of a text in pieces of one byte.
fn byte_by_byte(alloc: Global, text: &[u8]) -> Result<Outcome, Fail> {
    let mut decoder = Decoder::new(alloc)?;
    let mut out = Vec::new(alloc);
    let mut cause = None;
    for piece in text.chunks(1) {
        cause = feed(&mut decoder, piece, &mut out)?;
    }
    Ok(Outcome {
        requests: out.len(),
        between: decoder.between(),
        cause,
    })
}

/// The Publish of `count` empty literals: the frame's bytes.
fn empty_literals(alloc: Global, count: u16) -> Result<Vec<u8>, AllocError> {
    let mut frame = Vec::new(alloc);
    frame.extend_from_slice(&(8 + 2 * u32::from(count)).to_be_bytes())?;
    frame.extend_from_slice(&[1, 0, 0, 0, 0, 0])?;
    frame.extend_from_slice(&count.to_be_bytes())?;
    frame.resize(12 + 2 * usize::from(count), 0)?;
    Ok(frame)
}

/// The fold and the profile of the Publish of `cat` at the start of the bytes, if it is one.
fn publishes_cat(alloc: Global, bytes: &[u8]) -> Result<Option<(Fold, Profile)>, Fault> {
    match first_request(alloc, bytes)? {
        Some(
            (
                Borrowed::Publish {
                    fold,
                    profile,
                    literals,
                },
                17,
            ),
        ) if literals.len() == 1 && literals[0].as_slice() == b"cat".as_slice() => {
            Ok(Some((fold, profile)))
        }
        _ => Ok(None),
    }
}

/// The fold and the profile in the Publish of `cat` with these flags.
fn known_by_flags(alloc: Global, flags: u8) -> Result<Option<(Fold, Profile)>, Fault> {
    let frame = [
        0, 0, 0, 13, 1, 0, 0, 0, 0, flags, 0, 1, 0, 3, b'c', b'a', b't',
    ];
    publishes_cat(alloc, &frame)
}

/// The piece of the Feed of stream 7 at the start, if it is one.
fn fed(alloc: Global, bytes: &[u8]) -> Result<Option<&[u8]>, Fault> {
    match first_request(alloc, bytes)? {
        Some((Borrowed::Feed { stream: 7, bytes }, _)) => Ok(Some(bytes)),
        _ => Ok(None),
    }
}

/// Whether the reply has this text.
fn is_written(alloc: Global, reply: &Reply, text: &[u8]) -> Result<bool, Fail>
    requires { FitsReply (reply_parts reply.now) }
{
    let written = encode_reply(alloc, reply)?;
    Ok(written.as_slice() == text)
}

/// A request's kind and stream, and a number: of a Publish how many literals, of an Open the plan, of
/// a Feed how many bytes.
fn fields_of(request: &Borrowed<'_>) -> (u8, u32, u64) {
    match request {
        Borrowed::Publish { literals, .. } => (1, 0, literals.len() as u64),
        Borrowed::Open { stream, number } => (2, *stream, *number),
        Borrowed::Feed { stream, bytes } => (3, *stream, bytes.len() as u64),
        Borrowed::Close { stream } => (4, *stream, 0),
        Borrowed::ShowPlan { stream } => (5, *stream, 0),
    }
}

/// The kind, the stream and the number of the request at the start, if it is whole, and how many bytes its frame has.
fn read(alloc: Global, bytes: &[u8]) -> Result<Option<((u8, u32, u64), usize)>, Fault> {
    match first_request(alloc, bytes)? {
        Some((request, len)) => Ok(Some((fields_of(&request), len))),
        None => Ok(None),
    }
}

#[test]
fn reads_a_publish_and_a_feed(rt: HostRuntime) -> Result<(), Fail> {
    let alloc = rt.alloc();
    assert_eq!(rt;
        publishes_cat(alloc, &FRAMES)?,
        Some((Fold::No, Profile::Eight))
    );
    assert_eq!(rt; fed(alloc, &FEED)?, Some(b"concat".as_slice()));
    Ok(())
}

#[test]
fn reads_fold_and_profile(rt: HostRuntime) -> Result<(), Fail> {
    let alloc = rt.alloc();
    assert_eq!(rt; known_by_flags(alloc, 0)?, Some((Fold::No, Profile::Eight)));
    assert_eq!(rt;
        known_by_flags(alloc, 1)?,
        Some((Fold::Ascii, Profile::Eight))
    );
    assert_eq!(rt;
        known_by_flags(alloc, 2)?,
        Some((Fold::No, Profile::Sixteen))
    );
    assert_eq!(rt;
        known_by_flags(alloc, 3)?,
        Some((Fold::Ascii, Profile::Sixteen))
    );
    Ok(())
}

#[test]
fn reads_each_kind(rt: HostRuntime) -> Result<(), Fail> {
    let alloc = rt.alloc();
    assert_eq!(rt; read(alloc, &FRAMES)?, Some(((1, 0, 1), 17)));
    assert_eq!(rt; read(alloc, &FRAMES[17..])?, Some(((2, 7, 0), 17)));
    assert_eq!(rt; read(alloc, &FEED)?, Some(((3, 7, 6), 15)));
    assert_eq!(rt; read(alloc, &CLOSE)?, Some(((4, 7, 0), 9)));
    assert_eq!(rt; read(alloc, &SHOW_PLAN)?, Some(((5, 7, 0), 9)));
    Ok(())
}

#[test]
fn reports_a_bad_length_at_once(rt: HostRuntime) -> Result<(), Fail> {
    let alloc = rt.alloc();
    assert_eq!(rt; cause_of(alloc, &[0, 0, 0, 4])?, Some(Cause::Length));
    assert_eq!(rt; cause_of(alloc, &[0, 1, 0, 6])?, Some(Cause::Length));
    assert!(rt; waits(alloc, &[0, 1, 0, 5])?);
    assert!(rt; waits(alloc, &[0, 0, 0])?);
    Ok(())
}

#[test]
fn reports_other_causes_of_whole_frames(rt: HostRuntime) -> Result<(), Fail> {
    let alloc = rt.alloc();
    assert_eq!(rt;
        cause_of(alloc, &[0, 0, 0, 5, 0, 0, 0, 0, 7])?,
        Some(Cause::Kind)
    );
    assert_eq!(rt;
        cause_of(alloc, &[0, 0, 0, 5, 6, 0, 0, 0, 7])?,
        Some(Cause::Kind)
    );
    assert!(rt; waits(alloc, &[0, 0, 0, 5, 6, 0, 0, 0])?);
    // The cause is the stream, before the payload, which is wrong here too.
    assert_eq!(rt;
        cause_of(alloc, &[0, 0, 0, 6, 1, 0, 0, 0, 1, 2])?,
        Some(Cause::Stream)
    );
    Ok(())
}

#[test]
fn reports_wrong_payloads_of_a_publish(rt: HostRuntime) -> Result<(), Fail> {
    let alloc = rt.alloc();
    // No flags, unknown flags, no count, a cut literal, a rest.
    assert_eq!(rt;
        cause_of(alloc, &[0, 0, 0, 5, 1, 0, 0, 0, 0])?,
        Some(Cause::Payload)
    );
    assert_eq!(rt;
        cause_of(alloc, &[0, 0, 0, 8, 1, 0, 0, 0, 0, 4, 0, 0])?,
        Some(Cause::Payload)
    );
    assert_eq!(rt;
        cause_of(alloc, &[0, 0, 0, 7, 1, 0, 0, 0, 0, 0, 0])?,
        Some(Cause::Payload)
    );
    assert_eq!(rt;
        cause_of(alloc, &[0, 0, 0, 10, 1, 0, 0, 0, 0, 0, 0, 1, 0, 1])?,
        Some(Cause::Payload)
    );
    assert_eq!(rt;
        cause_of(alloc, &[0, 0, 0, 9, 1, 0, 0, 0, 0, 0, 0, 0, 9])?,
        Some(Cause::Payload)
    );
    Ok(())
}

#[test]
fn reports_other_wrong_payloads(rt: HostRuntime) -> Result<(), Fail> {
    let alloc = rt.alloc();
    // A number of seven bytes; something where nothing is wanted.
    let seven = [0, 0, 0, 12, 2, 0, 0, 0, 7, 0, 0, 0, 0, 0, 0, 0];
    assert_eq!(rt; cause_of(alloc, &seven)?, Some(Cause::Payload));
    assert_eq!(rt;
        cause_of(alloc, &[0, 0, 0, 6, 4, 0, 0, 0, 7, 0])?,
        Some(Cause::Payload)
    );
    assert_eq!(rt;
        cause_of(alloc, &[0, 0, 0, 6, 5, 0, 0, 0, 7, 0])?,
        Some(Cause::Payload)
    );
    Ok(())
}

#[test]
fn reads_frames_cut_anywhere(rt: HostRuntime) -> Result<(), Fail> {
    let whole = Outcome {
        requests: 2,
        between: true,
        cause: None,
    };
    for cut in 0..35 {
        let outcome = in_two(rt.alloc(), &FRAMES[..cut], &FRAMES[cut..])?;
        assert_eq!(rt; outcome, whole);
    }
    assert_eq!(rt; byte_by_byte(rt.alloc(), &FRAMES)?, whole);
    Ok(())
}

#[test]
fn holds_a_part_of_a_frame(rt: HostRuntime) -> Result<(), Fail> {
    let held = Outcome {
        requests: 1,
        between: false,
        cause: None,
    };
    assert_eq!(rt; byte_by_byte(rt.alloc(), &FRAMES[..33])?, held);
    assert_eq!(rt; in_two(rt.alloc(), &FRAMES[..16], &FRAMES[16..20])?, held);
    Ok(())
}

#[test]
fn reports_a_bad_frame_for_good(rt: HostRuntime) -> Result<(), Fail> {
    let outcome = in_two(rt.alloc(), &[0, 0, 0, 4], &FRAMES)?;
    assert_eq!(rt;
        outcome,
        Outcome {
            requests: 0,
            between: false,
            cause: Some(Cause::Length)
        }
    );
    let outcome = in_two(rt.alloc(), &FRAMES, &[0, 0, 0, 5, 9, 0, 0, 0, 0])?;
    assert_eq!(rt;
        outcome,
        Outcome {
            requests: 2,
            between: false,
            cause: Some(Cause::Kind)
        }
    );
    Ok(())
}

/// Both frames, and a whole frame of no known kind.
static WITH_A_BAD_FRAME: [u8; 43] = [
    0, 0, 0, 13, 1, 0, 0, 0, 0, 0, 0, 1, 0, 3, b'c', b'a', b't', 0, 0, 0, 13, 2, 0, 0, 0, 7, 0, 0,
    0, 0, 0, 0, 0, 0, 0, 0, 0, 5, 9, 0, 0, 0, 0,
];

#[test]
fn reads_the_frames_before_a_bad_one(rt: HostRuntime) -> Result<(), Fail> {
    let outcome = in_two(rt.alloc(), &[], &WITH_A_BAD_FRAME)?;
    assert_eq!(rt;
        outcome,
        Outcome {
            requests: 2,
            between: false,
            cause: Some(Cause::Kind)
        }
    );
    Ok(())
}

/// How many literals are read of the Publish of `count` empty literals, if it is whole.
fn count_read(alloc: Global, count: u16) -> Result<Option<u64>, Fail> {
    let frame = empty_literals(alloc, count)?;
    match read(alloc, &frame)? {
        Some(((_, _, literals), _)) => Ok(Some(literals)),
        None => Ok(None),
    }
}

#[test]
fn reads_many_literals(rt: HostRuntime) -> Result<(), Fail> {
    assert_eq!(rt; count_read(rt.alloc(), 0)?, Some(0));
    assert_eq!(rt; count_read(rt.alloc(), 4097)?, Some(4097));
    Ok(())
}

#[test]
fn writes_short_replies(rt: HostRuntime) -> Result<(), Fail> {
    let alloc = rt.alloc();
    let published = Reply::Published { number: 0 };
    assert!(rt;
        is_written(
            alloc,
            &published,
            &[0, 0, 0, 13, 0x11, 0, 0, 0, 0, 0, 0, 0, 0, 0, 0, 0, 0]
        )?
    );
    let opened = Reply::Opened { stream: 7 };
    assert!(rt; is_written(alloc, &opened, &[0, 0, 0, 5, 0x12, 0, 0, 0, 7])?);
    let fed = Reply::Fed {
        stream: 7,
        place: 6,
    };
    assert!(rt;
        is_written(
            alloc,
            &fed,
            &[0, 0, 0, 13, 0x14, 0, 0, 0, 7, 0, 0, 0, 0, 0, 0, 0, 6]
        )?
    );
    let closed = Reply::Closed { stream: 7 };
    assert!(rt; is_written(alloc, &closed, &[0, 0, 0, 5, 0x15, 0, 0, 0, 7])?);
    let refused = Reply::Refused {
        stream: 0,
        code: 11,
        detail: 1,
    };
    assert!(rt; is_written(alloc, &refused, &[0, 0, 0, 8, 0x17, 0, 0, 0, 0, 11, 0, 1])?);
    Ok(())
}

/// The Hits reply of one hit.
fn one_hit(alloc: Global) -> Result<Reply, Fail>
    ensures { IfOk result (λ reply. FitsReply (reply_parts reply)) }
{
    let hits = Vec::from_slice(alloc, &[Hit { lit: 0, end_at: 6 }])?;
    Ok(Reply::Hits { stream: 7, hits })
}

#[test]
fn writes_hits(rt: HostRuntime) -> Result<(), Fail> {
    let reply = one_hit(rt.alloc())?;
    let text = [
        0, 0, 0, 17, 0x13, 0, 0, 0, 7, 0, 1, 0, 0, 0, 0, 0, 0, 0, 0, 0, 6,
    ];
    assert!(rt; is_written(rt.alloc(), &reply, &text)?);
    Ok(())
}

/// The Plan reply of `cat` by a profile.
fn plan_of_cat(fold: Fold, profile: Profile) -> Reply
    ensures { FitsReply (reply_parts result) }
{
    let mut ends = Ends::new();
    let _ = ends.try_push(1);
    Reply::Plan {
        stream: 7,
        fold,
        profile,
        count: 1,
        cost: 351,
        ends,
    }
}

/// Its text with these flags.
fn plan_text(flags: u8) -> [u8; 23] {
    [
        0, 0, 0, 19, 0x16, 0, 0, 0, 7, flags, 0, 1, 0, 0, 0, 0, 0, 0, 1, 0x5f, 1, 0, 1,
    ]
}

#[test]
fn writes_a_plan(rt: HostRuntime) -> Result<(), Fail> {
    let alloc = rt.alloc();
    let plain = plan_of_cat(Fold::No, Profile::Eight);
    assert!(rt; is_written(alloc, &plain, &plan_text(0))?);
    let folded = plan_of_cat(Fold::Ascii, Profile::Eight);
    assert!(rt; is_written(alloc, &folded, &plan_text(1))?);
    Ok(())
}

#[test]
fn writes_a_plan_of_sixteen_buckets(rt: HostRuntime) -> Result<(), Fail> {
    let alloc = rt.alloc();
    let plain = plan_of_cat(Fold::No, Profile::Sixteen);
    assert!(rt; is_written(alloc, &plain, &plan_text(2))?);
    let folded = plan_of_cat(Fold::Ascii, Profile::Sixteen);
    assert!(rt; is_written(alloc, &folded, &plan_text(3))?);
    Ok(())
}

/// The Hits of one hit and a Closed, after a byte.
fn replies_after_a_byte(alloc: Global) -> Result<Vec<u8>, Fault> {
    let mut out = vec![in alloc; 9u8]?;
    append_hits(&mut out, 7, &[Hit { lit: 0, end_at: 6 }])?;
    append_reply(&mut out, &Reply::Closed { stream: 7 })?;
    Ok(out)
}

#[test]
fn appends_after_what_is_there(rt: HostRuntime) -> Result<(), Fail> {
    let text = [
        9, 0, 0, 0, 17, 0x13, 0, 0, 0, 7, 0, 1, 0, 0, 0, 0, 0, 0, 0, 0, 0, 6, 0, 0, 0, 5, 0x15, 0,
        0, 0, 7,
    ];
    assert!(rt; replies_after_a_byte(rt.alloc())?.as_slice() == text.as_slice());
    Ok(())
}

/// Whether a cause of a bad frame has this text.
fn is_named(alloc: Global, cause: Cause, text: &str) -> Result<bool, AllocError> {
    let shown = format!(in alloc; "{cause}")?;
    Ok(shown.as_str() == text)
}

#[test]
fn names_the_causes_of_bad_frames(rt: HostRuntime) -> Result<(), Fail> {
    let alloc = rt.alloc();
    assert!(rt; is_named(alloc, Cause::Length, "its length is out of range")?);
    assert!(rt; is_named(alloc, Cause::Kind, "no request has its kind")?);
    assert!(rt; is_named(alloc, Cause::Stream, "it publishes on a stream")?);
    assert!(rt; is_named(alloc, Cause::Payload, "its payload is not one of its kind")?);
    Ok(())
}
