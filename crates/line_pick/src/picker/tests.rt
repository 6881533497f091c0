//! What needs a picker's own fields. All other tests of pickers stand in `search_tests`.
use super::*;
use std::alloc::AllocError;
use std::test::Fail;

/// A sink that keeps each line after its number.
#[derive(Drop)]
struct Kept {
    alloc: Global,
    text: Vec<u8>,
}

impl Kept {
    fn keep(&mut self, number: u64, bytes: &[u8]) -> Result<(), AllocError> {
        let prefix = format!(in self.alloc; "{number}:")?;
        self.text.extend_from_slice(prefix.as_bytes())?;
        self.text.extend_from_slice(bytes)?;
        self.text.push(b'\n')?;
        Ok(())
    }
}

impl Sink for Kept {
    ghost takes = { λ _ _ _ _ _. Unit {0} };

    fn line(&mut self, number: u64, bytes: &[u8]) -> Result<Next, Fault> {
        self.keep(number, bytes)?;
        Ok(Next::More)
    }
}

/// A call of a picker, with a piece or at the end, and its answer with what the sink has kept then.
type Turn = (Option<&'static [u8]>, Result<Next, Fault>, &'static [u8]);

/// The first of the turns, from 0, whose answer or kept lines are others.
fn first_wrong(
    picker: &mut Picker<'_>,
    sink: &mut Kept,
    turns: &[Turn],
) -> Result<Option<usize>, AllocError> {
    for (place, turn) in turns.iter().enumerate() {
        let (piece, answer, kept) = *turn;
        let given = match piece {
            Some(piece) => picker.feed(piece, sink),
            None => picker.finish(sink),
        };
        if given == answer && sink.text.as_slice() == kept {
            continue;
        }
        if given == Err(Fault::OutOfMemory) && kept.starts_with(sink.text.as_slice()) {
            return Err(AllocError);
        }
        return Ok(Some(place));
    }
    Ok(None)
}

/// Turns that go on past the last position.
static TOO_LONG: [Turn; 4] = [
    (Some(b"a\nb"), Ok(Next::More), b"1:a\n"),
    (Some(b""), Ok(Next::More), b"1:a\n"),
    (Some(b"\n"), Err(Fault::StreamTooLong), b"1:a\n"),
    (None, Err(Fault::StreamTooLong), b"1:a\n"),
];

#[test]
fn fails_where_the_stream_is_too_long(rt: HostRuntime) -> Result<(), Fail> {
    let rule = LineRule {
        invert: false,
        whole: false,
    };
    let mut picker = Picker::new(rt.alloc(), None, true, rule);
    picker.progress.bytes = u64::MAX - 3;
    let mut sink = Kept {
        alloc: rt.alloc(),
        text: Vec::new(rt.alloc()),
    };
    assert_eq!(rt; first_wrong(&mut picker, &mut sink, &TOO_LONG)?, None);
    Ok(())
}
