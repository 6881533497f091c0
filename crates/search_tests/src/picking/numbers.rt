//! Pickers without numbers, compared with pickers with them.
use super::*;

/// A sink that keeps lines without their numbers.
#[derive(Drop)]
struct Bare {
    text: Vec<u8>,
}

impl Bare {
    fn keep(&mut self, bytes: &[u8]) -> Result<(), AllocError> {
        self.text.extend_from_slice(bytes)?;
        self.text.push(b'\n')?;
        Ok(())
    }
}

impl Sink for Bare {
    ghost takes = { λ _ _ _ _ _. Unit {0} };

    fn line(&mut self, _number: u64, bytes: &[u8]) -> Result<Next, Fault> {
        self.keep(bytes)?;
        Ok(Next::More)
    }
}

/// The pieces of a text of six lines.
const PIECES: [&[u8]; 3] = [b"dog\nconc", b"at\ncow\ncat\nbe", b"e\ncatfish"];

/// What a picker emits of them.
fn emitted_by(alloc: Global, picker: &mut Picker<'_>) -> Option<Vec<u8>> {
    let mut sink = Bare {
        text: Vec::new(alloc),
    };
    for piece in PIECES {
        picker.feed(piece, &mut sink).ok()?;
    }
    picker.finish(&mut sink).ok()?;
    Some(sink.text)
}

/// What a picker with or without numbers emits of them.
fn emitted(
    alloc: Global,
    compiled: &Compiled,
    rule: LineRule,
    is_numbered: bool,
) -> Option<Vec<u8>> {
    if !is_in_lines(compiled) {
        return None;
    }
    let mut picker = Picker::new(alloc, Some(compiled), false, rule);
    if !is_numbered {
        picker = picker.without_numbers();
    }
    emitted_by(alloc, &mut picker)
}

/// Whether pickers with and without numbers emit these lines.
fn emit(alloc: Global, rule: LineRule, wanted: &[u8]) -> Option<bool> {
    let compiled = plan_of_one(alloc, b"cat")?;
    let numbered = emitted(alloc, &compiled, rule, true)?;
    let bare = emitted(alloc, &compiled, rule, false)?;
    Some(numbered.as_slice() == wanted && bare.as_slice() == wanted)
}

#[test]
fn emits_the_same_lines_without_numbers(rt: HostRuntime) {
    let parts = emit(rt.alloc(), PARTS, b"concat\ncat\ncatfish\n");
    assert_eq!(rt; parts, Some(true));
    assert_eq!(rt; emit(rt.alloc(), WHOLE, b"cat\n"), Some(true));
}

#[test]
fn emits_the_same_other_lines_without_numbers(rt: HostRuntime) {
    let inverted = LineRule {
        invert: true,
        ..PARTS
    };
    let others = emit(rt.alloc(), inverted, b"dog\ncow\nbee\n");
    assert_eq!(rt; others, Some(true));
}
