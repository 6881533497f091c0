//! The line that no newline has ended yet, and how far a text has come.
ghost use Rattle.std.specs.Prelude.{◌≡◌, ◌≢◌, ◌↔◌, ◌<◌, ◌≤◌, ◌+◌, ◌^◌, ◌++◌, ◌∷◌, [], Err, IfOk, IsOk, OnOk, OnErr, length, slice_range, true, vec_len};
ghost use Rattle.std.specs.Option.{option_copied};
ghost use Rattle.lit_base.specs.Lines.{IsOnePiece, ended_lines, last_line, open_rest};
ghost use Rattle.line_pick.specs.Emitting.{Emits, EmitsOrAll, EmitsOrNone, Emitted, answer_of, as_numbered, numbered};
ghost use Rattle.line_pick.specs.Matching.{IsByPlan, picks};
ghost use Rattle.line_pick.specs.OpenLines.{Decides, IsKept, Keeps, most_kept};
ghost use Rattle.line_pick.specs.Progresses.{IsSound};

use crate::emitting::emit_joined;
use crate::fault::Fault;
use crate::halt::Halt;
use crate::matcher::{LineSearch, Matcher};
use crate::open_line::{Part, deciding_part, is_decided, is_short};
use crate::sink::Sink;
use crate::text_emitting::emit_text;
use std::alloc::Global;
use text_lines::{split_ended, split_line};

/// The line that no newline has ended yet, and how far a text has come.
#[derive(Debug, Drop)]
pub(crate) struct Progress {
    /// The bytes since the last newline, or what decides them.
    pub held: Vec<u8>,
    /// Whether the sink sees the bytes of lines. Where it does not, only what decides the open line is held.
    pub has_bytes: bool,
    /// Whether lines are numbered. Where they are not, those that are passed over are not counted.
    pub is_numbered: bool,
    /// Ended lines; without numbers, a lower bound.
    pub lines: u64,
    /// How many bytes there were.
    pub bytes: u64,
}

impl Progress {
    /// The progress before any text. It takes no memory.
    pub fn new(alloc: Global) -> Progress
        ensures held { result.held.items ≡ [] }
        ensures seen { result.has_bytes ≡ true }
        ensures numbered { result.is_numbered ≡ true }
        ensures lines { result.lines ≡ 0 }
        ensures bytes { result.bytes ≡ 0 }
    {
        Progress {
            held: Vec::new(alloc),
            has_bytes: true,
            is_numbered: true,
            lines: 0,
            bytes: 0,
        }
    }

    /// Takes the next piece of the text, and emits the selected lines among those that it ends.
    pub fn take<S: Sink>(
        &mut self,
        search: &mut LineSearch<'_>,
        piece: &[u8],
        sink: &mut S,
    ) -> Result<(), Halt>
        requires sound { IsSound self.old }
        requires plan { IsByPlan search.old }
        ensures same { search.new ≡ search.old }
        ensures sound { IsSound self.new }
        ensures seen { self.new.has_bytes ≡ self.old.has_bytes }
        ensures numbered { self.new.is_numbered ≡ self.old.is_numbered }
        ensures emitted { Emits (as_numbered self.old.is_numbered S.takes)
            self.old.held.items (open_rest (self.old.held.items ++ piece.now)) sink.old
            (numbered (picks search.old.matcher) self.old.lines (ended_lines (self.old.held.items ++ piece.now)))
            (answer_of result) sink.new }
        ensures held { OnOk result (Keeps self.old.has_bytes (picks search.old.matcher) (most_kept (option_copied search.old.matcher.plan)) self.new.held.items
            (open_rest (self.old.held.items ++ piece.now))) }
        ensures lines { OnOk result (self.old.is_numbered ≡ true → self.new.lines
            ≡ self.old.lines + length (ended_lines (self.old.held.items ++ piece.now))) }
        ensures bytes { OnOk result (self.new.bytes ≡ self.old.bytes + length piece.now) }
        ensures too_long { (result ≡ Err (Halt.Failed Fault.StreamTooLong))
            ↔ (2 ^ 64 ≤ self.old.bytes + length piece.now) }
        ensures idle { piece.now ≡ [] → IsOk result }
    {
        self.bytes = longer(self.bytes, piece)?;
        let is_fresh = self.held.is_empty();
        if is_fresh {
            return self.take_lines(search, piece, sink);
        }
        match split_line(piece) {
            None => self.hold_open(search, piece),
            Some((prefix, after)) => {
                self.end_line(search, prefix, sink)?;
                self.take_lines(search, after, sink)
            }
        }
    }

    /// Holds the bytes after those that it holds.
    fn hold(&mut self, bytes: &[u8]) -> Result<(), Halt>
        ensures ok { OnOk result (self.new.held.items ≡ self.old.held.items ++ bytes.now) }
        ensures err { OnErr result (self.new.held.items ≡ self.old.held.items) }
        ensures starved { OnErr result (result ≡ Err (Halt.Failed Fault.OutOfMemory)) }
        ensures some { OnErr result (0 < length bytes.now) }
        ensures seen { self.new.has_bytes ≡ self.old.has_bytes }
        ensures numbered { self.new.is_numbered ≡ self.old.is_numbered }
        ensures lines { self.new.lines ≡ self.old.lines }
        ensures bytes { self.new.bytes ≡ self.old.bytes }
    {
        self.held.extend_from_slice(bytes)?;
        Ok(())
    }

    /// Takes more bytes of the open line. It holds the line, or what decides it.
    fn hold_open(&mut self, search: &mut LineSearch<'_>, bytes: &[u8]) -> Result<(), Halt>
        requires plan { IsByPlan search.old }
        requires sound { IsSound self.old }
        requires one { IsOnePiece bytes.now }
        requires counted { self.old.lines + vec_len self.old.held + length bytes.now ≤ self.old.bytes }
        ensures same { search.new ≡ search.old }
        ensures sound { IsSound self.new }
        ensures seen { self.new.has_bytes ≡ self.old.has_bytes }
        ensures numbered { self.new.is_numbered ≡ self.old.is_numbered }
        ensures held { OnOk result (Keeps self.old.has_bytes (picks search.old.matcher) (most_kept (option_copied search.old.matcher.plan)) self.new.held.items
            (self.old.held.items ++ bytes.now)) }
        ensures starved { OnErr result (result ≡ Err (Halt.Failed Fault.OutOfMemory)) }
        ensures some { OnErr result (0 < length bytes.now) }
        ensures lines { self.new.lines ≡ self.old.lines }
        ensures bytes { self.new.bytes ≡ self.old.bytes }
    {
        if self.has_bytes {
            return self.hold(bytes);
        }
        self.hold_undecided(search.matcher, bytes)?;
        self.shorten(search);
        Ok(())
    }

    /// Holds the bytes, unless those that it holds decide the line.
    fn hold_undecided(&mut self, matcher: Matcher<'_>, bytes: &[u8]) -> Result<(), Halt>
        requires sound { IsSound self.old }
        requires one { IsOnePiece bytes.now }
        requires counted { self.old.lines + vec_len self.old.held + length bytes.now ≤ self.old.bytes }
        ensures sound { IsSound self.new }
        ensures seen { self.new.has_bytes ≡ self.old.has_bytes }
        ensures numbered { self.new.is_numbered ≡ self.old.is_numbered }
        ensures held { OnOk result (Decides (picks matcher.entry) self.new.held.items (self.old.held.items ++ bytes.now)) }
        ensures starved { OnErr result (result ≡ Err (Halt.Failed Fault.OutOfMemory)) }
        ensures some { OnErr result (0 < length bytes.now) }
        ensures lines { self.new.lines ≡ self.old.lines }
        ensures bytes { self.new.bytes ≡ self.old.bytes }
    {
        if is_decided(matcher, self.held.as_slice()) {
            return Ok(());
        }
        self.hold(bytes)
    }

    /// Holds of the open line only what decides it, unless it holds few bytes.
    fn shorten(&mut self, search: &mut LineSearch<'_>)
        requires plan { IsByPlan search.old }
        requires sound { IsSound self.old }
        ensures same { search.new ≡ search.old }
        ensures sound { IsSound self.new }
        ensures seen { self.new.has_bytes ≡ self.old.has_bytes }
        ensures numbered { self.new.is_numbered ≡ self.old.is_numbered }
        ensures held { IsKept (picks search.old.matcher) (most_kept (option_copied search.old.matcher.plan)) self.new.held.items self.old.held.items }
        ensures lines { self.new.lines ≡ self.old.lines }
        ensures bytes { self.new.bytes ≡ self.old.bytes }
    {
        if is_short(search.matcher, self.held.as_slice()) {
            return;
        }
        let part = deciding_part(search, self.held.as_slice());
        keep_part(&mut self.held, part);
    }

    /// Ends the held line with its last bytes.
    fn end_line<S: Sink>(
        &mut self,
        search: &mut LineSearch<'_>,
        prefix: &[u8],
        sink: &mut S,
    ) -> Result<(), Halt>
        requires plan { IsByPlan search.old }
        requires sound { IsSound self.old }
        requires one { IsOnePiece prefix.now }
        requires counted { self.old.lines + vec_len self.old.held + length prefix.now + 1
            ≤ self.old.bytes }
        ensures same { search.new ≡ search.old }
        ensures sound { IsSound self.new }
        ensures seen { self.new.has_bytes ≡ self.old.has_bytes }
        ensures numbered { self.new.is_numbered ≡ self.old.is_numbered }
        ensures emitted { EmitsOrNone S.takes sink.old
            (numbered (picks search.old.matcher) self.old.lines ((self.old.held.items ++ prefix.now) ∷ []))
            (answer_of result) sink.new }
        ensures held { OnOk result (self.new.held.items ≡ []) }
        ensures lines { OnOk result (self.new.lines ≡ self.old.lines + 1) }
        ensures bytes { self.new.bytes ≡ self.old.bytes }
        ensures faults { result ≢ Err (Halt.Failed Fault.StreamTooLong) }
    {
        self.hold(prefix)?;
        emit_joined(search, self.held.as_slice(), self.lines, sink)?;
        self.held.clear();
        self.lines += 1;
        Ok(())
    }

    /// Takes text at the beginning of a line: emits the lines that newlines end in it, without copying them, and holds
    /// the rest.
    fn take_lines<S: Sink>(
        &mut self,
        search: &mut LineSearch<'_>,
        text: &[u8],
        sink: &mut S,
    ) -> Result<(), Halt>
        requires plan { IsByPlan search.old }
        requires fresh { self.old.held.items ≡ [] }
        requires counted { self.old.lines + length text.now ≤ self.old.bytes }
        ensures same { search.new ≡ search.old }
        ensures sound { IsSound self.new }
        ensures seen { self.new.has_bytes ≡ self.old.has_bytes }
        ensures numbered { self.new.is_numbered ≡ self.old.is_numbered }
        ensures emitted { EmitsOrAll (as_numbered self.old.is_numbered S.takes) (open_rest text.now) sink.old
            (numbered (picks search.old.matcher) self.old.lines (ended_lines text.now))
            (answer_of result) sink.new }
        ensures held { OnOk result (Keeps self.old.has_bytes (picks search.old.matcher) (most_kept (option_copied search.old.matcher.plan)) self.new.held.items (open_rest text.now)) }
        ensures lines { OnOk result (self.old.is_numbered ≡ true
            → self.new.lines ≡ self.old.lines + length (ended_lines text.now)) }
        ensures bytes { self.new.bytes ≡ self.old.bytes }
        ensures faults { result ≢ Err (Halt.Failed Fault.StreamTooLong) }
        ensures idle { text.now ≡ [] → IsOk result }
    {
        // Read here, it is known to fit, and so is the number of lines.
        let _bytes = self.bytes;
        let (ended, open) = split_ended(text);
        self.lines = emit_text(search, ended, self.lines, self.is_numbered, sink)?;
        self.hold_open(search, open)
    }

    /// Emits the open line, if it is a line and selected.
    pub fn emit_open<S: Sink>(&self, search: &mut LineSearch<'_>, sink: &mut S) -> Result<(), Halt>
        requires plan { IsByPlan search.old }
        requires sound { IsSound self.now }
        ensures same { search.new ≡ search.old }
        ensures emitted { Emitted S.takes sink.old
            (numbered (picks search.old.matcher) self.now.lines (last_line self.now.held.items))
            (answer_of result) sink.new }
        ensures faults { result ≢ Err (Halt.Failed Fault.StreamTooLong) }
    {
        if self.held.is_empty() {
            return Ok(());
        }
        let _bytes = self.bytes;
        emit_joined(search, self.held.as_slice(), self.lines, sink)
    }
}

/// Removes all bytes but a part.
fn keep_part(bytes: &mut Vec<u8>, part: Part)
    requires ordered { part.start ≤ part.end }
    requires within { part.end ≤ length bytes.old.items }
    ensures { bytes.new.items ≡ slice_range bytes.old.items part.start part.end }
{
    bytes.copy_within(part.start..part.end, 0);
    bytes.truncate(part.end - part.start);
}

/// The number of bytes with one more piece. The only error is `StreamTooLong`.
fn longer(bytes: u64, piece: &[u8]) -> Result<u64, Halt>
    ensures ok { IfOk result (λ sum. sum ≡ bytes + length piece.now) }
    ensures err { OnErr result (result ≡ Err (Halt.Failed Fault.StreamTooLong)) }
    ensures too_long { OnErr result (2 ^ 64 ≤ bytes + length piece.now) }
{
    match bytes.checked_add(piece.len() as u64) {
        Some(sum) => Ok(sum),
        None => Err(Halt::Failed(Fault::StreamTooLong)),
    }
}
