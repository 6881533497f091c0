//! The devices of the tests, over borrowed bytes, which fail where a test says.
ghost use Rattle.std.specs.Prelude.{◌≡◌, ◌+◌, ◌-◌, ◌<◌, ◌≤◌, ◌||◌, [], length, take, false, IfOk, is_err, min};
ghost use Rattle.std.specs.Io.KnownBytes.{WriteAppends};
ghost use Rattle.byte_io.specs.CutDevices.{after_read, after_write, cut_after, fails_now, read_answer, known_by, write_answer};
ghost use Rattle.byte_io.specs.Devices.{ReadGives, IfKnown, count_of};

use crate::device::{ByteIn, ByteOut, Failed};
use std::marker::Model;

/// Where a device of the tests fails.
#[derive(Clone, Copy)]
pub enum Cut {
    /// At no call.
    Never,
    /// At each call after the last byte.
    AtEnd,
    /// At one call, after this many calls that do not fail.
    InCalls(u64),
    /// That call has failed, and no other does.
    Past,
}

impl Cut {
    /// Whether the next call fails, with `left` bytes left.
    fn is_now(self, left: usize) -> bool
        ensures { result ≡ fails_now self left }
    {
        match self {
            Cut::Never | Cut::Past => false,
            Cut::AtEnd => left == 0,
            Cut::InCalls(calls) => calls == 0,
        }
    }

    /// The cut after one more call.
    fn after_call(self) -> Cut
        ensures { result ≡ cut_after self }
    {
        match self {
            Cut::InCalls(0) => Cut::Past,
            Cut::InCalls(calls) => Cut::InCalls(calls - 1),
            other => other,
        }
    }
}

/// A reader for tests, over borrowed bytes.
///
/// It gives as many bytes as a call has room for, or fewer after `with_step`.
#[derive(Drop)]
pub struct CutIn<'a> {
    bytes: &'a [u8],
    place: usize,
    cut: Cut,
    step: usize,
    has_failed: bool,
}

impl<'a> Model for CutIn<'a> {
    ghost use Rattle.std.specs.Prelude.{◌<◌, ◌≤◌, length, drop};
    ghost use Rattle.byte_io.specs.CutDevices.{CutReader};

    ghost Value = { CutReader };

    ghost view = { λ d. record {
      text = drop d.place d.bytes.now;
      cut = d.cut;
      step = d.step;
      given = d.place;
      has_failed = d.has_failed;
    } };

    ghost invariant = { λ d. (d.place ≤ length d.bytes.now) × (0 < d.step) };
}

impl<'a> CutIn<'a> {
    /// A reader of the bytes, which end cleanly.
    pub fn whole(bytes: &'a [u8]) -> Self
        ensures { result ≡ record {
          text = bytes.now;
          cut = Cut.Never;
          step = usize.MAX;
          given = 0;
          has_failed = false;
        } }
    {
        CutIn::with_cut(bytes, Cut::Never)
    }

    /// A reader of the first `count` bytes, or of all if there are fewer. After them each call
    /// fails.
    pub fn failing_after(bytes: &'a [u8], count: usize) -> Self
        ensures { result ≡ record {
          text = take count bytes.now;
          cut = Cut.AtEnd;
          step = usize.MAX;
          given = 0;
          has_failed = false;
        } }
    {
        CutIn::with_cut(&bytes[..count.min(bytes.len())], Cut::AtEnd)
    }

    /// A reader of the bytes whose call of that number fails, counted from 0. It takes no byte away, and the calls
    /// after it go on. Contracts do not know the bytes of this reader.
    pub fn failing_at(bytes: &'a [u8], call: u64) -> Self
        ensures { result ≡ record {
          text = bytes.now;
          cut = Cut.InCalls call;
          step = usize.MAX;
          given = 0;
          has_failed = false;
        } }
    {
        CutIn::with_cut(bytes, Cut::InCalls(call))
    }

    /// The reader, with at most `step` bytes a call.
    pub fn with_step(self, step: usize) -> Self
        requires { 0 < step }
        ensures { result ≡ record self.entry { step = step } }
    {
        CutIn { step, ..self }
    }

    /// The reader, as if no call had failed.
    pub(crate) fn afresh(self) -> Self
        ensures { result ≡ record self.entry { has_failed = false } }
    {
        CutIn {
            has_failed: false,
            ..self
        }
    }

    fn with_cut(bytes: &'a [u8], cut: Cut) -> Self
        ensures { result ≡ record {
          text = bytes.now;
          cut = cut;
          step = usize.MAX;
          given = 0;
          has_failed = false;
        } }
    {
        CutIn {
            bytes,
            place: 0,
            cut,
            step: usize::MAX,
            has_failed: false,
        }
    }
}

impl ByteIn for CutIn<'_> {
    ghost coming = { λ d. known_by d.cut d.text };

    ghost given = { λ d. d.given };

    ghost has_failed = { λ d. d.has_failed };

    fn read_some(&mut self, buf: &mut [u8]) -> Result<usize, Failed>
        ensures within { IfOk result (λ n. n ≤ length buf.new) }
        ensures bytes { IfKnown (known_by self.old.cut self.old.text)
            (known_by self.new.cut self.new.text) (λ old new. ReadGives old new result buf.new) }
        ensures count { self.new.given ≡ self.old.given + count_of result }
        ensures flag { self.new.has_failed ≡ (self.old.has_failed || is_err result) }

        // What a call does, exactly.
        ensures answer { result ≡ read_answer self.old (length buf.old) }
        ensures after { self.new ≡ after_read self.old (length buf.old) }
        ensures filled { IfOk result (λ n. take n buf.new ≡ take n self.old.text) }
    {
        let (_, rest) = self.bytes.split_at(self.place);
        let fails = self.cut.is_now(rest.len());
        self.cut = self.cut.after_call();
        if fails {
            self.has_failed = true;
            return Err(Failed);
        }
        let count = self.step.min(rest.len()).min(buf.len());
        buf[..count].copy_from_slice(&rest[..count]);
        self.place += count;
        Ok(count)
    }
}

/// A writer for tests, into borrowed bytes. It fails where they are full.
///
/// It takes as much of a piece as there is room for, or less after `with_step`.
#[derive(Drop)]
pub struct CutOut<'a> {
    bytes: &'a mut [u8],
    place: usize,
    cut: Cut,
    step: usize,
    has_failed: bool,
}

impl<'a> Model for CutOut<'a> {
    ghost use Rattle.std.specs.Prelude.{◌-◌, ◌<◌, ◌≤◌, length, take};
    ghost use Rattle.byte_io.specs.CutDevices.{CutWriter};

    ghost Value = { CutWriter };

    ghost view = { λ d. record {
      taken = take d.place d.bytes.now;
      room = length d.bytes.now - d.place;
      cut = d.cut;
      step = d.step;
      has_failed = d.has_failed;
    } };

    ghost invariant = { λ d. (d.place ≤ length d.bytes.now) × (0 < d.step) };
}

impl<'a> CutOut<'a> {
    /// A writer that fails where there is no more room.
    pub fn within(bytes: &'a mut [u8]) -> Self
        ensures { result ≡ record {
          taken = [];
          room = length bytes.old;
          cut = Cut.Never;
          step = usize.MAX;
          has_failed = false;
        } }
    {
        CutOut::with_cut(bytes, Cut::Never)
    }

    /// A writer whose call of that number fails, counted from 0. It takes nothing, and the calls
    /// after it go on.
    pub fn failing_at(bytes: &'a mut [u8], call: u64) -> Self
        ensures { result ≡ record {
          taken = [];
          room = length bytes.old;
          cut = Cut.InCalls call;
          step = usize.MAX;
          has_failed = false;
        } }
    {
        CutOut::with_cut(bytes, Cut::InCalls(call))
    }

    /// The writer, with at most `step` bytes a call.
    pub fn with_step(self, step: usize) -> Self
        requires { 0 < step }
        ensures { result ≡ record self.entry { step = step } }
    {
        CutOut { step, ..self }
    }

    /// The writer, as if no call had failed.
    pub(crate) fn afresh(self) -> Self
        ensures { result ≡ record self.entry { has_failed = false } }
    {
        CutOut {
            has_failed: false,
            ..self
        }
    }

    /// The bytes that it has taken.
    pub fn written(&self) -> &[u8]
        ensures { result.now ≡ self.now.taken }
    {
        &self.bytes[..self.place]
    }

    fn with_cut(bytes: &'a mut [u8], cut: Cut) -> Self
        ensures { result ≡ record {
          taken = [];
          room = length bytes.old;
          cut = cut;
          step = usize.MAX;
          has_failed = false;
        } }
    {
        CutOut {
            bytes,
            place: 0,
            cut,
            step: usize::MAX,
            has_failed: false,
        }
    }
}

impl ByteOut for CutOut<'_> {
    ghost use Rattle.std.specs.Prelude.{Some};

    ghost written = { λ d. Some d.taken };

    ghost has_failed = { λ d. d.has_failed };

    fn write_some(&mut self, piece: &[u8]) -> Result<usize, Failed>
        ensures within { IfOk result (λ n. n ≤ length piece.now) }
        ensures takes { 0 < length piece.now → IfOk result (λ n. 0 < n) }
        ensures bytes { WriteAppends (Some self.old.taken) (Some self.new.taken) result piece.now }
        ensures flag { self.new.has_failed ≡ (self.old.has_failed || is_err result) }

        // What a call does, exactly.
        ensures answer { result ≡ write_answer self.old (length piece.now) }
        ensures after { self.new ≡ after_write self.old piece.now }
    {
        let room = self.bytes.len() - self.place;
        let fails = self.cut.is_now(room) || (room == 0 && !piece.is_empty());
        self.cut = self.cut.after_call();
        if fails {
            self.has_failed = true;
            return Err(Failed);
        }
        let count = self.step.min(room).min(piece.len());
        let end = self.place + count;
        self.bytes[self.place..end].copy_from_slice(&piece[..count]);
        self.place = end;
        Ok(count)
    }
}
