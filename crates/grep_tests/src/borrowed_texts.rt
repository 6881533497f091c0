//! Borrowed texts for tests, under names and for standard input.
ghost use Rattle.std.specs.Prelude.{◌≡◌, Some, false, map, true};
ghost use Rattle.byte_io.specs.CutDevices.{known_by};
ghost use Rattle.byte_io.specs.Sources.{after_first, coming_of, content_of, source_of, without_first};

use byte_io::CutIn;
use std::marker::Model;

/// A text, and whether a read fault follows it in place of a clean end.
#[derive(Drop)]
pub struct Text<'a> {
    bytes: &'a [u8],
    is_faulty: bool,
}

impl<'a> Model for Text<'a> {
    ghost use Rattle.byte_io.specs.Sources.{Content};

    ghost Value = { Content };

    ghost view = { λ t. record { text = t.bytes.now; is_faulty = t.is_faulty } };
}

impl<'a> Text<'a> {
    /// A text that ends cleanly.
    pub fn whole(bytes: &'a [u8]) -> Text<'a>
        ensures { result ≡ record { text = bytes.now; is_faulty = false } }
    {
        Text {
            bytes,
            is_faulty: false,
        }
    }

    /// A text that a fault follows.
    pub fn cut(bytes: &'a [u8]) -> Text<'a>
        ensures { result ≡ record { text = bytes.now; is_faulty = true } }
    {
        Text {
            bytes,
            is_faulty: true,
        }
    }

    /// A reader of it.
    pub fn reader(&self) -> CutIn<'a>
        ensures coming { known_by result.cut result.text ≡ Some (coming_of self.now) }
        ensures fresh { result.has_failed ≡ false }
    {
        if self.is_faulty {
            CutIn::failing_after(self.bytes, self.bytes.len())
        } else {
            CutIn::whole(self.bytes)
        }
    }
}

/// Texts under names, those of one name in order, and texts of standard input, in order. Under a name can
/// also stand that no file can be opened.
#[derive(Drop)]
pub struct BorrowedTexts<'a> {
    pub named: Vec<(&'a str, Option<Text<'a>>)>,
    pub standard: Vec<Text<'a>>,
}

impl<'a> BorrowedTexts<'a> {
    /// Takes what stands first under a name.
    pub fn take_named(&mut self, name: &str) -> Option<Text<'a>>
        ensures value { result ≡ source_of name.now (map (λ e. (e.0.now, e.1)) self.old.named.items) }
        ensures rest { map (λ e. (e.0.now, e.1)) self.new.named.items
            ≡ without_first name.now (map (λ e. (e.0.now, e.1)) self.old.named.items) }
        ensures standard { self.new.standard.items ≡ self.old.standard.items }
    {
        take_first(&mut self.named, name)
    }

    /// Takes the next text of standard input, or an empty one.
    pub fn take_standard(&mut self) -> Text<'a>
        ensures value { result ≡ content_of self.old.standard.items }
        ensures rest { self.new.standard.items ≡ after_first self.old.standard.items }
        ensures named { self.new.named.items ≡ self.old.named.items }
    {
        if self.standard.is_empty() {
            return Text::whole(&[]);
        }
        self.standard.remove(0)
    }
}

/// Takes what stands first under the name.
fn take_first<'a, T: Drop>(entries: &mut Vec<(&'a str, Option<T>)>, name: &str) -> Option<T>
    ensures value { result ≡ source_of name.now (map (λ e. (e.0.now, e.1)) entries.old.items) }
    ensures rest { map (λ e. (e.0.now, e.1)) entries.new.items
        ≡ without_first name.now (map (λ e. (e.0.now, e.1)) entries.old.items) }
{
    for place in 0..entries.len() {
        if entries[place].0 == name {
            return entries.remove(place).1;
        }
    }
    None
}
