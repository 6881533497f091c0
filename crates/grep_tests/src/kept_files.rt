//! An opener whose sources are known, and which keeps its requests.
ghost use Rattle.std.specs.Prelude.{◌≡◌, [], ◌∷◌, ◌++◌, string_bytes};

use crate::borrowed_texts::BorrowedTexts;
use byte_io::{CutIn, Missing, Opener};
use std::process::Abort;

/// What was asked for: a file, or standard input.
#[derive(Drop)]
pub enum Asked {
    File(String),
    Input,
}

/// Files of texts, which keep what they are asked for.
#[derive(Drop)]
pub struct KeptFiles<'a, R> {
    rt: &'a R,
    texts: BorrowedTexts<'a>,
    asks: Vec<Asked>,
}

impl<'a, R: Abort + AllocGlobal> KeptFiles<'a, R> {
    /// Files of these texts, before any ask.
    pub fn new(rt: &'a R, texts: BorrowedTexts<'a>) -> KeptFiles<'a, R> {
        KeptFiles {
            rt,
            texts,
            asks: Vec::new(rt.alloc()),
        }
    }

    /// Whether it was asked for just these, in order. `-` is standard input.
    pub fn was_asked_for(&self, names: &[&str]) -> bool {
        self.asks.len() == names.len() && self.was_asked_within(names)
    }

    /// Whether it was asked for the first of these, in order, or for all.
    pub fn was_asked_within(&self, names: &[&str]) -> bool {
        if self.asks.len() > names.len() {
            return false;
        }
        for (ask, name) in self.asks.iter().zip(names.iter()) {
            let asked = match ask {
                Asked::File(file) => file.as_str(),
                Asked::Input => "-",
            };
            if asked != *name {
                return false;
            }
        }
        true
    }

    fn note(&mut self, ask: Asked)
        ensures kept { self.new.asks.items ≡ self.old.asks.items ++ ask ∷ [] }
        ensures texts { self.new.texts ≡ self.old.texts }
    {
        self.asks.push(ask).expect(self.rt, "there is memory");
    }

    fn text_of(&self, name: &str) -> String
        ensures { string_bytes result ≡ name.now }
    {
        String::from_str(self.rt.alloc(), name).expect(self.rt, "there is memory")
    }
}

impl<'a, R: Abort + AllocGlobal> Opener for KeptFiles<'a, R> {
    type Input = CutIn<'a>;

    ghost use Rattle.std.specs.Prelude.{[], Some, map, string_bytes};
    ghost use Rattle.byte_io.specs.Sources.{Named, Standard};
    ghost use Rattle.grep_tests.specs.declared.kept_files.Asked.TheVariants.{File, Input};

    ghost sources = { λ d. Some (record {
      named = map (λ e. (e.0.now, e.1)) d.texts.named.items;
      standard = d.texts.standard.items;
      creatable = [];
      asks = map (λ a. elim a [ File s ↦ Named (string_bytes s) | Input ↦ Standard ]) d.asks.items;
    }) };

    fn open_named(&mut self, name: &str) -> Result<CutIn<'a>, Missing> {
        let asked = self.text_of(name);
        self.note(Asked::File(asked));
        match self.texts.take_named(name) {
            Some(text) => Ok(text.reader()),
            None => Err(Missing),
        }
    }

    fn standard_input(&mut self) -> CutIn<'a> {
        self.note(Asked::Input);
        self.texts.take_standard().reader()
    }
}
