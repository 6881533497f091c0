//! Files for tests, over borrowed bytes.
ghost use Rattle.std.specs.Prelude.{◌≡◌, IfOk, MatchOption, false, map};
ghost use Rattle.byte_io.specs.Borrowed.{reader_of, readers_after};
ghost use Rattle.byte_io.specs.Sources.{source_of, without_first};

use crate::cut_device::{CutIn, CutOut};
use crate::files::Files;
use crate::opener::{Missing, Opener};
use std::marker::Model;

/// Files for tests: readers under names, several under one name in order; readers that standard input gives, in order;
/// and writers under names. A name without one cannot be opened or made. After its last reader standard input is empty.
///
/// Its asks are not known, since it keeps none.
#[derive(Drop)]
pub struct BorrowedFiles<'a> {
    named: Vec<(&'a str, Option<CutIn<'a>>)>,
    standard: Vec<CutIn<'a>>,
    creatable: Vec<(&'a str, Option<CutOut<'a>>)>,
}

impl<'a> Model for BorrowedFiles<'a> {
    ghost use Rattle.std.specs.Prelude.{map};
    ghost use Rattle.byte_io.specs.Borrowed.{BorrowedSources};

    ghost Value = { BorrowedSources };

    ghost view = { λ f. record {
      named = map (λ e. (e.0.now, e.1)) f.named.items;
      standard = f.standard.items;
      creatable = map (λ e. (e.0.now, e.1)) f.creatable.items;
    } };
}

impl<'a> BorrowedFiles<'a> {
    /// Files with the given readers and writers.
    pub fn new(
        named: Vec<(&'a str, Option<CutIn<'a>>)>,
        standard: Vec<CutIn<'a>>,
        creatable: Vec<(&'a str, Option<CutOut<'a>>)>,
    ) -> BorrowedFiles<'a>
        ensures { result ≡ record {
          named = map (λ e. (e.0.now, e.1)) named.entry.items;
          standard = standard.entry.items;
          creatable = map (λ e. (e.0.now, e.1)) creatable.entry.items;
        } }
    {
        BorrowedFiles {
            named,
            standard,
            creatable,
        }
    }
}

impl<'a> Opener for BorrowedFiles<'a> {
    type Input = CutIn<'a>;

    ghost use Rattle.std.specs.Prelude.{None};

    ghost sources = { λ _. None };

    fn open_named(&mut self, name: &str) -> Result<CutIn<'a>, Missing>
        ensures fresh { IfOk result (λ input. input.has_failed ≡ false) }

        // The exact answer.
        ensures answer { MatchOption (source_of name.now self.old.named) (result ≡ Err (record {}))
            (λ d. result ≡ Ok (record d { has_failed = false })) }
        ensures after { self.new ≡ record self.old { named = without_first name.now self.old.named } }
    {
        match take_first(&mut self.named, name) {
            Some(input) => Ok(input.afresh()),
            None => Err(Missing),
        }
    }

    fn standard_input(&mut self) -> CutIn<'a>
        ensures fresh { result.has_failed ≡ false }

        // The exact answer.
        ensures answer { result ≡ record (reader_of self.old.standard) { has_failed = false } }
        ensures after { self.new ≡ record self.old { standard = readers_after self.old.standard } }
    {
        if self.standard.is_empty() {
            return CutIn::whole(&[]);
        }
        self.standard.remove(0).afresh()
    }
}

impl<'a> Files for BorrowedFiles<'a> {
    type Output = CutOut<'a>;

    fn create_named(&mut self, name: &str) -> Result<CutOut<'a>, Missing>
        ensures fresh { IfOk result (λ output. output.has_failed ≡ false) }

        // The exact answer.
        ensures answer { MatchOption (source_of name.now self.old.creatable) (result ≡ Err (record {}))
            (λ d. result ≡ Ok (record d { has_failed = false })) }
        ensures after { self.new ≡ record self.old { creatable = without_first name.now self.old.creatable } }
    {
        match take_first(&mut self.creatable, name) {
            Some(output) => Ok(output.afresh()),
            None => Err(Missing),
        }
    }
}

/// Takes what stands first under the name.
fn take_first<'a, T: Drop>(entries: &mut Vec<(&'a str, Option<T>)>, name: &str) -> Option<T>
    ensures value { result ≡ source_of name.now (map (λ e. (e.0.now, e.1)) entries.old.items) }
    ensures rest { map (λ e. (e.0.now, e.1)) entries.new.items
        ≡ without_first name.now (map (λ e. (e.0.now, e.1)) entries.old.items) }
{
    for place in 0..entries.len() {
        if entries[place].0 == name {
            return entries.remove(place).1;
        }
    }
    None
}
