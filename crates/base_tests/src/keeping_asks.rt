//! Files can know each ask that they get, of every kind.
ghost use Rattle.std.specs.Prelude.{◌≡◌, [], ◌∷◌, ◌++◌, string_bytes};

use byte_io::{ByteIn, CutIn, CutOut, Failed, Files, Missing, Opener};
use std::process::Abort;

/// An ask: a file, standard input, or a new file.
#[derive(Drop)]
enum Asked {
    File(String),
    Input,
    Made(String),
}

/// Files of nothing, which keep their asks.
#[derive(Drop)]
struct NoFiles<'a, R> {
    rt: &'a R,
    asks: Vec<Asked>,
}

impl<R: Abort + AllocGlobal> NoFiles<'_, R> {
    fn note(&mut self, ask: Asked)
        ensures { self.new.asks.items ≡ self.old.asks.items ++ ask ∷ [] }
    {
        self.asks.push(ask).expect(self.rt, "there is memory");
    }

    fn text_of(&self, name: &str) -> String
        ensures { string_bytes result ≡ name.now }
    {
        String::from_str(self.rt.alloc(), name).expect(self.rt, "there is memory")
    }
}

impl<R: Abort + AllocGlobal> Opener for NoFiles<'_, R> {
    type Input = CutIn<'static>;

    ghost use Rattle.std.specs.Prelude.{[], Some, map, string_bytes};
    ghost use Rattle.byte_io.specs.Sources.{Created, Named, Standard};
    ghost use Rattle.base_tests.specs.declared.keeping_asks.Asked.TheVariants.{File, Input, Made};

    ghost sources = { λ d. Some (record {
      named = [];
      standard = [];
      creatable = [];
      asks = map (λ a. elim a [ File s ↦ Named (string_bytes s) | Input ↦ Standard | Made s ↦ Created (string_bytes s) ]) d.asks.items;
    }) };

    fn open_named(&mut self, name: &str) -> Result<CutIn<'static>, Missing> {
        let name = self.text_of(name);
        self.note(Asked::File(name));
        Err(Missing)
    }

    fn standard_input(&mut self) -> CutIn<'static> {
        self.note(Asked::Input);
        CutIn::whole(&[])
    }
}

impl<R: Abort + AllocGlobal> Files for NoFiles<'_, R> {
    type Output = CutOut<'static>;

    fn create_named(&mut self, name: &str) -> Result<CutOut<'static>, Missing> {
        let name = self.text_of(name);
        self.note(Asked::Made(name));
        Err(Missing)
    }
}

/// Whether no file opens, what standard input gives, whether none is made, and how many asks are kept.
fn asked_for_each<R: Abort + AllocGlobal>(rt: &R) -> (bool, Result<usize, Failed>, bool, usize) {
    let mut files = NoFiles {
        rt,
        asks: Vec::new(rt.alloc()),
    };
    let is_missing = files.open_named("a").is_err();
    let given = files.standard_input().read_some(&mut [0; 4]);
    let is_refused = files.create_named("b").is_err();
    (is_missing, given, is_refused, files.asks.len())
}

#[test]
fn keeps_what_it_is_asked_for(rt: HostRuntime) {
    assert_eq!(rt; asked_for_each(&rt), (true, Ok(0), true, 3));
}
