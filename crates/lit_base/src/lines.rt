//! The lines of a text.
ghost use Rattle.std.specs.Prelude.{◌≡◌, ◌≢◌, ◌==◌, ◌<◌, [], ◌∷◌, length, IfSome};
ghost use Rattle.std.specs.List.{position};
ghost use Rattle.std.specs.Iterator.{YieldsFirstRef, item_count};
ghost use Rattle.lit_base.specs.Lines.{lines, EndedLaw, LinesLaw};
ghost use Rattle.lit_base.specs.LinesLeft.{lines_left};
ghost use Rattle.lit_base.specs.Selected.{MatchingLaw};

/// The lines of a text, in order, without their newlines. A contract sees the remaining lines.
#[derive(Clone, Copy)]
pub struct Lines<'a> {
    rest: &'a [u8],
}

impl<'a> Lines<'a> {
    /// The lines of the text. A last line without newline is one if it is not empty.
    pub fn new(text: &'a [u8]) -> Lines<'a>
        ensures { lines_left result ≡ lines text.now }
    {
        Lines { rest: text }
    }
}

impl<'a> Iterator for Lines<'a> {
    type Item = &'a [u8];

    ghost next_gives = { YieldsFirstRef lines_left };

    ghost remaining = { item_count lines_left };

    fn next(&mut self) -> Option<&'a [u8]> {
        if self.rest.is_empty() {
            return None;
        }
        let (line, rest) = first_line(self.rest);
        self.rest = rest;
        Some(line)
    }
}

/// The first line of a nonempty text, and what stands after its newline.
fn first_line(text: &[u8]) -> (&[u8], &[u8])
    requires { text.now ≢ [] }
    ensures { lines text.now ≡ result.0.now ∷ lines result.1.now }
{
    match newline(text) {
        Some(at) => (&text[..at], &text[at + 1..]),
        None => text.split_at(text.len()),
    }
}

/// Where the first newline stands, if there is one.
fn newline(text: &[u8]) -> Option<usize>
    ensures value { result ≡ position (λ b. b == 10) text.now }
    ensures inside { IfSome result (λ at. at < length text.now) }
{
    text.iter().position(|byte| *byte == b'\n')
}

/// What the tests for a match mean: a pattern occurs where some slice of the line equals it, both
/// folded; a line matches where one of the patterns does.
pub fn matching_law()
    ensures { MatchingLaw }
{}

/// The law of the pieces and the lines of a text: newlines stand between pieces, and a null piece at the end is no
/// line.
pub fn lines_law()
    ensures { LinesLaw }
{}

/// How the lines that newlines ended, and the open rest after the last newline, grow with a text.
pub fn ended_law()
    ensures { EndedLaw }
{}
