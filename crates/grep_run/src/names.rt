//! What grep calls its input.
ghost use Rattle.std.specs.Prelude.{◌≡◌};
ghost use Rattle.byte_io.specs.Sources.{ask_of};
ghost use Rattle.grep_run.specs.Sources.{name_of};

/// What standard input is called in messages and prefixes.
const STANDARD_NAME: &str = "(standard input)";

/// What messages and prefixes call the operand.
pub fn shown_name(operand: &str) -> &str
    ensures { result.now ≡ name_of (ask_of operand.now) }
{
    if operand == "-" {
        STANDARD_NAME
    } else {
        operand
    }
}
