//! The message on words that ask for nothing.
ghost use Rattle.byte_io.specs.Transfers.{Says, SaysOrFails};
ghost use Rattle.program_words.specs.Words.{message_on};

use crate::fault::Fault;
use byte_io::{ByteOut, say_text};

/// Writes the message on a fault, by a program that says this where memory runs out. It takes no memory. A write that
/// failed is not tried again; a prefix of the message may be written then.
pub fn say_fault<E: ByteOut>(fault: &Fault, out_of_memory: &str, err: &mut E)
    ensures said { Says (E.has_failed err.new) (E.written err.old) (E.written err.new) (message_on out_of_memory.now fault.now) }
    ensures exact { SaysOrFails (E.has_failed err.old) (E.has_failed err.new)
        (E.written err.old) (E.written err.new) (message_on out_of_memory.now fault.now) }
{
    match fault {
        Fault::Usage { text } => say_text(text.as_str(), err),
        Fault::OutOfMemory => say_text(out_of_memory, err),
    }
}
