//! From the words of the command line to the options of a run.
use crate::marked_words::{any_is_marked, is_marked, marked_words, take_marks};
use crate::words::options;
use grep_run::GrepOptions;
use program_words::{Fault, words};
use std::rt::Env;

/// The options of a run, and the operands that name no file.
#[derive(Drop)]
pub struct Request {
    pub options: GrepOptions,
    /// The operands that are not UTF-8, escaped as they stand among the operands.
    pub unnamed: Vec<String>,
}

/// What the words of the command line ask for.
///
/// # Errors
/// - `Usage` where they are no words of litgrep's, and where a word is not UTF-8 that is no file to search.
/// - `OutOfMemory` where a growth was refused.
pub fn read_request<R: Env + AllocGlobal>(rt: &R) -> Result<Request, Fault> {
    match words(rt, "litgrep") {
        Ok(words) => Ok(Request {
            options: options(rt.alloc(), words.as_slice())?,
            unnamed: Vec::new(rt.alloc()),
        }),
        Err(Fault::OutOfMemory) => Err(Fault::OutOfMemory),
        Err(unread) => read_bytes(rt, unread),
    }
}

/// What the words ask for if some word is not UTF-8. The fault is `unread` if such a word is no file to search.
fn read_bytes<R: Env + AllocGlobal>(rt: &R, unread: Fault) -> Result<Request, Fault> {
    let Some(words) = marked_words(rt)? else {
        return Err(unread);
    };
    let mut options = match options(rt.alloc(), words.as_slice()) {
        Ok(options) => options,
        Err(Fault::Usage { text }) if is_marked(text.as_str()) => return Err(unread),
        Err(fault) => return Err(fault),
    };
    if any_is_marked(options.lists.as_slice()) || any_is_marked(options.files.as_slice()) {
        return Err(unread);
    }
    let unnamed = take_marks(rt.alloc(), &mut options.operands)?;
    Ok(Request { options, unnamed })
}
