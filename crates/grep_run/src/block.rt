//! The block of one input: the text for its selected lines.
ghost use Rattle.std.specs.Prelude.{◌≡◌, ◌++◌, ◌||◌, [], OnErr, OnOk, codes, decimal};
ghost use Rattle.grep_run.specs.Blocks.{prefix_of, written_line};
ghost use Rattle.grep_run.specs.Writers.{Writes, WritesPrefix, is_write_fault, writer};

use crate::message::write_whole;
use crate::options::GrepOptions;
use crate::status::Stop;
use byte_io::{ByteOut, push_number};
use line_pick::{Fault, Next, Sink};
use std::alloc::{AllocError, Global};

/// The block of one input after another, as its selected lines come.
#[derive(Drop)]
pub struct Block<'a> {
    pub options: &'a GrepOptions,
    /// What prefixes call the input.
    pub name: &'a str,
    /// How many lines were selected so far, at most 2^64 - 1.
    pub count: u64,
    /// The text that is not written yet.
    pub text: Vec<u8>,
}

impl<'a> Block<'a> {
    ghost use Rattle.grep_run.specs.Growing.{IsSameBlock, ending_of};

    /// A block before any input. It takes no memory.
    pub fn new(alloc: Global, options: &'a GrepOptions) -> Block<'a> {
        Block {
            options,
            name: "",
            count: 0,
            text: Vec::new(alloc),
        }
    }

    /// Begins the block of the next input, which has this name. It holds nothing.
    pub fn begin(&mut self, options: &'a GrepOptions, name: &'a str)
        ensures options { self.new.options.now ≡ options.now }
        ensures name { self.new.name.now ≡ name.now }
        ensures count { self.new.count ≡ 0 }
        ensures text { self.new.text.items ≡ [] }
    {
        self.options = options;
        self.name = name;
        self.count = 0;
        self.text.clear();
    }

    /// Writes the text that it holds, and then holds nothing. The only error is `WriteFault`; a prefix of the text may
    /// be written then.
    pub fn write<W: ByteOut>(&mut self, out: &mut W) -> Result<(), Stop>
        ensures ok { OnOk result (Writes (writer W.written W.has_failed out.old) (writer W.written W.has_failed out.new) self.old.text.items) }
        ensures empty { OnOk result (self.new.text.items ≡ []) }
        ensures err { OnErr result (WritesPrefix (writer W.written W.has_failed out.old) (writer W.written W.has_failed out.new) self.old.text.items) }
        ensures fault { OnErr result (result ≡ Err Stop.WriteFault) }
        ensures same { IsSameBlock self.old self.new }
        ensures flag { W.has_failed out.new ≡ (W.has_failed out.old || is_write_fault result) }
    {
        write_whole(self.text.as_slice(), out)?;
        self.text.clear();
        Ok(())
    }

    /// Writes the text that it holds, and the text after the last line. After an error a prefix of both may be written.
    pub fn finish<W: ByteOut>(&mut self, out: &mut W) -> Result<(), Stop>
        ensures ok { OnOk result (Writes (writer W.written W.has_failed out.old) (writer W.written W.has_failed out.new)
            (self.old.text.items ++ ending_of self.old.options.now self.old.name.now self.old.count)) }
        ensures err { OnErr result (WritesPrefix (writer W.written W.has_failed out.old) (writer W.written W.has_failed out.new)
            (self.old.text.items ++ ending_of self.old.options.now self.old.name.now self.old.count)) }
        ensures count { OnOk result (self.new.count ≡ self.old.count) }
        ensures flag { W.has_failed out.new ≡ (W.has_failed out.old || is_write_fault result) }
    {
        self.end()?;
        self.write(out)
    }

    /// Appends what stands after the last line: under -l the name if a line was selected, under -c their number.
    fn end(&mut self) -> Result<(), AllocError>
        ensures text { OnOk result (self.new.text.items
            ≡ self.old.text.items ++ ending_of self.old.options.now self.old.name.now self.old.count) }
        ensures same { IsSameBlock self.old self.new }
    {
        if self.options.quiet {
            return Ok(());
        }
        if self.options.list {
            if self.count > 0 {
                push_name(self.name, &mut self.text)?;
            }
            return Ok(());
        }
        if self.options.count {
            push_count(self.options, self.name, self.count, &mut self.text)?;
        }
        Ok(())
    }
}

impl<'a> Sink for Block<'a> {
    ghost use Rattle.grep_run.specs.Growing.{TakesLine};

    ghost takes = { TakesLine };

    fn line(&mut self, number: u64, bytes: &[u8]) -> Result<Next, Fault> {
        self.count = self.count.saturating_add(1);
        if self.options.quiet || self.options.list {
            return Ok(Next::Stop);
        }
        if !self.options.count {
            push_line(self.options, self.name, number, bytes, &mut self.text)?;
        }
        Ok(Next::More)
    }
}

/// Appends a line as it is shown. It is not inlined, so that a line that is only counted stays cheap.
#[inline(never)]
fn push_line(
    options: &GrepOptions,
    name: &str,
    number: u64,
    line: &[u8],
    text: &mut Vec<u8>,
) -> Result<(), AllocError>
    ensures { OnOk result (text.new.items ≡ text.old.items ++ written_line options.now name.now (number, line.now)) }
{
    push_prefix(options, name, text)?;
    if options.number {
        push_number(number, b':', text)?;
    }
    text.extend_from_slice(line)?;
    text.push(b'\n')?;
    Ok(())
}

/// Appends the prefix and the number of lines, as a line.
fn push_count(
    options: &GrepOptions,
    name: &str,
    count: u64,
    text: &mut Vec<u8>,
) -> Result<(), AllocError>
    ensures { OnOk result (text.new.items ≡ text.old.items ++ (prefix_of options.now name.now ++ (decimal count ++ codes "\n"))) }
{
    push_prefix(options, name, text)?;
    push_number(count, b'\n', text)
}

/// Appends the name, as a line.
fn push_name(name: &str, text: &mut Vec<u8>) -> Result<(), AllocError>
    ensures { OnOk result (text.new.items ≡ text.old.items ++ (name.now ++ codes "\n")) }
{
    text.extend_from_slice(name.as_bytes())?;
    text.push(b'\n')?;
    Ok(())
}

/// Appends the prefix: the name and a colon, if there is more than one operand.
fn push_prefix(options: &GrepOptions, name: &str, text: &mut Vec<u8>) -> Result<(), AllocError>
    ensures { OnOk result (text.new.items ≡ text.old.items ++ prefix_of options.now name.now) }
{
    if options.operands.len() > 1 {
        text.extend_from_slice(name.as_bytes())?;
        text.push(b':')?;
    }
    Ok(())
}
