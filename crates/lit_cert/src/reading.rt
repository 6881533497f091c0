//! Certificates read from a device.
ghost use Rattle.std.specs.Prelude.{◌≡◌, ◌≢◌, ℕ, List, ◌+◌, ◌++◌, ◌^◌, ◌<◌, ◌≤◌, length, IsTrue, IfOk, IfErr, IfSome, OnOk};
ghost use Rattle.byte_io.specs.Devices.{Clean, EndsHere, Faulty, IfKnown};
ghost use Rattle.lit_cert.specs.Certificates.{CertificateParts};
ghost use Rattle.lit_cert.specs.Faults.{IsReadersFault};
ghost use Rattle.lit_cert.specs.Spelling.{HasText, spelling};
ghost use Rattle.lit_cert.specs.Reading.{IsFirstBad};

use crate::certificate::Certificate;
use crate::fault::Fault;
use crate::parsing::certificate_of;
use byte_io::{ByteIn, ReadError, read_to_end};
use std::alloc::Global;

/// No certificate's text has more bytes: the longest, for 4,096 literals, has fewer than 1,380,000.
const LONGEST_TEXT: usize = 1 << 21;

/// Reads a certificate's text to its end.
///
/// # Errors
/// - `ReadFault`, where a read failed.
/// - `BadCertText` with the first line that is not of its form or not ended by a newline. A missing
///   line has the number that it would have, and what follows the last one is the next line.
/// - `OutOfMemory`, where a growth was refused.
///
/// After each of them an unknown part of the reader was read.
pub fn read_cert<R: ByteIn>(alloc: Global, input: &mut R) -> Result<Certificate, Fault>
    // A certificate that is read is spelled by the whole text.
    ensures found { IfKnown (R.coming input.old) (R.coming input.new) (λ old new.
        IfOk result (λ c. HasText c × (old.text ≡ spelling c) × EndsHere new)) }
    ensures ending { IfSome (R.coming input.old) (λ old. OnOk result (old.ending ≢ Faulty)) }
    // The certificate that the text spells is read, unless memory runs out.
    ensures only { IfSome (R.coming input.old) (λ old.
        old.ending ≡ Clean → (c : CertificateParts) → HasText c → old.text ≡ spelling c →
        result ≢ Err Fault.OutOfMemory → result ≡ Ok c) }

    // The line of `BadCertText` is the first that is wrong, and no other line is named.
    ensures bad_line { IfSome (R.coming input.old) (λ old.
        (line : ℕ) → result ≡ Err (Fault.BadCertText line) → IsFirstBad old.text line) }
    // Where a read fails after the bytes, that line is the first bad one whatever bytes would have followed.
    ensures shown { IfSome (R.coming input.old) (λ old.
        old.ending ≡ Faulty → (line : ℕ) → result ≡ Err (Fault.BadCertText line) →
        (more : List ℕ) → IsFirstBad (old.text ++ more) line) }
    ensures exact { IfSome (R.coming input.old) (λ old.
        old.ending ≡ Clean → length old.text < 2 ^ 40 →
        (line : ℕ) → IsFirstBad old.text line →
        result ≢ Err Fault.OutOfMemory → result ≡ Err (Fault.BadCertText line)) }

    // `ReadFault` is returned only if a read failed, and never where the end comes cleanly.
    ensures clean { IfSome (R.coming input.old) (λ old.
        old.ending ≡ Clean → length old.text < 2 ^ 40 → result ≢ Err Fault.ReadFault) }
    ensures fault { result ≡ Err Fault.ReadFault → IsTrue (R.has_failed input.new) }
    ensures flag { result ≢ Err Fault.ReadFault → R.has_failed input.new ≡ R.has_failed input.old }
    ensures faults { IfErr result IsReadersFault }
    ensures bounded { R.given input.new ≤ R.given input.old + 2 ^ 21 + 1 }
{
    read_longest(alloc, input)
}

/// Reads at most the longest text of a certificate. Each clause says what an answer means, and none which answer comes.
fn read_longest<R: ByteIn>(alloc: Global, input: &mut R) -> Result<Certificate, Fault>
    ensures found { IfKnown (R.coming input.old) (R.coming input.new) (λ old new.
        IfOk result (λ c. HasText c × (old.text ≡ spelling c) × EndsHere new)) }
    ensures ending { IfSome (R.coming input.old) (λ old. OnOk result (old.ending ≢ Faulty)) }
    ensures bad_line { IfSome (R.coming input.old) (λ old.
        (line : ℕ) → result ≡ Err (Fault.BadCertText line) → IsFirstBad old.text line) }
    ensures shown { IfSome (R.coming input.old) (λ old.
        old.ending ≡ Faulty → (line : ℕ) → result ≡ Err (Fault.BadCertText line) →
        (more : List ℕ) → IsFirstBad (old.text ++ more) line) }
    ensures fault { result ≡ Err Fault.ReadFault → IsTrue (R.has_failed input.new) }
    ensures clean { IfSome (R.coming input.old) (λ old.
        old.ending ≡ Clean → length old.text < 2 ^ 40 → result ≢ Err Fault.ReadFault) }
    ensures flag { result ≢ Err Fault.ReadFault → R.has_failed input.new ≡ R.has_failed input.old }
    ensures faults { IfErr result IsReadersFault }
    ensures bounded { R.given input.new ≤ R.given input.old + 2 ^ 21 + 1 }
{
    let mut text = Vec::new(alloc);
    match read_to_end(input, LONGEST_TEXT, &mut text) {
        Ok(()) => certificate_of(alloc, &text),
        // A text that is too long has a first bad line in the bytes that were read.
        Err(ReadError::TooLong) => certificate_of(alloc, &text),
        Err(ReadError::Failed) => Err(Fault::ReadFault),
        Err(ReadError::OutOfMemory) => Err(Fault::OutOfMemory),
    }
}
