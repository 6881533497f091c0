//! Certificates written to a device.
ghost use Rattle.std.specs.Prelude.{◌≡◌, ◌≢◌, ◌+◌, ◌^◌, ◌<◌, ◌++◌, All, string_bytes, IsTrue, IfOk, IfErr, OnOk, OnErr};
ghost use Rattle.std.specs.Io.KnownBytes.{Appends};
ghost use Rattle.byte_io.specs.Transfers.{AppendsPart};
ghost use Rattle.lit_cert.specs.Faults.{IsWritersFault};
ghost use Rattle.lit_cert.specs.Spelling.{HasText, IsShaped, ends_words, line_text, row_words, spelling, version_of};
ghost use Rattle.lit_base.specs.Profiles.{buckets};

use crate::certificate::Certificate;
use crate::fault::Fault;
use byte_io::{ByteOut, Failed, write_all};
use lit_base::{Ends, Profile, buckets};
use std::alloc::{AllocError, Global};
use std::fmt::Write;

/// Appends the line of ends.
#[tactic(auto, using(crate::proofs::Words::writes_number))]
fn push_ends(text: &mut String, ends: &Ends) -> Result<(), AllocError>
    ensures { OnOk result (string_bytes text.new
        ≡ string_bytes text.old ++ line_text (ends_words ends.now.items)) }
{
    text.push_str("ends")?;
    for end in ends.as_slice() {
        write!(text, " {end}")?;
    }
    text.push_str("\n")
}

/// Appends the line of a row of potentials, with its number from 1.
#[tactic(auto, using(crate::proofs::Words::writes_number))]
fn push_row(text: &mut String, number: usize, row: &[u64]) -> Result<(), AllocError>
    ensures { OnOk result (string_bytes text.new
        ≡ string_bytes text.old ++ line_text (row_words number row.now)) }
{
    write!(text, "{number}")?;
    for potential in row {
        write!(text, " {potential}")?;
    }
    text.push_str("\n")
}

/// The version of the text.
fn version_of(profile: Profile) -> u32
    ensures { result ≡ version_of (buckets profile) }
{
    match profile {
        Profile::Eight => 1,
        Profile::Sixteen => 2,
    }
}

/// The whole text.
fn text_of(alloc: Global, certificate: &Certificate) -> Result<String, AllocError>
    requires { IsShaped certificate.now }
    ensures { IfOk result (λ text. string_bytes text ≡ spelling certificate.now) }
{
    let most = buckets(certificate.profile);
    let n = certificate.potentials.len() / most;
    let version = version_of(certificate.profile);
    let cost = certificate.cost;
    let mut text = String::new(alloc);
    write!(text, "litcert {version}\nliterals {n}\n")?;
    push_ends(&mut text, &certificate.ends)?;
    write!(text, "cost {cost}\n")?;
    for r in 0..most {
        let row = &certificate.potentials[r * n..(r + 1) * n];
        push_row(&mut text, r + 1, row)?;
    }
    text.push_str("end\n")?;
    Ok(text)
}

/// A certificate of this shape has a text: its numbers fit their fields.
fn text_law(certificate: &Certificate)
    requires { IsShaped certificate.now }
    ensures { HasText certificate.now }
{
    let ends = certificate.ends.as_slice();
    numbers_law(ends, certificate.cost, &certificate.potentials);
}

/// Machine numbers fit the fields of a text.
fn numbers_law(ends: &[u16], cost: u64, potentials: &[u64])
    ensures ends { All (λ e. e < 2 ^ 16) ends.now }
    ensures cost { cost < 2 ^ 64 }
    ensures potentials { All (λ h. h < 2 ^ 64) potentials.now }
{}

/// Writes the text of a certificate. `read_cert` reads it as the same certificate, unless memory runs out.
///
/// # Errors
/// - `WriteFault`, where a write failed or took nothing.
/// - `OutOfMemory`, where a growth was refused.
///
/// After `WriteFault` a prefix of the text was written, and after `OutOfMemory` nothing.
pub fn write_cert<W: ByteOut>(
    alloc: Global,
    certificate: &Certificate,
    out: &mut W,
) -> Result<(), Fault>
    requires shape { IsShaped certificate.now }
    ensures ok { OnOk result
        (Appends (W.written out.old) (W.written out.new) (spelling certificate.now)) }
    ensures err { OnErr result
        (AppendsPart (W.written out.old) (W.written out.new) (spelling certificate.now)) }
    // `read_cert` reads the bytes that are written.
    ensures text { OnOk result (HasText certificate.now) }
    ensures same { result ≡ Err Fault.OutOfMemory → out.new ≡ out.old }

    // `WriteFault` is returned only if a write failed.
    ensures fault { result ≡ Err Fault.WriteFault → IsTrue (W.has_failed out.new) }
    ensures flag { result ≢ Err Fault.WriteFault → W.has_failed out.new ≡ W.has_failed out.old }
    ensures faults { IfErr result IsWritersFault }
{
    let text = text_of(alloc, certificate)?;
    match write_all(out, text.as_bytes()) {
        Ok(()) => {
            text_law(certificate);
            Ok(())
        }
        Err(Failed) => Err(Fault::WriteFault),
    }
}
