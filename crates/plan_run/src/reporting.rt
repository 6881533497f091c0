//! Writing an answer to standard output.
ghost use Rattle.std.specs.Prelude.{◌≡◌, ◌≢◌, ◌||◌, Err};
ghost use Rattle.lit_cert.specs.Spelling.{IsShaped, spelling};
ghost use Rattle.plan_run.specs.declared.stop.Stop.TheVariants.{OutOfMemory};
ghost use Rattle.plan_run.specs.Running.{Writes, is_write_fault};

use crate::status::Status;
use crate::stop::Stop;
use byte_io::{ByteOut, Failed, write_all};
use lit_cert::{Certificate, Fault, write_cert};
use std::alloc::Global;

/// Writes a text, and returns this status. The only error is `WriteFault`.
pub fn report<'a, W: ByteOut>(text: &str, status: Status, out: &mut W) -> Result<Status, Stop<'a>>
    ensures text { Writes text.now status result (W.written out.old) (W.written out.new) }
    ensures flag { W.has_failed out.new ≡ (W.has_failed out.old || is_write_fault result) }
{
    report_bytes(text.as_bytes(), status, out)
}

/// Writes bytes, and returns this status. The only error is `WriteFault`.
pub fn report_bytes<'a, W: ByteOut>(
    bytes: &[u8],
    status: Status,
    out: &mut W,
) -> Result<Status, Stop<'a>>
    ensures text { Writes bytes.now status result (W.written out.old) (W.written out.new) }
    ensures fed { result ≢ Err OutOfMemory }
    ensures flag { W.has_failed out.new ≡ (W.has_failed out.old || is_write_fault result) }
{
    match write_all(out, bytes) {
        Ok(()) => Ok(status),
        Err(Failed) => Err(Stop::WriteFault),
    }
}

/// Writes the text of a certificate. The errors are `WriteFault` and `OutOfMemory`.
pub fn report_certificate<'a, W: ByteOut>(
    alloc: Global,
    certificate: &Certificate,
    out: &mut W,
) -> Result<Status, Stop<'a>>
    requires shape { IsShaped certificate.now }
    ensures text { Writes (spelling certificate.now) Status.Done result (W.written out.old) (W.written out.new) }
    ensures flag { W.has_failed out.new ≡ (W.has_failed out.old || is_write_fault result) }
{
    match write_cert(alloc, certificate, out) {
        Ok(()) => Ok(Status::Done),
        Err(Fault::WriteFault) => Err(Stop::WriteFault),
        Err(Fault::OutOfMemory) => Err(Stop::OutOfMemory),
        Err(Fault::ReadFault) => unreachable!(),
        Err(Fault::BadCertText { .. }) => unreachable!(),
    }
}
