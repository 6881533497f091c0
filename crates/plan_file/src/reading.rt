//! Plans read from a device.
ghost use Rattle.std.specs.Prelude.{◌≡◌, ◌≢◌, ℕ, ◌+◌, ◌++◌, ◌^◌, ◌<◌, ◌≤◌, List, length, IsTrue, IfOk, IfErr, IfSome, IsOkAnd, OnOk};
ghost use Rattle.byte_io.specs.Devices.{Clean, EndsHere, Faulty, IfKnown};
ghost use Rattle.lit_plan.specs.Plans.{Plan};
ghost use Rattle.plan_file.specs.declared.fault.Cause.{Cause};
ghost use Rattle.plan_file.specs.Faults.{IsReadersFault};
ghost use Rattle.plan_file.specs.FirstFaults.{IsFirstFault};
ghost use Rattle.plan_file.specs.Spelling.{IsFile};

use crate::decoding::decode;
use crate::fault::Fault;
use crate::limits::MAX_FILE_LEN;
use byte_io::{ByteIn, ReadError, read_to_end};
use lit_plan::Compiled;
use std::alloc::Global;

/// Reads a plan file of version 1 or 2 to its end.
///
/// # Errors
/// - `ReadFault`, where a read failed.
/// - `BadPlanFile` with the first cause in reading order, and the place of its field.
/// - `OutOfMemory`, where a growth was refused.
///
/// After each of them an unknown part of the reader was read.
pub fn read_plans<R: ByteIn>(alloc: Global, input: &mut R) -> Result<Vec<Compiled>, Fault>
    // A text that is read is a file of the plans returned, and nothing follows it.
    ensures found { IfKnown (R.coming input.old) (R.coming input.new) (λ old new.
        IfOk result (λ plans. IsFile old.text plans.items × EndsHere new)) }
    ensures ending { IfSome (R.coming input.old) (λ old. OnOk result (old.ending ≢ Faulty)) }
    ensures few { IfOk result (λ plans. length plans.items ≤ 64) }
    // A file of either version is read, unless memory runs out.
    ensures only { IfSome (R.coming input.old) (λ old.
        old.ending ≡ Clean → (plans : List Plan) → IsFile old.text plans → result ≢ Err Fault.OutOfMemory →
        IsOkAnd result (λ read. read.items ≡ plans)) }

    // The fault returned is the first one, and the first one is returned.
    ensures wrong { IfSome (R.coming input.old) (λ old.
        (place : ℕ) (cause : Cause) → result ≡ Err (Fault.BadPlanFile place cause) →
        IsFirstFault old.text place cause) }
    // If a read fails after the bytes, only a fault that no further bytes would change is reported, so never `Short`.
    ensures shown { IfSome (R.coming input.old) (λ old.
        old.ending ≡ Faulty → (place : ℕ) (cause : Cause) → result ≡ Err (Fault.BadPlanFile place cause) →
        (more : List ℕ) → IsFirstFault (old.text ++ more) place cause) }
    ensures exact { IfSome (R.coming input.old) (λ old.
        old.ending ≡ Clean → length old.text < 2 ^ 40 →
        (place : ℕ) (cause : Cause) → IsFirstFault old.text place cause →
        result ≢ Err Fault.OutOfMemory → result ≡ Err (Fault.BadPlanFile place cause)) }

    // `ReadFault` is returned only if a read failed. No more is read than the longest file has, and a byte.
    ensures clean { IfSome (R.coming input.old) (λ old.
        old.ending ≡ Clean → length old.text < 2 ^ 40 → result ≢ Err Fault.ReadFault) }
    ensures fault { result ≡ Err Fault.ReadFault → IsTrue (R.has_failed input.new) }
    ensures flag { result ≢ Err Fault.ReadFault → R.has_failed input.new ≡ R.has_failed input.old }
    ensures faults { IfErr result IsReadersFault }
    ensures bounded { R.given input.new ≤ R.given input.old + 101190409 }
{
    let mut text = Vec::new(alloc);
    match read_to_end(input, MAX_FILE_LEN, &mut text) {
        Ok(()) => decode(alloc, &text),
        // The first fault of a text that is too long is in the bytes that were read.
        Err(ReadError::TooLong) => decode(alloc, &text),
        Err(ReadError::Failed) => Err(Fault::ReadFault),
        Err(ReadError::OutOfMemory) => Err(Fault::OutOfMemory),
    }
}
