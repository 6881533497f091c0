//! Numbers in texts that are written.
ghost use Rattle.std.specs.Prelude.{◌≡◌, ◌++◌, ◌∷◌, [], OnOk, decimal};

use itoa::Buffer;
use std::alloc::AllocError;

/// Appends a number in decimal digits, and the byte that ends it.
pub fn push_number(number: u64, end: u8, text: &mut Vec<u8>) -> Result<(), AllocError>
    ensures { OnOk result (text.new.items ≡ text.old.items ++ (decimal number ++ end ∷ [])) }
{
    let mut digits = Buffer::new();
    text.extend_from_slice(digits.format(number).as_bytes())?;
    text.push(end)?;
    Ok(())
}
