//! Numbers in columns.
ghost use Rattle.std.specs.Prelude.{◌≡◌, ◌++◌, OnOk, decimal};
ghost use Rattle.plan_view.specs.Columns.{columns, right};

use itoa::Buffer;
use std::alloc::AllocError;

/// Appends numbers in their columns.
pub fn push_columns(numbers: &[(usize, u64)], text: &mut Vec<u8>) -> Result<(), AllocError>
    ensures { OnOk result (text.new.items ≡ text.old.items ++ columns numbers.now) }
{
    for (width, number) in numbers {
        push_number(*width, *number, text)?;
    }
    Ok(())
}

/// Appends a number at the right of a column.
fn push_number(width: usize, number: u64, text: &mut Vec<u8>) -> Result<(), AllocError>
    ensures { OnOk result (text.new.items ≡ text.old.items ++ right width (decimal number)) }
{
    let mut digits = Buffer::new();
    push_right(width, digits.format(number).as_bytes(), text)
}

/// Appends a text at the right of a column.
fn push_right(width: usize, shown: &[u8], text: &mut Vec<u8>) -> Result<(), AllocError>
    ensures { OnOk result (text.new.items ≡ text.old.items ++ right width shown.now) }
{
    for _ in shown.len()..width {
        text.push(b' ')?;
    }
    text.extend_from_slice(shown)?;
    Ok(())
}
