// A number behind its name.
ghost use Rattle.std.specs.Prelude.{◌≡◌, ◌++◌, ◌∷◌, decimal, OnOk};

use pyr_decimal::put_number;
use std::alloc::AllocError;

/// Appends a name, a space and the decimal of a number.
pub(crate) fn put_figure(text: &mut Vec<u8>, name: &[u8], number: u64) -> Result<(), AllocError>
    ensures { OnOk result (text.new.items ≡ text.old.items ++ name.now ++ 32 ∷ decimal number) }
{
    text.extend_from_slice(name)?;
    put_number(text, number)
}
