//! The name of a rule, as it is printed.

ghost use Rattle.std.specs.Prelude.{◌≡◌, ◌++◌, OnOk, map};
ghost use Rattle.door_check.specs.Lines.{is_control, shown};

use std::alloc::AllocError;

/// What is printed for a control character.
const UNSHOWN: u8 = b'?';

/// Adds a name to a text, with a question mark for each control character of ASCII: a name may have
/// any characters, and a line of the report is one line. At an `Err` a beginning was added.
pub(crate) fn push_name(text: &mut Vec<u8>, name: &str) -> Result<(), AllocError>
    ensures { OnOk result (text.new.items ≡ text.old.items ++ map shown name.now) }
{
    for byte in name.as_bytes() {
        text.push(shown(*byte))?;
    }
    Ok(())
}

/// What is printed for a byte of a name.
fn shown(byte: u8) -> u8
    ensures { result ≡ shown byte }
{
    if is_control(byte) { UNSHOWN } else { byte }
}

/// Whether a byte is a control character of ASCII.
fn is_control(byte: u8) -> bool
    ensures { result ≡ is_control byte }
{
    byte < 0x20 || byte == 0x7f
}
