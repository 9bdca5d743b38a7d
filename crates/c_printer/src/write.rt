//! Names and numbers.

ghost use Rattle.std.specs.Prelude.{◌≡◌, ◌++◌, [], ◌∷◌, OnOk};
ghost use Rattle.std.specs.Fmt.{decimal, signed_decimal};
ghost use Rattle.c_syntax.specs.Tokens.{name_letter, variable_letter};

use c_syntax::{CName, CVar};
use itoa::Buffer;
use vlt_base::Memory;

/// Writes a text.
pub fn write_text(out: &mut Vec<u8>, text: &[u8]) -> Result<(), Memory>
    ensures { OnOk result (out.new.items ≡ out.old.items ++ text.now) }
{
    out.extend_from_slice(text)?;
    Ok(())
}

/// Writes one byte.
pub fn write_byte(out: &mut Vec<u8>, byte: u8) -> Result<(), Memory>
    ensures { OnOk result (out.new.items ≡ out.old.items ++ byte ∷ []) }
{
    out.push(byte)?;
    Ok(())
}

/// Writes a number of a name or a cell. Most have one digit, which wants no buffer.
pub fn write_number(out: &mut Vec<u8>, number: u64) -> Result<(), Memory>
    ensures { OnOk result (out.new.items ≡ out.old.items ++ decimal number) }
{
    if number < 10 {
        return write_byte(out, b'0' + number as u8);
    }
    let mut digits = Buffer::new();
    write_text(out, digits.format(number).as_bytes())
}

/// Writes a number of an expression.
pub fn write_value(out: &mut Vec<u8>, value: i64) -> Result<(), Memory>
    ensures { OnOk result (out.new.items ≡ out.old.items ++ signed_decimal value) }
{
    if let Ok(number) = u64::try_from(value) {
        return write_number(out, number);
    }
    let mut digits = Buffer::new();
    write_text(out, digits.format(value).as_bytes())
}

/// Writes the name of a variable.
pub fn write_variable(out: &mut Vec<u8>, variable: CVar) -> Result<(), Memory>
    ensures { OnOk result (out.new.items ≡ out.old.items ++ variable_letter variable ∷ decimal
        variable.number) }
{
    write_byte(out, if variable.reference { b'p' } else { b'n' })?;
    write_number(out, variable.number)
}

/// Writes the name of a function.
pub fn write_name(out: &mut Vec<u8>, name: CName) -> Result<(), Memory>
    ensures { OnOk result (out.new.items ≡ out.old.items ++ name_letter name ∷ decimal
        name.number) }
{
    write_byte(out, if name.glue { b'e' } else { b'f' })?;
    write_number(out, name.number)
}
