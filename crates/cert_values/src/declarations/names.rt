//! Names, and why there is no text of a program.

ghost use Rattle.std.specs.Prelude.{◌≡◌, map, OnOk};
ghost use Rattle.std.specs.Str.{IsUtf8};
ghost use Rattle.serde_json.specs.Data.{string};
ghost use Rattle.cert_rows.specs.Parts.{list, All};
ghost use Rattle.cert_values.specs.Laid.{laid};
ghost use Rattle.cert_values.specs.declared.declarations.names.Unwritten.TheVariants.{Memory};
ghost use Rattle.cert_values.specs.Declarations.Names.{IsNamed};

use crate::CertText;
use std::alloc::{AllocError, AllocFailed};
use thiserror::Error;
use vlt_base::Items;

/// Why there is no text of a program.
#[derive(Clone, Copy, Debug, PartialEq, Eq, Error)]
pub enum Unwritten {
    #[error("there was no memory for the text")]
    Memory,
    /// A name isn't UTF-8, so no text has it.
    #[error("a name isn't UTF-8")]
    Name,
}

impl From<AllocError> for Unwritten {
    ghost from_gives = { λ _ e. e ≡ Memory };

    fn from(_: AllocError) -> Unwritten {
        Unwritten::Memory
    }
}

impl<T: Drop> From<AllocFailed<T>> for Unwritten {
    ghost from_gives = { λ _ e. e ≡ Memory };

    fn from(_: AllocFailed<T>) -> Unwritten {
        Unwritten::Memory
    }
}

/// Writes a name, as a string.
pub fn put_name(out: &mut CertText, name: &[u8]) -> Result<(), Unwritten>
    ensures value { OnOk result (out.new ≡ laid (string name.now) out.old) }
    ensures named { IsUtf8 name.now → IsNamed result }
{
    match str::from_utf8(name) {
        Ok(text) => {
            out.string(text)?;
            Ok(())
        }
        Err(_) => Err(Unwritten::Name),
    }
}

/// Writes names, one after another.
pub fn put_names(out: &mut CertText, names: &[Items<u8>]) -> Result<(), Unwritten>
    ensures value { OnOk result (out.new
        ≡ laid (list (map string (map (λ n. n) names.now))) out.old) }
    ensures named { All IsUtf8 (map (λ n. n) names.now) → IsNamed result }
{
    out.begin()?;
    for name in names {
        put_name(out, name.as_slice())?;
    }
    out.end()?;
    Ok(())
}
