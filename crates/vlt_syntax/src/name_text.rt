//! The bytes of a name.

ghost use Rattle.std.specs.Prelude.{◌≡◌, IfOk};

use std::alloc::{AllocError, Global};
use std::marker::Model;
use vlt_base::{Boxed, Items};

/// How many bytes a name may have that takes no allocation.
const ROOM: usize = 22;

#[derive(Drop)]
enum Kept {
    /// Bytes that stand here, and how many they are.
    Short([u8; 22], u8),
    Long(Boxed<Items<u8>>),
}

/// The bytes of a name, which contracts see as their list. Up to 22 stand in the tree itself, and more in an allocation.
pub struct NameText {
    kept: Kept,
}

impl Drop for NameText {
    fn drop(self) {
        let NameText { kept } = self;
        drop(kept);
    }
}

impl Model for NameText {
    ghost use Rattle.std.specs.Prelude.{List, ℕ};
    ghost use Rattle.vlt_syntax.specs.Kept.{bytes_in, IsSound};

    ghost Value = { List ℕ };

    ghost view = { λ t. bytes_in t.kept };

    ghost invariant = { λ t. IsSound t.kept };
}

impl NameText {
    pub fn from_slice(alloc: Global, bytes: &[u8]) -> Result<NameText, AllocError>
        ensures { IfOk result (λ t. t ≡ bytes.now) }
    {
        let len = bytes.len();
        if len <= ROOM {
            let mut short = [0; 22];
            short[..len].copy_from_slice(bytes);
            return Ok(NameText {
                kept: Kept::Short(short, len as u8),
            });
        }
        let long = Boxed::new(alloc, Items::from_slice(alloc, bytes)?)?;
        Ok(NameText {
            kept: Kept::Long(long),
        })
    }

    pub fn as_slice(&self) -> &[u8]
        ensures { result.now ≡ self.now }
    {
        match &self.kept {
            Kept::Short(bytes, len) => &bytes[..*len as usize],
            Kept::Long(bytes) => bytes.get().as_slice(),
        }
    }
}
