//! Copies of what the table of kinds declares: sets, types and heads go in, and the same in memory of their own comes out.
//! Read `declarations` first. Each clause says that the copy is what was copied.
//! Used by: elaboration.

ghost use Rattle.std.specs.Prelude.{◌≡◌, IfOk};

mod declarations;
mod heads;

pub use declarations::{copy_decls, copy_sets};
pub use heads::{copy_func, copy_keys, copy_vars, func_of_head};
use std::alloc::{AllocError, Global};
use vlt_base::Items;

fn copy_bytes(alloc: Global, bytes: &Items<u8>) -> Result<Items<u8>, AllocError>
    ensures { IfOk result (λ b. b ≡ bytes.now) }
{
    Items::from_slice(alloc, bytes.as_slice())
}
