//! The text of a C file in; how many functions with a body its certificate's program has out, or the first part of its verification that fails.
//! Read `specs/Verified.antt` first, then `specs/Refusals.antt`, `specs/Outcomes.antt` and `specs/Laws.antt`.
//! Used by: the command `verify`.
#![tactic(auto)]

ghost use Rattle.std.specs.Prelude.{ℕ, List, ◌<◌, ◌-◌, ◌^◌, length};
ghost use Rattle.vlt_core.specs.Core.{Program};
ghost use Rattle.cert_format.specs.Notes.{Note};
ghost use Rattle.cert_verify.specs.Verified.{IsVerifiedFile};
ghost use Rattle.cert_verify.specs.Refusals.{Refusal, IsRefusal};
ghost use Rattle.cert_verify.specs.Outcomes.{IsAnswer, Refuses, Counts};

mod error;
mod file;
mod laws;
mod parts;

pub use error::VerifyError;
pub use laws::{texts_verify_in_one_way, texts_verify_in_some_way};
use parts::verify_parts;
use std::alloc::Global;

/// Verifies a C file: whether its C text is the lowering of the program that its certificate says, and that program keeps
/// the rules on names and types, and the notes hold in each of its bodies. Gives how many functions with a body that program
/// has, or the first part that fails: the C text, the certificate, the rules on names and types, the notes, the lowering.
///
/// `Memory` where memory is refused, and where 64 bits can't number the slots of a function, the cells of a struct or the
/// statements in the lowering.
pub fn verify(alloc: Global, text: &[u8]) -> Result<u32, VerifyError>
    requires { length text.now < 2 ^ 32 - 1 }
    ensures answer { IsAnswer text.now result }
    ensures refused { (r : Refusal) → IsRefusal text.now r → Refuses result r }
    ensures verified { (p : Program) (all : List (List Note)) → IsVerifiedFile text.now p all
        → Counts result p }
{
    texts_verify_in_one_way();
    verify_parts(alloc, text)
}
