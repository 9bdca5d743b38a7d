//! The function that a run begins with.

ghost use Rattle.std.specs.Prelude.{◌≡◌, map, Some, None, IfOk, position};
ghost use Rattle.vlt_core.specs.View.{func_of};
ghost use Rattle.vlt_elaboration.specs.Elaboration as e;

use std::alloc::AllocError;
use vlt_base::FnId;
use vlt_core::Func;

/// The name of the function that a run begins with.
const MAIN: &[u8] = b"main";

fn is_main(head: &Func) -> bool
    ensures { result ≡ e.is_main (func_of head.now) }
{
    head.name.as_slice() == MAIN && !head.external
}

fn find_main(heads: &[Func]) -> Option<usize>
    ensures { result ≡ position e.is_main (map func_of heads.now) }
{
    for (i, head) in heads.iter().enumerate() {
        if is_main(head) {
            return Some(i);
        }
    }
    None
}

/// The function that a run begins with; where there is none, the number past all functions.
pub fn main_of(heads: &[Func]) -> Result<FnId, AllocError>
    ensures { IfOk result (λ f. f.0 ≡ e.main_of (map func_of heads.now)) }
{
    let number = match find_main(heads) {
        Some(i) => i,
        None => heads.len(),
    };
    match u32::try_from(number) {
        Ok(f) => Ok(FnId(f)),
        Err(_) => Err(AllocError),
    }
}
