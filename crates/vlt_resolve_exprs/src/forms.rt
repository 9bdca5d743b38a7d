//! What a statement becomes.

ghost use Rattle.std.specs.Prelude.{◌≡◌, [], ◌∷◌, IfOk};
ghost use Rattle.vlt_resolve_exprs.specs.Seen.{forms_of};
ghost use Rattle.vlt_core.specs.View.{form_of};

use std::alloc::{AllocError, Global};
use vlt_base::Boxed;
use vlt_core::Form;

/// The core forms of a statement: one or two, or none of a statement that is refused.
#[derive(Drop)]
pub enum Forms {
    Nothing,
    One(Boxed<Form>),
    Two(Boxed<Form>, Boxed<Form>),
}

impl Forms {
    /// One form.
    pub fn one(alloc: Global, form: Form) -> Result<Forms, AllocError>
        ensures { IfOk result (λ fs. forms_of fs ≡ form_of form ∷ []) }
    {
        let form = Boxed::new(alloc, form)?;
        Ok(Forms::One(form))
    }

    /// Two forms, the first of which is boxed before the second one is made.
    pub fn two(alloc: Global, first: Boxed<Form>, second: Form) -> Result<Forms, AllocError>
        ensures { IfOk result (λ fs. forms_of fs ≡ form_of first ∷ form_of second ∷ []) }
    {
        let second = Boxed::new(alloc, second)?;
        Ok(Forms::Two(first, second))
    }
}
