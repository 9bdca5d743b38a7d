//! What a statement stands in.

ghost use Rattle.std.specs.Prelude.{◌≡◌};
ghost use Rattle.vlt_elaboration.specs.Around as a;
ghost use Rattle.vlt_resolve_stmts.specs.Seen.{around_seen};

use vlt_core::Func;

/// The head of the function, and whether a loop is there to leave and a focus to stay in.
#[derive(Clone, Copy)]
pub struct Around<'k> {
    pub head: &'k Func,
    pub in_loop: bool,
    pub in_focus: bool,
}

impl Around<'_> {
    pub fn inside_loop(self) -> Self
        ensures { around_seen result ≡ a.inside_loop (around_seen self.entry) }
    {
        Around {
            head: self.head,
            in_loop: true,
            in_focus: self.in_focus,
        }
    }

    /// No jump leaves a focus.
    pub fn inside_focus(self) -> Self
        ensures { around_seen result ≡ a.inside_focus (around_seen self.entry) }
    {
        Around {
            head: self.head,
            in_loop: false,
            in_focus: true,
        }
    }
}
