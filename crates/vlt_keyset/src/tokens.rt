//! How many tokens a function has.

ghost use Rattle.std.specs.Prelude.{◌≡◌, ◌≤◌, ◌^◌, ◌⊎◌, length, IfSome, IfNone};

use vlt_core::Func;

/// How many keys and variables a function has: its tokens are below these numbers.
#[derive(Clone, Copy, Debug, PartialEq, Eq)]
pub struct TokenCounts {
    pub keys: u32,
    pub vars: u32,
}

impl TokenCounts {
    /// Those of a function; `None` where it has more than a count can say.
    pub fn of(f: &Func) -> Option<TokenCounts>
        ensures keys { IfSome result (λ c. c.keys ≡ length f.now.keys) }
        ensures vars { IfSome result (λ c. c.vars ≡ length f.now.vars) }
        ensures none { IfNone result
            ((2 ^ 32 ≤ length f.now.keys) ⊎ (2 ^ 32 ≤ length f.now.vars)) }
    {
        match (u32::try_from(f.keys.len()), u32::try_from(f.vars.len())) {
            (Ok(keys), Ok(vars)) => Some(TokenCounts { keys, vars }),
            _ => None,
        }
    }
}
