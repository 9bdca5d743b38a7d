//! Laws on scopes.

ghost use Rattle.std.specs.Prelude.{◌≡◌, ℕ, nat_lt, true, IsTrue, List, [], length, Some};
ghost use Rattle.vlt_core.specs.Core.{Ty, Simple, Form, Func, Program};
ghost use Rattle.vlt_core.specs.KindedHeads.{has, head_keys};
ghost use Rattle.vlt_core.specs.KindedScopes.{Ids, Around, fresh_broken};
ghost use Rattle.vlt_core.specs.KindedStatements.{simple_broken, ids_after};
ghost use Rattle.vlt_core.specs.KindedBodies.{focus_broken, with_focus, arm_vars_broken, with_vars, row_broken, ids_following, first_ids};
ghost use Rattle.vlt_sound_worlds.specs.Agrees.{Handed, Context};
ghost use Rattle.vlt_sound_worlds.specs.Scopes.{IsFresh};
ghost use Rattle.vlt_sound_worlds.specs.Steps.{IsSafeStep};
ghost use Rattle.vlt_sound_worlds.specs.Scoped.{IsScoped, HasKeys, Widens, AreKeysInScope};
ghost use Rattle.vlt_sound_worlds.specs.ScopeSteps.{IsScopedStep};

/// A statement only adds to a scope, and to what was bound.
pub fn scopes_only_widen()
    ensures { (p : Program) (f : Func) (s : Form) (ids : Ids) →
        Widens ids (ids_following p f s ids) }
{}

/// What is known of a scope holds where a body begins, and each binding that breaks no rule keeps it.
pub fn scopes_are_known()
    ensures start { (p : Program) (f : Func) (c : Context) →
        ((k : ℕ) → IsTrue (c.head k) → nat_lt k (length f.keys) ≡ true
        → has (head_keys f) k ≡ true) →
        c.pins ≡ [] → IsScoped f c (first_ids p f) }
    ensures simple { (p : Program) (f : Func) (c : Context) (ids : Ids) (s : Simple) →
        HasKeys f → simple_broken p f ids s ≡ [] → IsScoped f c ids →
        IsScoped f c (ids_after f s ids) }
    ensures form { (p : Program) (f : Func) (c : Context) (ids : Ids) (around : Around)
        (s : Form) → HasKeys f → row_broken p f around ids s ≡ [] → IsScoped f c ids →
        IsScoped f c (ids_following p f s ids) }
    ensures arm { (f : Func) (c : Context) (ids : Ids) (wanted : List Ty) (vs : List ℕ) →
        HasKeys f → arm_vars_broken f ids wanted vs ≡ [] → IsScoped f c ids →
        IsScoped f c (with_vars f vs ids) }
    ensures focus { (p : Program) (f : Func) (c : Context) (ids : Ids) (y z : ℕ) → HasKeys f →
        focus_broken p f ids y z ≡ [] → IsScoped f c ids → IsScoped f c (with_focus f z ids) }
{}

/// A key that may be bound is new: nothing in scope or handed over speaks of it, nor does the head or a pin.
pub fn bound_keys_are_new()
    ensures { (f : Func) (c : Context) (ids : Ids) (hand : List Handed) (k : ℕ) →
        IsScoped f c ids → AreKeysInScope ids hand → nat_lt k (length f.keys) ≡ true →
        fresh_broken f ids (Some k) ≡ [] → IsFresh f c ids hand k }
{}

/// A statement that is safe whatever is known of the scope is so where it is known.
pub fn safe_steps_are_safe_in_scopes()
    ensures { (s : Simple) → IsSafeStep s → IsScopedStep s }
{}
