//! Which objects and values may be dropped with all that they own.

ghost use Rattle.std.specs.Prelude.{◌≡◌};
ghost use Rattle.vlt_core.specs.View.{ty_of};
ghost use Rattle.vlt_kinds_types.specs.Seen.{kinds_seen};
ghost use Rattle.vlt_resolve_rights.specs.Droppable as d;

use vlt_base::TypeId;
use vlt_core::Ty;
use vlt_kinds_types::Kinds;

/// Whether objects of the type may be dropped.
#[tactic(auto, unfolding(crate::specs::Droppable::may_drop_struct))]
pub fn may_drop_struct(kinds: &Kinds<'_>, t: TypeId) -> bool
    ensures { result ≡ d.may_drop_struct (kinds_seen kinds.now) t.0 }
{
    kinds.is_droppable_struct(t)
}

/// Whether owning values of the type may be dropped.
#[tactic(auto, unfolding(crate::specs::Droppable::may_drop))]
pub fn may_drop(kinds: &Kinds<'_>, ty: &Ty) -> bool
    ensures { result ≡ d.may_drop (kinds_seen kinds.now) (ty_of ty.now) }
{
    kinds.is_droppable(ty)
}
