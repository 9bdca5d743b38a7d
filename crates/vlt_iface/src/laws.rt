//! Laws of views.

ghost use Rattle.std.specs.Prelude.{◌≡◌, ◌+◌, ◌<◌, ◌≤◌, ℕ, [], List, length, Some, None, Ok};
ghost use Rattle.vlt_base.specs.Limits.{limit_of};
ghost use Rattle.vlt_base.specs.declared.limits.TheConstants.{DECLARATIONS};
ghost use Rattle.vlt_syntax.specs.Tree.{Name, Decl, Tree};
ghost use Rattle.vlt_iface.specs.declared.places.TheConstants.{RAISE};
ghost use Rattle.vlt_iface.specs.Rules.{view_refused};
ghost use Rattle.vlt_iface.specs.Clash.{clashing};
ghost use Rattle.vlt_iface.specs.Told.{place_of, least_name, view_told, joined_told};
ghost use Rattle.vlt_iface.specs.Least.{IsLeast};
ghost use Rattle.vlt_iface.specs.View.{View, viewed, view_decls, joined};

/// With a module that declares nothing the interface stays as it is.
pub fn empty_modules_change_nothing()
    ensures { (is : List Decl) → view_decls is [] ≡ is }
{}

/// The name that is told of a clash is the least in the order of bytes.
pub fn least_names_are_least()
    ensures { (ns : List Name) (m : List ℕ) → least_name ns ≡ Some m → IsLeast ns m }
{}

/// None is told just where no name clashes.
pub fn no_least_of_none()
    ensures { (ns : List Name) → least_name ns ≡ None → ns ≡ [] }
{}

/// A place of the interface is the same in the view, and is told as one of file 0.
pub fn places_of_interfaces()
    ensures { (at : ℕ) → at < RAISE → place_of at ≡ record { file = 0; at = at } }
{}

/// A place of the module is raised in the view, and is told as one of file 1.
pub fn places_of_modules()
    ensures { (at : ℕ) → place_of (at + RAISE) ≡ record { file = 1; at = at } }
{}

/// A view that is told is the view, and no rule on what is given refuses it.
pub fn told_views_are_views()
    ensures { (i m : Tree) (v : View) → view_told i m ≡ Ok v →
        (view_refused i m ≡ None) × (viewed i m ≡ v) }
{}

/// A view that is told has no more declarations than a tree may have.
pub fn told_views_are_few()
    ensures { (i m : Tree) (v : View) → view_told i m ≡ Ok v →
        length v.tree.decls ≤ limit_of DECLARATIONS }
{}

/// A tree that is told of two modules is the joined one, no names clash, and it has no more declarations than a tree may have.
pub fn told_joins_are_joined()
    ensures { (i f g t : Tree) → joined_told i f g ≡ Ok t →
        (joined i f g ≡ t) × (clashing f g ≡ []) × (length t.decls ≤ limit_of DECLARATIONS) }
{}
