//! What of a module is in the interface's places.

ghost use Rattle.std.specs.Prelude.{◌≡◌, ◌||◌, ◌&&◌, false, not, List, ℕ, map, IfOk, OnOk};
ghost use Rattle.std.specs.List.{list_any};
ghost use Rattle.std.specs.Str.{bytes_eq};
ghost use Rattle.vlt_syntax.specs.View.{decl_of};
ghost use Rattle.vlt_iface.specs.Texts.{texts_seen, has_text};
ghost use Rattle.vlt_iface.specs.Given as g;

use crate::keys::{Key, given_key, wanted_key};
use indexmap::IndexSet;
use std::alloc::{AllocError, Global};
use vlt_syntax::Decl;

/// The names of structs and of functions with bodies that the interface wants, and that nothing gave yet.
#[derive(Drop)]
pub struct Wanted<'a> {
    pub structs: IndexSet<&'a [u8]>,
    pub functions: IndexSet<&'a [u8]>,
}

/// Adds the name, if it isn't there.
pub fn add_name<'a>(names: &mut IndexSet<&'a [u8]>, name: &'a [u8]) -> Result<(), AllocError>
    ensures { OnOk result ((n : List ℕ) → has_text (texts_seen names.new.keys) n
        ≡ (has_text (texts_seen names.old.keys) n || bytes_eq name.now n)) }
{
    names.insert(name)?;
    Ok(())
}

/// Takes the name out, and says whether it was there.
fn take_name<'a>(names: &mut IndexSet<&'a [u8]>, name: &'a [u8]) -> bool
    ensures was { result ≡ has_text (texts_seen names.old.keys) name.now }
    ensures left { (n : List ℕ) → has_text (texts_seen names.new.keys) n
        ≡ (has_text (texts_seen names.old.keys) n && not (bytes_eq name.now n)) }
{
    names.swap_remove(&name)
}

impl<'a> Wanted<'a> {
    #[tactic(auto, using(crate::proofs::Tables::none_wanted))]
    fn new(alloc: Global) -> Wanted<'a>
        ensures { (k : g.Key) → g.wants result k ≡ false }
    {
        Wanted {
            structs: IndexSet::new(alloc),
            functions: IndexSet::new(alloc),
        }
    }

    fn add(&mut self, decl: &'a Decl) -> Result<(), AllocError>
        ensures { OnOk result ((k : g.Key) → g.wants self.new k
            ≡ (g.wants self.old k || g.same_key (g.wanted_key (decl_of decl.now)) k)) }
    {
        match wanted_key(decl) {
            Key::Struct(name) => add_name(&mut self.structs, name),
            Key::Function(name) => add_name(&mut self.functions, name),
            Key::Nothing => Ok(()),
        }
    }

    /// Whether what the declaration gives is wanted. After it that isn't wanted.
    pub fn take(&mut self, decl: &'a Decl) -> bool
        ensures was { result ≡ g.wants self.old (g.given_key (decl_of decl.now)) }
        ensures left { (k : g.Key) → g.wants self.new k
            ≡ (g.wants self.old k && not (g.same_key (g.given_key (decl_of decl.now)) k)) }
    {
        match given_key(decl) {
            Key::Struct(name) => take_name(&mut self.structs, name),
            Key::Function(name) => take_name(&mut self.functions, name),
            Key::Nothing => false,
        }
    }
}

/// What the declarations of an interface want.
pub fn wanted_by<'a>(alloc: Global, decls: &'a [Decl]) -> Result<Wanted<'a>, AllocError>
    ensures { IfOk result (λ w. (k : g.Key) → g.wants w k
        ≡ list_any (λ i. g.same_key (g.wanted_key i) k) (map decl_of decls.now)) }
{
    let mut wanted = Wanted::new(alloc);
    for decl in decls {
        wanted.add(decl)?;
    }
    Ok(wanted)
}
