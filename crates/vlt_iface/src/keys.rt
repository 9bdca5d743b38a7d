//! What a declaration gives, or wants.

ghost use Rattle.std.specs.Prelude.{◌≡◌};
ghost use Rattle.vlt_syntax.specs.View.{decl_of};
ghost use Rattle.vlt_iface.specs.Given as g;

use vlt_syntax::Decl;

/// A struct of this name, a function with a body, or nothing.
#[derive(Clone, Copy)]
pub enum Key<'a> {
    Struct(&'a [u8]),
    Function(&'a [u8]),
    Nothing,
}

pub fn given_key(decl: &Decl) -> Key<'_>
    ensures { g.key_seen result ≡ g.given_key (decl_of decl.now) }
{
    match decl {
        Decl::Struct { name, .. } => Key::Struct(name.text.as_slice()),
        Decl::Function { head, .. } => Key::Function(head.name.text.as_slice()),
        _ => Key::Nothing,
    }
}

pub fn wanted_key(decl: &Decl) -> Key<'_>
    ensures { g.key_seen result ≡ g.wanted_key (decl_of decl.now) }
{
    match decl {
        Decl::Abstract { name, .. } => Key::Struct(name.text.as_slice()),
        Decl::Extern { head, .. } => Key::Function(head.name.text.as_slice()),
        _ => Key::Nothing,
    }
}
