//! The names of two modules that clash.

ghost use Rattle.std.specs.Prelude.{◌≡◌, ◌++◌, ◌||◌, if◌then◌else◌, List, ℕ, map, filter, option_map, IfOk, OnOk};
ghost use Rattle.std.specs.List.{flat_map};
ghost use Rattle.std.specs.Str.{bytes_eq};
ghost use Rattle.vlt_syntax.specs.View.{name_of, decl_of, tree_of};
ghost use Rattle.vlt_kinds_types.specs.Names.Globals.{decl_name};
ghost use Rattle.vlt_iface.specs.Clash as c;
ghost use Rattle.vlt_iface.specs.Told as t;
ghost use Rattle.vlt_iface.specs.Texts.{text_seen, texts_of, texts_seen, decl_texts, has_text, AreTextsOf};

use indexmap::IndexSet;
use std::alloc::{AllocError, Global};
use vlt_base::Items;
use vlt_iface::{add_bound, add_name};
use vlt_syntax::{Decl, Name, Tree};

// ---- all names of a module

fn name_of_decl(decl: &Decl) -> &Name
    ensures { name_of result.now ≡ decl_name (decl_of decl.now) }
{
    match decl {
        Decl::StateSet { name, .. } => name,
        Decl::Abstract { name, .. } => name,
        Decl::Struct { name, .. } => name,
        Decl::Variant { name, .. } => name,
        Decl::Extern { head, .. } => &head.name,
        Decl::Function { head, .. } => &head.name,
    }
}

fn add_declared<'a>(decls: &'a [Decl], texts: &mut Items<&'a [u8]>) -> Result<(), AllocError>
    ensures { OnOk result (texts_seen texts.new ≡ texts_seen texts.old
        ++ texts_of (map decl_name (map decl_of decls.now))) }
{
    for decl in decls {
        texts.push(name_of_decl(decl).text.as_slice())?;
    }
    Ok(())
}

fn add_all_bound<'a>(decls: &'a [Decl], texts: &mut Items<&'a [u8]>) -> Result<(), AllocError>
    ensures { OnOk result (texts_seen texts.new
        ≡ texts_seen texts.old ++ flat_map decl_texts (map decl_of decls.now)) }
{
    for decl in decls {
        add_bound(decl, texts)?;
    }
    Ok(())
}

/// The names that a module declares or binds.
fn texts_in<'a>(alloc: Global, module: &'a Tree) -> Result<Items<&'a [u8]>, AllocError>
    ensures { IfOk result (λ ts. texts_seen ts
        ≡ texts_of (c.names_in (tree_of «module».now))) }
{
    let decls = module.decls.as_slice();
    let mut texts = Items::new(alloc);
    add_declared(decls, &mut texts)?;
    add_all_bound(decls, &mut texts)?;
    Ok(texts)
}

fn add_text<'a>(set: &mut IndexSet<&'a [u8]>, text: &&'a [u8]) -> Result<(), AllocError>
    ensures { OnOk result ((n : List ℕ) → has_text (texts_seen set.new.keys) n
        ≡ (has_text (texts_seen set.old.keys) n || bytes_eq (text_seen text.now) n)) }
{
    add_name(set, *text)
}

/// These texts, each once, to look them up.
fn set_of<'a>(alloc: Global, texts: &[&'a [u8]]) -> Result<IndexSet<&'a [u8]>, AllocError>
    ensures { IfOk result (λ set. AreTextsOf (texts_seen texts.now) (texts_seen set.keys)) }
{
    let mut set = IndexSet::new(alloc);
    for text in texts {
        add_text(&mut set, text)?;
    }
    Ok(set)
}

/// The names that a module declares or binds, each once, to look them up.
fn names_set<'a>(alloc: Global, module: &'a Tree) -> Result<IndexSet<&'a [u8]>, AllocError>
    ensures { IfOk result (λ set.
        AreTextsOf (texts_of (c.names_in (tree_of «module».now))) (texts_seen set.keys)) }
{
    let texts = texts_in(alloc, module)?;
    set_of(alloc, texts.as_slice())
}

fn has(set: &IndexSet<&[u8]>, text: &[u8]) -> bool
    ensures { result ≡ has_text (texts_seen set.now.keys) text.now }
{
    set.contains(&text)
}

// ---- the least name that clashes

fn is_less(name: &[u8], other: &[u8]) -> bool
    ensures { result ≡ t.is_less name.now other.now }
{
    name < other
}

fn lesser<'a>(least: Option<&'a [u8]>, name: &'a [u8]) -> Option<&'a [u8]>
    ensures { option_map text_seen result
        ≡ t.lesser_name (option_map text_seen least.entry) name.now }
{
    match least {
        Some(other) if !is_less(name, other) => Some(other),
        _ => Some(name),
    }
}

/// The lesser of what was found and of this name, if the other module has it.
fn lesser_if<'a>(
    least: Option<&'a [u8]>,
    name: &'a [u8],
    others: &IndexSet<&[u8]>,
) -> Option<&'a [u8]>
    ensures { option_map text_seen result ≡ (if has_text (texts_seen others.now.keys) name.now
        then t.lesser_name (option_map text_seen least.entry) name.now
        else option_map text_seen least.entry) }
{
    if has(others, name) {
        lesser(least, name)
    } else {
        least
    }
}

/// The least of the declared names that the other module has, and of one that was found before.
fn least_of<'a>(
    decls: &'a [Decl],
    others: &IndexSet<&[u8]>,
    found: Option<&'a [u8]>,
) -> Option<&'a [u8]>
    ensures { option_map text_seen result ≡ t.least_name_from (option_map text_seen found.entry)
        (filter (λ n. has_text (texts_seen others.now.keys) n.text)
        (map decl_name (map decl_of decls.now))) }
{
    let mut least = found;
    for decl in decls {
        least = lesser_if(least, name_of_decl(decl).text.as_slice(), others);
    }
    least
}

/// The least name that one module declares and the other declares or binds.
pub fn least_clash<'a>(
    alloc: Global,
    first: &'a Tree,
    second: &'a Tree,
) -> Result<Option<&'a [u8]>, AllocError>
    ensures { IfOk result (λ name. option_map text_seen name
        ≡ t.least_name (c.clashing (tree_of first.now) (tree_of second.now))) }
{
    let in_first = names_set(alloc, first)?;
    let in_second = names_set(alloc, second)?;
    let found = least_of(first.decls.as_slice(), &in_second, None);
    Ok(least_of(second.decls.as_slice(), &in_first, found))
}
