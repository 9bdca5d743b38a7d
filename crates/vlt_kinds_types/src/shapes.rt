//! What the name of a declared type stands for.

ghost use Rattle.std.specs.Prelude.{◌≡◌, ◌++◌, map, option_map, IfOk, OnOk};
ghost use Rattle.std.specs.List.{list_any};
ghost use Rattle.vlt_syntax.specs.View as view;
ghost use Rattle.vlt_kinds_types.specs.Names.Globals.{names_seen};
ghost use Rattle.vlt_kinds_types.specs.Names.Refusals.{of_each};
ghost use Rattle.vlt_kinds_types.specs.Files as f;

use crate::names::{Entity, Globals};
use std::alloc::{AllocError, Global};
use vlt_base::Items;
use vlt_syntax::{Case, Decl, HeaderKey, Name, Ty};

/// Of which sort a declared type is.
#[derive(Clone, Copy, PartialEq, Eq)]
pub enum Sort {
    Abstract,
    Struct,
    /// A variant whose values are copied.
    CopiedVariant,
    /// A variant that owns what some payload has.
    OwningVariant,
    /// A variant that lists keys in a case; it is owning.
    KeyedVariant,
    /// A variant of which an unknown name leaves open whether it is owning.
    OpenVariant,
}

/// The type that the object of a key has to be of: any, that of an unknown name, or this one.
#[derive(Clone, Copy)]
pub enum Wanted {
    Any,
    Unknown,
    OfType(u32),
}

/// What the name of a type stands for.
#[derive(Drop)]
pub struct Shape {
    pub sort: Sort,
    /// For each key of the header the type that its object has to be of.
    pub header: Items<Wanted>,
    /// The number of its state set.
    pub set: Option<u32>,
}

/// The number of the type of this name.
pub fn type_in(known: &Globals<'_>, name: &Name) -> Option<u32>
    ensures { result ≡ f.type_in (names_seen known.now) (view.name_of name.now) }
{
    match known.find(name.text.as_slice()) {
        Some(Entity::AType(number)) => Some(number),
        _ => None,
    }
}

/// The number of the state set of this name.
pub fn set_in(known: &Globals<'_>, name: &Option<Name>) -> Option<u32>
    ensures { result ≡ f.set_in (names_seen known.now) (option_map view.name_of name.now) }
{
    match name {
        None => None,
        Some(name) => match known.find(name.text.as_slice()) {
            Some(Entity::ASet(number)) => Some(number),
            _ => None,
        },
    }
}

/// The type that a header gives a key.
pub fn wanted_in(known: &Globals<'_>, name: &Option<Name>) -> Wanted
    ensures { result ≡ f.wanted_in (names_seen known.now) (option_map view.name_of name.now) }
{
    match name {
        None => Wanted::Any,
        Some(name) => match type_in(known, name) {
            None => Wanted::Unknown,
            Some(number) => Wanted::OfType(number),
        },
    }
}

/// What a header wants of its keys' objects.
pub fn header_in(
    alloc: Global,
    known: &Globals<'_>,
    params: &[HeaderKey],
) -> Result<Items<Wanted>, AllocError>
    ensures { IfOk result (λ header. header ≡ f.header_in (names_seen known.now)
        (map view.header_key_of params.now)) }
{
    let mut header = Items::new(alloc);
    for param in params {
        header.push(wanted_in(known, &param.key_type))?;
    }
    Ok(header)
}

fn owns_payload(known: &Globals<'_>, ty: &Ty) -> bool
    ensures { result ≡ f.owns_payload (names_seen known.now) (view.ty_of ty.now) }
{
    match ty {
        Ty::Owning { named, .. } => type_in(known, &named.name).is_some(),
        _ => false,
    }
}

fn leaves_payload_open(known: &Globals<'_>, ty: &Ty) -> bool
    ensures { result ≡ f.leaves_payload_open (names_seen known.now) (view.ty_of ty.now) }
{
    match ty {
        Ty::Owning { named, .. } => type_in(known, &named.name).is_none(),
        _ => false,
    }
}

fn owns_some(known: &Globals<'_>, payload: &[Ty]) -> bool
    ensures { result ≡ list_any (f.owns_payload (names_seen known.now))
        (map view.ty_of payload.now) }
{
    for ty in payload {
        if owns_payload(known, ty) {
            return true;
        }
    }
    false
}

fn leaves_some_open(known: &Globals<'_>, payload: &[Ty]) -> bool
    ensures { result ≡ list_any (f.leaves_payload_open (names_seen known.now))
        (map view.ty_of payload.now) }
{
    for ty in payload {
        if leaves_payload_open(known, ty) {
            return true;
        }
    }
    false
}

fn lists_keys(case: &Case) -> bool
    ensures { result ≡ f.lists_keys (view.case_of case.now) }
{
    !case.keys.as_slice().is_empty()
}

fn is_keyed(cases: &[Case]) -> bool
    ensures { result ≡ list_any f.lists_keys (map view.case_of cases.now) }
{
    for case in cases {
        if lists_keys(case) {
            return true;
        }
    }
    false
}

fn is_owning(known: &Globals<'_>, cases: &[Case]) -> bool
    ensures { result
        ≡ list_any (λ c. list_any (f.owns_payload (names_seen known.now)) c.payload)
        (map view.case_of cases.now) }
{
    for case in cases {
        if owns_some(known, case.payload.as_slice()) {
            return true;
        }
    }
    false
}

fn is_left_open(known: &Globals<'_>, cases: &[Case]) -> bool
    ensures { result
        ≡ list_any (λ c. list_any (f.leaves_payload_open (names_seen known.now)) c.payload)
        (map view.case_of cases.now) }
{
    for case in cases {
        if leaves_some_open(known, case.payload.as_slice()) {
            return true;
        }
    }
    false
}

#[tactic(auto, unfolding(crate::specs::Files::sort_of_cases))]
fn sort_of_cases(known: &Globals<'_>, cases: &[Case]) -> Sort
    ensures { result ≡ f.sort_of_cases (names_seen known.now) (map view.case_of cases.now) }
{
    match (
        is_keyed(cases),
        is_owning(known, cases),
        is_left_open(known, cases),
    ) {
        (true, _, _) => Sort::KeyedVariant,
        (false, true, _) => Sort::OwningVariant,
        (false, false, true) => Sort::OpenVariant,
        (false, false, false) => Sort::CopiedVariant,
    }
}

fn add_shape(
    alloc: Global,
    known: &Globals<'_>,
    decl: &Decl,
    shapes: &mut Items<Shape>,
) -> Result<(), AllocError>
    ensures { OnOk result (shapes.new ≡ shapes.old ++ f.shapes_in (names_seen known.now)
        (view.decl_of decl.now)) }
{
    match decl {
        Decl::Abstract { states, .. } => {
            let set = set_in(known, states);
            shapes.push(Shape {
                sort: Sort::Abstract,
                header: Items::new(alloc),
                set,
            })?;
        }
        Decl::Struct { params, states, .. } => {
            let header = header_in(alloc, known, params.as_slice())?;
            let set = set_in(known, states);
            shapes.push(Shape {
                sort: Sort::Struct,
                header,
                set,
            })?;
        }
        Decl::Variant { params, cases, .. } => {
            let header = header_in(alloc, known, params.as_slice())?;
            let sort = sort_of_cases(known, cases.as_slice());
            shapes.push(Shape {
                sort,
                header,
                set: None,
            })?;
        }
        _ => {}
    }
    Ok(())
}

/// The shapes of the declared types, in the order of their declarations.
pub fn shapes_of(
    alloc: Global,
    known: &Globals<'_>,
    decls: &[Decl],
) -> Result<Items<Shape>, AllocError>
    ensures { IfOk result (λ shapes. shapes ≡ of_each (f.shapes_in (names_seen known.now))
        (map view.decl_of decls.now)) }
{
    let mut shapes = Items::new(alloc);
    for decl in decls {
        add_shape(alloc, known, decl, &mut shapes)?;
    }
    Ok(shapes)
}
