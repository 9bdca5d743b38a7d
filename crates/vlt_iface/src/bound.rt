//! The names that a module's declarations bind, by their texts.

ghost use Rattle.std.specs.Prelude.{◌≡◌, ◌++◌, ◌∷◌, [], map, Some, option_map, OnOk};
ghost use Rattle.std.specs.List.{flat_map};
ghost use Rattle.vlt_syntax.specs.View as view;
ghost use Rattle.vlt_iface.specs.Clash as c;
ghost use Rattle.vlt_iface.specs.Texts.{texts_of, texts_seen, stmt_texts, arm_texts, parameter_texts, variable_texts};

use std::alloc::AllocError;
use vlt_base::Items;
use vlt_syntax::{
    Arm, Block, Decl, Else, Entry, Head, HeaderKey, If, Name, Parameter, ResultType, Stmt, Ty,
};

fn add_names<'a>(names: &'a [Name], texts: &mut Items<&'a [u8]>) -> Result<(), AllocError>
    ensures { OnOk result (texts_seen texts.new
        ≡ texts_seen texts.old ++ texts_of (view.names_of names.now)) }
{
    for name in names {
        texts.push(name.text.as_slice())?;
    }
    Ok(())
}

fn add_key_and_names<'a>(
    key: &'a Name,
    names: &'a [Name],
    texts: &mut Items<&'a [u8]>,
) -> Result<(), AllocError>
    ensures { OnOk result (texts_seen texts.new ≡ texts_seen texts.old
        ++ texts_of (view.name_of key.now ∷ view.names_of names.now)) }
{
    texts.push(key.text.as_slice())?;
    add_names(names, texts)
}

/// The keys of a type.
fn add_keys<'a>(ty: &'a Ty, texts: &mut Items<&'a [u8]>) -> Result<(), AllocError>
    ensures { OnOk result (texts_seen texts.new
        ≡ texts_seen texts.old ++ texts_of (c.keys_in (view.ty_of ty.now))) }
{
    match ty {
        Ty::Int(_) | Ty::Bool(_) => Ok(()),
        Ty::Tracked { key, named, .. } => add_key_and_names(key, named.keys.as_slice(), texts),
        Ty::Guarded { key, named } => add_key_and_names(key, named.keys.as_slice(), texts),
        Ty::Owning { named, .. } => add_names(named.keys.as_slice(), texts),
        Ty::Plain(named) => add_names(named.keys.as_slice(), texts),
    }
}

// ---- heads

fn key_of(entry: &Entry) -> &Name
    ensures { view.name_of result.now ≡ c.entry_key (view.entry_of entry.now) }
{
    match entry {
        Entry::Held(key) => &key.key,
        Entry::Changed { key, .. } | Entry::Bound { key, .. } => key,
        Entry::Taken(key, _) => &key.key,
        Entry::Given(key, _) => &key.key,
        Entry::Fresh(key, _) => &key.key,
    }
}

fn add_entry_keys<'a>(entries: &'a [Entry], texts: &mut Items<&'a [u8]>) -> Result<(), AllocError>
    ensures { OnOk result (texts_seen texts.new ≡ texts_seen texts.old
        ++ texts_of (map c.entry_key (map view.entry_of entries.now))) }
{
    for entry in entries {
        texts.push(key_of(entry).text.as_slice())?;
    }
    Ok(())
}

/// The state variable of a bound entry.
fn add_variable<'a>(entry: &'a Entry, texts: &mut Items<&'a [u8]>) -> Result<(), AllocError>
    ensures { OnOk result (texts_seen texts.new
        ≡ texts_seen texts.old ++ variable_texts (view.entry_of entry.now)) }
{
    if let Entry::Bound { variable, .. } = entry {
        texts.push(variable.text.as_slice())?;
    }
    Ok(())
}

fn add_variables<'a>(entries: &'a [Entry], texts: &mut Items<&'a [u8]>) -> Result<(), AllocError>
    ensures { OnOk result (texts_seen texts.new ≡ texts_seen texts.old
        ++ flat_map variable_texts (map view.entry_of entries.now)) }
{
    for entry in entries {
        add_variable(entry, texts)?;
    }
    Ok(())
}

fn add_entries<'a>(entries: &'a [Entry], texts: &mut Items<&'a [u8]>) -> Result<(), AllocError>
    ensures { OnOk result (texts_seen texts.new ≡ texts_seen texts.old
        ++ texts_of (c.clause_names (Some (map view.entry_of entries.now)))) }
{
    add_entry_keys(entries, texts)?;
    add_variables(entries, texts)
}

fn add_clause<'a>(
    clause: &'a Option<Items<Entry>>,
    texts: &mut Items<&'a [u8]>,
) -> Result<(), AllocError>
    ensures { OnOk result (texts_seen texts.new ≡ texts_seen texts.old
        ++ texts_of (c.clause_names (option_map (map view.entry_of) clause.now))) }
{
    match clause {
        None => Ok(()),
        Some(entries) => add_entries(entries.as_slice(), texts),
    }
}

fn add_parameter<'a>(
    parameter: &'a Parameter,
    texts: &mut Items<&'a [u8]>,
) -> Result<(), AllocError>
    ensures { OnOk result (texts_seen texts.new
        ≡ texts_seen texts.old ++ parameter_texts (view.parameter_of parameter.now)) }
{
    add_keys(&parameter.ty, texts)?;
    texts.push(parameter.name.text.as_slice())?;
    Ok(())
}

fn add_parameters<'a>(
    parameters: &'a [Parameter],
    texts: &mut Items<&'a [u8]>,
) -> Result<(), AllocError>
    ensures { OnOk result (texts_seen texts.new ≡ texts_seen texts.old
        ++ flat_map parameter_texts (map view.parameter_of parameters.now)) }
{
    for parameter in parameters {
        add_parameter(parameter, texts)?;
    }
    Ok(())
}

fn add_result<'a>(
    result_type: &'a ResultType,
    texts: &mut Items<&'a [u8]>,
) -> Result<(), AllocError>
    ensures { OnOk result (texts_seen texts.new ≡ texts_seen texts.old
        ++ texts_of (c.result_keys (view.result_type_of result_type.now))) }
{
    match result_type {
        ResultType::Void(_) => Ok(()),
        ResultType::Value(ty) => add_keys(ty, texts),
    }
}

fn add_head<'a>(head: &'a Head, texts: &mut Items<&'a [u8]>) -> Result<(), AllocError>
    ensures { OnOk result (texts_seen texts.new
        ≡ texts_seen texts.old ++ texts_of (c.head_bound (view.head_of head.now))) }
{
    add_result(&head.result_type, texts)?;
    add_parameters(head.parameters.as_slice(), texts)?;
    add_clause(&head.clause, texts)
}

// ---- bodies

/// A key in scope that a declaration's type names was bound before.
fn add_bound_key<'a>(ty: &'a Ty, texts: &mut Items<&'a [u8]>) -> Result<(), AllocError>
    ensures { OnOk result (texts_seen texts.new
        ≡ texts_seen texts.old ++ texts_of (c.key_bound (view.ty_of ty.now))) }
{
    if let Ty::Tracked { key, .. } = ty {
        texts.push(key.text.as_slice())?;
    }
    Ok(())
}

#[cycle(bound)]
fn add_stmts<'a>(stmts: &'a [Stmt], texts: &mut Items<&'a [u8]>) -> Result<(), AllocError>
    ensures { OnOk result (texts_seen texts.new
        ≡ texts_seen texts.old ++ flat_map stmt_texts (map view.stmt_of stmts.now)) }
{
    for stmt in stmts {
        add_stmt(stmt, texts)?;
    }
    Ok(())
}

#[cycle(bound)]
fn add_stmt<'a>(stmt: &'a Stmt, texts: &mut Items<&'a [u8]>) -> Result<(), AllocError>
    ensures { OnOk result (texts_seen texts.new
        ≡ texts_seen texts.old ++ stmt_texts (view.stmt_of stmt.now)) }
{
    match stmt {
        Stmt::Declare { ty, name, .. } => {
            add_bound_key(ty, texts)?;
            texts.push(name.text.as_slice())?;
            Ok(())
        }
        Stmt::Open { parts, .. } => add_names(parts.as_slice(), texts),
        Stmt::Focus {
            key,
            alias,
            body,
            ..
        } => {
            texts.push(key.text.as_slice())?;
            texts.push(alias.text.as_slice())?;
            add_block(body, texts)
        }
        Stmt::Block(block) => add_block(block, texts),
        Stmt::If(choice) => add_if(choice, texts),
        Stmt::While { body, .. } => add_block(body, texts),
        Stmt::Switch { arms, .. } => add_arms(arms.as_slice(), texts),
        _ => Ok(()),
    }
}

/// What a block binds.
#[cycle(bound)]
pub fn add_block<'a>(block: &'a Block, texts: &mut Items<&'a [u8]>) -> Result<(), AllocError>
    ensures { OnOk result (texts_seen texts.new
        ≡ texts_seen texts.old ++ texts_of (c.block_bound (view.block_of block.now))) }
{
    add_stmts(block.stmts.as_slice(), texts)
}

#[cycle(bound)]
fn add_if<'a>(choice: &'a If, texts: &mut Items<&'a [u8]>) -> Result<(), AllocError>
    ensures { OnOk result (texts_seen texts.new
        ≡ texts_seen texts.old ++ texts_of (c.if_bound (view.if_of choice.now))) }
{
    add_block(&choice.then_block, texts)?;
    add_else(&choice.otherwise, texts)
}

#[cycle(bound)]
fn add_else<'a>(other: &'a Else, texts: &mut Items<&'a [u8]>) -> Result<(), AllocError>
    ensures { OnOk result (texts_seen texts.new
        ≡ texts_seen texts.old ++ texts_of (c.else_bound (view.else_of other.now))) }
{
    match other {
        Else::Nothing => Ok(()),
        Else::Last(block) => add_block(block, texts),
        Else::Chained(choice) => add_if(choice.get(), texts),
    }
}

#[cycle(bound)]
fn add_arms<'a>(arms: &'a [Arm], texts: &mut Items<&'a [u8]>) -> Result<(), AllocError>
    ensures { OnOk result (texts_seen texts.new
        ≡ texts_seen texts.old ++ flat_map arm_texts (map view.arm_of arms.now)) }
{
    for arm in arms {
        add_arm(arm, texts)?;
    }
    Ok(())
}

#[cycle(bound)]
fn add_arm<'a>(arm: &'a Arm, texts: &mut Items<&'a [u8]>) -> Result<(), AllocError>
    ensures { OnOk result (texts_seen texts.new
        ≡ texts_seen texts.old ++ arm_texts (view.arm_of arm.now)) }
{
    add_names(arm.variables.as_slice(), texts)?;
    add_block(&arm.body, texts)
}

// ---- declarations

fn add_header<'a>(params: &'a [HeaderKey], texts: &mut Items<&'a [u8]>) -> Result<(), AllocError>
    ensures { OnOk result (texts_seen texts.new ≡ texts_seen texts.old
        ++ texts_of (map (λ p. p.key) (map view.header_key_of params.now))) }
{
    for param in params {
        texts.push(param.key.text.as_slice())?;
    }
    Ok(())
}

/// What a declaration binds.
pub fn add_bound<'a>(decl: &'a Decl, texts: &mut Items<&'a [u8]>) -> Result<(), AllocError>
    ensures { OnOk result (texts_seen texts.new
        ≡ texts_seen texts.old ++ texts_of (c.decl_bound (view.decl_of decl.now))) }
{
    match decl {
        Decl::StateSet { .. } | Decl::Abstract { .. } => Ok(()),
        Decl::Struct { params, .. } => add_header(params.as_slice(), texts),
        Decl::Variant { params, .. } => add_header(params.as_slice(), texts),
        Decl::Extern { head, .. } => add_head(head, texts),
        Decl::Function { head, body, .. } => {
            add_head(head, texts)?;
            add_block(body, texts)
        }
    }
}
