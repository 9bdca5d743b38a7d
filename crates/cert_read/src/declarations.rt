//! Declarations, one after another, as far as their rows go.

ghost use Rattle.std.specs.Prelude.{◌≡◌, ◌≤◌, ◌<◌, ◌==◌, ◌&&◌, if◌then◌else◌, Some, None, nat_le, length, option_map, IfOk, OnOk};
ghost use Rattle.vlt_core.specs.Core as core;
ghost use Rattle.vlt_core.specs.View.{type_of, stmts_of, func_of, header_of};
ghost use Rattle.cert_rows.specs.Rows as s;
ghost use Rattle.cert_format.specs.Pieces as pieces;
ghost use Rattle.cert_format.specs.Bodies.{size_list};
ghost use Rattle.cert_format.specs.Endings.{or_else};
ghost use Rattle.cert_read_decls.specs.Rows.{fn_of, row_of, struct_of};
ghost use Rattle.cert_read_bodies.specs.Tree.{drafts_of};
ghost use Rattle.cert_read.specs.Declarations.{phase_number, Stands, Goes, GoesBySet, GoesByType, GoesByExternal, AddsBody, AreRead};

use crate::bounds::{are_bounds_known, instances};
use crate::cases::{decl_at, read_cases};
use cert_read_bodies::{Draft, MapsNote, Notes, read_block, stmts};
use cert_read_decls::{AbstractRow, DeclRow, FnRow, StructRow, VariantRow};
use cert_read_rows::Head;
use serde_json::Value;
use std::alloc::{AllocError, Global};
use vlt_base::{Boxed, FnId, Items};
use vlt_core::{Func, Program, SetDecl, Stmt, TypeDecl};

/// Which declarations come next: sets stand before types, and types before functions.
#[derive(Clone, Copy)]
pub enum Phase {
    Sets,
    Types,
    Functions,
}

impl Phase {
    fn takes_sets(self) -> bool
        ensures { result ≡ nat_le (phase_number self) 0 }
    {
        match self {
            Phase::Sets => true,
            _ => false,
        }
    }

    fn takes_types(self) -> bool
        ensures { result ≡ nat_le (phase_number self) 1 }
    {
        match self {
            Phase::Functions => false,
            _ => true,
        }
    }
}

/// What is read so far.
#[derive(Drop)]
pub struct Declarations {
    /// The sets and the types; no functions.
    pub tables: Program,
    pub fns: Items<Func>,
    /// The notes of each function; none of an external.
    pub notes: Items<Items<MapsNote>>,
    pub phase: Phase,
    /// The row that comes next.
    pub at: usize,
    /// The first row that has 0 in place of maps, or maps in place of 0, against what its blocks say.
    pub wrong: Option<usize>,
}

/// What the next rows say.
#[derive(Clone, Copy)]
pub enum Next {
    /// No declaration that may stand here.
    Nothing,
    Whole,
    /// One that breaks off: cases or statements are missing.
    Part,
}

/// The first of two rows, where the other one comes later.
fn or_else(a: Option<usize>, b: Option<usize>) -> Option<usize>
    ensures { result ≡ or_else a b }
{
    match a {
        Some(row) => Some(row),
        None => b,
    }
}

fn add_set(read: &mut Declarations, set: SetDecl) -> Result<Next, AllocError>
    requires { read.old.at < 18446744073709551615 }
    ensures { IfOk result (GoesBySet read.old read.new set) }
{
    if !read.phase.takes_sets() {
        return Ok(Next::Nothing);
    }
    read.tables.sets.push(set)?;
    read.at += 1;
    Ok(Next::Whole)
}

fn add_type(read: &mut Declarations, decl: TypeDecl) -> Result<Next, AllocError>
    requires { read.old.at < 18446744073709551615 }
    ensures { IfOk result (GoesByType read.old read.new decl) }
{
    if !read.phase.takes_types() {
        return Ok(Next::Nothing);
    }
    read.tables.types.push(decl)?;
    read.phase = Phase::Types;
    read.at += 1;
    Ok(Next::Whole)
}

fn abstract_type(row: AbstractRow) -> TypeDecl
    ensures { type_of result ≡ core.an_abstract row.name (option_map (λ i. i.0) row.set) }
{
    TypeDecl::Abstract {
        name: row.name,
        set: row.set,
    }
}

fn struct_type(row: StructRow) -> TypeDecl
    ensures { type_of result ≡ core.a_struct (struct_of row) }
{
    TypeDecl::Struct {
        name: row.name,
        header: row.header,
        set: row.set,
        release: row.release,
        fields: row.fields,
    }
}

/// The function of a row, with this body.
fn function(external: bool, row: FnRow, body: Items<Stmt>) -> Func
    ensures { func_of result ≡ pieces.func_of external (fn_of row) (stmts_of body) }
{
    Func {
        name: row.name,
        external,
        result: row.result,
        params: row.params,
        clause: row.lists.clause,
        keys: row.lists.keys,
        vars: row.lists.vars,
        body,
        end: 0,
    }
}

/// A variant with its cases, as far as their rows go.
fn add_variant(
    alloc: Global,
    ordered: bool,
    rows: &[Value],
    read: &mut Declarations,
    row: VariantRow,
) -> Result<Next, AllocError>
    requires there { Stands ordered rows.now read.old.at
        (s.variant_type row.name (header_of row.header) row.cases) }
    requires room { read.old.at < 18446744073709551615 }
    ensures { IfOk result (Goes ordered rows.now read.old read.new) }
{
    let found = read_cases(alloc, ordered, rows, read.at + 1, row.cases)?;
    let whole = found.cases.len() == row.cases as usize;
    let decl = TypeDecl::Variant {
        name: row.name,
        header: row.header,
        cases: found.cases,
    };
    match add_type(read, decl)? {
        Next::Nothing => Ok(Next::Nothing),
        _ => {
            read.at = found.at;
            if whole {
                Ok(Next::Whole)
            } else {
                Ok(Next::Part)
            }
        }
    }
}

fn add_external(
    alloc: Global,
    read: &mut Declarations,
    row: Boxed<FnRow>,
) -> Result<Next, AllocError>
    requires { read.old.at < 18446744073709551615 }
    ensures { IfOk result (GoesByExternal read.old read.new (fn_of row)) }
{
    if !are_bounds_known(&read.tables, row.get()) {
        return Ok(Next::Nothing);
    }
    let f = function(true, row.into_inner(), Items::new(alloc));
    read.fns.push(f)?;
    read.notes.push(Items::new(alloc))?;
    read.phase = Phase::Functions;
    read.at += 1;
    Ok(Next::Whole)
}

/// The function of a row, with the body of these drafts and their notes.
fn add_body(
    alloc: Global,
    read: &mut Declarations,
    row: Boxed<FnRow>,
    drafts: Items<Draft>,
) -> Result<(), AllocError>
    requires { size_list (drafts_of drafts) ≤ 18446744073709551615 }
    ensures { OnOk result (AddsBody read.old read.new (fn_of row) (drafts_of drafts)) }
{
    let mut notes = Notes {
        next: 0,
        list: Items::new(alloc),
    };
    let body = stmts(alloc, drafts, &mut notes)?;
    read.fns.push(function(false, row.into_inner(), body))?;
    read.notes.push(notes.list)?;
    Ok(())
}

/// A function with its body, as far as its rows go.
fn add_function(
    alloc: Global,
    ordered: bool,
    rows: &[Value],
    read: &mut Declarations,
    row: Boxed<FnRow>,
) -> Result<Next, AllocError>
    requires there { Stands ordered rows.now read.old.at (s.function (fn_of row)) }
    requires room { read.old.at < 18446744073709551615 }
    ensures { IfOk result (Goes ordered rows.now read.old read.new) }
{
    if !are_bounds_known(&read.tables, row.get()) {
        return Ok(Next::Nothing);
    }
    let instances = instances(&read.tables, row.get());
    let head = Head {
        count: row.get().count,
        bound: Items::new(alloc),
    };
    let body = read_block(alloc, instances, rows, read.at + 1, 1, head)?;
    read.at = body.at;
    read.wrong = or_else(read.wrong, body.wrong);
    read.phase = Phase::Functions;
    if !body.whole {
        return Ok(Next::Part);
    }
    let block = body.block;
    add_body(alloc, read, row, block.stmts)?;
    Ok(Next::Whole)
}

fn add_row(
    alloc: Global,
    ordered: bool,
    rows: &[Value],
    read: &mut Declarations,
    row: DeclRow,
) -> Result<Next, AllocError>
    requires there { Stands ordered rows.now read.old.at (row_of row) }
    requires room { read.old.at < 18446744073709551615 }
    ensures { IfOk result (Goes ordered rows.now read.old read.new) }
{
    match row {
        DeclRow::States(set) => add_set(read, set),
        DeclRow::Abstract(row) => add_type(read, abstract_type(row)),
        DeclRow::Struct(row) => add_type(read, struct_type(row)),
        DeclRow::Variant(row) => add_variant(alloc, ordered, rows, read, row),
        DeclRow::Extern(row) => add_external(alloc, read, row),
        DeclRow::Fn(row) => add_function(alloc, ordered, rows, read, row),
        DeclRow::Version(_) => Ok(Next::Nothing),
        DeclRow::Case(_) => Ok(Next::Nothing),
    }
}

/// The declaration that the next rows say.
fn add_next(
    alloc: Global,
    ordered: bool,
    rows: &[Value],
    read: &mut Declarations,
) -> Result<Next, AllocError>
    ensures { IfOk result (Goes ordered rows.now read.old read.new) }
{
    if read.at >= rows.len() {
        return Ok(Next::Nothing);
    }
    match decl_at(alloc, ordered, rows, read.at)? {
        Some(row) => add_row(alloc, ordered, rows, read, row),
        None => Ok(Next::Nothing),
    }
}

/// At most so many declarations.
const MOST_DECLARATIONS: u32 = 4096;

/// The first row that isn't of its form, where `count` rows are there: one that is against what its blocks say, or else
/// the one at which the declarations break off.
fn first_fault(read: &Declarations, count: usize, whole: bool) -> Option<usize>
    ensures { result ≡ or_else read.now.wrong
        (if whole && (read.now.at == count) then None else Some read.now.at) }
{
    let end = if whole && read.at == count {
        None
    } else {
        Some(read.at)
    };
    or_else(read.wrong, end)
}

/// The declarations of rows from the second one on, and the first row that isn't of its form.
pub(crate) fn read_declarations(
    alloc: Global,
    ordered: bool,
    rows: &[Value],
) -> Result<(Declarations, Option<usize>), AllocError>
    requires { 1 ≤ length rows.now }
    ensures { IfOk result (λ r. AreRead ordered rows.now r.0 r.1) }
{
    let mut read = Declarations {
        tables: Program {
            sets: Items::new(alloc),
            types: Items::new(alloc),
            fns: Items::new(alloc),
            main: FnId(0),
        },
        fns: Items::new(alloc),
        notes: Items::new(alloc),
        phase: Phase::Sets,
        at: 1,
        wrong: None,
    };
    let count = rows.len();
    for turn in 0..MOST_DECLARATIONS {
        match add_next(alloc, ordered, rows, &mut read)? {
            Next::Whole => {}
            Next::Nothing => {
                let fault = first_fault(&read, count, true);
                return Ok((read, fault));
            }
            Next::Part => {
                let fault = first_fault(&read, count, false);
                return Ok((read, fault));
            }
        }
    }
    let fault = first_fault(&read, count, true);
    Ok((read, fault))
}
