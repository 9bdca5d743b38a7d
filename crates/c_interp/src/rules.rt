//! What a run keeps as it is.

ghost use Rattle.std.specs.Prelude.{◌≡◌, ◌<◌, map, length, ℕ, Some, IfOk, IfSome, slice_get};
ghost use Rattle.c_syntax.specs.View.{func_of, program_of};
ghost use Rattle.c_meaning.specs.Run.{find_in, function_of, number_at, main_of};
ghost use Rattle.c_interp.specs.Finding.{position_of, firsts_from, IsFoundAs, AreNumbered, AreRulesOf};

use c_machine::list_count;
use c_syntax::{CFunc, CName, CProgram};
use std::alloc::Global;
use vlt_base::Memory;

/// What a run keeps as it is.
#[derive(Drop)]
pub struct Rules<'a> {
    pub program: &'a CProgram,
    /// The numbers of the first statements of glue.
    pub glue: Vec<u32>,
    /// The numbers of the first statements of functions.
    pub fns: Vec<u32>,
    /// How many statements there are.
    pub count: u32,
    pub depth: u32,
    pub heap: u32,
}

/// A function, and the number of its first statement.
#[derive(Clone, Copy)]
pub struct Found<'a> {
    pub func: &'a CFunc,
    pub first: u32,
}

/// The numbers of the first statements of functions, and the number after their last statement.
#[derive(Drop)]
pub struct Numbers {
    pub firsts: Vec<u32>,
    pub end: u32,
}

/// The numbers of functions, of which the first statement has that number.
pub fn number_all(alloc: Global, start: u32, fns: &[CFunc]) -> Result<Numbers, Memory>
    ensures { IfOk result (λ q. AreNumbered start (map func_of fns.now) q) }
{
    let mut firsts = Vec::new(alloc);
    let mut next = start;
    for f in fns {
        firsts.push(next)?;
        next = next.saturating_add(list_count(f.body.as_slice()));
    }
    Ok(Numbers { firsts, end: next })
}

/// The position of the function of a number.
fn position(fns: &[CFunc], number: u64) -> Option<usize>
    ensures is { result ≡ position_of (map func_of fns.now) number }
    ensures within { IfSome result (λ i. i < length fns.now) }
{
    for i in 0..fns.len() {
        if fns[i].number == number {
            return Some(i);
        }
    }
    None
}

/// The function at a position.
fn func_at(fns: &[CFunc], i: usize) -> &CFunc
    requires { i < length fns.now }
    ensures { slice_get fns.now i ≡ Some result.now }
{
    &fns[i]
}

/// The number at a position.
fn first_at(firsts: &[u32], i: usize) -> u32
    requires { i < length firsts.now }
    ensures { slice_get firsts.now i ≡ Some result }
{
    firsts[i]
}

/// The function of a number, among those of which the first statements have these numbers.
fn among<'a>(fns: &'a [CFunc], firsts: &[u32], number: u64) -> Option<Found<'a>>
    requires { length firsts.now ≡ length fns.now }
    ensures { (n : ℕ) → firsts.now ≡ firsts_from n (map func_of fns.now) →
        IsFoundAs result (find_in n (map func_of fns.now) number) }
{
    match position(fns, number) {
        Some(i) => Some(Found {
            func: func_at(fns, i),
            first: first_at(firsts, i),
        }),
        None => None,
    }
}

/// What a run of the program keeps as it is.
pub fn rules_of<'a>(
    alloc: Global,
    c: &'a CProgram,
    depth: u32,
    heap: u32,
) -> Result<Rules<'a>, Memory>
    ensures { IfOk result (λ r. AreRulesOf c.now depth heap r) }
{
    let Numbers { firsts: glue, end } = number_all(alloc, 0, c.glue.as_slice())?;
    let Numbers {
        firsts: fns,
        end: count,
    } = number_all(alloc, end, c.fns.as_slice())?;
    if count == u32::MAX {
        return Err(Memory);
    }
    Ok(Rules {
        program: c,
        glue,
        fns,
        count,
        depth,
        heap,
    })
}

/// The function at a position, among those of which the first statements have these numbers.
fn nth<'a>(fns: &'a [CFunc], firsts: &[u32], i: usize) -> Option<Found<'a>>
    requires { length firsts.now ≡ length fns.now }
    ensures { (n : ℕ) → firsts.now ≡ firsts_from n (map func_of fns.now) →
        IsFoundAs result (number_at n (map func_of fns.now) i) }
{
    if i < fns.len() {
        Some(Found {
            func: func_at(fns, i),
            first: first_at(firsts, i),
        })
    } else {
        None
    }
}

impl<'a> Rules<'a> {
    ghost use Rattle.c_interp.specs.Finding.{AreRules};

    /// The function of a name.
    pub fn find(&self, name: CName) -> Option<Found<'a>>
        requires { AreRules self.now }
        ensures { IsFoundAs result (function_of (program_of self.now.program.now) name) }
    {
        if name.glue {
            among(
                self.program.glue.as_slice(),
                self.glue.as_slice(),
                name.number,
            )
        } else {
            among(
                self.program.fns.as_slice(),
                self.fns.as_slice(),
                name.number,
            )
        }
    }

    /// The function that a run begins with.
    pub fn main(&self) -> Option<Found<'a>>
        requires { AreRules self.now }
        ensures { IsFoundAs result (main_of (program_of self.now.program.now)) }
    {
        nth(
            self.program.fns.as_slice(),
            self.fns.as_slice(),
            self.program.main as usize,
        )
    }
}
