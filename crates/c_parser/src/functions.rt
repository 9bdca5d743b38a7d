//! Heads, functions with their bodies, and the whole.

ghost use Rattle.std.specs.Prelude.{◌≡◌, ◌+◌, ◌≤◌, ◌<◌, [], ◌∷◌, Bool, false, ◌&&◌, length, map, IfErr, IfOk, IsTrue};
ghost use Rattle.c_syntax.specs.Tokens as t;
ghost use Rattle.c_syntax.specs.Spelling.{declaration_then, head_then, params_then, result_then, spelling, type_then, vars_then};
ghost use Rattle.c_syntax.specs.Grammar.{AreStmts, IsUnit, language};
ghost use Rattle.c_parser.specs.View.{body_of, declaration_of, head_of, unit_of};
ghost use Rattle.c_lexer.specs.View.{tokens_from};
ghost use Rattle.c_parser.specs.Parsing.{Reads, ReadsBody, ReadsParams, ReadsSome};
ghost use Rattle.c_syntax.specs.declared.token.CSign.TheVariants.{OpenBrace, Semicolon};
ghost use Rattle.c_automaton.specs.Automaton as machine;
ghost use Rattle.c_parser.specs.Following.{ahead, before_bodies, Comes, Fails, HasNoBlock, Takes, Turns, TurnsWhere};
ghost use Rattle.c_automaton.specs.Ahead.{begins_sign, begins_with, after_head_of, functions_symbol, is_type};

use crate::cursor::{is_sign, is_word, refuse, sign, token, word};
use crate::error::ParseError;
use crate::lines::first_lines;
use crate::stmts::stmts;
use crate::unit::{Body, Declaration, Head, Unit};
use c_lexer::{Lexeme, Token};
use c_syntax::{CName, CResult, CSign, CWord};
use std::alloc::Global;
use vlt_base::Items;

/// How deep blocks may nest in the body of a function.
const ROOM: u8 = 191;

/// A type, and whether it is `vr_ref`.
#[tactic(auto, using(c_automaton::proofs::Taking::ref_type, c_automaton::proofs::Taking::long_type))]
fn type_at(lexemes: &[Lexeme<'_>], at: usize) -> Result<(bool, usize), ParseError>
    ensures reads { IfOk result (λ x. Reads lexemes.now at x.1 (type_then x.0)) }
    ensures follows { Takes (machine.type ∷ []) lexemes.now at result }
{
    if is_word(lexemes, at, CWord::Ref) {
        return Ok((true, at + 1));
    }
    let second = word(lexemes, at, CWord::Long)?;
    let next = word(lexemes, second, CWord::Long)?;
    Ok((false, next))
}

/// What a function gives.
#[tactic(auto, using(c_automaton::proofs::Taking::void_taken, crate::proofs::Automata::head_here))]
fn result_at(lexemes: &[Lexeme<'_>], at: usize) -> Result<(CResult, usize), ParseError>
    requires { at < length lexemes.now }
    ensures reads { IfOk result (λ x. Reads lexemes.now at x.1 (result_then x.0)) }
    ensures follows { (all : Bool) → Turns (functions_symbol all ∷ [])
        (machine.head_rest (after_head_of all)) (λ x. x.1) lexemes.now at result }
{
    if is_word(lexemes, at, CWord::Void) {
        return Ok((CResult::Nothing, at + 1));
    }
    let (reference, next) = type_at(lexemes, at)?;
    if reference {
        Ok((CResult::Reference, next))
    } else {
        Ok((CResult::Number, next))
    }
}

/// A name with its type.
fn declaration(lexemes: &[Lexeme<'_>], at: usize) -> Result<(Declaration, usize), ParseError>
    ensures reads { IfOk result (λ x. Reads lexemes.now at x.1
        (declaration_then (declaration_of x.0))) }
    ensures follows { Takes (machine.type ∷ machine.any_variable ∷ []) lexemes.now at result }
{
    let (reference, next) = type_at(lexemes, at)?;
    match token(lexemes, next) {
        Some(Token::Var(variable)) => Ok((
            Declaration {
                reference,
                variable,
            },
            next + 1,
        )),
        _ => Err(refuse(lexemes, next)),
    }
}

/// The parameters after the first, and the closing parenthesis.
#[tactic(auto, using(c_automaton::proofs::Taking::comma_param, c_automaton::proofs::Taking::more_params_end))]
fn more_params(
    alloc: Global,
    lexemes: &[Lexeme<'_>],
    at: usize,
    first: Declaration,
) -> Result<(Items<Declaration>, usize), ParseError>
    ensures reads { IfOk result (λ x. ReadsParams lexemes.now at x.1 (declaration_of first)
        (map declaration_of x.0)) }
    ensures follows { Takes (machine.more_params ∷ []) lexemes.now at result }
{
    let mut params = Items::new(alloc);
    params.push(first)?;
    let mut here = at;
    while is_sign(lexemes, here, CSign::Comma) {
        let (param, next) = declaration(lexemes, here + 1)?;
        params.push(param)?;
        here = next;
    }
    let next = sign(lexemes, here, CSign::CloseParen)?;
    Ok((params, next))
}

/// Parameters, and the closing parenthesis.
#[tactic(auto, using(c_automaton::proofs::Taking::void_params, c_automaton::proofs::Taking::params_begin))]
fn params(
    alloc: Global,
    lexemes: &[Lexeme<'_>],
    at: usize,
) -> Result<(Items<Declaration>, usize), ParseError>
    ensures reads { IfOk result (λ x. Reads lexemes.now at x.1
        (params_then (map declaration_of x.0))) }
    ensures follows { Takes (machine.params ∷ []) lexemes.now at result }
{
    if is_word(lexemes, at, CWord::Void) {
        let next = sign(lexemes, at + 1, CSign::CloseParen)?;
        return Ok((Items::new(alloc), next));
    }
    let (first, next) = declaration(lexemes, at)?;
    more_params(alloc, lexemes, next, first)
}

/// The name of a function.
fn name(lexemes: &[Lexeme<'_>], at: usize) -> Result<CName, ParseError>
    ensures reads { IfOk result (λ f. Reads lexemes.now at (at + 1) (λ rest. t.name f ∷ rest)) }
    ensures follows { Turns (machine.any_name ∷ []) [] (λ f. at + 1)
        lexemes.now at result }
{
    match token(lexemes, at) {
        Some(Token::Name(name)) => Ok(name),
        _ => Err(refuse(lexemes, at)),
    }
}

/// The head of a function.
fn head(alloc: Global, lexemes: &[Lexeme<'_>], at: usize) -> Result<(Head, usize), ParseError>
    requires { at < length lexemes.now }
    ensures reads { IfOk result (λ x. Reads lexemes.now at x.1 (head_then (head_of x.0))) }
    ensures follows { (all : Bool) → Turns (functions_symbol all ∷ [])
        (after_head_of all) (λ x. x.1) lexemes.now at result }
{
    let (given, next) = result_at(lexemes, at)?;
    let name = name(lexemes, next)?;
    let open = sign(lexemes, next + 1, CSign::OpenParen)?;
    let (params, next) = params(alloc, lexemes, open)?;
    Ok((
        Head {
            result: given,
            name,
            params,
        },
        next,
    ))
}

/// Whether a type begins at a position.
fn begins_type(lexemes: &[Lexeme<'_>], at: usize) -> bool
    ensures { result ≡ begins_with is_type (ahead lexemes.now at) }
{
    is_word(lexemes, at, CWord::Ref) || is_word(lexemes, at, CWord::Long)
}

/// The declaration of a variable, with its semicolon.
fn var(lexemes: &[Lexeme<'_>], at: usize) -> Result<(Declaration, usize), ParseError>
    ensures reads { IfOk result (λ x. Reads lexemes.now at x.1
        (λ rest. declaration_then (declaration_of x.0) (t.sign Semicolon ∷ rest))) }
    ensures follows { Takes
        (machine.type ∷ machine.any_variable ∷ machine.sign Semicolon ∷ [])
        lexemes.now at result }
{
    let (var, next) = declaration(lexemes, at)?;
    let next = sign(lexemes, next, CSign::Semicolon)?;
    Ok((var, next))
}

/// The declarations of variables.
#[tactic(auto, using(c_automaton::proofs::Taking::var_begins, c_automaton::proofs::Taking::no_type))]
fn vars(
    alloc: Global,
    lexemes: &[Lexeme<'_>],
    at: usize,
) -> Result<(Items<Declaration>, usize), ParseError>
    requires { at ≤ length lexemes.now }
    ensures reads { IfOk result (λ x. ReadsSome lexemes.now at x.1
        (vars_then (map declaration_of x.0))) }
    ensures follows { Turns (machine.body ∷ []) (machine.stmts false ∷ []) (λ x. x.1)
        lexemes.now at result }
{
    let mut vars = Items::new(alloc);
    let mut here = at;
    while begins_type(lexemes, here) {
        let (var, next) = var(lexemes, here)?;
        vars.push(var)?;
        here = next;
    }
    Ok((vars, here))
}

/// A function, after its head.
fn body(
    alloc: Global,
    lexemes: &[Lexeme<'_>],
    at: usize,
    head: Head,
) -> Result<(Body, usize), ParseError>
    ensures reads { IfOk result (λ x. ReadsBody lexemes.now at x.1 (head_of head) (body_of x.0)) }
    ensures are { IfOk result (λ x. AreStmts language.expressions 191 (body_of x.0).stmts) }
    ensures follows { TurnsWhere HasNoBlock (machine.sign OpenBrace ∷ machine.body ∷ [])
        [] (λ x. x.1) lexemes.now at result }
{
    let open = sign(lexemes, at, CSign::OpenBrace)?;
    let (vars, next) = vars(alloc, lexemes, open)?;
    let (stmts, next) = stmts(alloc, lexemes, next, ROOM)?;
    Ok((Body { head, vars, stmts }, next))
}

/// Whether a head that ends at a position stands without a body, before all functions that have one.
fn is_alone(lexemes: &[Lexeme<'_>], at: usize, bodies: &[Body]) -> bool
    ensures is { result ≡
        (before_bodies bodies.now && begins_sign Semicolon (ahead lexemes.now at)) }
    ensures none { IsTrue result → bodies.now ≡ [] }
    ensures reads { IsTrue result →
        Reads lexemes.now at (at + 1) (λ rest. t.sign Semicolon ∷ rest) }
    ensures comes { IsTrue result → Comes (t.sign Semicolon) lexemes.now at (at + 1) }
{
    bodies.is_empty() && is_sign(lexemes, at, CSign::Semicolon)
}

/// All tokens of a text.
pub fn unit(alloc: Global, lexemes: &[Lexeme<'_>]) -> Result<Unit, ParseError>
    ensures spelled { IfOk result (λ u. tokens_from lexemes.now 0 ≡ spelling (unit_of u)) }
    ensures within { IfOk result (λ u. IsUnit language (unit_of u)) }
    ensures follows { IfErr result
        (Fails (machine.run language machine.start (ahead lexemes.now 0))) }
{
    let main = first_lines(lexemes)?;
    let mut heads = Vec::new(alloc);
    let mut bodies = Vec::new(alloc);
    let mut here = 5;
    while here < lexemes.len() {
        let (head, next) = head(alloc, lexemes, here)?;
        if is_alone(lexemes, next, &bodies) {
            heads.push(head)?;
            here = next + 1;
        } else {
            let (body, next) = body(alloc, lexemes, next, head)?;
            bodies.push(body)?;
            here = next;
        }
    }
    Ok(Unit {
        main,
        heads,
        bodies,
    })
}
