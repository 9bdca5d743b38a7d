//! Statements with blocks. `room` is how many more blocks may stand in one another where a part stands.

ghost use Rattle.std.specs.Prelude.{◌≡◌, ◌∷◌, [], ◌-◌, ◌≤◌, None, length, map, IfOk, IfErr, OnOk};
ghost use Rattle.vlt_base.specs.declared.limits.TheConstants as limits;
ghost use Rattle.vlt_tokens.specs.declared.token.TokenKind.TheVariants as kinds;
ghost use Rattle.vlt_tokens.specs.declared.token.Word.TheVariants as words;
ghost use Rattle.vlt_tokens.specs.declared.token.Mark.TheVariants.{OpenParen, CloseParen, OpenBrace, CloseBrace, Colon};
ghost use Rattle.vlt_syntax.specs.Tokens.{sign as a_sign};
ghost use Rattle.vlt_syntax.specs.Spelling.{stmt_then, block_then, if_then, else_then, arms_then};
ghost use Rattle.vlt_syntax.specs.Grammar.{IsStmt, IsBlock, IsIf, IsElse, IsSomeArm, AreArms, language};
ghost use Rattle.vlt_syntax.specs.Places.{arms_at, block_at, else_at, if_at, stmt_at};
ghost use Rattle.vlt_syntax.specs.View.{stmt_of, block_of, if_of, else_of, arm_of, arms_of, arms_made, name_of};
ghost use Rattle.vlt_parser_exprs.specs.declared.error.ParseError.TheVariants.{Limit};
ghost use Rattle.vlt_automaton.specs.Language as automaton;
ghost use Rattle.vlt_parser_exprs.specs.Reading.{tokens_from, Stands};
ghost use Rattle.vlt_parser_stmts.specs.Statements.{focus_then, focus_at, switch_then, switch_at, case_then, case_at, rows_at};
ghost use Rattle.vlt_parser_exprs.specs.Promises.{Advances, Holds, KindComes, Lies, MayAdvance, Spells, Takes};

use std::alloc::Global;
use vlt_base::{Boxed, DEPTH, Items};
use vlt_parser_exprs::ParseError;
use vlt_parser_exprs::lists::enclosed;
use vlt_parser_exprs::tokens::{after_sign, case_name, keyword, kind, name, sign, span};
use vlt_parser_simple::simple::{condition, simple};
use vlt_syntax::{Arm, Block, Else, If, Name, Stmt};
use vlt_tokens::{Mark, Token, TokenKind, Word};

/// Whether one more block may stand here.
fn enter(room: usize) -> Result<(), ParseError>
    ensures some { OnOk result (1 ≤ room) }
    ensures full { IfErr result (λ e. (room ≡ 0) × (e ≡ Limit limits.DEPTH)) }
{
    if room == 0 {
        return Err(ParseError::Limit(DEPTH));
    }
    Ok(())
}

/// What a `focus` names, up to its block.
#[derive(Drop)]
struct FocusHead {
    variable: Name,
    key: Name,
    alias: Name,
}

/// `focus y as tracked(K) z`
fn focus_head(
    alloc: Global,
    tokens: &[Token<'_>],
    at: usize,
) -> Result<(FocusHead, usize), ParseError>
    ensures spelled { IfOk result (λ x. tokens_from tokens.now at ≡
        focus_then (name_of x.0.variable) (name_of x.0.key) (name_of x.0.alias)
        (tokens_from tokens.now x.1)) }
    ensures placed { IfOk result (λ x. Stands focus_at
        tokens.now at (name_of x.0.variable, name_of x.0.key, name_of x.0.alias) x.1) }
    ensures moves { Advances tokens.now at result }
    ensures takes { Takes (automaton.keyword words.Focus ∷ automaton.name ∷
        automaton.keyword words.As ∷ automaton.keyword words.Tracked ∷
        automaton.sign OpenParen ∷ automaton.name ∷ automaton.sign CloseParen ∷
        automaton.name ∷ []) tokens.now at result }
{
    let next = keyword(tokens, at, Word::Focus)?;
    let (variable, next) = name(alloc, tokens, next)?;
    let next = keyword(tokens, next, Word::As)?;
    let next = keyword(tokens, next, Word::Tracked)?;
    let next = sign(tokens, next, Mark::OpenParen)?;
    let (key, next) = name(alloc, tokens, next)?;
    let next = sign(tokens, next, Mark::CloseParen)?;
    let (alias, next) = name(alloc, tokens, next)?;
    Ok((
        FocusHead {
            variable,
            key,
            alias,
        },
        next,
    ))
}

/// `switch (x) {`
fn switch_head(alloc: Global, tokens: &[Token<'_>], at: usize) -> Result<(Name, usize), ParseError>
    ensures spelled { Spells name_of switch_then tokens.now at result }
    ensures placed { Lies name_of switch_at tokens.now at result }
    ensures moves { Advances tokens.now at result }
    ensures takes { Takes (automaton.keyword words.Switch ∷ automaton.sign OpenParen ∷
        automaton.name ∷ automaton.sign CloseParen ∷ automaton.sign OpenBrace ∷ [])
        tokens.now at result }
{
    let next = keyword(tokens, at, Word::Switch)?;
    let next = sign(tokens, next, Mark::OpenParen)?;
    let (variable, next) = name(alloc, tokens, next)?;
    let next = sign(tokens, next, Mark::CloseParen)?;
    let next = sign(tokens, next, Mark::OpenBrace)?;
    Ok((variable, next))
}

/// What an arm has before its block.
#[derive(Drop)]
struct ArmHead {
    case: Name,
    variables: Items<Name>,
}

/// `case 'A(v, w):`
fn arm_head(alloc: Global, tokens: &[Token<'_>], at: usize) -> Result<(ArmHead, usize), ParseError>
    ensures spelled { IfOk result (λ x. tokens_from tokens.now at ≡
        case_then (name_of x.0.case) (map name_of x.0.variables) (tokens_from tokens.now x.1)) }
    ensures placed { IfOk result (λ x. Stands case_at
        tokens.now at (name_of x.0.case, map name_of x.0.variables) x.1) }
    ensures moves { Advances tokens.now at result }
    ensures takes { Takes (automaton.keyword words.Case ∷ automaton.tick ∷
        automaton.enclosed automaton.a_name OpenParen CloseParen None ∷
        automaton.sign Colon ∷ []) tokens.now at result }
{
    let next = keyword(tokens, at, Word::Case)?;
    let (case, next) = case_name(alloc, tokens, next)?;
    let (variables, next) = enclosed(alloc, tokens, next, Mark::OpenParen, Mark::CloseParen, None)?;
    let next = sign(tokens, next, Mark::Colon)?;
    Ok((ArmHead { case, variables }, next))
}

/// A block, where one may stand.
#[tactic(auto, using(crate::proofs::Blocks::block_is, crate::proofs::Blocks::stmts_closed))]
#[cycle(statements)]
pub fn block(
    alloc: Global,
    tokens: &[Token<'_>],
    at: usize,
    room: usize,
) -> Result<(Block, usize), ParseError>
    requires { 1 ≤ room }
    ensures spelled { Spells block_of block_then tokens.now at result }
    ensures placed { Lies block_of block_at tokens.now at result }
    ensures right { Holds block_of (IsBlock language room) result }
    ensures moves { Advances tokens.now at result }
    ensures takes { Takes (automaton.block room ∷ []) tokens.now at result }
{
    let inside = sign(tokens, at, Mark::OpenBrace)?;
    let mut stmts = Items::new(alloc);
    let mut here = inside;
    loop {
        if let Some(end) = after_sign(tokens, here, Mark::CloseBrace) {
            let at = span(tokens, at, end);
            return Ok((Block { stmts, at }, end));
        }
        let (next, following) = stmt(alloc, tokens, here, room - 1)?;
        stmts.push(next)?;
        here = following;
    }
}

#[tactic(auto, using(crate::proofs::Blocks::stmt_block, crate::proofs::Blocks::stmt_too_deep, crate::proofs::Blocks::stmt_simple, vlt_parser_exprs::proofs::Runs::instead))]
#[cycle(statements)]
fn stmt(
    alloc: Global,
    tokens: &[Token<'_>],
    at: usize,
    room: usize,
) -> Result<(Stmt, usize), ParseError>
    ensures spelled { Spells stmt_of stmt_then tokens.now at result }
    ensures placed { Lies stmt_of stmt_at tokens.now at result }
    ensures right { Holds stmt_of (IsStmt language room) result }
    ensures moves { Advances tokens.now at result }
    ensures takes { Takes (automaton.thing (automaton.a_stmt room) ∷ []) tokens.now at result }
{
    match kind(tokens, at) {
        Some(TokenKind::Sign(Mark::OpenBrace)) => {
            enter(room)?;
            let (body, next) = block(alloc, tokens, at, room)?;
            Ok((Stmt::Block(body), next))
        }
        Some(TokenKind::Keyword(Word::If)) => {
            let (choice, next) = if_stmt(alloc, tokens, at, room)?;
            Ok((Stmt::If(choice), next))
        }
        Some(TokenKind::Keyword(Word::While)) => while_stmt(alloc, tokens, at, room),
        Some(TokenKind::Keyword(Word::Switch)) => switch(alloc, tokens, at, room),
        Some(TokenKind::Keyword(Word::Focus)) => focus(alloc, tokens, at, room),
        _ => simple(alloc, tokens, at),
    }
}

/// An `if`, which stands here or after an `else`.
#[tactic(auto, using(crate::proofs::Blocks::stmt_enters, crate::proofs::Blocks::stmt_too_deep))]
#[cycle(statements)]
fn if_stmt(
    alloc: Global,
    tokens: &[Token<'_>],
    at: usize,
    room: usize,
) -> Result<(If, usize), ParseError>
    requires { KindComes (kinds.Keyword words.If) tokens.now at }
    ensures spelled { Spells if_of if_then tokens.now at result }
    ensures placed { Lies if_of if_at tokens.now at result }
    ensures right { Holds if_of (IsIf language room) result }
    ensures moves { Advances tokens.now at result }
    ensures takes { Takes (automaton.thing (automaton.a_stmt room) ∷ []) tokens.now at result }
{
    let next = keyword(tokens, at, Word::If)?;
    enter(room)?;
    let (condition, next) = condition(alloc, tokens, next)?;
    let (then_block, next) = block(alloc, tokens, next, room)?;
    let (otherwise, next) = otherwise(alloc, tokens, next, room)?;
    let at = span(tokens, at, next);
    Ok((
        If {
            condition,
            then_block,
            otherwise,
            at,
        },
        next,
    ))
}

/// What stands after `else`, if that comes next.
#[tactic(auto, using(crate::proofs::Blocks::otherwise_some, crate::proofs::Blocks::otherwise_none, crate::proofs::Blocks::else_if, crate::proofs::Blocks::else_block))]
#[cycle(statements)]
fn otherwise(
    alloc: Global,
    tokens: &[Token<'_>],
    at: usize,
    room: usize,
) -> Result<(Else, usize), ParseError>
    requires room { 1 ≤ room }
    requires within { at ≤ length tokens.now }
    ensures spelled { Spells else_of else_then tokens.now at result }
    ensures placed { Lies else_of else_at tokens.now at result }
    ensures right { Holds else_of (IsElse language room) result }
    ensures moves { MayAdvance tokens.now at result }
    ensures takes { Takes (automaton.otherwise room ∷ []) tokens.now at result }
{
    let Ok(next) = keyword(tokens, at, Word::Else) else {
        return Ok((Else::Nothing, at));
    };
    if let Some(TokenKind::Keyword(Word::If)) = kind(tokens, next) {
        let (choice, next) = if_stmt(alloc, tokens, next, room - 1)?;
        return Ok((Else::Chained(Boxed::new(alloc, choice)?), next));
    }
    let (last, next) = block(alloc, tokens, next, room)?;
    Ok((Else::Last(last), next))
}

#[tactic(auto, using(crate::proofs::Blocks::stmt_enters, crate::proofs::Blocks::stmt_too_deep))]
#[cycle(statements)]
fn while_stmt(
    alloc: Global,
    tokens: &[Token<'_>],
    at: usize,
    room: usize,
) -> Result<(Stmt, usize), ParseError>
    requires { KindComes (kinds.Keyword words.While) tokens.now at }
    ensures spelled { Spells stmt_of stmt_then tokens.now at result }
    ensures placed { Lies stmt_of stmt_at tokens.now at result }
    ensures right { Holds stmt_of (IsStmt language room) result }
    ensures moves { Advances tokens.now at result }
    ensures takes { Takes (automaton.thing (automaton.a_stmt room) ∷ []) tokens.now at result }
{
    let next = keyword(tokens, at, Word::While)?;
    enter(room)?;
    let (condition, next) = condition(alloc, tokens, next)?;
    let (body, next) = block(alloc, tokens, next, room)?;
    let at = span(tokens, at, next);
    Ok((
        Stmt::While {
            condition,
            body,
            at,
        },
        next,
    ))
}

#[tactic(auto, using(crate::proofs::Blocks::focus_is, crate::proofs::Blocks::stmt_too_deep))]
#[cycle(statements)]
fn focus(
    alloc: Global,
    tokens: &[Token<'_>],
    at: usize,
    room: usize,
) -> Result<(Stmt, usize), ParseError>
    requires { KindComes (kinds.Keyword words.Focus) tokens.now at }
    ensures spelled { Spells stmt_of stmt_then tokens.now at result }
    ensures placed { Lies stmt_of stmt_at tokens.now at result }
    ensures right { Holds stmt_of (IsStmt language room) result }
    ensures moves { Advances tokens.now at result }
    ensures takes { Takes (automaton.thing (automaton.a_stmt room) ∷ []) tokens.now at result }
{
    enter(room)?;
    let (head, next) = focus_head(alloc, tokens, at)?;
    let (body, next) = block(alloc, tokens, next, room)?;
    let at = span(tokens, at, next);
    Ok((
        Stmt::Focus {
            variable: head.variable,
            key: head.key,
            alias: head.alias,
            body,
            at,
        },
        next,
    ))
}

#[tactic(auto, using(crate::proofs::Blocks::switch_is, crate::proofs::Blocks::stmt_too_deep))]
#[cycle(statements)]
fn switch(
    alloc: Global,
    tokens: &[Token<'_>],
    at: usize,
    room: usize,
) -> Result<(Stmt, usize), ParseError>
    requires { KindComes (kinds.Keyword words.Switch) tokens.now at }
    ensures spelled { Spells stmt_of stmt_then tokens.now at result }
    ensures placed { Lies stmt_of stmt_at tokens.now at result }
    ensures right { Holds stmt_of (IsStmt language room) result }
    ensures moves { Advances tokens.now at result }
    ensures takes { Takes (automaton.thing (automaton.a_stmt room) ∷ []) tokens.now at result }
{
    enter(room)?;
    let (variable, next) = switch_head(alloc, tokens, at)?;
    let (arms, next) = arms(alloc, tokens, next, room)?;
    let at = span(tokens, at, next);
    Ok((Stmt::Switch { variable, arms, at }, next))
}

/// The arms of a `switch`, up to the closing brace.
#[tactic(auto, using(crate::proofs::Blocks::arms_closed))]
#[cycle(statements)]
fn arms(
    alloc: Global,
    tokens: &[Token<'_>],
    at: usize,
    room: usize,
) -> Result<(Items<Arm>, usize), ParseError>
    requires { 1 ≤ room }
    ensures spelled { IfOk result (λ x. tokens_from tokens.now at ≡
        arms_then (arms_of x.0) (a_sign CloseBrace ∷ tokens_from tokens.now x.1)) }
    ensures placed { Lies arms_of rows_at tokens.now at result }
    ensures some { Holds arms_of IsSomeArm result }
    ensures right { Holds arms_of (AreArms language room) result }
    ensures moves { Advances tokens.now at result }
    ensures takes { Takes (automaton.arm room ∷ automaton.arms room ∷ []) tokens.now at result }
{
    let mut arms = Items::new(alloc);
    let mut here = at;
    loop {
        let (next, following) = arm(alloc, tokens, here, room)?;
        arms.push(next)?;
        if let Some(end) = after_sign(tokens, following, Mark::CloseBrace) {
            return Ok((arms, end));
        }
        here = following;
    }
}

#[tactic(auto, using(crate::proofs::Blocks::arm_is))]
#[cycle(statements)]
fn arm(
    alloc: Global,
    tokens: &[Token<'_>],
    at: usize,
    room: usize,
) -> Result<(Arm, usize), ParseError>
    requires { 1 ≤ room }
    ensures spelled { IfOk result (λ x. tokens_from tokens.now at
        ≡ arms_then (arms_made (arm_of x.0 ∷
        [])) (tokens_from tokens.now x.1)) }
    ensures placed { IfOk result (λ x. Stands arms_at tokens.now at (arms_made (arm_of x.0 ∷
        [])) x.1) }
    ensures right { IfOk result (λ x. AreArms language room (arms_made (arm_of x.0 ∷ []))) }
    ensures moves { Advances tokens.now at result }
    ensures takes { Takes (automaton.arm room ∷ []) tokens.now at result }
{
    let (head, next) = arm_head(alloc, tokens, at)?;
    let (body, next) = block(alloc, tokens, next, room)?;
    let at = span(tokens, at, next);
    Ok((
        Arm {
            case: head.case,
            variables: head.variables,
            body,
            at,
        },
        next,
    ))
}
