//! Declarations.

ghost use Rattle.std.specs.Prelude.{◌≡◌, ◌∷◌, [], ◌≤◌, length, map, IfOk, IfSome, option_map};
ghost use Rattle.vlt_tokens.specs.declared.token.Word.TheVariants.{Stateset, Abstract, Struct, Variant, Extern};
ghost use Rattle.vlt_tokens.specs.declared.token.Mark.TheVariants.{At, OpenBrace, CloseBrace, Semicolon};
ghost use Rattle.vlt_syntax.specs.Tokens.{tokens_of};
ghost use Rattle.vlt_syntax.specs.Lists.{each_then, Each};
ghost use Rattle.vlt_syntax.specs.Spelling.{field_then, release_then, decl_then};
ghost use Rattle.vlt_syntax.specs.Grammar.{AtMost, IsStates, IsField, IsDecl, language};
ghost use Rattle.vlt_syntax.specs.Places.{decl_at, each_at, field_at, release_at};
ghost use Rattle.vlt_syntax.specs.View.{name_of, states_of, header_key_of, field_of, decl_of};
ghost use Rattle.vlt_automaton.specs.Language as automaton;
ghost use Rattle.vlt_parser_exprs.specs.Reading.{tokens_from, Stands};
ghost use Rattle.vlt_parser.specs.Declarations.{field_name_then, field_name_at, struct_head_then, struct_head_at};
ghost use Rattle.vlt_parser_exprs.specs.Ahead.{lexemes_from, Turns};
ghost use Rattle.vlt_parser.specs.Declarations.{fields_left, decls_left, can_begin, Ends};
ghost use Rattle.vlt_parser_exprs.specs.Promises.{Advances, Holds, Lies, MayAdvance, MayBe, Spells, Takes};

use crate::heads::head;
use crate::sets::set_states;
use std::alloc::Global;
use vlt_base::{CASES, DECLARATIONS, DEPTH, FIELDS, Items, limit};
use vlt_parser_exprs::ParseError;
use vlt_parser_exprs::headers::header;
use vlt_parser_exprs::lists::{allow_one_more, bound, some_listed};
use vlt_parser_exprs::tokens::{keyword, kind, name, sign, span, unexpected};
use vlt_parser_exprs::types::{at_states, marked_name, states, ty};
use vlt_parser_stmts::block;
use vlt_syntax::{Decl, Field, HeaderKey, Name, States};
use vlt_tokens::{Mark, Token, TokenKind, Word};

/// What a field has after its type.
#[derive(Drop)]
struct FieldName {
    name: Name,
    states: Option<States>,
}

/// `x;` or `x@s;`
fn field_name(
    alloc: Global,
    tokens: &[Token<'_>],
    at: usize,
) -> Result<(FieldName, usize), ParseError>
    ensures spelled { IfOk result (λ x. tokens_from tokens.now at ≡
        field_name_then (name_of x.0.name) (option_map states_of x.0.states)
        (tokens_from tokens.now x.1)) }
    ensures placed { IfOk result (λ x. Stands field_name_at
        tokens.now at (name_of x.0.name, option_map states_of x.0.states) x.1) }
    ensures right { IfOk result (λ x. IfSome (option_map states_of x.0.states) IsStates) }
    ensures moves { Advances tokens.now at result }
    ensures takes { Takes (automaton.name ∷ automaton.at_states ∷ automaton.sign Semicolon ∷
        []) tokens.now at result }
{
    let (name, next) = name(alloc, tokens, at)?;
    let (states, next) = at_states(alloc, tokens, next)?;
    let next = sign(tokens, next, Mark::Semicolon)?;
    Ok((FieldName { name, states }, next))
}

/// `int x;` or `int x@s;`
fn field(alloc: Global, tokens: &[Token<'_>], at: usize) -> Result<(Field, usize), ParseError>
    ensures spelled { Spells field_of field_then tokens.now at result }
    ensures placed { Lies field_of field_at tokens.now at result }
    ensures right { Holds field_of IsField result }
    ensures moves { Advances tokens.now at result }
    ensures takes { Takes (automaton.thing automaton.a_ty ∷ automaton.name ∷
        automaton.at_states ∷ automaton.sign Semicolon ∷ []) tokens.now at result }
{
    let (ty, next) = ty(alloc, tokens, at)?;
    let (named, next) = field_name(alloc, tokens, next)?;
    let at = span(tokens, at, next);
    Ok((
        Field {
            ty,
            name: named.name,
            states: named.states,
            at,
        },
        next,
    ))
}

/// Whether a type begins here.
fn begins_ty(tokens: &[Token<'_>], at: usize) -> bool
    ensures { result ≡ can_begin automaton.start_ty (lexemes_from tokens.now at) }
{
    matches!(
        kind(tokens, at),
        Some(TokenKind::Name | TokenKind::Keyword(Word::Int | Word::Bool | Word::Tracked))
    )
}

/// The fields of a struct, as many as come.
#[tactic(auto, using(crate::proofs::Declarations::fields_end))]
fn fields(
    alloc: Global,
    tokens: &[Token<'_>],
    at: usize,
) -> Result<(Items<Field>, usize), ParseError>
    requires { at ≤ length tokens.now }
    ensures spelled { Spells (map field_of) (each_then field_then) tokens.now at result }
    ensures placed { Lies (map field_of) (each_at field_at) tokens.now at result }
    ensures right { Holds (map field_of) (Each IsField) result }
    ensures few { Holds (map field_of) (AtMost language.fields) result }
    ensures moves { MayAdvance tokens.now at result }
    ensures takes { Turns (automaton.fields (fields_left 0) ∷
        []) (λ x. automaton.after_fields ∷ []) (λ x. x.1) tokens.now at result }
{
    let most = Some(bound(FIELDS));
    let mut fields = Items::new(alloc);
    let mut here = at;
    while begins_ty(tokens, here) {
        allow_one_more(most, fields.len())?;
        let (next, following) = field(alloc, tokens, here)?;
        fields.push(next)?;
        here = following;
    }
    Ok((fields, here))
}

/// The states in which an object may be released, if they come next.
#[tactic(auto, using(crate::proofs::Declarations::release_some, crate::proofs::Declarations::release_none))]
fn release(
    alloc: Global,
    tokens: &[Token<'_>],
    at: usize,
) -> Result<(Option<States>, usize), ParseError>
    requires { at ≤ length tokens.now }
    ensures spelled { Spells (option_map states_of) release_then tokens.now at result }
    ensures placed { Lies (option_map states_of) release_at tokens.now at result }
    ensures right { MayBe (option_map states_of) IsStates result }
    ensures moves { MayAdvance tokens.now at result }
    ensures takes { Turns (automaton.after_fields ∷ []) (λ x. automaton.sign CloseBrace ∷
        []) (λ x. x.1) tokens.now at result }
{
    let Ok(next) = keyword(tokens, at, Word::Release) else {
        return Ok((None, at));
    };
    let (found, next) = states(alloc, tokens, next)?;
    let next = sign(tokens, next, Mark::Semicolon)?;
    Ok((Some(found), next))
}

/// `stateset s { a < b, c }`
fn stateset(alloc: Global, tokens: &[Token<'_>], at: usize) -> Result<(Decl, usize), ParseError>
    ensures spelled { Spells decl_of decl_then tokens.now at result }
    ensures placed { Lies decl_of decl_at tokens.now at result }
    ensures right { Holds decl_of (IsDecl language) result }
    ensures moves { Advances tokens.now at result }
    ensures takes { Takes (automaton.keyword Stateset ∷ automaton.after_stateset)
        tokens.now at result }
{
    let next = keyword(tokens, at, Word::Stateset)?;
    let (name, next) = name(alloc, tokens, next)?;
    let next = sign(tokens, next, Mark::OpenBrace)?;
    let (states, next) = set_states(alloc, tokens, next)?;
    let at = span(tokens, at, next);
    Ok((Decl::StateSet { name, states, at }, next))
}

/// `abstract t@s;`
fn abstract_decl(
    alloc: Global,
    tokens: &[Token<'_>],
    at: usize,
) -> Result<(Decl, usize), ParseError>
    ensures spelled { Spells decl_of decl_then tokens.now at result }
    ensures placed { Lies decl_of decl_at tokens.now at result }
    ensures right { Holds decl_of (IsDecl language) result }
    ensures moves { Advances tokens.now at result }
    ensures takes { Takes (automaton.keyword Abstract ∷ automaton.after_abstract)
        tokens.now at result }
{
    let next = keyword(tokens, at, Word::Abstract)?;
    let (name, next) = name(alloc, tokens, next)?;
    let (states, next) = marked_name(alloc, tokens, next, Mark::At)?;
    let next = sign(tokens, next, Mark::Semicolon)?;
    let at = span(tokens, at, next);
    Ok((Decl::Abstract { name, states, at }, next))
}

/// What a struct has before its opening brace.
#[derive(Drop)]
struct StructHead {
    name: Name,
    params: Items<HeaderKey>,
    states: Option<Name>,
}

/// `struct t<K> @ s {`
fn struct_head(
    alloc: Global,
    tokens: &[Token<'_>],
    at: usize,
) -> Result<(StructHead, usize), ParseError>
    ensures spelled { IfOk result (λ x. tokens_from tokens.now at ≡
        struct_head_then (name_of x.0.name) (map header_key_of x.0.params)
        (option_map name_of x.0.states) (tokens_from tokens.now x.1)) }
    ensures placed { IfOk result (λ x. Stands struct_head_at
        tokens.now at
        (name_of x.0.name, map header_key_of x.0.params, option_map name_of x.0.states) x.1) }
    ensures few { IfOk result (λ x. AtMost language.parameters (map header_key_of x.0.params)) }
    ensures moves { Advances tokens.now at result }
    ensures takes { Takes (automaton.keyword Struct ∷ automaton.name ∷ automaton.header ∷
        automaton.marked_name At ∷ automaton.sign OpenBrace ∷ []) tokens.now at result }
{
    let next = keyword(tokens, at, Word::Struct)?;
    let (name, next) = name(alloc, tokens, next)?;
    let (params, next) = header(alloc, tokens, next)?;
    let (states, next) = marked_name(alloc, tokens, next, Mark::At)?;
    let next = sign(tokens, next, Mark::OpenBrace)?;
    Ok((
        StructHead {
            name,
            params,
            states,
        },
        next,
    ))
}

/// `struct t<K> @ s { int x; release s; }`
fn struct_decl(alloc: Global, tokens: &[Token<'_>], at: usize) -> Result<(Decl, usize), ParseError>
    ensures spelled { Spells decl_of decl_then tokens.now at result }
    ensures placed { Lies decl_of decl_at tokens.now at result }
    ensures right { Holds decl_of (IsDecl language) result }
    ensures moves { Advances tokens.now at result }
    ensures takes { Takes (automaton.keyword Struct ∷ automaton.after_struct) tokens.now
        at result }
{
    let (head, next) = struct_head(alloc, tokens, at)?;
    let (fields, next) = fields(alloc, tokens, next)?;
    let (release, next) = release(alloc, tokens, next)?;
    let next = sign(tokens, next, Mark::CloseBrace)?;
    let at = span(tokens, at, next);
    Ok((
        Decl::Struct {
            name: head.name,
            params: head.params,
            states: head.states,
            fields,
            release,
            at,
        },
        next,
    ))
}

/// `variant t<K> { 'A, 'B(int) }`
fn variant(alloc: Global, tokens: &[Token<'_>], at: usize) -> Result<(Decl, usize), ParseError>
    ensures spelled { Spells decl_of decl_then tokens.now at result }
    ensures placed { Lies decl_of decl_at tokens.now at result }
    ensures right { Holds decl_of (IsDecl language) result }
    ensures moves { Advances tokens.now at result }
    ensures takes { Takes (automaton.keyword Variant ∷ automaton.after_variant) tokens.now at
        result }
{
    let next = keyword(tokens, at, Word::Variant)?;
    let (name, next) = name(alloc, tokens, next)?;
    let (params, next) = header(alloc, tokens, next)?;
    let next = sign(tokens, next, Mark::OpenBrace)?;
    let most = Some(bound(CASES));
    let (cases, next) = some_listed(alloc, tokens, next, Mark::CloseBrace, most)?;
    let at = span(tokens, at, next);
    Ok((
        Decl::Variant {
            name,
            params,
            cases,
            at,
        },
        next,
    ))
}

/// `extern void f(int x);`
fn external(alloc: Global, tokens: &[Token<'_>], at: usize) -> Result<(Decl, usize), ParseError>
    ensures spelled { Spells decl_of decl_then tokens.now at result }
    ensures placed { Lies decl_of decl_at tokens.now at result }
    ensures right { Holds decl_of (IsDecl language) result }
    ensures moves { Advances tokens.now at result }
    ensures takes { Takes (automaton.keyword Extern ∷ automaton.after_extern) tokens.now
        at result }
{
    let next = keyword(tokens, at, Word::Extern)?;
    let (head, next) = head(alloc, tokens, next)?;
    let next = sign(tokens, next, Mark::Semicolon)?;
    let at = span(tokens, at, next);
    Ok((Decl::Extern { head, at }, next))
}

/// `void f(int x) { }`
fn function(alloc: Global, tokens: &[Token<'_>], at: usize) -> Result<(Decl, usize), ParseError>
    ensures spelled { Spells decl_of decl_then tokens.now at result }
    ensures placed { Lies decl_of decl_at tokens.now at result }
    ensures right { Holds decl_of (IsDecl language) result }
    ensures moves { Advances tokens.now at result }
    ensures takes { Takes (automaton.head ∷ automaton.block language.depth ∷ []) tokens.now at
        result }
{
    let (head, next) = head(alloc, tokens, at)?;
    let (body, next) = block(alloc, tokens, next, limit(DEPTH) as usize)?;
    let at = span(tokens, at, next);
    Ok((Decl::Function { head, body, at }, next))
}

/// Whether a declaration begins here.
#[tactic(auto, using(crate::proofs::Declarations::other_begins))]
fn begins_decl(tokens: &[Token<'_>], at: usize) -> bool
    ensures { result ≡ can_begin automaton.start_decl (lexemes_from tokens.now at) }
{
    match kind(tokens, at) {
        Some(
            TokenKind::Keyword(
                Word::Stateset
                | Word::Abstract
                | Word::Struct
                | Word::Variant
                | Word::Extern
                | Word::Void,
            ),
        ) => true,
        _ => begins_ty(tokens, at),
    }
}

#[tactic(auto, using(crate::proofs::Declarations::decl_word, crate::proofs::Declarations::decl_other, vlt_parser_exprs::proofs::Runs::instead))]
fn decl(alloc: Global, tokens: &[Token<'_>], at: usize) -> Result<(Decl, usize), ParseError>
    ensures spelled { Spells decl_of decl_then tokens.now at result }
    ensures placed { Lies decl_of decl_at tokens.now at result }
    ensures right { Holds decl_of (IsDecl language) result }
    ensures moves { Advances tokens.now at result }
    ensures takes { Takes (automaton.thing automaton.a_decl ∷ []) tokens.now at result }
{
    match kind(tokens, at) {
        Some(TokenKind::Keyword(Word::Stateset)) => stateset(alloc, tokens, at),
        Some(TokenKind::Keyword(Word::Abstract)) => abstract_decl(alloc, tokens, at),
        Some(TokenKind::Keyword(Word::Struct)) => struct_decl(alloc, tokens, at),
        Some(TokenKind::Keyword(Word::Variant)) => variant(alloc, tokens, at),
        Some(TokenKind::Keyword(Word::Extern)) => external(alloc, tokens, at),
        _ => function(alloc, tokens, at),
    }
}

/// Declarations up to the last token.
#[tactic(auto, using(crate::proofs::Declarations::decls_over, vlt_parser_exprs::proofs::Placings::stands_end))]
pub fn decls(alloc: Global, tokens: &[Token<'_>]) -> Result<Items<Decl>, ParseError>
    ensures spelled { IfOk result (λ x. tokens_of tokens.now ≡
        each_then decl_then (map decl_of x) []) }
    ensures placed { IfOk result (λ x. Stands (each_at decl_at) tokens.now 0 (map decl_of x)
        (length tokens.now)) }
    ensures right { IfOk result (λ x. Each (IsDecl language) (map decl_of x)) }
    ensures few { IfOk result (λ x. AtMost language.decls (map decl_of x)) }
    ensures takes { Ends (automaton.decls (decls_left 0)) tokens.now result }
{
    let most = Some(bound(DECLARATIONS));
    let mut decls = Items::new(alloc);
    let mut here = 0;
    while here < tokens.len() {
        if !begins_decl(tokens, here) {
            return Err(unexpected(tokens, here));
        }
        allow_one_more(most, decls.len())?;
        let (next, following) = decl(alloc, tokens, here)?;
        decls.push(next)?;
        here = following;
    }
    Ok(decls)
}
