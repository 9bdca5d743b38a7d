//! The lines of points, as they are written one after another.

ghost use Rattle.std.specs.Prelude.{◌≡◌, ◌++◌, ◌<◌, ◌-◌, ◌^◌, ℕ, List, length, IfOk, OnOk};
ghost use Rattle.vlt_core.specs.Core.{Func as SpecFunc, Program as SpecProgram};
ghost use Rattle.vlt_core.specs.Lookups.{is_owning_var};
ghost use Rattle.vlt_core.specs.View.{func_of, tok_of};
ghost use Rattle.vlt_faults.specs.Finding.Ones.{many_of};
ghost use Rattle.vlt_reports.specs.Reports.{place_text};
ghost use Rattle.vlt_reports.specs.Writing.{Adds};
ghost use Rattle.vlt_base.specs.Place.{line_of, column_of};
ghost use Rattle.vlt_points.specs.Founds.{found};
ghost use Rattle.vlt_points.specs.Writing.{IsTokenText, AreTokenTexts, IsTextIn, AreTextsIn, text_in, texts_in, line_in, toks_in, keys_of, vars_of, var_if, IsPage, IsPageOf};

use crate::found::{Found, is_same};
use crate::words::token_text;
use std::alloc::{AllocError, Global};
use vlt_base::{KeyId, VarId};
use vlt_core::{Func, Program, Tok};
use vlt_faults::{Ones, made};
use vlt_reports::{Place, place_from, text_start};

/// The text and the function of which lines are written.
#[derive(Clone, Copy)]
pub struct Source<'a> {
    pub alloc: Global,
    pub text: &'a [u8],
    pub program: &'a Program,
    pub func: &'a Func,
}

/// What is written of a token as long as the same is found of it.
#[derive(Drop)]
pub struct TokenText {
    pub tok: Tok,
    pub ones: Ones,
    pub text: Vec<u8>,
}

/// The lines so far, the place of the last one, and what was last written of each token.
#[derive(Drop)]
pub struct Page {
    pub lines: Vec<u8>,
    pub last: Place,
    pub tokens: Vec<TokenText>,
}

/// Of an absent token nothing is written.
fn absent_token(alloc: Global, tok: Tok) -> TokenText
    ensures tok { result.tok ≡ tok }
    ensures is { (p : SpecProgram) (f : SpecFunc) → IsTokenText p f result }
{
    TokenText {
        tok,
        ones: made(true, false, 0, 0),
        text: Vec::new(alloc),
    }
}

fn add_keys(alloc: Global, f: &Func, tokens: &mut Vec<TokenText>) -> Result<(), AllocError>
    requires few { length f.now.keys < 2 ^ 32 }
    ensures toks { OnOk result (toks_in tokens.new.items
        ≡ toks_in tokens.old.items ++ keys_of (func_of f.now)) }
    ensures are { OnOk result ((p : SpecProgram) (g : SpecFunc) →
        AreTokenTexts p g tokens.old.items → AreTokenTexts p g tokens.new.items) }
{
    for key in 0..f.keys.len() as u32 {
        tokens.push(absent_token(alloc, Tok::Key(KeyId(key))))?;
    }
    Ok(())
}

/// Adds a variable that owns its object.
fn add_var(alloc: Global, f: &Func, var: u32, tokens: &mut Vec<TokenText>) -> Result<(), AllocError>
    ensures toks { OnOk result (toks_in tokens.new.items
        ≡ toks_in tokens.old.items ++ var_if (is_owning_var (func_of f.now) var) var) }
    ensures are { OnOk result ((p : SpecProgram) (g : SpecFunc) →
        AreTokenTexts p g tokens.old.items → AreTokenTexts p g tokens.new.items) }
{
    if f.is_owning_var(VarId(var)) {
        tokens.push(absent_token(alloc, Tok::Var(VarId(var))))?;
    }
    Ok(())
}

fn add_vars(alloc: Global, f: &Func, tokens: &mut Vec<TokenText>) -> Result<(), AllocError>
    requires few { length f.now.vars < 2 ^ 32 }
    ensures toks { OnOk result (toks_in tokens.new.items
        ≡ toks_in tokens.old.items ++ vars_of (func_of f.now)) }
    ensures are { OnOk result ((p : SpecProgram) (g : SpecFunc) →
        AreTokenTexts p g tokens.old.items → AreTokenTexts p g tokens.new.items) }
{
    for var in 0..f.vars.len() as u32 {
        add_var(alloc, f, var, tokens)?;
    }
    Ok(())
}

impl TokenText {
    /// Is of these from now on.
    fn renew(&mut self, source: &Source, m: Ones) -> Result<(), AllocError>
        requires is { IsTextIn source.now self.old }
        ensures is { OnOk result (IsTextIn source.now self.new) }
        ensures tok { OnOk result (self.new.tok ≡ self.old.tok) }
        ensures text { OnOk result
            (self.new.text.items ≡ text_in source.now (tok_of self.old.tok) (many_of m)) }
    {
        if !is_same(self.ones, m) {
            self.text = token_text(source.alloc, source.program, source.func, self.tok, m)?;
            self.ones = m;
        }
        Ok(())
    }
}

/// Adds what is written of a token of which this is found.
fn add_token(
    lines: &mut Vec<u8>,
    token: &mut TokenText,
    source: &Source,
    m: &Found,
) -> Result<(), AllocError>
    requires is { IsTextIn source.now token.old }
    ensures is { OnOk result (IsTextIn source.now token.new) }
    ensures tok { OnOk result (token.new.tok ≡ token.old.tok) }
    ensures text { Adds result lines.old.items lines.new.items
        (text_in source.now (tok_of token.old.tok) (found m.now (tok_of token.old.tok))) }
{
    token.renew(source, m.of(token.tok))?;
    lines.extend_from_slice(token.text.as_slice())?;
    Ok(())
}

/// Adds what is written of each token of which this is found.
fn add_tokens(
    lines: &mut Vec<u8>,
    tokens: &mut Vec<TokenText>,
    source: &Source,
    m: &Found,
) -> Result<(), AllocError>
    requires are { AreTextsIn source.now tokens.old.items }
    ensures are { OnOk result (AreTextsIn source.now tokens.new.items) }
    ensures toks { OnOk result (toks_in tokens.new.items ≡ toks_in tokens.old.items) }
    ensures text { Adds result lines.old.items lines.new.items
        (texts_in source.now (toks_in tokens.old.items) (found m.now)) }
{
    for i in 0..tokens.len() {
        add_token(lines, &mut tokens[i], source, m)?;
    }
    Ok(())
}

fn add_place(lines: &mut Vec<u8>, alloc: Global, place: Place) -> Result<(), AllocError>
    ensures { (text : List ℕ) (at : ℕ) → place.line ≡ line_of text at →
        place.column ≡ column_of text at →
        Adds result lines.old.items lines.new.items (place_text text at) }
{
    let line = place.line;
    let column = place.column;
    let text = format!(in alloc; "{line}:{column}")?.into_bytes();
    lines.extend_from_slice(text.as_slice())
}

impl Page {
    /// After these lines; nothing is written of the function's points yet.
    pub fn open(alloc: Global, f: &Func, lines: Vec<u8>) -> Result<Page, AllocError>
        requires few_keys { length f.now.keys < 2 ^ 32 }
        requires few_vars { length f.now.vars < 2 ^ 32 }
        ensures lines { IfOk result (λ g. g.lines ≡ lines) }
        ensures page { IfOk result (λ g. (text : List ℕ) (p : SpecProgram) →
            IsPage text p (func_of f.now) g) }
    {
        let mut tokens = Vec::new(alloc);
        add_keys(alloc, f, &mut tokens)?;
        add_vars(alloc, f, &mut tokens)?;
        Ok(Page {
            lines,
            last: text_start(),
            tokens,
        })
    }

    /// Adds the line of a point at which this is found.
    pub fn add(&mut self, source: &Source, at: u32, m: &Found) -> Result<(), AllocError>
        requires size { length source.now.text.now < 2 ^ 32 - 1 }
        requires page { IsPageOf source.now self.old }
        ensures page { OnOk result (IsPageOf source.now self.new) }
        ensures line { Adds result self.old.lines.items self.new.lines.items
            (line_in source.now at (found m.now)) }
    {
        let place = place_from(source.text, self.last, at);
        self.last = place;
        add_place(&mut self.lines, source.alloc, place)?;
        add_tokens(&mut self.lines, &mut self.tokens, source, m)?;
        self.lines.extend_from_slice(b"\n")
    }
}
