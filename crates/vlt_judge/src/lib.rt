//! The verdict of a tree: a tree that a text has goes in, what it is as a program comes out.
//! Read `Verdicts` of `vlt_verdict` first.
//! Used by: the commands on one text.
#![tactic(auto)]

ghost use Rattle.std.specs.Prelude.{IfOk};
ghost use Rattle.vlt_syntax.specs.View.{tree_of};
ghost use Rattle.vlt_fit_laws.specs.Fit.{IsTextTree};
ghost use Rattle.vlt_verdict.specs.Verdicts as v;
ghost use Rattle.vlt_verdict.specs.Verdicts.{IsVerdictOf};
ghost use Rattle.vlt_verdict.specs.Seen.{IsSeenAs, IsTellable};
ghost use Rattle.vlt_verdict.specs.Unfit.{IfUnfit, HasUnfitProgram};

use std::alloc::Global;
use vlt_check::{CheckError, check};
use vlt_fit_laws::{only_bodies_are_unfit, programs_are_fit};
use vlt_kinds::{KindError, tables};
use vlt_resolve::{ElabError, elaborate};
use vlt_syntax::Tree;
use vlt_verdict::{JudgeError, Verdict};

/// What a tree that a text has is as a program; `Unfit` where its program is (`HasUnfitProgram`).
pub fn judge(alloc: Global, tree: &Tree) -> Result<Verdict, JudgeError>
    requires { IsTextTree (tree_of tree.now) }
    ensures is { IfOk result (λ x. (t : v.Verdict) × IsVerdictOf (tree_of tree.now) t ×
        IsSeenAs x t) }
    ensures tellable { IfOk result IsTellable }
    ensures unfit { IfUnfit result (HasUnfitProgram (tree_of tree.now)) }
{
    programs_are_fit();
    only_bodies_are_unfit();
    let kinds = match tables(alloc, tree) {
        Ok(kinds) => kinds,
        Err(KindError::Rule { rule, at }) => return Ok(Verdict::Broken { rule, at }),
        Err(KindError::Memory) => return Err(JudgeError::Memory),
    };
    let program = match elaborate(alloc, tree, &kinds) {
        Ok(program) => program,
        Err(ElabError::Rule { rule, at }) => return Ok(Verdict::Broken { rule, at }),
        Err(ElabError::Limit(number)) => return Ok(Verdict::Exceeded(number)),
        Err(ElabError::Memory) => return Err(JudgeError::Memory),
    };
    match check(alloc, &program) {
        Ok(_) => Ok(Verdict::Accepted(program)),
        Err(CheckError::Refused(fault)) => Ok(Verdict::Faulty(program, fault)),
        Err(CheckError::Unfit) => Err(JudgeError::Unfit),
        Err(CheckError::Memory) => Err(JudgeError::Memory),
    }
}
