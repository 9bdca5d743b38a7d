//! Verdicts on views: the view of an interface with a module goes in, what it is as a program comes out.
//! Read `specs/Verdicts.antt` first, and `vlt_verdict/specs/Verdicts.antt`.
//! Used by: the replies of `module` and `link`. By its two laws a view of texts has one verdict.
#![tactic(auto)]

ghost use Rattle.std.specs.Prelude.{IfOk};
ghost use Rattle.vlt_iface.specs.Seen.{view_seen};
ghost use Rattle.vlt_verdict.specs.Seen.{IsSeenAs, IsTellable};
ghost use Rattle.vlt_verdict.specs.Unfit.{IfUnfit};
ghost use Rattle.vlt_verdict.specs.Verdicts as v;
ghost use Rattle.vlt_view_verdict.specs.Laws.{ViewsHaveOneVerdict, ViewsHaveSomeVerdict};
ghost use Rattle.vlt_view_verdict.specs.Link.{AcceptedModulesLink};
ghost use Rattle.vlt_view_verdict.specs.Unfit.{HasUnfitView};
ghost use Rattle.vlt_view_verdict.specs.Verdicts.{IsVerdictOfView};
ghost use Rattle.vlt_view_verdict.specs.Views.{IsViewOfTexts};

mod programs;

pub use programs::elaborate_view;
use std::alloc::Global;
use vlt_check::{CheckError, check};
use vlt_fit_laws::only_bodies_are_unfit;
use vlt_iface::View;
use vlt_kinds::KindError;
use vlt_link_laws::{tested_views_link, told_views_are_trees, view_programs_are_judgeable};
use vlt_resolve::ElabError;
use vlt_verdict::{JudgeError, Verdict, programs_have_one_verdict, programs_have_some_verdict};
use vlt_views::tables_view;

/// What a view of texts is as a program; the rule on `main` is tested where one is wanted. `Unfit` where its program is
/// (`HasUnfitView`).
pub fn judge_view(alloc: Global, view: &View, with_main: bool) -> Result<Verdict, JudgeError>
    requires { IsViewOfTexts (view_seen view.now) }
    ensures is { IfOk result (λ x. (t : v.Verdict) ×
        IsVerdictOfView (view_seen view.now) with_main t × IsSeenAs x t) }
    ensures tellable { IfOk result IsTellable }
    ensures unfit { IfUnfit result (HasUnfitView (view_seen view.now) with_main) }
{
    told_views_are_trees();
    view_programs_are_judgeable();
    only_bodies_are_unfit();
    let kinds = match tables_view(alloc, view) {
        Ok(kinds) => kinds,
        Err(KindError::Rule { rule, at }) => return Ok(Verdict::Broken { rule, at }),
        Err(KindError::Memory) => return Err(JudgeError::Memory),
    };
    let program = match elaborate_view(alloc, view, &kinds, with_main) {
        Ok(program) => program,
        Err(ElabError::Rule { rule, at }) => return Ok(Verdict::Broken { rule, at }),
        Err(ElabError::Limit(number)) => return Ok(Verdict::Exceeded(number)),
        Err(ElabError::Memory) => return Err(JudgeError::Memory),
    };
    match check(alloc, &program) {
        Ok(_) => Ok(Verdict::Accepted(program)),
        Err(CheckError::Refused(fault)) => Ok(Verdict::Faulty(program, fault)),
        Err(CheckError::Unfit) => Err(JudgeError::Unfit),
        Err(CheckError::Memory) => Err(JudgeError::Memory),
    }
}

/// A view of texts is of one verdict.
pub fn a_view_has_one_verdict()
    ensures { ViewsHaveOneVerdict }
{
    view_programs_are_judgeable();
    programs_have_one_verdict();
}

/// It can't be that a view of texts is of no verdict.
pub fn a_view_has_some_verdict()
    ensures { ViewsHaveSomeVerdict }
{
    view_programs_are_judgeable();
    programs_have_some_verdict();
}

/// Where the views of an interface with two modules are accepted, the second with a main, the joined tree is one of the language
/// that no rule refuses, and its program is accepted.
pub fn accepted_modules_link()
    ensures { AcceptedModulesLink }
{
    tested_views_link();
}
