//! The answers to verdicts.

ghost use Rattle.std.specs.Prelude.{◌≡◌, ◌<◌, ◌^◌, ◌-◌, ℕ, List, length, IfOk};
ghost use Rattle.vlt_core.specs.View.{program_of};
ghost use Rattle.vlt_syntax.specs.View.{tree_of};
ghost use Rattle.vlt_verdict.specs.Verdicts as v;
ghost use Rattle.vlt_verdict.specs.Seen.{IsSeenAs, IsTellable};
ghost use Rattle.vlt_all_faults_lines.specs.Lines.{IsFaultsText};
ghost use Rattle.vaultc_runs.specs.Shown.{shown_reply};
ghost use Rattle.vaultq_words.specs.View.{seen_asked};
ghost use Rattle.vaultq_replies.specs.Listable.{IsListable, HasListable, HasProgram};
ghost use Rattle.vaultq_replies.specs.Replies.{IsAnswerToFaults, IsAnswerToKeys, IsAnswerToPaths, IsAnswerToVerdict};

use crate::keys::keys_text;
use crate::paths::paths_text;
use std::alloc::{AllocError, Global};
use vaultc_replies::verdict;
use vaultc_runs::{DONE, NOT_ACCEPTED, Reply};
use vaultq_words::Asked;
use vlt_all_faults_lines::all_faults;
use vlt_core::Program;
use vlt_rows::RowError;
use vlt_syntax::Tree;
use vlt_verdict::Verdict;

/// What is written where the words are no question.
pub const USAGE: &str = "usage: vaultq faults F | paths F | keys F\n";

/// All faults of a program.
fn faults_text(alloc: Global, text: &[u8], program: &Program) -> Result<Vec<u8>, AllocError>
    requires size { length text.now < 2 ^ 32 - 1 }
    requires listable { IsListable (program_of program.now) }
    ensures { IfOk result (λ lines. IsFaultsText text.now (program_of program.now) lines.items) }
{
    match all_faults(alloc, text, program) {
        Ok(lines) => Ok(lines),
        Err(RowError::Unfit) => unreachable!(),
        Err(RowError::Refused(_)) => unreachable!(),
        Err(RowError::Memory) => Err(AllocError),
    }
}

/// What `faults` says of a verdict on a text.
fn answer_to_faults(alloc: Global, text: &[u8], judged: &Verdict) -> Result<Reply, AllocError>
    requires size { length text.now < 2 ^ 32 - 1 }
    requires tellable { IsTellable judged.now }
    requires listable { HasListable judged.now }
    ensures { IfOk result (λ r. (t : v.Verdict) →
        IsSeenAs judged.now t → IsAnswerToFaults text.now t (shown_reply r)) }
{
    match judged {
        Verdict::Faulty(program, _) => Ok(Reply {
            status: NOT_ACCEPTED,
            text: faults_text(alloc, text, program)?,
        }),
        _ => verdict(alloc, text, judged),
    }
}

/// What `paths` says of a verdict on a text and its tree.
fn answer_to_paths(
    alloc: Global,
    text: &[u8],
    tree: &Tree,
    judged: &Verdict,
) -> Result<Reply, AllocError>
    requires size { length text.now < 2 ^ 32 - 1 }
    requires tellable { IsTellable judged.now }
    requires listable { HasListable judged.now }
    ensures { IfOk result (λ r. (t : v.Verdict) →
        IsSeenAs judged.now t → IsAnswerToPaths text.now (tree_of tree.now) t (shown_reply r)) }
{
    match judged {
        Verdict::Faulty(program, _) => Ok(Reply {
            status: NOT_ACCEPTED,
            text: paths_text(alloc, text, tree, program)?,
        }),
        _ => verdict(alloc, text, judged),
    }
}

/// What is held at each point of the program of a verdict, and then what `check` says of the verdict.
fn answer_with_points(
    alloc: Global,
    text: &[u8],
    tree: &Tree,
    program: &Program,
    judged: &Verdict,
) -> Result<Reply, AllocError>
    requires size { length text.now < 2 ^ 32 - 1 }
    requires program { HasProgram judged.now (program_of program.now) }
    requires tellable { IsTellable judged.now }
    requires listable { IsListable (program_of program.now) }
    ensures { IfOk result (λ r. (t : v.Verdict) →
        IsSeenAs judged.now t → IsAnswerToKeys text.now (tree_of tree.now) t (shown_reply r)) }
{
    let last = verdict(alloc, text, judged)?;
    let mut lines = keys_text(alloc, text, tree, program)?;
    lines.extend_from_slice(last.text.as_slice())?;
    Ok(Reply {
        status: DONE,
        text: lines,
    })
}

/// What `keys` says of a verdict on a text and its tree.
fn answer_to_keys(
    alloc: Global,
    text: &[u8],
    tree: &Tree,
    judged: &Verdict,
) -> Result<Reply, AllocError>
    requires size { length text.now < 2 ^ 32 - 1 }
    requires tellable { IsTellable judged.now }
    requires listable { HasListable judged.now }
    ensures { IfOk result (λ r. (t : v.Verdict) →
        IsSeenAs judged.now t → IsAnswerToKeys text.now (tree_of tree.now) t (shown_reply r)) }
{
    match judged {
        Verdict::Faulty(program, _) => answer_with_points(alloc, text, tree, program, judged),
        Verdict::Accepted(program) => answer_with_points(alloc, text, tree, program, judged),
        _ => verdict(alloc, text, judged),
    }
}

/// What is answered to a verdict on a text and its tree.
pub fn answer_to_verdict(
    alloc: Global,
    asked: Asked,
    text: &[u8],
    tree: &Tree,
    judged: &Verdict,
) -> Result<Reply, AllocError>
    requires size { length text.now < 2 ^ 32 - 1 }
    requires tellable { IsTellable judged.now }
    requires listable { HasListable judged.now }
    ensures { IfOk result (λ r. (file : List ℕ) (t : v.Verdict) → IsSeenAs judged.now t →
        IsAnswerToVerdict (seen_asked asked file) text.now (tree_of tree.now) t (shown_reply r)) }
{
    match asked {
        Asked::Faults => answer_to_faults(alloc, text, judged),
        Asked::Paths => answer_to_paths(alloc, text, tree, judged),
        Asked::Keys => answer_to_keys(alloc, text, tree, judged),
    }
}
