//! From the tree of a text to its verdict, of which all faults and points can be told.

ghost use Rattle.std.specs.Prelude.{List, ℕ, IfOk};
ghost use Rattle.vlt_syntax.specs.View.{tree_of};
ghost use Rattle.vlt_fit_laws.specs.Fit.{IsTextTree};
ghost use Rattle.vlt_verdict.specs.Seen.{IsTellable};
ghost use Rattle.vaultc_replies.specs.Judged.{IsJudged};
ghost use Rattle.vaultc_runs.specs.Texts.{IsTextOf};
ghost use Rattle.vaultq_replies.specs.Listable.{HasListable};

use cert_verify_laws::{
    texts_are_judged, texts_can_be_searched, texts_have_flows, texts_have_numbers,
};
use std::alloc::{AllocError, Global};
use vlt_fit_laws::programs_are_fit;
use vlt_judge::judge;
use vlt_syntax::Tree;
use vlt_verdict::{JudgeError, Verdict};

/// What the tree of a text is as a program.
pub fn judge_text(alloc: Global, tree: &Tree) -> Result<Verdict, AllocError>
    requires text { (bytes : List ℕ) × IsTextOf (tree_of tree.now) bytes }
    requires tree { IsTextTree (tree_of tree.now) }
    ensures is { IfOk result (IsJudged (tree_of tree.now)) }
    ensures tellable { IfOk result IsTellable }
    ensures listable { IfOk result HasListable }
{
    programs_are_fit();
    texts_are_judged();
    texts_have_flows();
    texts_have_numbers();
    texts_can_be_searched();
    match judge(alloc, tree) {
        Ok(judged) => Ok(judged),
        Err(JudgeError::Unfit) => unreachable!(),
        Err(JudgeError::Memory) => Err(AllocError),
    }
}
