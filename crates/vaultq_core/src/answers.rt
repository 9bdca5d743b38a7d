//! Answers questions.

ghost use Rattle.std.specs.Prelude.{◌≡◌, ◌≢◌, ℕ, List, map, None, Some, IfOk, string_bytes};
ghost use Rattle.vaultc_runs.specs.Finishes.{Finishes};
ghost use Rattle.vaultc_runs.specs.Shown.{shown_reply};
ghost use Rattle.vaultc_runs.specs.Texts.{IsTooLong};
ghost use Rattle.vaultc_runs.specs.declared.status.TheConstants.{NO_MEMORY};
ghost use Rattle.vaultq_words.specs.Questions.{question_of};
ghost use Rattle.vaultq_words.specs.View.{seen_asked, seen_question};
ghost use Rattle.vaultq_replies.specs.Replies.{IsAnswerToText, MayAnswer};

use crate::judged::judge_text;
use std::alloc::{AllocError, Global};
use vaultc_replies::read_tree;
use vaultc_runs::{NO_COMMAND, Reply, finish, finish_reply, not_had, refusal};
use vaultc_words::read_file;
use vaultq_replies::{USAGE, answer_to_verdict};
use vaultq_words::{Asked, Question, read_question};
use vlt_base::SOURCE_BYTES;
use vlt_io::{Sink, Store};

/// What is answered to a text.
fn answer_to_text(alloc: Global, asked: Asked, bytes: &[u8]) -> Result<Reply, AllocError>
    requires { ¬ (IsTooLong bytes.now) }
    ensures { IfOk result (λ r. (file : List ℕ) →
        IsAnswerToText (seen_asked asked file) bytes.now (shown_reply r)) }
{
    match read_tree(alloc, bytes) {
        Ok(tree) => {
            let judged = judge_text(alloc, &tree)?;
            answer_to_verdict(alloc, asked, bytes, &tree, &judged)
        }
        Err(error) => refusal(alloc, bytes, error),
    }
}

/// Reads the file of a question, and answers it.
fn answer_to_file<S: Store, K: Sink>(
    alloc: Global,
    question: Question<'_>,
    store: &mut S,
    out: &mut K,
) -> u8
    ensures { Finishes K.Sink
        (MayAnswer S.Store store.old store.new (Some (seen_question question.entry)))
        out.old out.new result }
{
    match read_file(alloc, store, question.file, SOURCE_BYTES) {
        Ok(bytes) => finish_reply(out, answer_to_text(alloc, question.asked, bytes.as_slice())),
        Err(error) => finish_reply(out, not_had(alloc, error)),
    }
}

/// Answers the question that the words are.
pub fn answer<S: Store, K: Sink>(alloc: Global, words: &[String], store: &mut S, out: &mut K) -> u8
    ensures finishes { Finishes K.Sink
        (MayAnswer S.Store store.old store.new (question_of (map string_bytes words.now)))
        out.old out.new result }
    ensures words { question_of (map string_bytes words.now) ≡ None → result ≢ NO_MEMORY }
{
    match read_question(words) {
        None => finish(out, NO_COMMAND, USAGE.as_bytes()),
        Some(question) => answer_to_file(alloc, question, store, out),
    }
}
