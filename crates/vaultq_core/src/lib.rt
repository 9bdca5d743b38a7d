//! Questions on a program: words and files go in, a status comes out, and lines go to a sink.
//! Read `vaultq_replies/specs/Replies.antt` (IsAnswerTo) first.
//! Used by: the program `vaultq`.
#![tactic(auto)]

ghost use Rattle.std.specs.Prelude.{◌≡◌, ◌⊎◌, ℕ, List, None, Some, [], map, string_bytes};
ghost use Rattle.vlt_io.specs.Outside.{Files, Rose, Grew, GrewByPart};
ghost use Rattle.vaultc_words.specs.Sources.{IsOneRead, text_in};
ghost use Rattle.vaultc_runs.specs.Finishes.{Finishes, WithoutFault, WrotePart, WroteReply};
ghost use Rattle.vaultc_runs.specs.Lines as lines;
ghost use Rattle.vaultc_runs.specs.declared.status.TheConstants.{DONE, NO_COMMAND, NOT_ACCEPTED, UNREAD, SINK_FAILED, NO_MEMORY};
ghost use Rattle.vaultc_replies.specs.Replies.{IsInside};
ghost use Rattle.vaultq_words.specs.Questions as questions;
ghost use Rattle.vaultq_words.specs.Questions.{Question, question_of};
ghost use Rattle.vaultq_replies.specs.Laws.{HasOneAnswer};
ghost use Rattle.vaultq_replies.specs.Replies.{IsAnswerTo, IsUnread, MayAnswer, usage};
ghost use Rattle.vaultq_core.specs.Listed.{ArePointsTold, IsFaultless, IsListed};

mod answers;
mod judged;
pub mod status;

use std::alloc::Global;
use vlt_all_faults_lines::{a_program_has_one_faults_text, faults_begin_with_the_first};
use vlt_fit_laws::texts_have_text_trees;
use vlt_io::{Sink, Store};
use vlt_points_laws::a_token_has_one_list;
use vlt_verdict::a_tree_has_one_verdict;

/// Answers the question that the words are, and gives its status.
///
/// It reads one file from the store, once, and writes all its lines to the sink. What its clauses say:
///
/// - `every_store`: whatever the store, the status and the text are an answer to what reading the question's file came to.
/// - `told`: of a store that tells its files, they are an answer to its files.
/// - `faultless`: `faults` gives 0 only for bytes of a program that follows the rules.
/// - `listed`: `faults` gives 8 only for bytes of a program with a first fault; what it writes tells all faults, that one first.
/// - `points`: `keys` gives 0 only for bytes of a program; what it writes tells what is found at its points, and what `check` says.
/// - `no_fault`: with no fault, an answer to the store's files is written whole, unless memory runs out.
/// - `complete`: with no fault, the status is that of the answer, unless memory runs out.
/// - `usage`, `no_command`: 1 is for words that are no question; they have the usage line, or a part of it where the sink failed.
/// - `unread`: 2 is for a file that wasn't read, and that is written.
/// - `failed`: 3 is for a sink that failed.
/// - `memory`: after 4 nothing was written, or a part of an answer to the store's files.
pub fn vaultq<S: Store, K: Sink>(alloc: Global, words: &[String], store: &mut S, out: &mut K) -> u8
    ensures every_store { Finishes K.Sink
        (MayAnswer S.Store store.old store.new (question_of (map string_bytes words.now)))
        out.old out.new result }
    ensures told { (files : Files) → S.files store.old ≡ Some files → IsInside result →
        WroteReply K.Sink (IsAnswerTo (map string_bytes words.now) files) out.old out.new result }
    ensures faultless { (file : List ℕ) →
        question_of (map string_bytes words.now) ≡ Some (questions.faults file) →
        result ≡ DONE →
        (bytes : List ℕ) × IsOneRead S.Store store.old store.new (text_in file) bytes
        × IsFaultless (S.files store.old) file bytes (K.written out.old) (K.written out.new) }
    ensures listed { (file : List ℕ) →
        question_of (map string_bytes words.now) ≡ Some (questions.faults file) →
        result ≡ NOT_ACCEPTED →
        (bytes : List ℕ) × IsOneRead S.Store store.old store.new (text_in file) bytes
        × IsListed (S.files store.old) file bytes (K.written out.old) (K.written out.new) }
    ensures points { (file : List ℕ) →
        question_of (map string_bytes words.now) ≡ Some (questions.keys file) →
        result ≡ DONE →
        (bytes : List ℕ) × IsOneRead S.Store store.old store.new (text_in file) bytes
        × ArePointsTold (S.files store.old) file bytes (K.written out.old) (K.written out.new) }
    ensures no_fault { (files : Files) → S.files store.old ≡ Some files →
        WithoutFault S.Store K.Sink store.old store.new out.old out.new
        (WroteReply K.Sink (IsAnswerTo (map string_bytes words.now) files) out.old out.new result
        ⊎ (result ≡ NO_MEMORY)) }
    ensures complete { (files : Files) (r : lines.Reply) → S.files store.old ≡ Some files →
        IsAnswerTo (map string_bytes words.now) files r →
        WithoutFault S.Store K.Sink store.old store.new out.old out.new
        ((result ≡ r.status) ⊎ (result ≡ NO_MEMORY)) }
    ensures usage { result ≡ NO_COMMAND → question_of (map string_bytes words.now) ≡ None }
    ensures no_command { question_of (map string_bytes words.now) ≡ None →
        ((result ≡ NO_COMMAND) × Grew (K.written out.old) (K.written out.new) usage)
        ⊎ ((result ≡ SINK_FAILED) × GrewByPart (K.written out.old) (K.written out.new) usage) }
    ensures unread { result ≡ UNREAD →
        (q : Question) × (question_of (map string_bytes words.now) ≡ Some q)
        × WroteReply K.Sink (IsUnread S.Store store.old store.new q) out.old out.new UNREAD }
    ensures failed { result ≡ SINK_FAILED → Rose (K.faults out.old) (K.faults out.new) }
    ensures memory { (files : Files) → S.files store.old ≡ Some files →
        result ≡ NO_MEMORY → Grew (K.written out.old) (K.written out.new) [] ⊎
        WrotePart K.Sink (IsAnswerTo (map string_bytes words.now) files) out.old out.new }
{
    a_tree_has_one_verdict();
    texts_have_text_trees();
    a_program_has_one_faults_text();
    a_token_has_one_list();
    faults_begin_with_the_first();
    answers::answer(alloc, words, store, out)
}

/// A question has one answer to what it read, but that `paths` may tell one path or another.
pub fn a_question_has_one_answer()
    ensures { HasOneAnswer }
{
    a_tree_has_one_verdict();
    texts_have_text_trees();
    a_program_has_one_faults_text();
    a_token_has_one_list();
}
