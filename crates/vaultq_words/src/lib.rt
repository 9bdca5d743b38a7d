//! Words in, a question out.
//! Read `specs/Questions.antt` (question_of) first.
//! Used by: `vaultq_core::vaultq`, which answers it.
#![tactic(auto)]

ghost use Rattle.std.specs.Prelude.{◌≡◌, ℕ, List, map, string_bytes, option_map};
ghost use Rattle.vaultc_words.specs.Commands.{is_file_word};
ghost use Rattle.vaultq_words.specs.Questions.{question_named, question_of};
ghost use Rattle.vaultq_words.specs.View.{seen_asked, seen_question};

/// What is asked about a program.
#[derive(Clone, Copy, Debug)]
pub enum Asked {
    Faults,
    Paths,
    Keys,
}

/// What is asked, and the file of the program's text.
#[derive(Clone, Copy, Debug)]
pub struct Question<'a> {
    pub asked: Asked,
    pub file: &'a str,
}

/// Whether a word may name a file: it isn't empty and doesn't begin with `-`.
fn is_file(word: &str) -> bool
    ensures { result ≡ is_file_word word.now }
{
    !word.is_empty() && !word.starts_with('-')
}

/// What a question of this name asks, if there is one.
fn read_asked(name: &str) -> Option<Asked>
    ensures { (file : List ℕ) →
        option_map (λ asked. seen_asked asked file) result ≡ question_named name.now file }
{
    match name {
        "faults" => Some(Asked::Faults),
        "paths" => Some(Asked::Paths),
        "keys" => Some(Asked::Keys),
        _ => None,
    }
}

/// The question that the words are, if they are one.
pub fn read_question(words: &[String]) -> Option<Question<'_>>
    ensures { option_map seen_question result ≡ question_of (map string_bytes words.now) }
{
    let [name, file] = words else {
        return None;
    };
    let file = file.as_str();
    if !is_file(file) {
        return None;
    }
    let asked = read_asked(name.as_str())?;
    Some(Question { asked, file })
}
