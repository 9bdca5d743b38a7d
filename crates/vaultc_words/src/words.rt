//! From words to a command.

ghost use Rattle.std.specs.Prelude.{◌≡◌, ◌≤◌, IfSome, None, Some, map, string_bytes, option_map};
ghost use Rattle.std.specs.Option.{option_and_then};
ghost use Rattle.std.specs.List.{list_all};
ghost use Rattle.std.specs.Char.{is_ascii_digit};
ghost use Rattle.vaultc_words.specs.Commands as c;
ghost use Rattle.vaultc_words.specs.Commands.{command_of, budgets_of, is_file_word, file_word, number_within, setting_of, with_setting, settings_of, nothing_set, taken_by, without_options, host_of, modules_of, link_of};
ghost use Rattle.vaultc_words.specs.View.{seen_command, seen_text, seen_setting, seen_settings, seen_taken};

use crate::generated::{Functions, MOST_FUNCTIONS};
use vlt_base::Budgets;

/// The most objects that a run's heap may be given room for.
pub const MOST_HEAP: u32 = 16_777_216;
/// The most calls that a run may be allowed in one another.
pub const MOST_DEPTH: u32 = 100_000;
/// The budgets of a run where no option sets them.
pub const DEFAULT_FUEL: u64 = 1_000_000;

pub const DEFAULT_HEAP: u32 = 65_536;

pub const DEFAULT_DEPTH: u32 = 1_000;

/// What a run takes: budgets, and the names of its files of numbers.
#[derive(Clone, Copy, Debug)]
pub struct Taken<'a> {
    pub budgets: Budgets,
    pub input: Option<&'a str>,
    pub answers: Option<&'a str>,
}

/// The budgets of a run without options.
pub fn default_budgets() -> Budgets
    ensures { result ≡ budgets_of nothing_set }
{
    Budgets {
        fuel: DEFAULT_FUEL,
        heap: DEFAULT_HEAP,
        depth: DEFAULT_DEPTH,
    }
}

/// What is done with a text alone.
#[derive(Clone, Copy, Debug)]
pub enum TextCommand {
    Check,
    Explain,
    Fmt,
    Emit,
}

/// A command with its file, if it has one.
#[derive(Clone, Copy, Debug)]
pub enum Command<'a> {
    Text(TextCommand, &'a str),
    /// Verifies a C file.
    Verify(&'a str),
    /// Runs the program of a text.
    Run(&'a str, Taken<'a>),
    /// Runs a C text.
    C(&'a str, Taken<'a>),
    /// Makes a program of so many functions, compiles it and runs it.
    Load(Functions),
    /// Makes the calls of the second file on the program of a text.
    Host(&'a str, &'a str, Taken<'a>),
    /// Tests an interface with a module.
    Module(&'a str, &'a str),
    /// Joins an interface and two modules, and compiles what they are.
    Link(&'a str, &'a str, &'a str),
}

/// An option with its value.
#[derive(Clone, Copy, Debug)]
enum Setting<'a> {
    Fuel(u64),
    Heap(u32),
    Depth(u32),
    /// The file of input numbers.
    Input(&'a str),
    /// The file of answers.
    Answers(&'a str),
}

/// What options have set.
#[derive(Clone, Copy, Debug)]
struct Settings<'a> {
    fuel: Option<u64>,
    heap: Option<u32>,
    depth: Option<u32>,
    input: Option<&'a str>,
    answers: Option<&'a str>,
}

/// Whether a word may name a file: it isn't empty and doesn't begin with `-`.
fn is_file(word: &str) -> bool
    ensures { result ≡ is_file_word word.now }
{
    !word.is_empty() && !word.starts_with('-')
}

/// A word that may name a file.
fn read_name(word: &str) -> Option<&str>
    ensures { option_map (λ f. f.now) result ≡ file_word word.now }
{
    if is_file(word) { Some(word) } else { None }
}

fn is_all_digits(word: &str) -> bool
    ensures { result ≡ list_all is_ascii_digit word.now }
{
    word.as_bytes().iter().all(|byte| byte.is_ascii_digit())
}

/// The value of 1 to 19 decimal digits, where it lies between two numbers.
fn read_number(word: &str, low: u64, high: u64) -> Option<u64>
    ensures value { result ≡ number_within low high word.now }
    ensures bounded { IfSome result (λ n. n ≤ high) }
{
    if word.is_empty() || word.len() > 19 || !is_all_digits(word) {
        return None;
    }
    let Ok(value) = word.parse::<u64>() else {
        return None;
    };
    if low <= value && value <= high {
        Some(value)
    } else {
        None
    }
}

/// The option of this name with this value, if there is one.
fn read_setting<'a>(option: &str, value: &'a str) -> Option<Setting<'a>>
    ensures { option_map seen_setting result ≡ setting_of option.now value.now }
{
    match option {
        "--fuel" => {
            let fuel = read_number(value, 0, i64::MAX as u64)?;
            Some(Setting::Fuel(fuel))
        }
        "--heap" => {
            let heap = read_number(value, 0, u64::from(MOST_HEAP))?;
            Some(Setting::Heap(heap as u32))
        }
        "--depth" => {
            let depth = read_number(value, 1, u64::from(MOST_DEPTH))?;
            Some(Setting::Depth(depth as u32))
        }
        "--input" => {
            let file = read_name(value)?;
            Some(Setting::Input(file))
        }
        "--answers" => {
            let file = read_name(value)?;
            Some(Setting::Answers(file))
        }
        _ => None,
    }
}

impl<'a> Settings<'a> {
    /// These with one more, where it wasn't set before.
    fn with(self, setting: Setting<'a>) -> Option<Settings<'a>>
        ensures { option_map seen_settings result
            ≡ with_setting (seen_settings self.entry) (seen_setting setting.entry) }
    {
        match setting {
            Setting::Fuel(fuel) if self.fuel.is_none() => Some(Settings {
                fuel: Some(fuel),
                ..self
            }),
            Setting::Heap(heap) if self.heap.is_none() => Some(Settings {
                heap: Some(heap),
                ..self
            }),
            Setting::Depth(depth) if self.depth.is_none() => Some(Settings {
                depth: Some(depth),
                ..self
            }),
            Setting::Input(file) if self.input.is_none() => Some(Settings {
                input: Some(file),
                ..self
            }),
            Setting::Answers(file) if self.answers.is_none() => Some(Settings {
                answers: Some(file),
                ..self
            }),
            _ => None,
        }
    }

    /// What a run takes: a budget that isn't set has its default.
    fn taken(self) -> Taken<'a>
        ensures { seen_taken result ≡ taken_by (seen_settings self.entry) }
    {
        Taken {
            budgets: Budgets {
                fuel: self.fuel.unwrap_or(DEFAULT_FUEL),
                heap: self.heap.unwrap_or(DEFAULT_HEAP),
                depth: self.depth.unwrap_or(DEFAULT_DEPTH),
            },
            input: self.input,
            answers: self.answers,
        }
    }
}

/// These, and what pairs of options and values set besides, each option at most once, in any order.
fn read_more<'a>(words: &'a [String], settings: Settings<'a>) -> Option<Settings<'a>>
    ensures { option_map seen_settings result
        ≡ settings_of (map string_bytes words.now) (seen_settings settings.entry) }
{
    match words {
        [] => Some(settings),
        [option, value, rest @ ..] => {
            let setting = read_setting(option.as_str(), value.as_str())?;
            let settings = settings.with(setting)?;
            read_more(rest, settings)
        }
        _ => None,
    }
}

/// What pairs of options and values set.
fn read_settings(words: &[String]) -> Option<Settings<'_>>
    ensures { option_map seen_settings result
        ≡ settings_of (map string_bytes words.now) nothing_set }
{
    let nothing = Settings {
        fuel: None,
        heap: None,
        depth: None,
        input: None,
        answers: None,
    };
    read_more(words, nothing)
}

/// A command that takes no options.
fn without_options<'a>(command: Command<'a>, options: &[String]) -> Option<Command<'a>>
    ensures { option_map seen_command result
        ≡ without_options (seen_command command.entry) (map string_bytes options.now) }
{
    if options.is_empty() {
        Some(command)
    } else {
        None
    }
}

/// A command on a text alone, which takes no options.
fn text_command<'a>(command: TextCommand, file: &'a str, options: &[String]) -> Option<Command<'a>>
    ensures { option_map seen_command result
        ≡ without_options (seen_text command file.now) (map string_bytes options.now) }
{
    without_options(Command::Text(command, file), options)
}

/// `load` with this number, where no word follows.
fn read_load<'a>(number: &str, options: &[String]) -> Option<Command<'a>>
    ensures { option_map seen_command result ≡ option_and_then
        (λ n. c.without_options (c.load n) (map string_bytes options.now))
        (number_within 1 MOST_FUNCTIONS number.now) }
{
    let count = read_number(number, 1, u64::from(MOST_FUNCTIONS))?;
    let functions = Functions {
        count: count as u32,
    };
    without_options(Command::Load(functions), options)
}

/// `host` with this file, where the next word names the file of the calls, and the others set options.
fn read_host<'a>(file: &'a str, words: &'a [String]) -> Option<Command<'a>>
    ensures { option_map seen_command result ≡ host_of file.now (map string_bytes words.now) }
{
    let [calls, options @ ..] = words else {
        return None;
    };
    let calls = read_name(calls.as_str())?;
    let settings = read_settings(options)?;
    Some(Command::Host(file, calls, settings.taken()))
}

/// `module` with this interface, where the next word names the module.
fn read_modules<'a>(interface: &'a str, words: &'a [String]) -> Option<Command<'a>>
    ensures { option_map seen_command result
        ≡ modules_of interface.now (map string_bytes words.now) }
{
    let [file] = words else {
        return None;
    };
    Some(Command::Module(interface, read_name(file.as_str())?))
}

/// `link` with this interface, where the next two words name modules.
fn read_link<'a>(interface: &'a str, words: &'a [String]) -> Option<Command<'a>>
    ensures { option_map seen_command result
        ≡ link_of interface.now (map string_bytes words.now) }
{
    let [first, second] = words else {
        return None;
    };
    let first = read_name(first.as_str())?;
    let second = read_name(second.as_str())?;
    Some(Command::Link(interface, first, second))
}

/// The command that the words are, if they are one.
pub fn read_command(words: &[String]) -> Option<Command<'_>>
    ensures { option_map seen_command result ≡ command_of (map string_bytes words.now) }
{
    let [command, file, options @ ..] = words else {
        return None;
    };
    if !is_file(file.as_str()) {
        return None;
    }
    match command.as_str() {
        "check" => text_command(TextCommand::Check, file.as_str(), options),
        "explain" => text_command(TextCommand::Explain, file.as_str(), options),
        "fmt" => text_command(TextCommand::Fmt, file.as_str(), options),
        "emit" => text_command(TextCommand::Emit, file.as_str(), options),
        "verify" => without_options(Command::Verify(file.as_str()), options),
        "run" => {
            let settings = read_settings(options)?;
            Some(Command::Run(file.as_str(), settings.taken()))
        }
        "crun" => {
            let settings = read_settings(options)?;
            Some(Command::C(file.as_str(), settings.taken()))
        }
        "load" => read_load(file.as_str(), options),
        "host" => read_host(file.as_str(), options),
        "module" => read_modules(file.as_str(), options),
        "link" => read_link(file.as_str(), options),
        _ => None,
    }
}
