//! Generated programs: how many functions are asked for, and their texts.

ghost use Rattle.std.specs.Prelude.{◌≡◌, ◌≤◌, length, IfOk};
ghost use Rattle.vlt_base.specs.Limits.{limit_of};
ghost use Rattle.vlt_base.specs.declared.limits.TheConstants.{SOURCE_BYTES};
ghost use Rattle.vaultc_words.specs.declared.generated.TheConstants.{MOST_FUNCTIONS};
ghost use Rattle.vlt_load.specs.Generated.{generated_text};

use std::alloc::Global;
use vlt_base::Memory;
use vlt_load::make;

/// The most functions that a generated program may have beside `main`.
pub const MOST_FUNCTIONS: u32 = 4_000;

/// How many functions a generated program has beside `main`.
#[derive(Clone, Copy, Debug)]
pub struct Functions {
    pub count: u32,
    pub ghost few: { count ≤ MOST_FUNCTIONS },
}

/// A program by its text, no longer than a file may be, and how many functions were asked for.
#[derive(Drop)]
pub struct Generated {
    pub functions: u32,
    pub text: Vec<u8>,
    pub ghost short: { length text.items ≤ limit_of SOURCE_BYTES },
}

/// The generated program of so many functions.
pub fn generate(alloc: Global, functions: Functions) -> Result<Generated, Memory>
    ensures functions { IfOk result (λ made. made.functions ≡ functions.count) }
    ensures text { IfOk result (λ made. made.text.items ≡ generated_text functions.count) }
{
    let count = functions.count;
    let text = make(alloc, count)?;
    Ok(Generated {
        functions: count,
        text,
    })
}
