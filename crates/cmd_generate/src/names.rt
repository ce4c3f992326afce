//! Names and texts that are a word and a number.
ghost use Rattle.std.specs.Prelude.{◌≡◌, ◌++◌, IfOk, decimal};
ghost use Rattle.cmd_generate.specs.Generated.{account_named, device_named, text_named};

use base_io::{NoMemory, Text};
use itoa::Buffer;
use std::alloc::Global;

// A word with a number behind it.
fn numbered(alloc: Global, word: &str, number: u32) -> Result<Text, NoMemory>
    ensures { IfOk result (λ text. text ≡ word.now ++ decimal number) }
{
    let mut buffer = Buffer::new();
    let mut name = String::from_str(alloc, word)?;
    name.push_str(buffer.format(number))?;
    Text::from_str(alloc, name.as_str())
}

/// The name of an account: `a` and its number. Refused only where memory runs out.
pub fn account_named(alloc: Global, number: u32) -> Result<Text, NoMemory>
    ensures { IfOk result (λ text. text ≡ account_named number) }
{
    numbered(alloc, "a", number)
}

/// The name of a device: `d` and its number. Refused only where memory runs out.
pub fn device_named(alloc: Global, number: u32) -> Result<Text, NoMemory>
    ensures { IfOk result (λ text. text ≡ device_named number) }
{
    numbered(alloc, "d", number)
}

/// The text of a message: `m` and its number. Refused only where memory runs out.
pub fn text_named(alloc: Global, number: u32) -> Result<Text, NoMemory>
    ensures { IfOk result (λ text. text ≡ text_named number) }
{
    numbered(alloc, "m", number)
}
