//! Texts that are made together.
ghost use Rattle.std.specs.Prelude.{◌≡◌, IfOk};

use base_io::{NoMemory, Text};
use std::alloc::Global;

/// Two texts.
pub fn texts(alloc: Global, first: &str, second: &str) -> Result<(Text, Text), NoMemory>
    ensures { IfOk result (λ made. (made.0 ≡ first.now) × (made.1 ≡ second.now)) }
{
    let first = Text::from_str(alloc, first)?;
    let second = Text::from_str(alloc, second)?;
    Ok((first, second))
}
