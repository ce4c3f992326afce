//! What has a text in a report, and its pieces.
ghost use Rattle.std.specs.Prelude.{◌≡◌, ℕ, List, ◌∷◌, ◌++◌, OnOk, decimal};
ghost use Rattle.std.specs.List.{flat_map};

use base_io::{Bytes, ListOf, NoMemory};
use itoa::Buffer;

/// What has a text in a report.
pub trait Printed {
    /// The text.
    ghost text: { Self → List ℕ };

    /// Adds the text. A refusal leaves a part of it behind the other bytes.
    fn print(&self, out: &mut Bytes) -> Result<(), NoMemory>
        ensures { OnOk result (out.new.items ≡ out.old.items ++ text self.now) };
}

/// Adds the texts of lines, in order.
pub fn print_all<T: Printed>(out: &mut Bytes, lines: &ListOf<T>) -> Result<(), NoMemory>
    ensures { OnOk result (out.new.items ≡ out.old.items ++ flat_map T.text lines.now.items) }
{
    for line in lines.as_slice() {
        line.print(out)?;
    }
    Ok(())
}

/// Adds a number.
pub fn append_number(out: &mut Bytes, n: u64) -> Result<(), NoMemory>
    ensures { OnOk result (out.new.items ≡ out.old.items ++ decimal n) }
{
    let mut buffer = Buffer::new();
    out.append(buffer.format(n).as_bytes())
}

/// Adds a space and a field.
pub fn append_field(out: &mut Bytes, field: &str) -> Result<(), NoMemory>
    ensures { OnOk result (out.new.items ≡ out.old.items ++ 32 ∷ field.now) }
{
    out.push(b' ')?;
    out.append(field.as_bytes())
}

/// Adds a space and a number.
pub fn append_number_field(out: &mut Bytes, n: u64) -> Result<(), NoMemory>
    ensures { OnOk result (out.new.items ≡ out.old.items ++ 32 ∷ decimal n) }
{
    out.push(b' ')?;
    append_number(out, n)
}
