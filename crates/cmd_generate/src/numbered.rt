//! Steps in lines that are numbered.
ghost use Rattle.std.specs.Prelude.{◌≡◌, [], ◌∷◌, ◌++◌, OnOk};
ghost use Rattle.cmd_generate.specs.Generated.{lines_from};

use base_io::NoMemory;
use cmd_schedule::{WireLine, WireLines, WireStep};
use std::alloc::Global;
use std::marker::Model;

/// Steps in lines that are numbered from 2, as line 1 tells the version. Contracts see the steps.
#[derive(Drop)]
pub struct Numbered {
    lines: WireLines,
}

impl Model for Numbered {
    ghost use Rattle.std.specs.Prelude.{◌≡◌, List};
    ghost use Rattle.cmd_generate.specs.Generated.{lines_from};
    ghost use Rattle.cmd_schedule.specs.Schedules.{wire_steps_of};
    ghost use Rattle.cmd_schedule.specs.declared.schedule.WireStep.{WireStep};

    ghost Value = { List WireStep };

    ghost view = { λ s. wire_steps_of s.lines.items };

    ghost invariant = { λ s. s.lines.items ≡ lines_from 2 (wire_steps_of s.lines.items) };
}

impl Numbered {
    /// No steps. It takes no memory.
    pub fn new(alloc: Global) -> Numbered
        ensures { result ≡ [] }
    {
        Numbered {
            lines: WireLines::new(alloc),
        }
    }

    /// Adds a step behind the others.
    #[tactic(auto, using(crate::proofs::Numbering::pushed_lines, crate::proofs::Numbering::pushed_steps))]
    pub fn add(&mut self, step: WireStep) -> Result<(), NoMemory>
        ensures { OnOk result (self.new ≡ self.old ++ step ∷ []) }
    {
        let number = self.lines.as_slice().len() as u64 + 2;
        self.lines.push(WireLine { number, step })
    }

    /// The lines.
    pub fn into_lines(self) -> WireLines
        ensures { result.items ≡ lines_from 2 self }
    {
        self.lines
    }
}
