//! The laws.
ghost use Rattle.sim_7_schedules.specs.RefusedLinesLaws as laws;

/// A law: what a move adds to the lines that devices have refused. The device whose user says something, or asks for the
/// archive, notes the line where its client answers why not; no other move adds a line, and no device's name changes.
pub fn moves_leave_refused()
    ensures { laws.MovesLeaveRefused }
{}

/// A law: where each line of a list of lines has the refusals of its moves, the report of the list's world has for each
/// device the refusals under its name, in the order of the lines.
pub fn lines_are_refused()
    ensures { laws.LinesAreRefused }
{}

/// A law: what each line of a list comes to, where it has the refusals of its moves. The device under a name that a
/// line says is there, at the place of its owner. Where its client takes the message, or asks for the page, nothing is
/// refused; where it answers why not, the device refuses this line alone. No line of another kind is refused.
pub fn lines_are_answered()
    ensures { laws.LinesAreAnswered }
{}
