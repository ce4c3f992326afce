//! One device of a world acts.
ghost use Rattle.sim_5_moves.specs.OneDeviceLaws as laws;

/// A law: one device of a world of items acts alone: the server, what it took and the moment stay, and the others are shown
/// as they were. Where the device comes beside what events of it lead to, and its links by their moves, the worlds are
/// related; and no other device does anything with stanzas.
pub fn one_device_acts()
    ensures { laws.OneDeviceActs }
{}

/// A law: a device takes session steps, and then acts so that no message is taken: these are events of the world of the
/// applications, and in them is said what the act says.
pub fn acts_come_after_session_steps()
    ensures reaches { laws.ActsComeAfterSessionStepsReaches }
    ensures spoken { laws.ActsComeAfterSessionStepsSpoken }
{}
