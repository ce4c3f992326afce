//! What a device's user submits, and asks for.
ghost use Rattle.sim_5_moves.specs.UserCallsLaws as laws;

/// A law: where the user of a device submits a message to an account by its name, and the client takes it, the world of the
/// applications comes along: there the device's user says it.
pub fn says_run()
    ensures { laws.SaysRun }
{}

/// A law: so it is where the user asks for the archive, in pages of 1 to 100 results, and the client takes it: there the
/// device's user catches up, and a page is under way.
pub fn catch_ups_run()
    ensures { laws.CatchUpsRun }
{}

/// A law: whatever the client answers, and whether the device is there or not, the worlds are related behind what
/// the user submits (`says`) and asks for (`asks`).
pub fn calls_run()
    ensures says { laws.CallsRunSays }
    ensures asks { laws.CallsRunAsks }
{}
