//! Quiet moves.
ghost use Rattle.sim_5_moves.specs.SilentWorldsLaws.{SilentWorldsRun};

/// A law: behind a move by which no device does anything with stanzas, the worlds are related: time passes, and the
/// devices take session steps. Nobody says anything, and nobody asks for a page.
pub fn silent_worlds_run()
    ensures { SilentWorldsRun }
{}
