//! Moves by which nothing happens.
ghost use Rattle.sim_5_moves.specs.ConnectionsLaws as laws;

/// A law: where a move changes nothing, and by it nobody says anything and no device does anything, the worlds are related
/// as they were (`still`). So it is of a move of a device, or on a connection, that isn't there (`nobody`), and where
/// nothing is to be handed over or told (`up`, `told`, `down`).
pub fn moves_that_do_nothing_run()
    ensures still { laws.MovesThatDoNothingRunStill }
    ensures nobody { laws.MovesThatDoNothingRunNobody }
    ensures up { laws.MovesThatDoNothingRunUp }
    ensures told { laws.MovesThatDoNothingRunTold }
    ensures down { laws.MovesThatDoNothingRunDown }
{}

/// A law: so it is of what a user submits, or asks for, that the client refuses.
pub fn refused_calls_run()
    ensures says { laws.RefusedCallsRunSays }
    ensures asks { laws.RefusedCallsRunAsks }
{}
