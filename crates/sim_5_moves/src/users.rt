//! The calls of a device's user.
//!
//! A premise on what a user says is of texts of the grammar (`says_so`): other bytes that `say_answer` takes may be
//! no UTF-8.
ghost use Rattle.sim_5_moves.specs.UsersLaws as laws;

/// A law: where a user gives the session of a device up, or closes the stream, the world of the applications comes along: the
/// device's client drops its session.
pub fn users_run()
    ensures forgets { laws.UsersRunForgets }
    ensures closes { laws.UsersRunCloses }
{}
