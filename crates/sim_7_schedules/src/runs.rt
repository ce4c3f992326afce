//! Laws of lists of lines that end with `run n`.
//!
//! A device is connected where its newest connection has not ended: so the network didn't cut it, the device didn't
//! leave it, and the server didn't shut it.
ghost use Rattle.sim_7_schedules.specs.RunsLaws as laws;

/// A law: where a list of lines ends with `run n`, and a device is connected in the end, that line's moves are `n` rounds
/// of the links of the device, on its newest connection: at one time of each round nothing is on its way to the server
/// there, and later nothing is on its way to the device.
pub fn a_run_is_rounds()
    ensures { laws.ARunIsRounds }
{}

/// A law: so behind `run n`, where `n` is at least 7, the client of each device that is connected is online. Whatever
/// came before, and whatever other devices do meanwhile, changes nothing of that.
pub fn connected_devices_are_online()
    ensures { laws.ConnectedDevicesAreOnline }
{}

/// A law: behind `dial d` and `run n`, where `n` is at least 5, a session of the device is resumed (XEP-0198, section 5),
/// where both ends had it behind the dial, the server has it still, and the device is connected: its client is online,
/// and in the epoch in which it was.
pub fn sessions_that_stay_are_resumed()
    ensures { laws.SessionsThatStayAreResumed }
{}

/// A law: behind `run n`, where `n` is at least 8, what a device that is connected had said in its present epoch, when the
/// run began, to accounts that exist, was taken: these messages are the first of that epoch that the server took of it, in
/// their order. So it is where it was online all the time, and where its session was resumed.
pub fn what_was_said_is_taken()
    ensures { laws.WhatWasSaidIsTaken }
{}
