//! Laws of what stays open in a run, and so of what comes of a device that was connected when it began.
ghost use Rattle.sim_7_schedules.specs.CalmLaws as laws;

/// A law: behind its `dial` a device is connected.
pub fn dialled_devices_are_connected()
    ensures { laws.DialledDevicesAreConnected }
{}

/// A law: where a device is connected when `run n` begins, as behind its `dial`, it is connected in the end, on the same
/// connection. Or in the midst of the first round a `bind` or a `resume` came on an older connection of the device, or in
/// one of the rounds the server had one stanza more for the session on that connection while 10,000 waited in it. Nothing
/// else ends a connection there: the network cuts none in a run, the client leaves none that the server hasn't shut, and
/// the server shuts none for what comes on it. And behind one round no other connection of the device has bytes under way
/// to the server.
pub fn open_connections_stay_open()
    ensures { laws.OpenConnectionsStayOpen }
{}

/// A law: where no other connection of the device has bytes under way to the server when the run begins, no late word comes,
/// and the full queue is the only one of these causes; and in the end it is so as well. So it is behind a device's first
/// dial, and behind each run in which it stayed connected.
pub fn lone_connections_end_by_a_full_queue()
    ensures { laws.LoneConnectionsEndByAFullQueue }
{}

/// A law: so where a device is connected when `run n` begins, and `n` is at least 7, it is connected and its client is
/// online in the end; but for these two causes.
pub fn connected_devices_come_online()
    ensures { laws.ConnectedDevicesComeOnline }
{}

/// A law: behind `dial d` and `run n`, where `n` is at least 5, `d` is connected in the end, and its session is resumed
/// (XEP-0198, section 5), where both ends had it behind the dial, the server counted it, and has it still; but for these two
/// causes.
pub fn dialled_sessions_are_resumed()
    ensures { laws.DialledSessionsAreResumed }
{}

/// A law: and where `n` is at least 8, what it had said in its present epoch when the run began, to accounts that exist,
/// was taken, if the epoch is the same in the end; but for these two causes. The messages are the first of that epoch that
/// the server took of it, in their order.
pub fn what_connected_devices_said_is_taken()
    ensures { laws.WhatConnectedDevicesSaidIsTaken }
{}
