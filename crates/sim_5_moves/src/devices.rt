//! What of a device goes on beside a world of items.
//!
//! Who hears of a message is said by names of accounts and places of devices in place of numbers of sessions
//! (`hears_in`), since a device has one session at most.
ghost use Rattle.sim_5_moves.specs.DevicesLaws as laws;

/// A law: what is built stays so where the account's history grows (`one`, `all`), as it does where more is taken
/// (`takes`). And stanzas that are built each are built as the labels that put them (`gives`, `says`).
pub fn what_is_built_stays()
    ensures one { laws.WhatIsBuiltStaysOne }
    ensures all { laws.WhatIsBuiltStaysAll }
    ensures takes { laws.WhatIsBuiltStaysTakes }
    ensures gives { laws.WhatIsBuiltStaysGives }
    ensures says { laws.WhatIsBuiltStaysSays }
{}

/// A law: each device beside a world of items is one whose pages are in time.
pub fn devices_are_paged()
    ensures { laws.DevicesArePaged }
{}
