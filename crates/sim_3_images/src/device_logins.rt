//! The laws.
ghost use Rattle.std.specs.Prelude.{◌≡◌, ◌≢◌, ℕ, List, true};
ghost use Rattle.sim_3_images.specs.Devices.{AreTwo, IsDeviceAt, identity_at};
ghost use Rattle.sim_3_images.specs.Logins.{HasLogin, IsDrawn};
ghost use Rattle.sim_3_items.specs.Identities.{Identity, IsNormal, Login, own_account};
ghost use Rattle.sim_3_items.specs.Servers.{IsDeviceServed};
ghost use Rattle.sim_3_items.specs.Represents.{Represents};
ghost use Rattle.cmd_network.specs.Starting.{accounts_at_start, device_at_start};
ghost use Rattle.sim_3_images.specs.ItemStarts.{items_at_start};
ghost use Rattle.sim_2_links.specs.Machine.{nothing_yet};
ghost use Rattle.cmd_report.specs.Addresses.{domain};
ghost use Rattle.cmd_schedule.specs.Contents.{Owned, accounts_of};
ghost use Rattle.cmd_schedule.specs.Schedules.{WireView};
ghost use Rattle.cmd_schedule.specs.LineLists.{IsLineList};
ghost use Rattle.auth_scram.specs.Exchange.{is_plain};
ghost use Rattle.srv_core.specs.Configs.{server_state_at_start};
ghost use Rattle.cmd_world.specs.Histories.{common_steps};
ghost use Rattle.cmd_world.specs.Worlds.{client_entropy, server_entropy};

/// A law: each device that a list of lines declares is one that both ends know (`identity_at`). Its addresses are in
/// normal form (`normal`); a server of the list's accounts has its account and its archive (`served`), and its
/// client has the same account (`client`). Its account's name and password are printable ASCII (`name`, `password`).
pub fn devices_have_identities()
    ensures normal { (schedule : WireView) (position : ℕ) (o : Owned) → IsLineList schedule → IsDeviceAt schedule position o → IsNormal (identity_at schedule position o) }
    ensures served { (schedule : WireView) (position : ℕ) (o : Owned) (keep : ℕ) → IsLineList schedule → IsDeviceAt schedule position o
        → IsDeviceServed (identity_at schedule position o) (server_state_at_start domain (accounts_at_start (accounts_of (common_steps schedule))) keep) }
    ensures client { (schedule : WireView) (position : ℕ) (o : Owned) → IsLineList schedule → IsDeviceAt schedule position o
        → (device_at_start o.device o.account).client.client.account ≡ own_account (identity_at schedule position o) }
    ensures name { (schedule : WireView) (position : ℕ) (o : Owned) → IsLineList schedule → IsDeviceAt schedule position o → is_plain (identity_at schedule position o).name ≡ true }
    ensures password { (schedule : WireView) (position : ℕ) (o : Owned) → IsLineList schedule → IsDeviceAt schedule position o → is_plain (identity_at schedule position o).password ≡ true }
{}

/// A law: two devices of a list of lines have two places and two resources.
pub fn devices_are_apart()
    ensures { (schedule : WireView) (p q : ℕ) (o r : Owned) → IsLineList schedule → IsDeviceAt schedule p o → IsDeviceAt schedule q r → p ≢ q
        → AreTwo (identity_at schedule p o) (identity_at schedule q r) }
{}

/// A law: whatever was drawn for the ends of a connection, the login of a device whose account has a name and a
/// password of printable ASCII goes through (RFC 5802, section 3), and its messages are bytes (`drawn`). So it is for
/// each connection of each device of a list of lines, with what its world draws for the connection of that number
/// (`schedule`).
pub fn logins_go_through()
    ensures drawn { (who : Identity) (mine yours : List ℕ) → is_plain who.name ≡ true → is_plain who.password ≡ true → IsDrawn mine → IsDrawn yours → HasLogin who mine yours }
    ensures schedule { (schedule : WireView) (position : ℕ) (o : Owned) → IsLineList schedule → IsDeviceAt schedule position o
        → (n : ℕ) → HasLogin (identity_at schedule position o) (client_entropy n) (server_entropy n) }
{}

/// A law: the first world of items of a list of lines shows each of its devices, whatever its logins will be: nothing is
/// there yet.
pub fn devices_are_shown_from_the_start()
    ensures { (schedule : WireView) (position : ℕ) (o : Owned) (logins : ℕ → Login) → IsLineList schedule → IsDeviceAt schedule position o
        → Represents (identity_at schedule position o) logins (items_at_start schedule) nothing_yet }
{}
