//! Laws of who is logged in, over any events (RFC 6120, section 6; RFC 5802).
ghost use Rattle.std.specs.Prelude.{◌≡◌, ℕ, List, Some};
ghost use Rattle.law_server.specs.Events.{Event, after_events};
ghost use Rattle.law_server.specs.Happenings.{MayFollow};
ghost use Rattle.law_server.specs.Proved.{HasProved, at_first};
ghost use Rattle.law_server.specs.Sound.{IsSound};
ghost use Rattle.sm_live.specs.Sessions.{Session, session_at};
ghost use Rattle.srv_login.specs.declared.account.Account.{Account};
ghost use Rattle.srv_state.specs.State.{conn_at};
ghost use Rattle.srv_state.specs.declared.connection.Connection.{Connection};
ghost use Rattle.srv_state.specs.declared.connection.Phase.TheVariants.{Ready, Restart};
ghost use Rattle.xml_writer.specs.Items.{ItemOut};

/// A law: who is logged in proved the password. Wherever any events lead from a server as it begins, a session is on a
/// connection, be it bound there or resumed, only where since that connection came a `response` came on it with the right
/// proof for the credentials of the session's account, in an exchange whose nonce has what was drawn for the connection
/// (RFC 5802, section 3). So it is of each connection that is logged in. Each connection comes under a number that no open
/// one has, as `Server::connect` requires; of an event in which memory ran out some first items took effect.
pub fn sessions_are_of_proved_accounts<A>()
    ensures session { (say : ItemOut → A) (domain : List ℕ) (accounts : List Account) (keep : ℕ) (events : List Event) (k : ℕ) (t : Session A) → MayFollow say events (at_first domain accounts keep)
        → session_at k (after_events say events (at_first domain accounts keep)).server.server_state.sessions ≡ Some t → HasProved say accounts (at_first domain accounts keep) events k t.shown.account }
    ensures restart { (say : ItemOut → A) (domain : List ℕ) (accounts : List Account) (keep : ℕ) (events : List Event) (k account : ℕ) (c : Connection) → MayFollow say events (at_first domain accounts keep)
        → conn_at k (after_events say events (at_first domain accounts keep)).server.server_state ≡ Some c → c.phase ≡ Restart account → HasProved say accounts (at_first domain accounts keep) events k account }
    ensures ready { (say : ItemOut → A) (domain : List ℕ) (accounts : List Account) (keep : ℕ) (events : List Event) (k account : ℕ) (c : Connection) → MayFollow say events (at_first domain accounts keep)
        → conn_at k (after_events say events (at_first domain accounts keep)).server.server_state ≡ Some c → c.phase ≡ Ready account → HasProved say accounts (at_first domain accounts keep) events k account }
{}

/// A law: servers are sound over any events, as `servers_stay_sound` says of each: the numbers of sessions rise, sessions and
/// logins are of accounts that exist, and no archive gave a number above the greatest. So what is said of a server whose
/// sessions have numbers of their own is said of each server.
pub fn servers_are_sound_after_events<A>()
    ensures { (say : ItemOut → A) (domain : List ℕ) (accounts : List Account) (keep : ℕ) (events : List Event) → MayFollow say events (at_first domain accounts keep) → IsSound (after_events say events (at_first domain accounts keep)).server.server_state }
{}
