//! The laws.
ghost use Rattle.std.specs.Prelude.{◌≡◌, ◌+◌, ◌≤◌, ℕ, List, [], map};
ghost use Rattle.law_restart.specs.Standing.{AreWithin, IsStanding};
ghost use Rattle.law_restart.specs.Stopping.{again, at_first_again, stopping};
ghost use Rattle.law_server.specs.Events.{Event, Run, after_events, run};
ghost use Rattle.law_server.specs.Happenings.{MayFollow};
ghost use Rattle.sm_resumption.specs.declared.answers.TheConstants.{RESUMABLE_FOR};
ghost use Rattle.srv_core.specs.Configs.{archives_of, at_start};
ghost use Rattle.srv_core.specs.Events.{Whole};
ghost use Rattle.srv_core.specs.Restarts.{at_restart, emptied};
ghost use Rattle.srv_login.specs.declared.account.Account.{Account};
ghost use Rattle.srv_state.specs.State.{Kept, Out};
ghost use Rattle.xml_writer.specs.Items.{ItemOut};

/// A law: servers stand. Wherever any events lead from a server that is started with archives, as `Server::start` makes
/// one, a connection has one session at most, and is open and logged in as the account of that one; each session was
/// parked, and each entry was archived, at a moment that has been; and the connections whose bytes are framed are the open
/// ones. Each connection comes under a number that no open one has, as `Server::connect` requires; of an event in which
/// memory ran out some first items took effect.
pub fn servers_stand<A>()
    ensures { (say : ItemOut → A) (domain : List ℕ) (accounts : List Account) (archives : List Kept) (session now : ℕ) (events : List Event) → AreWithin archives → 1 ≤ session → MayFollow say events (at_first_again domain accounts archives session now) → IsStanding (after_events say events (at_first_again domain accounts archives session now)).server }
{}

/// A law: a restart is like a long pause. Of a server that stands, let each connection be gone at a moment that isn't below
/// the server's own, and then time pass for as long as a session can be resumed (XEP-0198, section 5), or longer. What it
/// is then is a server that is started again with its archives and its next session number, at that later moment; and
/// nothing was put out. So all that follows is the same.
pub fn a_restart_is_like_a_long_pause<A>()
    ensures { (say : ItemOut → A) (w : Whole A) (outs : List (Out A)) (now later : ℕ) → IsStanding w → w.server_state.moment ≤ now → now + RESUMABLE_FOR ≤ later → after_events say (stopping now later w.server_state.conns) (run w outs) ≡ run (again later w.server_state) outs }
{}

/// A law: a server that is started with archives in which nothing was kept, and with 1 as its next session number, at the
/// moment 0, is a new one, as `Server::new` makes it.
pub fn blank_archives_begin_a_server<A>()
    ensures { (domain : List ℕ) (accounts : List Account) (keep : ℕ) → at_restart {A = A} domain accounts (archives_of domain keep accounts) 1 0 ≡ at_start domain accounts keep }
{}

/// A law: archives stay with their accounts. Whatever events happen, the archives are as many, in the same order, with the
/// same owners, and keep as many entries. So those of a server are such as `Server::start` requires.
pub fn archives_stay_with_their_accounts<A>()
    ensures { (say : ItemOut → A) (events : List Event) (r : Run A) → map emptied (after_events say events r).server.server_state.archives ≡ map emptied r.server.server_state.archives }
{}
