//! The laws.
//!
//! What a server builds is bounded part by part (`IsBounded`, some 400 bytes a tag, 6 a byte of text). What a client
//! says again of what came to it has bounds as a premise (`IsAnswerable`, 4,096 bytes).
ghost use Rattle.std.specs.Prelude.{◌≡◌, ◌<◌, ◌^◌, ℕ, List, [], ◌++◌, Option, None, IfSome, true};
ghost use Rattle.std.specs.List.{AllByRecursion};
ghost use Rattle.srv_state.specs.Moments.{at_moment, gone_at, with_fresh};
ghost use Rattle.srv_state.specs.State.{Out, ServerState, Step};
ghost use Rattle.xml_framer.specs.Limits.{server_limits};
ghost use Rattle.xml_framer.specs.Machine.{run};
ghost use Rattle.xml_framer.specs.States.{Turn, from_start, turn};
ghost use Rattle.xml_framer.specs.declared.fault.Fault.{Fault};
ghost use Rattle.xml_framer.specs.declared.items.Item.{Item};
ghost use Rattle.srv_login.specs.Accounts.{account_of, is_normal_local};
ghost use Rattle.srv_login.specs.declared.account.Account.{Account};
ghost use Rattle.srv_core.specs.Configs.{is_normal_domain, server_state_at_start};
ghost use Rattle.srv_core.specs.Events.{Whole, after_bytes, after_fault, after_turn, framer_at, turn_of};
ghost use Rattle.srv_core.specs.Table.{after_item, after_items};
ghost use Rattle.law_limits.specs.Keeps.{AccountKeeps, Comes, IsDrawn, OutIsRead, ServerKeeps, StepKeeps};
ghost use Rattle.law_server.specs.Encodings.{itself};
ghost use Rattle.xml_writer.specs.Items.{ItemOut};

/// A law: each thing that a server puts is read by its client as it is. A hall of items keeps to it where what waits in
/// its sessions is plain and within a client's limits as it is written, its archives' entries came from stanzas that
/// were handled, and the domain, the names, the resources and the counts have their bounds. Whatever item comes that a
/// framer with a server's limits gives, the server's state keeps to it, and what is put out is plain and within a
/// client's limits; and so behind the items of a piece, and behind the fault of a stream.
pub fn what_a_server_puts_is_read()
    ensures item { (k : ℕ) (i : Item) (s : Step ItemOut) → Comes i → StepKeeps s → StepKeeps (after_item itself k i s) }
    ensures items { (k : ℕ) (items : List Item) (s : Step ItemOut) → AllByRecursion Comes items → StepKeeps s → StepKeeps (after_items itself k items s) }
    ensures fault { (k : ℕ) (o : Option Fault) (s : Step ItemOut) → StepKeeps s → StepKeeps (after_fault itself k o s) }
    ensures turn { (k : ℕ) (t : Turn) (s : Step ItemOut) → AllByRecursion Comes t.items → StepKeeps s → StepKeeps (after_turn itself k t s) }
    ensures bytes { (k : ℕ) (piece : List ℕ) (now : ℕ) (w : Whole ItemOut) (outs : List (Out ItemOut)) → IfSome (framer_at k w.framers) (λ f. AllByRecursion Comes (turn_of piece f).items)
        → ServerKeeps w.server_state → AllByRecursion OutIsRead outs → StepKeeps (after_bytes itself k piece now w outs) }
{}

/// A law: moments that pass, and connections that come and go, leave a server's state that keeps to it.
pub fn moments_keep_what_is_read()
    ensures moment { (now : ℕ) (h : ServerState ItemOut) → ServerKeeps h → ServerKeeps (at_moment now h) }
    ensures fresh { (k : ℕ) (entropy : List ℕ) (h : ServerState ItemOut) → IsDrawn entropy → ServerKeeps h → ServerKeeps (with_fresh k entropy h) }
    ensures gone { (k : ℕ) (h : ServerState ItemOut) → ServerKeeps h → ServerKeeps (gone_at k h) }
{}

/// A law: what a framer with a server's limits gives comes so. As long as there is no fault each element is plain, can be
/// written within the limits of a stanza if its bytes are not too many, and no text of its own is longer than its bytes.
/// So do the items of a piece behind bytes before it.
pub fn what_a_framer_gives_comes()
    ensures whole { (bytes : List ℕ) → (run (turn (from_start server_limits) []) bytes).state.fault ≡ None → AllByRecursion Comes (run (turn (from_start server_limits) []) bytes).items }
    ensures piece { (before piece : List ℕ) → (run (turn (from_start server_limits) []) (before ++ piece)).state.fault ≡ None
        → AllByRecursion Comes (turn_of piece (run (turn (from_start server_limits) []) before).state).items }
{}

/// A law: what a server begins with keeps to it. Its domain is in normal form, and its accounts are such as are made of a
/// name in normal form and a password.
pub fn a_server_begins_so()
    ensures start { (domain : List ℕ) (accounts : List Account) (keep : ℕ) → is_normal_domain domain ≡ true → AllByRecursion AccountKeeps accounts → keep < 2 ^ 64
        → ServerKeeps (server_state_at_start domain accounts keep) }
    ensures account { (name domain password : List ℕ) → is_normal_local name ≡ true → AccountKeeps (account_of name domain password) }
{}
