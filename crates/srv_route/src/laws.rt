//! Laws: what becomes of messages, whatever the accounts, the sessions and the message.
ghost use Rattle.std.specs.Prelude.{◌≡◌, ◌≢◌, ◌≤◌, ℕ, [], ◌∷◌, ◌++◌, All, List, None, Ok, Some, count_by, false, map, nat_eq, slice_get, true};
ghost use Rattle.std.specs.List.Sorted.{IsStrictlySortedBy};
ghost use Rattle.std.specs.Ordering.{nat_cmp};
ghost use Rattle.base_lemmas.specs.Distinct.{are_distinct_by};
ghost use Rattle.im_extensions.specs.Given.{is_private};
ghost use Rattle.im_jid.specs.Forms.{domain_form};
ghost use Rattle.sm_live.specs.Rule.{RisesTo};
ghost use Rattle.sm_live.specs.Sessions.{Session, is_numbered, number_of, session_named, session_of};
ghost use Rattle.sm_live.specs.declared.told.SessionInfo.{SessionInfo};
ghost use Rattle.srv_login.specs.Accounts.{accounts_fault, bare_text};
ghost use Rattle.srv_login.specs.declared.account.Account.{Account};
ghost use Rattle.srv_route.specs.Destinations.{Bare, Full, destination_of};
ghost use Rattle.srv_route.specs.Messages.{is_archived, is_copied};
ghost use Rattle.srv_route.specs.Plans.{archiving_of, dropped, plan_of, to_bare};
ghost use Rattle.srv_route.specs.Routes.{archives_in, archives_of, delivered_in, is_bounced, plan_renamed, received_in, sent_in};
ghost use Rattle.im_stanza.specs.Views.{MessageView};
ghost use Rattle.im_stanza.specs.declared.kinds.MessageKind.TheVariants.{Chat, Normal, Headline, Error};

/// A law: of messages to a resource that no session has, a chat goes where it would go at the bare address, a normal message
/// is delivered to nobody, and a headline is dropped (RFC 6121, section 8.5.3.2.1).
pub fn only_chats_fall_back()
    ensures chat { (domain resource : List ℕ) (accounts : List Account) (sessions : List (Session (List ℕ))) (m : MessageView) (sender : SessionInfo) (account : ℕ) → destination_of domain accounts sender.account m.to ≡ Full account resource → session_named account resource sessions ≡ None
        → m.kind ≡ Chat → plan_of domain accounts sessions m sender ≡ to_bare m sender account sessions }
    ensures normal { (domain resource : List ℕ) (accounts : List Account) (sessions : List (Session (List ℕ))) (m : MessageView) (sender : SessionInfo) (account : ℕ) → destination_of domain accounts sender.account m.to ≡ Full account resource → session_named account resource sessions ≡ None
        → m.kind ≡ Normal → delivered_in (plan_of domain accounts sessions m sender) ≡ [] }
    ensures headline { (domain resource : List ℕ) (accounts : List Account) (sessions : List (Session (List ℕ))) (m : MessageView) (sender : SessionInfo) (account : ℕ) → destination_of domain accounts sender.account m.to ≡ Full account resource → session_named account resource sessions ≡ None
        → m.kind ≡ Headline → plan_of domain accounts sessions m sender ≡ dropped }
{}

/// A law: a message of type `error` is never answered with an error (RFC 6120, section 8.3.1).
pub fn errors_are_not_answered()
    ensures { (domain : List ℕ) (accounts : List Account) (sessions : List (Session (List ℕ))) (m : MessageView) (sender : SessionInfo) → m.kind ≡ Error → is_bounced (plan_of domain accounts sessions m sender) ≡ false }
{}

/// A law: in whose archives a message to a user goes doesn't depend on any session (XEP-0313, section 5).
pub fn archives_ask_for_no_session()
    ensures bare { (domain : List ℕ) (accounts : List Account) (sessions : List (Session (List ℕ))) (m : MessageView) (sender : SessionInfo) (account : ℕ) → destination_of domain accounts sender.account m.to ≡ Bare account
        → archives_in (plan_of domain accounts sessions m sender) ≡ archives_of (archiving_of m sender.account account) }
    ensures full { (domain resource : List ℕ) (accounts : List Account) (sessions : List (Session (List ℕ))) (m : MessageView) (sender : SessionInfo) (account : ℕ) → destination_of domain accounts sender.account m.to ≡ Full account resource
        → archives_in (plan_of domain accounts sessions m sender) ≡ archives_of (archiving_of m sender.account account) }
    ensures same { (domain : List ℕ) (accounts : List Account) (sessions others : List (Session (List ℕ))) (m : MessageView) (sender : SessionInfo) → archives_in (plan_of domain accounts sessions m sender) ≡ archives_in (plan_of domain accounts others m sender) }
{}

/// A law: a message goes into no archive twice. One without an address, which is to oneself, goes into one's own alone.
pub fn archives_have_it_once()
    ensures once { (domain : List ℕ) (accounts : List Account) (sessions : List (Session (List ℕ))) (m : MessageView) (sender : SessionInfo) → are_distinct_by nat_eq (archives_in (plan_of domain accounts sessions m sender)) ≡ true }
    ensures oneself { (domain : List ℕ) (accounts : List Account) (sessions : List (Session (List ℕ))) (m : MessageView) (sender : SessionInfo) → destination_of domain accounts sender.account m.to ≡ Bare sender.account → is_archived m ≡ true
        → archives_in (plan_of domain accounts sessions m sender) ≡ sender.account ∷ [] }
{}

/// A law: the session that sent a message gets no copy of it (XEP-0280, section 8).
pub fn senders_get_no_copy()
    ensures { (domain : List ℕ) (accounts : List Account) (sessions : List (Session (List ℕ))) (m : MessageView) (sender : SessionInfo) → All (λ t. number_of t ≢ sender.number) (sent_in (plan_of domain accounts sessions m sender) ++ received_in (plan_of domain accounts sessions m sender)) }
{}

/// A law: copies go to sessions that asked for them, those of a message as sent to the sender's account, and those of it as
/// received to another (XEP-0280, sections 7 and 8).
pub fn copies_are_asked_for()
    ensures sent { (domain : List ℕ) (accounts : List Account) (sessions : List (Session (List ℕ))) (m : MessageView) (sender : SessionInfo) → All (λ t. (t.shown.carbons ≡ true) × (t.shown.account ≡ sender.account)) (sent_in (plan_of domain accounts sessions m sender)) }
    ensures received { (domain : List ℕ) (accounts : List Account) (sessions : List (Session (List ℕ))) (m : MessageView) (sender : SessionInfo) → All (λ t. (t.shown.carbons ≡ true) × (t.shown.account ≢ sender.account)) (received_in (plan_of domain accounts sessions m sender)) }
{}

/// A law: a message that is private, or isn't archived, is copied to nobody (XEP-0280, sections 6 and 9).
pub fn private_messages_are_not_copied()
    ensures none { (domain : List ℕ) (accounts : List Account) (sessions : List (Session (List ℕ))) (m : MessageView) (sender : SessionInfo) → is_copied m ≡ false → (sent_in (plan_of domain accounts sessions m sender) ≡ []) × (received_in (plan_of domain accounts sessions m sender) ≡ []) }
    ensures marked { (m : MessageView) → is_private m.payload ≡ true → is_copied m ≡ false }
{}

/// A law: no session is given one message twice, be it delivered or as a copy. The numbers of sessions ascend, as
/// `Live::keeps_rule` says.
pub fn nobody_gets_it_twice()
    ensures { (domain : List ℕ) (accounts : List Account) (sessions : List (Session (List ℕ))) (m : MessageView) (sender : SessionInfo) (next n : ℕ) → RisesTo next 1 sessions
        → count_by (is_numbered n) (delivered_in (plan_of domain accounts sessions m sender) ++ (sent_in (plan_of domain accounts sessions m sender) ++ received_in (plan_of domain accounts sessions m sender))) ≤ 1 }
{}

/// A law: who gets a message, or a copy, is a session that lives, and is found by its number.
pub fn recipients_live()
    ensures { (domain : List ℕ) (accounts : List Account) (sessions : List (Session (List ℕ))) (m : MessageView) (sender : SessionInfo) (next : ℕ) → RisesTo next 1 sessions
        → All (λ t. session_of (number_of t) sessions ≡ Some t) (delivered_in (plan_of domain accounts sessions m sender) ++ (sent_in (plan_of domain accounts sessions m sender) ++ received_in (plan_of domain accounts sessions m sender))) }
{}

/// A law: of those that get a message, of those that get a copy of it as sent, and of those that get one as received, the
/// numbers ascend.
pub fn numbers_ascend()
    ensures { (domain : List ℕ) (accounts : List Account) (sessions : List (Session (List ℕ))) (m : MessageView) (sender : SessionInfo) (next : ℕ) → RisesTo next 1 sessions → IsStrictlySortedBy nat_cmp (map number_of (delivered_in (plan_of domain accounts sessions m sender)))
        × IsStrictlySortedBy nat_cmp (map number_of (sent_in (plan_of domain accounts sessions m sender))) × IsStrictlySortedBy nat_cmp (map number_of (received_in (plan_of domain accounts sessions m sender))) }
{}

/// A law: a message without an address has the destination of one to the sender's bare address (RFC 6121, section 8.2). The
/// domain is in normal form, the accounts are those of a server, and the sender's is one of them.
pub fn no_address_is_ones_own()
    ensures { (domain : List ℕ) (accounts : List Account) (account : Account) (sender : ℕ) → domain_form domain ≡ Ok domain → accounts_fault accounts ≡ None → slice_get accounts sender ≡ Some account
        → destination_of domain accounts sender (Some (bare_text account.name domain)) ≡ destination_of domain accounts sender None }
{}

/// A law: a plan asks for nothing of sessions but what is shown of them. Whatever else of them changes, as their counts and
/// what waits in them, it has the same sessions.
pub fn plans_ask_for_what_is_shown()
    ensures { (g : Session (List ℕ) → Session (List ℕ)) (domain : List ℕ) (accounts : List Account) (sessions : List (Session (List ℕ))) (m : MessageView) (sender : SessionInfo) → ((s : Session (List ℕ)) → (g s).shown ≡ s.shown)
        → plan_of domain accounts (map g sessions) m sender ≡ plan_renamed g (plan_of domain accounts sessions m sender) }
{}
