//! What a client does on stanzas and for its user is moves of the links.
ghost use Rattle.sim_4_links_follow.specs.ClientsSpeakLaws as laws;

/// A law: each stanza that a client puts is one that the server takes, whosever session it comes from: it is short,
/// tells no sender, so that no condition ends the stream for it (RFC 6120, section 8.1.2.1), and a message is for no
/// resource in particular. These are the two with which a session begins, requests for pages, answers to requests, and
/// messages.
pub fn what_a_client_puts_is_taken()
    ensures carbons { laws.WhatAClientPutsIsTakenCarbons }
    ensures available { laws.WhatAClientPutsIsTakenAvailable }
    ensures page { laws.WhatAClientPutsIsTakenPage }
    ensures answer { laws.WhatAClientPutsIsTakenAnswer }
    ensures submission { laws.WhatAClientPutsIsTakenSubmission }
{}

/// A law: on a stanza that comes the client does what it does in the links: it handles it, and where the stanza is the
/// end of a page or a request it may put one stanza more, or leaves where as many wait as may (XEP-0198, section 4;
/// XEP-0313, section 4). What it puts ends no stream: it is short, and tells no sender. The client keeps to its bounds,
/// and can answer what comes.
pub fn stanzas_are_read()
    ensures { laws.StanzasAreRead }
{}

/// A law: a message that the user submits is put in the links: it goes out, with a request behind it, where the client
/// is online, and else waits; also where the connection's end was told. It is to an account's address, and its text is
/// within the bounds of texts.
pub fn submissions_follow()
    ensures { laws.SubmissionsFollow }
{}

/// A law: so is the request for a page of the archive, where the user asks for it.
pub fn catch_ups_follow()
    ensures { laws.CatchUpsFollow }
{}

/// A law: the addresses of a schedule's accounts, to which alone its users write, are bare, in normal form and short.
pub fn accounts_have_bare_addresses()
    ensures { laws.AccountsHaveBareAddresses }
{}
