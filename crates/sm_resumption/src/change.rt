//! What changes of a session without a change of its connection, its name and its queue.

// A change of a session: its stanzas are counted from now on, and whether it can be resumed (XEP-0198, section 3); its
// presence (RFC 6121, section 4.7.2.3); whether it wants copies (XEP-0280); whether it was asked for its count; or that
// one stanza more of the peer is handled (XEP-0198, section 4).
#[derive(Clone, Copy)]
pub(crate) enum Change {
    Enabled(bool),
    Present(bool, i8),
    Carbons(bool),
    Asked(bool),
    Handled,
}
