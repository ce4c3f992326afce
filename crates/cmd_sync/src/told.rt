//! Failures in plain words, as standard error tells them.
use crate::conditions::SentCondition;
use crate::failure::{LinkFailure, PeerFailure};
use std::fmt;

impl fmt::Display for LinkFailure {
    fn fmt<W: fmt::Write>(&self, f: &mut fmt::Formatter<W>) -> fmt::Result {
        f.write_str(match self {
            LinkFailure::Dial => "no connection was made",
            LinkFailure::Read => "a read of the connection failed",
            LinkFailure::Write => "a write to the connection failed",
            LinkFailure::End => "the connection ended before the script was done",
        })
    }
}

impl PeerFailure {
    // What the server did.
    fn words(self) -> &'static str {
        match self {
            PeerFailure::Framing => "what the server sent can't be read",
            PeerFailure::Stream(_) => "the server ended the stream by an error",
            PeerFailure::Sasl(_) => "the server refused the login",
            PeerFailure::BadVerifier => "the server doesn't know the password",
            PeerFailure::Scram => "the server's part of the login is wrong",
            PeerFailure::NoFeature => "the server doesn't offer what is needed",
            PeerFailure::Unexpected => "the server sent what wasn't awaited",
            PeerFailure::TooHigh => "the server acknowledged more than was sent",
            PeerFailure::Unacknowledged => "the server acknowledged too little",
            PeerFailure::Closed => "the server ended the stream",
            PeerFailure::Refused(_) => "the server refused a page",
            PeerFailure::Overrun => "a page has more results than were asked for",
            PeerFailure::Mismatch => "a page doesn't end with its last result",
            PeerFailure::Repeats => "a page repeats an id",
            PeerFailure::NoAdvance => "a page is empty, and not the last",
            PeerFailure::NotSaid(_) => "a message could not be said",
            PeerFailure::NotAsked(_) => "a page could not be asked for",
            PeerFailure::TooMuch => "the server sent too much",
        }
    }

    // The condition that the server sent.
    fn condition(self) -> Option<SentCondition> {
        match self {
            PeerFailure::Stream(condition)
            | PeerFailure::Sasl(condition)
            | PeerFailure::Refused(condition) => Some(condition),
            _ => None,
        }
    }
}

impl fmt::Display for PeerFailure {
    fn fmt<W: fmt::Write>(&self, f: &mut fmt::Formatter<W>) -> fmt::Result {
        match self.condition() {
            Some(condition) => write!(f, "{}: {}", self.words(), condition.name()),
            None => f.write_str(self.words()),
        }
    }
}
