//! Nonces, names of channel bindings and counts as they are read (RFC 5802, section 7).
ghost use Rattle.std.specs.Prelude.{◌≡◌};
ghost use Rattle.auth_scram.specs.Classes.{is_binding, is_printable};
ghost use Rattle.auth_scram.specs.States.{class_goes_on, class_may_end, count_goes_on, count_may_end, is_of};

use crate::parts::Part;

/// A class of bytes (RFC 5802, section 7).
#[derive(Clone, Copy)]
pub(crate) enum Class {
    /// What a nonce has: printable ASCII but the comma.
    Printable,
    /// What the name of a channel binding has.
    Binding,
}

/// One or more bytes of a class, as far as they were read: `some` where there was one.
#[derive(Clone, Copy)]
pub(crate) struct OneOrMore {
    pub class: Class,
    pub some: bool,
}

/// A nonce of which nothing was read.
pub(crate) const NONCE: OneOrMore = OneOrMore {
    class: Class::Printable,
    some: false,
};

/// A number without leading zeros, as far as it was read.
#[derive(Clone, Copy)]
pub(crate) enum Count {
    Start,
    Digits,
}

pub(crate) fn is_printable(byte: u8) -> bool
    ensures { result ≡ is_printable byte }
{
    matches!(byte, 0x21..=0x2B | 0x2D..=0x7E)
}

fn is_binding(byte: u8) -> bool
    ensures { result ≡ is_binding byte }
{
    matches!(byte, b'A'..=b'Z' | b'a'..=b'z' | b'0'..=b'9' | b'-' | b'.')
}

fn is_of(class: Class, byte: u8) -> bool
    ensures { result ≡ is_of class byte }
{
    match class {
        Class::Printable => is_printable(byte),
        Class::Binding => is_binding(byte),
    }
}

impl Part for OneOrMore {
    ghost goes_on = { class_goes_on };

    ghost may_end = { class_may_end };

    fn after(self, byte: u8) -> Option<OneOrMore> {
        if is_of(self.class, byte) {
            Some(OneOrMore {
                class: self.class,
                some: true,
            })
        } else {
            None
        }
    }

    fn ends(self) -> bool {
        self.some
    }
}

impl Part for Count {
    ghost goes_on = { count_goes_on };

    ghost may_end = { count_may_end };

    fn after(self, byte: u8) -> Option<Count> {
        match self {
            Count::Start if matches!(byte, b'1'..=b'9') => Some(Count::Digits),
            Count::Digits if byte.is_ascii_digit() => Some(Count::Digits),
            _ => None,
        }
    }

    fn ends(self) -> bool {
        match self {
            Count::Start => false,
            Count::Digits => true,
        }
    }
}
