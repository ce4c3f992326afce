//! Reading a message part by part, with the place where it leaves its grammar.
ghost use Rattle.std.specs.Prelude.{◌≡◌, ◌≤◌, true, length, take, drop};
ghost use Rattle.auth_scram.specs.Parts.{Gives, cut_seen, ended, ends_here, literal, run, with_front};

/// Where bytes leave the grammar: the rest from the first byte on that no message has there.
#[derive(Clone, Copy)]
pub(crate) struct Departure<'a> {
    pub rest: &'a [u8],
}

/// A part of a message as far as it was read: the bytes that it may go on with, and whether it may end.
pub(crate) trait Part: Copy {
    ghost use Rattle.std.specs.Prelude.{◌≡◌, ℕ, Bool, Option};

    /// What stands behind one more byte.
    ghost goes_on: { Self → ℕ → Option Self };

    /// Whether the part may end here.
    ghost may_end: { Self → Bool };

    /// What stands behind one more byte. `None` where no message has it here.
    fn after(self, byte: u8) -> Option<Self>
        ensures { result ≡ goes_on self byte };

    /// Whether the part may end here.
    fn ends(self) -> bool
        ensures { result ≡ may_end self };
}

/// The longest part, and the rest.
pub(crate) fn run<S: Part>(start: S, bytes: &[u8]) -> Result<(&[u8], &[u8]), Departure<'_>>
    ensures { Gives cut_seen result (run S.goes_on S.may_end start bytes.now) }
{
    let mut state = start;
    for (at, byte) in bytes.iter().enumerate() {
        match state.after(*byte) {
            Some(next) => state = next,
            None => return end_at(state.ends(), bytes, at),
        }
    }
    end_at(state.ends(), bytes, bytes.len())
}

/// A part that ends in front of a byte, if it may.
fn end_at(ends: bool, bytes: &[u8], at: usize) -> Result<(&[u8], &[u8]), Departure<'_>>
    requires { at ≤ length bytes.now }
    ensures { Gives cut_seen result (with_front (take at bytes.now) (ended ends (drop at bytes.now))) }
{
    let (part, rest) = bytes.split_at(at);
    if ends {
        Ok((part, rest))
    } else {
        Err(Departure { rest })
    }
}

/// What stands behind these bytes.
pub(crate) fn literal<'a>(word: &[u8], bytes: &'a [u8]) -> Result<&'a [u8], Departure<'a>>
    ensures { Gives (λ rest. rest.now) result (literal word.now bytes.now) }
{
    let mut rest = bytes;
    for wanted in word {
        let Some((byte, more)) = rest.split_first() else {
            return Err(Departure { rest });
        };
        if byte != wanted {
            return Err(Departure { rest });
        }
        rest = more;
    }
    Ok(rest)
}

/// The message ends here.
pub(crate) fn end(rest: &[u8]) -> Result<(), Departure<'_>>
    ensures { Gives (λ _. true) result (ends_here rest.now) }
{
    if rest.is_empty() {
        Ok(())
    } else {
        Err(Departure { rest })
    }
}
