//! Laws of the two ends (RFC 5802, section 5).
ghost use Rattle.auth_scram.specs.Agreement.{EndsAgree};
ghost use Rattle.auth_scram.specs.Judgements.{JudgementsAreExact};

/// The law that the two ends agree. For each name and password of printable ASCII, each salt, each number of iterations
/// from 4,096 to 1,000,000, and each nonce and tail within the grammar: with credentials of that password, what the
/// server answers to the client's messages is acceptance, and the client accepts the server's final message. It does
/// nothing.
pub fn ends_agree()
    ensures { EndsAgree }
{}

/// The law of when each answer comes. `last` accepts exactly the final messages within the grammar that have the whole
/// nonce and the right proof, `reply` replies to exactly the first messages whose nonce is the client's with a part of
/// the server's own behind it and whose count is within bounds, and `check` accepts exactly the verifier that is
/// expected; each refusal comes exactly where its cause is the first that holds. It does nothing.
pub fn judgements_are_exact()
    ensures { JudgementsAreExact }
{}
