//! Jobs.
//!
//! What a job's type rests on has to be `Send`, the associated types of supertraits too: so `where D::Link: Send +
//! 'static` stands beside the bounds. `serve` of the command line is a function and no method of a trait, since the
//! prover has no such call in a method.

/// Work for a thread of its own. Contracts alone see `keeps`, what a job's answer has to do with it.
pub trait Job {
    type Answer;

    ghost keeps: { Self → Self.Answer → Type 0 };

    /// Does the work, to its end.
    fn work(self) -> Self::Answer
        ensures { keeps self result };
}
