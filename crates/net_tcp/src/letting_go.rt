//! Streams of the system that are let go.
//!
//! The halves let their streams go by a trait of their own (`LetGo`): with `Drop` on the halves' impls the proof of
//! `main` meets a bug of the prover.
ghost use Rattle.std.specs.Prelude.{◌≡◌, None};

use std::net::TcpStream;

/// A stream that can be let go: it holds no descriptor of the system then.
pub trait LetGo {
    /// Drops the stream.
    fn let_go(self);
}

impl LetGo for TcpStream {
    fn let_go(self) {
        drop(self);
    }
}

/// Lets a stream go, where there is one.
pub(crate) fn let_go<S: LetGo>(stream: &mut Option<S>)
    ensures { stream.new ≡ None }
{
    if let Some(stream) = stream.take() {
        stream.let_go();
    }
}
