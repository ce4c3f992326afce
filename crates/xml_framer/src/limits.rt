ghost use Rattle.std.specs.Prelude.{◌≡◌};
ghost use Rattle.xml_framer.specs.Limits.{client_limits, server_limits};

/// The most depth that a framer can be given.
///
/// What goes through an element, its drop included, calls itself once for each level. A copy takes some 550 bytes of stack
/// a level as built, so that a tree of this depth leaves most of the 2 MB of a thread's stack to what calls it.
pub const MOST_DEPTH: u32 = 1_000;

/// What a framer admits.
#[derive(Clone, Copy, Debug, PartialEq, Eq)]
pub struct Limits {
    /// The most bytes of a top-level element, of a header's tag and of a declaration, each counted from its `<`.
    pub bytes: u64,
    /// How deep elements may lie in one another: a top-level element has depth 1. At most `MOST_DEPTH` for a framer.
    pub depth: u32,
    /// The most attributes of a tag, namespace declarations counted.
    pub attributes: u32,
    /// The most bytes of a namespace name that is declared, its characters escaped as in a written value.
    pub namespace_bytes: u32,
}

impl Limits {
    /// What a server admits of a client.
    pub fn server() -> Limits
        ensures { result ≡ server_limits }
    {
        Limits {
            bytes: 65_536,
            depth: 32,
            attributes: 64,
            namespace_bytes: 255,
        }
    }

    /// What a client admits of its server, which wraps what it forwards.
    pub fn client() -> Limits
        ensures { result ≡ client_limits }
    {
        Limits {
            bytes: 4_194_304,
            depth: 64,
            attributes: 256,
            namespace_bytes: 255,
        }
    }
}
