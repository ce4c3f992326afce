//! The parts of a framer's state.
//!
//! The machine's state has flags side by side (`Lexical`), though not each combination can be: its laws speak of
//! these fields. New states are enums whose variants hold their data.
/// Places in the stream, each the smaller of an offset and 2^64 - 1, and a count.
#[derive(Clone, Copy)]
pub(crate) struct Positions {
    /// Of the next byte.
    pub(crate) at: u64,
    /// Of the first byte of the top-level element in hand or, outside one, of the token or character in hand.
    pub(crate) item_at: u64,
    /// Of the first byte of the token in hand.
    pub(crate) token_at: u64,
    /// How many bytes of the element, header tag or declaration in hand there are so far; 0 where none is in hand.
    pub(crate) used: u64,
}

/// Where a framer stands in a stream.
#[derive(Clone, Copy)]
pub(crate) enum Phase {
    /// Before the first header.
    First,
    /// Behind a declaration, before the first header.
    FirstDeclared,
    /// Behind a header.
    Between,
    /// Behind a header and then a declaration.
    Declared,
    /// Behind the footer.
    Ended,
}

/// Which token is in hand.
#[derive(Clone, Copy)]
pub(crate) enum Mode {
    /// A text, or nothing.
    Text,
    /// A reference; its name so far is in hand.
    Reference,
    /// A `<` alone.
    Opening,
    /// `<!`.
    Bang,
    /// `<?`.
    Question,
    /// A declaration, behind `<?xml` and white space.
    Declaration,
    /// A tag.
    Tag,
    /// An end tag outside elements.
    Footer,
    /// A CDATA section.
    Section,
}

/// What is known of the token in hand.
#[derive(Clone, Copy)]
pub(crate) struct Lexical {
    pub(crate) phase: Phase,
    pub(crate) mode: Mode,
    /// The quote that is open in a tag.
    pub(crate) quote: Option<u8>,
    /// A run of text has begun.
    pub(crate) in_run: bool,
    /// The last byte of the text was a carriage return.
    pub(crate) returned: bool,
    /// How many `]` the text ends in, up to 2.
    pub(crate) brackets: u8,
    /// An end tag outside elements isn't the footer's.
    pub(crate) spoiled: bool,
    /// Memory ran out.
    pub(crate) spent: bool,
}
