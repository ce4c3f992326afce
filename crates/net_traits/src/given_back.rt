//! What was given back, kept without more memory.
ghost use Rattle.std.specs.Prelude.{◌≡◌, [], ◌∷◌, ◌++◌, MatchOption};
ghost use Rattle.std.specs.Option.{option_copied};
ghost use Rattle.net_traits.specs.GivenBack.{before_of, items_back, last_of, option_items};

/// Items that were given back, each with those that were given back before it. The first may be missing.
#[derive(Drop)]
pub struct GivenBack<T> {
    last: Option<T>,
    before: Option<Box<GivenBack<T>>>,
}

impl<T> GivenBack<T> {
    /// No items. It takes no memory.
    pub fn new() -> GivenBack<T>
        ensures { items_back result ≡ [] }
    {
        GivenBack {
            last: None,
            before: None,
        }
    }

    /// The item that was given back last.
    pub fn last(&self) -> Option<&T>
        ensures { option_items (option_copied result) ≡ last_of self.now }
    {
        self.last.as_ref()
    }

    /// Those that were given back before it.
    pub fn before(&self) -> Option<&GivenBack<T>>
        ensures { MatchOption (option_copied result) (before_of self.now ≡ []) (λ back. items_back back ≡ before_of self.now) }
    {
        match &self.before {
            Some(back) => Some(back),
            None => None,
        }
    }
}

/// Puts an item behind the others. `room` is a list of its own, so that it takes no memory.
pub fn put_back<T: Drop>(back: &mut GivenBack<T>, mut room: Box<GivenBack<T>>, item: T)
    ensures { items_back back.new ≡ items_back back.old ++ item ∷ [] }
{
    room.last = back.last.replace(item);
    room.before = back.before.take();
    back.before = Some(room);
}
