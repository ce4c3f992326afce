//! Whether no two of some items are equal.
ghost use Rattle.std.specs.Prelude.{◌↔◌, IsTrue, IsSorted, IsPermutation};
ghost use Rattle.std.specs.List.{IsDistinct};
ghost use Rattle.std.specs.Ordering.{eq_by_cmp};

// Whether no item stands beside an equal one, in a list that is in order.
fn neighbours_differ<T: Ord>(items: &[T]) -> bool
    requires { IsSorted T.cmp items.now }
    ensures { IsTrue result ↔ IsDistinct (eq_by_cmp T.cmp) items.now }
{
    for later in 1..items.len() {
        if items[later - 1] == items[later] {
            return false;
        }
    }
    true
}

/// Whether no two items are equal. They are put in order, so that many are told apart in little more time than it takes
/// to sort them, and in no memory.
pub fn are_distinct<T: Ord>(items: &mut [T]) -> bool
    ensures told { IsTrue result ↔ IsDistinct (eq_by_cmp T.cmp) items.old }
    ensures same_items { IsPermutation items.old items.new }
{
    items.sort_unstable();
    neighbours_differ(items)
}
