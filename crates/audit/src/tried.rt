// Tries something on each of a row of items.
use tallies::{Section, Tally};

// How often it holds.
pub fn tried<T, F: Fn(&T) -> bool>(title: &'static str, items: &[T], holds: F) -> Section
    requires { F.IsAlwaysCallable holds }
{
    let mut tally = Tally::new();
    // A loop: counted as `Tally` says.
    for item in items {
        tally.count(holds(item));
    }
    Section { title, tally }
}
