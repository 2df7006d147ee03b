//! A list over lent places: the first `count` of them hold an item.
ghost use Rattle.std.specs.Prelude.{ℕ, ◌≤◌, length};

pub mod methods;

/// A list of items over places that the host lends: no heap here, so their count stands beside them.
#[derive(Drop)]
pub struct List<'a, T> {
    places: &'a mut [T],
    count: usize,
    ghost within: { count ≤ length places.now },
}
