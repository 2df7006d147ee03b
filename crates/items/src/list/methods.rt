//! What a list does.
ghost use Rattle.std.specs.Prelude.{◌≡◌, ℕ, ◌<◌, ◌≤◌, length, slice_set};
ghost use Rattle.items.specs.Places.{places_of, items_of, Pushed};

use super::List;

impl<'a, T: Copy> List<'a, T> {
    /// An empty list over the places.
    pub fn over(places: &'a mut [T]) -> List<'a, T>
        ensures lent { result.places.ghost_name ≡ places.entry.ghost_name }
        ensures empty { places_of result ≡ record { all = places.old; count = 0 } }
    {
        List { places, count: 0 }
    }

    /// How many items it holds.
    pub fn len(&self) -> usize
        ensures { result ≡ (places_of self.now).count }
    {
        self.count
    }

    /// How many places it has.
    pub fn capacity(&self) -> usize
        ensures { result ≡ length (places_of self.now).all }
    {
        self.places.len()
    }

    /// The items that it holds.
    pub fn as_slice(&self) -> &[T]
        ensures { result.now ≡ items_of (places_of self.now) }
    {
        &self.places[0..self.count]
    }

    /// Puts an item in the next place; where there is none, the item comes back and the list stays as it is.
    pub fn push(&mut self, item: T) -> Result<(), T>
        ensures lent { self.new.places.ghost_name ≡ self.old.places.ghost_name }
        ensures pushed { Pushed (places_of self.old) item result (places_of self.new) }
    {
        let count = self.count;
        if count >= self.places.len() {
            return Err(item);
        }
        self.places[count] = item;
        self.count = count + 1;
        Ok(())
    }

    /// Holds no item any more; the places stay as they are.
    pub fn clear(&mut self)
        ensures lent { self.new.places.ghost_name ≡ self.old.places.ghost_name }
        ensures empty { places_of self.new ≡ record { all = (places_of self.old).all; count = 0 } }
    {
        self.count = 0;
    }

    /// Puts an item in a place, without counting it. For list coding, which counts at the end.
    pub fn store(&mut self, index: usize, item: T)
        requires { index < length (places_of self.old).all }
        ensures lent { self.new.places.ghost_name ≡ self.old.places.ghost_name }
        ensures stored { places_of self.new ≡ record { all = slice_set (places_of self.old).all index item; count = (places_of self.old).count } }
    {
        self.places[index] = item;
    }

    /// Holds the items in the first `count` places. For list coding.
    pub fn keep(&mut self, count: usize)
        requires { count ≤ length (places_of self.old).all }
        ensures lent { self.new.places.ghost_name ≡ self.old.places.ghost_name }
        ensures kept { places_of self.new ≡ record { all = (places_of self.old).all; count = count } }
    {
        self.count = count;
    }
}
