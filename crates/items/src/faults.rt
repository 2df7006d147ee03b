//! The faults of lists. One that comes from a layer below is carried whole.
ghost use Rattle.std.specs.Prelude.{◌≡◌};
ghost use Rattle.items.specs.Faults.{list_told, item_number, list_write_number, refused_at};
ghost use Rattle.items.specs.declared.faults.ListFault.TheVariants.{Number};
ghost use Rattle.items.specs.declared.faults.ListWriteFault.TheVariants.{Store as WriteStore};
ghost use Rattle.lengths.specs.declared.faults.NumberFault.TheVariants.{Store};

use bits::{Layer, StoreFault, Told};
use lengths::faults::NumberFault;

/// Why reading a list, or the configuration before it, is refused. Each case tells the place of a field's or an item's first bit.
#[derive(Clone, Copy, Debug, PartialEq, Eq)]
pub enum ListFault {
    /// A number, or the source, refused.
    Number(NumberFault),
    /// Curves are declared, and all of them are absent (4).
    Curves { position: usize },
    /// The item is past the most that a list of its kind has (12).
    Limit { position: usize },
    /// The list has no place for the item (25).
    Place { position: usize },
}

impl ListFault {
    /// Its number, its layer and its place.
    pub fn told(&self) -> Told
        ensures { result ≡ list_told self.now }
    {
        let (number, position) = match *self {
            ListFault::Number(fault) => return fault.told(),
            ListFault::Curves { position } => (4, position),
            ListFault::Limit { position } => (12, position),
            ListFault::Place { position } => (25, position),
        };
        let layer = Layer::List;
        Told {
            number,
            layer,
            position,
        }
    }
}

impl From<NumberFault> for ListFault {
    ghost from_gives = { λ e r. r ≡ Number e };

    fn from(fault: NumberFault) -> ListFault {
        ListFault::Number(fault)
    }
}

/// A fault of the store goes up through the number's.
impl From<StoreFault> for ListFault {
    ghost from_gives = { λ e r. r ≡ Number (Store e) };

    fn from(fault: StoreFault) -> ListFault {
        ListFault::Number(NumberFault::from(fault))
    }
}

/// Which list of an element.
#[derive(Clone, Copy, Debug, PartialEq, Eq)]
pub enum ListName {
    /// The commands of its path.
    Commands,
    /// Its transforms.
    Transforms,
    /// A list of another kind of item, by a number of its own: kinds are open, so no enum can name them all.
    Other(u8),
}

/// An item of an element: its list, and its index there.
#[derive(Clone, Copy, Debug, PartialEq, Eq)]
pub struct ItemPlace {
    pub list: ListName,
    pub index: usize,
}

/// Why an item is not lawful.
#[derive(Clone, Copy, Debug, PartialEq, Eq)]
pub enum ItemFault {
    /// One of its lengths is over 14 (13).
    Length,
    /// It is not available under the configuration, or is the end word (14).
    Unavailable,
    /// One of its values is not lawful (15).
    Value,
}

impl ItemFault {
    /// The refusal number.
    pub fn number(&self) -> u8
        ensures { result ≡ item_number self.now }
    {
        match self {
            ItemFault::Length => 13,
            ItemFault::Unavailable => 14,
            ItemFault::Value => 15,
        }
    }
}

/// Why measuring or writing a list is refused.
#[derive(Clone, Copy, Debug, PartialEq, Eq)]
pub enum ListWriteFault {
    /// The list has more items than its kind allows (12).
    Limit(ListName),
    /// An item is not lawful (13 to 15).
    Item(ItemPlace, ItemFault),
    /// The sink refused.
    Store(StoreFault),
}

impl ListWriteFault {
    /// The refusal number.
    pub fn number(&self) -> u8
        ensures { result ≡ list_write_number self.now }
    {
        match self {
            ListWriteFault::Limit(_) => 12,
            ListWriteFault::Item(_, fault) => fault.number(),
            ListWriteFault::Store(fault) => fault.told().number,
        }
    }

    /// The list and the index of the item at which the call was refused (13 to 15).
    pub fn place(&self) -> Option<ItemPlace>
        ensures { result ≡ refused_at self.now }
    {
        match *self {
            ListWriteFault::Item(place, _) => Some(place),
            _ => None,
        }
    }
}

impl From<StoreFault> for ListWriteFault {
    ghost from_gives = { λ e r. r ≡ WriteStore e };

    fn from(fault: StoreFault) -> ListWriteFault {
        ListWriteFault::Store(fault)
    }
}
