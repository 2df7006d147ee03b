//! Lists, read. A first pass reads and asks without storing, the source goes back, and a second pass stores.
ghost use Rattle.std.specs.Prelude.{◌≡◌, ℕ, ◌≤◌, Bool, List as Row, length, IfOk, Some, None, Ok};
ghost use Rattle.bits.specs.Stores.{left, Reads, got, mapped};
ghost use Rattle.lengths.specs.Coding.{Faithful, Takes};
ghost use Rattle.lists.specs.Lists.{list_bits, LawfulWithin, one_list};
ghost use Rattle.items.specs.Places.{places_of, Filled, held_by};
ghost use Rattle.items.specs.declared.faults.ListFault.{ListFault};

use bits::{Source, or_back};
use items::ItemKind;
use items::faults::ListFault;
use items::list::List;

/// The first pass: counts the items up to the end word. A refusal leaves the source further on.
fn count_items<K: ItemKind, S: Source>(
    configuration: &K::Configuration,
    source: &mut S,
    places: usize,
) -> Result<usize, ListFault>
    ensures part { Takes (λ at bits. mapped length (one_list (K.kind configuration.now) K.LIMIT places at bits)) (S.tape source.old) result (S.tape source.new) }
    ensures within { IfOk result (λ n. n ≤ places) }
{
    // A loop, since how many items there are is known only once they are read.
    let mut count = 0;
    loop {
        let position = S::position(source);
        let item = K::read(configuration, source)?;
        if item.is_none() {
            return Ok(count);
        }
        if count >= K::LIMIT {
            return Err(ListFault::Limit { position });
        }
        if count >= places {
            return Err(ListFault::Place { position });
        }
        count += 1;
    }
}

/// Reads an item where one is known to begin.
fn next_item<K: ItemKind, S: Source>(configuration: &K::Configuration, source: &mut S) -> K::Record
    requires { (r : K.Record) × (rest : Row Bool) × ((K.kind configuration.now).parse (S.tape source.old).position (left (S.tape source.old)) ≡ got (Some r) rest) }
    ensures { Reads (K.kind configuration.now).parse (S.tape source.old) (Ok (Some result)) (S.tape source.new) }
{
    let Ok(Some(item)) = K::read(configuration, source) else {
        unreachable!()
    };
    item
}

/// The second pass: stores the items, whose count is known, and takes the end word.
fn fill<K: ItemKind, S: Source>(
    configuration: &K::Configuration,
    source: &mut S,
    list: &mut List<'_, K::Record>,
    count: usize,
)
    requires { (count ≤ length (places_of list.old).all) × (((rest : Row Bool) × (mapped length (one_list (K.kind configuration.now) K.LIMIT (length (places_of list.old).all) (S.tape source.old).position (left (S.tape source.old))) ≡ got count rest))) }
    ensures lent { list.new.places.ghost_name ≡ list.old.places.ghost_name }
    ensures filled { Filled {E = ListFault} (places_of list.old) (Ok count) (places_of list.new) }
    ensures reads { Reads (one_list (K.kind configuration.now) K.LIMIT (length (places_of list.old).all)) (S.tape source.old) (held_by (Ok count) (places_of list.new)) (S.tape source.new) }
{
    for index in 0..count {
        let item = next_item::<K, S>(configuration, source);
        list.store(index, item);
    }
    let _ = K::read(configuration, source);
    list.keep(count);
}

/// Reads a list from its first place on, and answers how many items it then holds; the places after them stay.
/// The item past the most of its kind is refused with 12 once it is read, and then one that has no place with 25, both told at the item's first
/// bit. At any refusal source and list are as before.
pub fn read_list<K: ItemKind, S: Source>(
    configuration: &K::Configuration,
    source: &mut S,
    list: &mut List<'_, K::Record>,
) -> Result<usize, ListFault>
    ensures lent { list.new.places.ghost_name ≡ list.old.places.ghost_name }
    ensures filled { Filled (places_of list.old) result (places_of list.new) }
    ensures reads { Reads (one_list (K.kind configuration.now) K.LIMIT (length (places_of list.old).all)) (S.tape source.old) (held_by result (places_of list.new)) (S.tape source.new) }
    ensures faithful { Faithful (list_bits (K.kind configuration.now)) (LawfulWithin (K.kind configuration.now) K.LIMIT (length (places_of list.old).all)) (S.tape source.old) (held_by result (places_of list.new)) (S.tape source.new) }
{
    let start = S::position(source);
    let counted = count_items::<K, S>(configuration, source, list.capacity());
    let count = or_back(source, start, counted)?;
    let _ = source.go_back(start);
    fill::<K, S>(configuration, source, list, count);
    Ok(count)
}
