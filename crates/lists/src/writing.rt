//! Lists, measured and written.
ghost use Rattle.std.specs.Prelude.{◌≡◌, ℕ, ◌*◌, ◌≤◌, length, IfOk, None};
ghost use Rattle.bits.specs.Stores.{HasRoom, appended};
ghost use Rattle.items.specs.declared.faults.ListWriteFault.TheVariants.{Item};
ghost use Rattle.lists.specs.Lists.{list_bits, LawfulList, PrefixFree};
ghost use Rattle.lists.specs.Writing.{lengths_asked, item_asked, first_no, refusal, unless, WroteList};

use bits::Sink;
use items::ItemKind;
use items::faults::{ItemFault, ItemPlace, ListWriteFault};

/// A fault at an item.
fn at_item<K: ItemKind>(index: usize, fault: ItemFault) -> ListWriteFault
    ensures { result ≡ Item (record { list = K.LIST; index = index }) fault }
{
    let list = K::LIST;
    ListWriteFault::Item(ItemPlace { list, index }, fault)
}

/// Asks for the lengths of every item (13). For this layer and those above.
pub fn ask_lengths<K: ItemKind>(
    configuration: &K::Configuration,
    items: &[K::Record],
) -> Result<(), ListWriteFault>
    ensures { result ≡ unless (first_no K.LIST (λ i. lengths_asked ((K.kind configuration.now).asked i)) 0 items.now) tt }
{
    for (index, item) in items.iter().enumerate() {
        if !K::lengths_lawful(configuration, item) {
            return Err(at_item::<K>(index, ItemFault::Length));
        }
    }
    Ok(())
}

/// Asks item by item whether it is available (14) and its values are lawful (15), and answers how many bits the list has.
/// For this layer and those above, which have asked for the count of items and for their lengths.
pub fn measure<K: ItemKind>(
    configuration: &K::Configuration,
    items: &[K::Record],
) -> Result<usize, ListWriteFault>
    requires { (length items.now ≤ K.LIMIT) × (first_no K.LIST (λ i. lengths_asked ((K.kind configuration.now).asked i)) 0 items.now ≡ None) }
    ensures value { result ≡ unless (first_no K.LIST (λ i. item_asked ((K.kind configuration.now).asked i)) 0 items.now) (length (list_bits (K.kind configuration.now) items.now)) }
    ensures bound { IfOk result (λ n. n ≤ 16777216 * 65537) }
{
    let mut total = K::end_length(configuration);
    for (index, item) in items.iter().enumerate() {
        if !K::is_available(configuration, item) {
            return Err(at_item::<K>(index, ItemFault::Unavailable));
        }
        if !K::values_lawful(configuration, item) {
            return Err(at_item::<K>(index, ItemFault::Value));
        }
        total += K::length(configuration, item);
    }
    Ok(total)
}

/// How many bits a list has: those of its items and of the end word. It asks for the count of items (12), the lengths of every item (13), and
/// then item by item whether it is available (14) and its values are lawful (15).
pub fn list_length<K: ItemKind>(
    configuration: &K::Configuration,
    items: &[K::Record],
) -> Result<usize, ListWriteFault>
    ensures { result ≡ unless (refusal (K.kind configuration.now) K.LIST K.LIMIT items.now) (length (list_bits (K.kind configuration.now) items.now)) }
{
    if items.len() > K::LIMIT {
        return Err(ListWriteFault::Limit(K::LIST));
    }
    ask_lengths::<K>(configuration, items)?;
    measure::<K>(configuration, items)
}

/// Puts the bits of a lawful list where room for them is known. For this layer and those above.
pub fn append_list<K: ItemKind, S: Sink>(
    configuration: &K::Configuration,
    items: &[K::Record],
    sink: &mut S,
)
    requires { (LawfulList (K.kind configuration.now) items.now) × HasRoom (S.content sink.old) (list_bits (K.kind configuration.now) items.now) }
    ensures kept { S.kept sink.old sink.new }
    ensures content { S.content sink.new ≡ appended (S.content sink.old) (list_bits (K.kind configuration.now) items.now) }
{
    for item in items {
        K::append(configuration, item, sink);
    }
    K::append_end(configuration, sink);
}

/// Writes a list, and answers how many bits that took. It asks what `list_length` asks, and then for room (10); at a refusal nothing is put.
/// Under one configuration no lawful list's bits are the beginning of a different lawful list's bits.
pub fn write_list<K: ItemKind, S: Sink>(
    configuration: &K::Configuration,
    items: &[K::Record],
    sink: &mut S,
) -> Result<usize, ListWriteFault>
    ensures kept { S.kept sink.old sink.new }
    ensures wrote { WroteList (refusal (K.kind configuration.now) K.LIST K.LIMIT items.now) (list_bits (K.kind configuration.now) items.now) (S.content sink.old) result (S.content sink.new) }
    ensures alone { PrefixFree (K.kind configuration.now) }
{
    let length = list_length::<K>(configuration, items)?;
    sink.room_for(length)?;
    append_list::<K, S>(configuration, items, sink);
    Ok(length)
}
