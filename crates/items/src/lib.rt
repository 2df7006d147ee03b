//! Kinds of item and the law that each keeps; the list over lent places; the faults of lists.
#![tactic(auto)]

ghost use Rattle.std.specs.Prelude.{◌≡◌, ℕ, ◌≤◌, true, length};
ghost use Rattle.bits.specs.Stores.{HasRoom, appended, Reads};
ghost use Rattle.items.specs.Kinds.{Kind, lawful, ReadBack, ReadExact};
ghost use Rattle.items.specs.declared.faults.ListName.{ListName};

use bits::{Sink, Source};
use faults::{ListFault, ListName};

pub mod faults;
pub mod list;
mod messages;

/// A kind of item: its record, its configuration, and the most items that a list has.
/// A new kind proves its own law; list coding is proved from that alone.
pub trait ItemKind {
    type Record: Copy;

    /// What a kind's items are coded under. The default lengths that writer and reader agreed on belong to it.
    type Configuration;

    /// The most items of a list.
    const LIMIT: usize;

    ghost LIMIT: { ℕ };

    ghost few: { LIMIT ≤ 65536 };

    /// Which list the items are in.
    const LIST: ListName;

    ghost LIST: { ListName };

    ghost kind: { Self.Configuration → Kind Self.Record };

    /// Whether each length of an item is lawful (13).
    fn lengths_lawful(configuration: &Self::Configuration, item: &Self::Record) -> bool
        ensures { result ≡ ((kind configuration.now).asked item.now).lengths };

    /// Whether an item is available under the configuration, and is not the end word (14).
    fn is_available(configuration: &Self::Configuration, item: &Self::Record) -> bool
        ensures { result ≡ ((kind configuration.now).asked item.now).available };

    /// Whether the values of an item that is available are lawful (15).
    fn values_lawful(configuration: &Self::Configuration, item: &Self::Record) -> bool
        requires { ((kind configuration.now).asked item.now).available ≡ true }
        ensures { result ≡ ((kind configuration.now).asked item.now).values };

    /// How many bits a lawful item has.
    fn length(configuration: &Self::Configuration, item: &Self::Record) -> usize
        requires { lawful (kind configuration.now) item.now ≡ true }
        ensures value { result ≡ length ((kind configuration.now).code item.now) }
        ensures bound { result ≤ 16777216 };

    /// How many bits the end word has.
    fn end_length(configuration: &Self::Configuration) -> usize
        ensures value { result ≡ length (kind configuration.now).ending }
        ensures bound { result ≤ 16777216 };

    /// Puts the bits of a lawful item where room for them is known.
    fn append<S: Sink>(configuration: &Self::Configuration, item: &Self::Record, sink: &mut S)
        requires { (lawful (kind configuration.now) item.now ≡ true) × HasRoom (S.content sink.old) ((kind configuration.now).code item.now) }
        ensures kept { S.kept sink.old sink.new }
        ensures content { S.content sink.new ≡ appended (S.content sink.old) ((kind configuration.now).code item.now) };

    /// Puts the bits of the end word where room for them is known.
    fn append_end<S: Sink>(configuration: &Self::Configuration, sink: &mut S)
        requires { HasRoom (S.content sink.old) (kind configuration.now).ending }
        ensures kept { S.kept sink.old sink.new }
        ensures content { S.content sink.new ≡ appended (S.content sink.old) (kind configuration.now).ending };

    /// Reads an item, or none at the end word. At a refusal the source is as before.
    fn read<S: Source>(
        configuration: &Self::Configuration,
        source: &mut S,
    ) -> Result<Option<Self::Record>, ListFault>
        ensures { Reads (kind configuration.now).parse (S.tape source.old) result (S.tape source.new) };

    ghost back: { (c : Self.Configuration) → ReadBack (kind c) };

    ghost exact: { (c : Self.Configuration) → ReadExact (kind c) };
}
