//! A third kind of item, small, to show that a new kind proves its own law and nothing else.
#![tactic(auto)]

ghost use Rattle.std.specs.Prelude.{◌≡◌};
ghost use Rattle.std.proofs.Common.{lit≤, rules};
ghost use Rattle.items.specs.declared.faults.ListName.TheVariants.{Other};
ghost use Rattle.sample_items.specs.Levels.{levels};
ghost use Rattle.sample_items.specs.LevelLaws.{level_exact};

use bits::{Sink, Source, append};
use items::ItemKind;
use items::faults::{ListFault, ListName};
use lengths::faults::NumberFault;

/// A level, from 0 on.
#[derive(Clone, Copy)]
pub struct Level {
    pub value: u8,
}

/// The highest level of a list.
#[derive(Clone, Copy)]
pub struct Highest {
    pub value: u8,
}

/// Levels in three bits each; 111 is the end word.
pub struct Levels;

impl ItemKind for Levels {
    type Record = Level;

    type Configuration = Highest;

    const LIMIT: usize = 5;

    ghost LIMIT = { 5 };

    ghost few = { lit≤ tt };

    const LIST: ListName = ListName::Other(1);

    ghost LIST = { Other 1 };

    ghost kind = { levels };

    ghost back = { Prim.search rules };

    ghost exact = { level_exact };

    fn lengths_lawful(_configuration: &Highest, _item: &Level) -> bool {
        true
    }

    fn is_available(_configuration: &Highest, item: &Level) -> bool {
        item.value < 7
    }

    fn values_lawful(configuration: &Highest, item: &Level) -> bool {
        item.value <= configuration.value
    }

    fn length(_configuration: &Highest, _item: &Level) -> usize {
        3
    }

    fn end_length(_configuration: &Highest) -> usize {
        3
    }

    fn append<S: Sink>(_configuration: &Highest, item: &Level, sink: &mut S) {
        append(sink, 3, item.value as u32);
    }

    fn append_end<S: Sink>(_configuration: &Highest, sink: &mut S) {
        append(sink, 3, 7);
    }

    fn read<S: Source>(
        configuration: &Highest,
        source: &mut S,
    ) -> Result<Option<Level>, ListFault> {
        let position = S::position(source);
        let value = source.take_field(3)? as u8;
        if value == 7 {
            return Ok(None);
        }
        if value > configuration.value {
            let _ = source.go_back(position);
            return Err(ListFault::Number(NumberFault::Range { position }));
        }
        Ok(Some(Level { value }))
    }
}

#[cfg(test)]
mod tests {
    use super::*;
    use flat::{FlatSink, FlatSource};
    use items::list::List;
    use lists::reading::read_list;
    use lists::writing::write_list;
    use std::test::Fail;

    #[test]
    fn two_levels(rt: HostRuntime) {
        let highest = Highest { value: 3 };
        let pair = [Level { value: 2 }, Level { value: 3 }];
        let mut bytes = [0u8; 2];
        let mut sink = FlatSink::over(&mut bytes, 0);
        let wrote = write_list::<Levels, FlatSink>(&highest, &pair, &mut sink);
        assert_eq!(rt; wrote.unwrap_or(0), 9);
        assert_eq!(rt; bytes[0], 0b0100_1111);
        assert_eq!(rt; bytes[1], 0b1000_0000);
        let mut places = [Level { value: 0 }; 3];
        let mut list = List::over(&mut places);
        let mut source = FlatSource::over(&bytes, 9);
        let read = read_list::<Levels, FlatSource>(&highest, &mut source, &mut list);
        assert_eq!(rt; read.unwrap_or(0), 2);
        assert_eq!(rt; places[1].value, 3);
    }

    #[test]
    fn a_sixth_level(rt: HostRuntime) -> Result<(), Fail> {
        let highest = Highest { value: 3 };
        let six = [Level { value: 1 }; 6];
        let mut bytes = [0u8; 4];
        let mut sink = FlatSink::over(&mut bytes, 0);
        match write_list::<Levels, FlatSink>(&highest, &six, &mut sink) {
            Ok(_) => Err(Fail::new("not refused")),
            Err(fault) => {
                assert_eq!(rt; fault.number(), 12);
                Ok(())
            },
        }
    }
}
