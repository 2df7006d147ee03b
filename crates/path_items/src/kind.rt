//! The kind of item that the commands are.
ghost use Rattle.std.specs.Prelude.{◌≡◌, if◌then◌else◌, nat_lt};
ghost use Rattle.std.proofs.Common.{lit≤};
ghost use Rattle.lengths.specs.Coding.{Takes};
ghost use Rattle.items.specs.Sequences.{is_zero};
ghost use Rattle.items.specs.declared.faults.ListName.TheVariants.{Commands as CommandList};
ghost use Rattle.availability.specs.Available.{before};
ghost use Rattle.path_items.specs.Paths.{length_for, available_in, value_lawful, values_lawful, one_numbered, one_command, path_commands};
ghost use Rattle.path_items.specs.CommandLaws.{command_back, command_exact};

use crate::agreed::AgreedConfiguration;
use crate::form::ValueForm;
use availability::{count_before, is_available, number_of};
use bits::{Sink, Source, or_back};
use commands::{COMMANDS, Command, DONE, Entry, row};
use configurations::path::PathConfiguration;
use integers::Integers;
use items::ItemKind;
use items::faults::{ListFault, ListName};
use lengths::codes::Code;
use lengths::fields::LengthField;
use lengths::{CodeLength, Defaults, Mode};
use words::Words;

/// The most commands of a path.
pub const MOST_COMMANDS: usize = 4096;

/// Path commands.
pub struct PathCommands;

impl AgreedConfiguration {
    /// A configuration with the default lengths.
    pub fn new(configuration: PathConfiguration, defaults: Defaults) -> AgreedConfiguration
        ensures { (result.configuration ≡ configuration) × (result.defaults ≡ defaults) }
    {
        let Some(words) = Words::new(count_before(configuration.fields, COMMANDS)) else {
            unreachable!()
        };
        AgreedConfiguration {
            configuration,
            defaults,
            words,
        }
    }

    /// The code length of a mode.
    fn length_for(&self, mode: Mode) -> CodeLength
        ensures { result.bits ≡ length_for self.now mode }
    {
        let fields = self.configuration.fields;
        let sent = match mode {
            Mode::Absolute => fields.absolute,
            Mode::Relative => fields.relative,
        };
        LengthField::of(sent).chosen(self.defaults.of(mode))
    }

    /// The integers of a mode.
    pub(crate) fn integers(&self, mode: Mode) -> Integers
        ensures { (result.mode ≡ mode) × (result.code_length.bits ≡ length_for self.now mode) }
    {
        let code_length = self.length_for(mode);
        Integers { mode, code_length }
    }

    /// The word number of a command.
    fn word_number(&self, number: u8) -> u16
        ensures { result ≡ before (available_in self.now) number }
    {
        count_before(self.configuration.fields, number)
    }
}

/// Whether the value at an index is lawful if it is in use, and otherwise 0.
fn value_lawful(entry: Entry, index: usize, value: i32) -> bool
    ensures { result ≡ (if nat_lt index «entry».value_count then value_lawful «entry» index value else is_zero value) }
{
    if index < entry.value_count as usize {
        ValueForm::new(entry, index).allows(value)
    } else {
        value == 0
    }
}

/// Whether the values in use are lawful, and the others 0.
fn values_lawful(entry: Entry, values: [i32; 8]) -> bool
    ensures { result ≡ values_lawful «entry» values }
{
    values
        .iter()
        .enumerate()
        .all(|(index, value)| value_lawful(entry, index, *value))
}

/// A command of the number. A refusal leaves the source further on.
fn take_numbered<S: Source>(
    source: &mut S,
    agreed: &AgreedConfiguration,
    number: u8,
) -> Result<Option<Command>, ListFault>
    ensures { Takes (one_numbered agreed.now number) (S.tape source.old) result (S.tape source.new) }
{
    if number == DONE {
        return Ok(None);
    }
    let entry = row(number);
    let mut values = [0; 8];
    let used = &mut values[..entry.value_count as usize];
    for (index, value) in used.iter_mut().enumerate() {
        *value = ValueForm::new(entry, index).read(agreed, source)?;
    }
    Ok(Some(Command { number, values }))
}

/// A command, or none at DONE. A refusal leaves the source further on.
fn take_command<S: Source>(
    source: &mut S,
    agreed: &AgreedConfiguration,
) -> Result<Option<Command>, ListFault>
    ensures { Takes (one_command agreed.now) (S.tape source.old) result (S.tape source.new) }
{
    let word = agreed.words.read(source)?;
    let number = number_of(agreed.configuration.fields, word);
    take_numbered(source, agreed, number)
}

impl ItemKind for PathCommands {
    type Record = Command;

    type Configuration = AgreedConfiguration;

    const LIMIT: usize = MOST_COMMANDS;

    ghost LIMIT = { 4096 };

    ghost few = { lit≤ tt };

    const LIST: ListName = ListName::Commands;

    ghost LIST = { CommandList };

    ghost kind = { path_commands };

    ghost back = { command_back };

    ghost exact = { command_exact };

    fn lengths_lawful(_configuration: &AgreedConfiguration, _item: &Command) -> bool {
        true
    }

    fn is_available(configuration: &AgreedConfiguration, item: &Command) -> bool {
        item.number < DONE && is_available(configuration.configuration.fields, item.number)
    }

    fn values_lawful(_configuration: &AgreedConfiguration, item: &Command) -> bool {
        values_lawful(row(item.number), item.values)
    }

    fn length(configuration: &AgreedConfiguration, item: &Command) -> usize {
        let entry = row(item.number);
        let used = &item.values[..entry.value_count as usize];
        let word = configuration.word_number(item.number);
        let mut total = configuration.words.length(word);
        for (index, value) in used.iter().enumerate() {
            total += ValueForm::new(entry, index).length(configuration, *value);
        }
        total
    }

    fn end_length(configuration: &AgreedConfiguration) -> usize {
        configuration.words.length(configuration.word_number(DONE))
    }

    fn append<S: Sink>(configuration: &AgreedConfiguration, item: &Command, sink: &mut S) {
        let entry = row(item.number);
        let used = &item.values[..entry.value_count as usize];
        let word = configuration.word_number(item.number);
        configuration.words.append_to(sink, word);
        for (index, value) in used.iter().enumerate() {
            ValueForm::new(entry, index).append(configuration, *value, sink);
        }
    }

    fn append_end<S: Sink>(configuration: &AgreedConfiguration, sink: &mut S) {
        let word = configuration.word_number(DONE);
        configuration.words.append_to(sink, word);
    }

    fn read<S: Source>(
        configuration: &AgreedConfiguration,
        source: &mut S,
    ) -> Result<Option<Command>, ListFault> {
        let start = S::position(source);
        let answer = take_command(source, configuration);
        or_back(source, start, answer)
    }
}
