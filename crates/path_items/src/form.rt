//! The form of a value: how it is asked, measured, written and read.
ghost use Rattle.std.specs.Prelude.{◌≡◌, ◌≤◌, true, length};
ghost use Rattle.bits.specs.Stores.{HasRoom, appended, Reads};
ghost use Rattle.path_items.specs.Paths.{form_of, form_lawful, form_code, one_form};

use crate::agreed::AgreedConfiguration;
use bits::{Sink, Source, append};
use commands::{Entry, FlagPlaces};
use integers::in_range;
use items::faults::ListFault;
use lengths::Mode;
use lengths::codes::Code;

/// How a value of a command is coded.
#[derive(Clone, Copy, Debug, PartialEq, Eq)]
pub(crate) enum ValueForm {
    /// One bit.
    Flag,
    /// An integer in a mode.
    Integer(Mode),
}

impl ValueForm {
    /// The form of the value at an index.
    pub(crate) fn new(entry: Entry, index: usize) -> ValueForm
        ensures { result ≡ form_of «entry» index }
    {
        match (entry.flags, index) {
            (FlagPlaces::FourthAndFifth, 3 | 4) => ValueForm::Flag,
            _ => ValueForm::Integer(entry.mode.unwrap_or(Mode::Absolute)),
        }
    }

    /// Whether a value is lawful.
    pub(crate) fn allows(self, value: i32) -> bool
        ensures { result ≡ form_lawful self value }
    {
        match self {
            ValueForm::Flag => value == 0 || value == 1,
            ValueForm::Integer(_) => in_range(value),
        }
    }

    /// How many bits a lawful value has.
    pub(crate) fn length(self, agreed: &AgreedConfiguration, value: i32) -> usize
        requires { form_lawful self value ≡ true }
        ensures value { result ≡ length (form_code agreed.now self value) }
        ensures bound { result ≤ 1100000 }
    {
        match self {
            ValueForm::Flag => 1,
            ValueForm::Integer(mode) => agreed.integers(mode).length(value),
        }
    }

    /// Puts a lawful value where room for it is known.
    pub(crate) fn append<S: Sink>(self, agreed: &AgreedConfiguration, value: i32, sink: &mut S)
        requires { (form_lawful self value ≡ true) × HasRoom (S.content sink.old) (form_code agreed.now self value) }
        ensures kept { S.kept sink.old sink.new }
        ensures content { S.content sink.new ≡ appended (S.content sink.old) (form_code agreed.now self value) }
    {
        match self {
            ValueForm::Flag => append(sink, 1, value as u32),
            ValueForm::Integer(mode) => agreed.integers(mode).append_to(sink, value),
        }
    }

    /// Reads a value.
    pub(crate) fn read<S: Source>(
        self,
        agreed: &AgreedConfiguration,
        source: &mut S,
    ) -> Result<i32, ListFault>
        ensures { Reads (one_form agreed.now self) (S.tape source.old) result (S.tape source.new) }
    {
        match self {
            ValueForm::Flag => Ok(i32::from(source.take()?)),
            ValueForm::Integer(mode) => Ok(agreed.integers(mode).read(source)?),
        }
    }
}
