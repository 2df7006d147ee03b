//! A configuration: made, measured, written and read.
ghost use Rattle.std.specs.Prelude.{◌≡◌, ◌≤◌, true, length, if◌then◌else◌};
ghost use Rattle.bits.specs.Codes.{fixed};
ghost use Rattle.bits.specs.Stores.{HasRoom, appended, left, ReadAs, Reads};
ghost use Rattle.lengths.specs.Fields.{field_code};
ghost use Rattle.lengths.specs.Coding.{Wrote, Faithful, Takes};
ghost use Rattle.items.specs.Sequences.{one_number};
ghost use Rattle.configurations.specs.Settings.{lawful_fields, sent_bits, configuration_code, one_flags, one_length, one_curves, if_sent, one_configuration};
ghost use Rattle.configurations.specs.Configurations.{fields_in, asked};

use crate::path::PathConfiguration;
use crate::{ConfigurationFault, Flag, PathFields};
use bits::{Sink, Source, append, or_back, take_part};
use items::faults::ListFault;
use lengths::codes::Code;
use lengths::faults::WriteFault;
use lengths::fields::{LengthField, LengthFields};

// No `Code`: each field of a configuration is told at its own place, and a code is told at one.
impl PathConfiguration {
    /// The configuration of the fields: it asks whether each is lawful (3), and then whether declared curves are not all absent (4).
    pub fn new(fields: PathFields) -> Result<PathConfiguration, ConfigurationFault>
        ensures { fields_in result ≡ asked fields }
    {
        if !fields.fields_lawful() {
            return Err(ConfigurationFault::Field);
        }
        if !fields.curves_lawful() {
            return Err(ConfigurationFault::Curves);
        }
        Ok(PathConfiguration { fields })
    }

    /// How many bits it has.
    pub fn length(self) -> usize
        ensures value { result ≡ length (configuration_code self.fields) }
        ensures bound { result ≤ 24 }
    {
        let c = self.fields;
        let mode = sent_length(c.flagged(Flag::OneMode as u8), 1);
        let absolute = sent_length(
            c.uses_absolute(),
            LengthFields.length(LengthField::of(c.absolute)),
        );
        let relative = sent_length(
            c.uses_relative(),
            LengthFields.length(LengthField::of(c.relative)),
        );
        let lines = sent_length(c.flagged(Flag::OtherLines as u8), 2);
        let curves = sent_length(!c.flagged(Flag::NoCurves as u8), 4);
        7 + mode + absolute + relative + lines + curves
    }

    /// Puts its bits where room for them is known. For the layers above.
    pub fn append_to<S: Sink>(self, sink: &mut S)
        requires { HasRoom (S.content sink.old) (configuration_code self.fields) }
        ensures kept { S.kept sink.old sink.new }
        ensures content { S.content sink.new ≡ appended (S.content sink.old) (configuration_code self.fields) }
    {
        let c = self.fields;
        append(sink, 7, c.flags as u32);
        append_sent(sink, c.flagged(Flag::OneMode as u8), 1, c.mode);
        append_length(sink, c.uses_absolute(), c.absolute);
        append_length(sink, c.uses_relative(), c.relative);
        append_sent(sink, c.flagged(Flag::OtherLines as u8), 2, c.lines);
        append_sent(sink, !c.flagged(Flag::NoCurves as u8), 4, c.curves);
    }

    /// Writes it, and answers how many bits that took. Want of room is refused with 10.
    pub fn write<S: Sink>(self, sink: &mut S) -> Result<usize, WriteFault>
        ensures kept { S.kept sink.old sink.new }
        ensures wrote { Wrote true (configuration_code self.fields) (S.content sink.old) result (S.content sink.new) }
    {
        let length = self.length();
        sink.room_for(length)?;
        self.append_to(sink);
        Ok(length)
    }

    /// Reads a configuration. A source that ends is refused with 17, a sent length of 0 or 15 with 21, and curves that are declared but all
    /// absent with 4, each told at its field's first bit; then the source is as before.
    pub fn read<S: Source>(source: &mut S) -> Result<PathConfiguration, ListFault>
        ensures reads { Reads one_configuration (S.tape source.old) (fields_in result) (S.tape source.new) }
        ensures faithful { Faithful configuration_code (λ c. lawful_fields c ≡ true) (S.tape source.old) (fields_in result) (S.tape source.new) }
    {
        let start = S::position(source);
        let answer = take_fields(source);
        let fields = or_back(source, start, answer)?;
        Ok(PathConfiguration { fields })
    }
}

// That a field is sent follows from the fields before it, and is kept nowhere beside its value: an `Option` would take a method for each of
// the five fields, so the functions below are given `sent`.

/// The length of a field that may not be sent.
fn sent_length(sent: bool, bits: usize) -> usize
    requires { bits ≤ 5 }
    ensures value { result ≡ (if sent then bits else 0) }
    ensures bound { (result ≤ bits) × (result ≤ 5) }
{
    if sent { bits } else { 0 }
}

/// Puts a field of so many bits, if it is sent.
fn append_sent<S: Sink>(sink: &mut S, sent: bool, width: u8, value: u8)
    requires { HasRoom (S.content sink.old) (sent_bits sent (fixed width value)) }
    ensures kept { S.kept sink.old sink.new }
    ensures content { S.content sink.new ≡ appended (S.content sink.old) (sent_bits sent (fixed width value)) }
{
    if sent {
        append(sink, width, value as u32);
    }
}

/// Puts a length field, if it is sent.
fn append_length<S: Sink>(sink: &mut S, sent: bool, bits: u8)
    requires { (bits ≤ 14) × (HasRoom (S.content sink.old) (sent_bits sent (field_code bits))) }
    ensures kept { S.kept sink.old sink.new }
    ensures content { S.content sink.new ≡ appended (S.content sink.old) (sent_bits sent (field_code bits)) }
{
    if sent {
        LengthFields.append_to(sink, LengthField::of(bits));
    }
}

/// The fields in their order. A refusal leaves the source further on.
fn take_fields<S: Source>(source: &mut S) -> Result<PathFields, ListFault>
    ensures { Takes one_configuration (S.tape source.old) result (S.tape source.new) }
{
    let flags = read_flags(source)?;
    let mut c = PathFields {
        flags,
        mode: 0,
        absolute: 0,
        relative: 0,
        lines: 0,
        curves: 0,
    };
    c.mode = read_number(source, c.flagged(Flag::OneMode as u8), 1)?;
    c.absolute = read_length(source, c.uses_absolute())?;
    c.relative = read_length(source, c.uses_relative())?;
    c.lines = read_number(source, c.flagged(Flag::OtherLines as u8), 2)?;
    c.curves = read_curves(source, !c.flagged(Flag::NoCurves as u8))?;
    Ok(c)
}

/// A field of at most eight bits. A refusal is told at `field`.
fn read_bits<S: Source>(source: &mut S, width: u8, field: usize) -> Result<u8, ListFault>
    requires { width ≤ 8 }
    ensures { ReadAs (one_number width field (left (S.tape source.old))) (S.tape source.old) result (S.tape source.new) }
{
    let value = take_part(source, width, field)?;
    Ok(value as u8)
}

/// The seven flags. Where the source ends, the first flag that is not there is told.
fn read_flags<S: Source>(source: &mut S) -> Result<u8, ListFault>
    ensures { Reads one_flags (S.tape source.old) result (S.tape source.new) }
{
    let end = S::length(source);
    read_bits(source, 7, end)
}

/// A field of at most eight bits, if it is sent.
fn read_number<S: Source>(source: &mut S, sent: bool, width: u8) -> Result<u8, ListFault>
    requires { width ≤ 8 }
    ensures { Reads (if_sent sent (one_number width)) (S.tape source.old) result (S.tape source.new) }
{
    if !sent {
        return Ok(0);
    }
    let position = S::position(source);
    read_bits(source, width, position)
}

/// A length field, if it is sent.
fn read_length<S: Source>(source: &mut S, sent: bool) -> Result<u8, ListFault>
    ensures { Reads (if_sent sent one_length) (S.tape source.old) result (S.tape source.new) }
{
    if !sent {
        return Ok(0);
    }
    let field = LengthFields.read(source)?;
    Ok(field.bits())
}

/// The four bits for C, S, Q and T, if they are sent: not all of them may be absent.
fn read_curves<S: Source>(source: &mut S, sent: bool) -> Result<u8, ListFault>
    ensures { Reads (if_sent sent one_curves) (S.tape source.old) result (S.tape source.new) }
{
    let position = S::position(source);
    let curves = read_number(source, sent, 4)?;
    if sent && curves == 15 {
        let _ = source.go_back(position);
        return Err(ListFault::Curves { position });
    }
    Ok(curves)
}
