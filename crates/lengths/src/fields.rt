//! The length field: the default code length, or one that is sent.
ghost use Rattle.std.specs.Prelude.{◌≡◌, ℕ, ◌≤◌, true, MatchOption, nat_le, nat_lt};
ghost use Rattle.lengths.specs.Fields.{sent_by, chosen as chosen_of, field_code, one_length_field};

use crate::codes::Code;
use crate::faults::NumberFault;
use crate::{CodeLength, LONGEST};
use bits::{Sink, Source, append, take_part};

/// What a length field says: the code length that it sends, or none for the default.
#[derive(Clone, Copy, Debug, PartialEq, Eq)]
pub struct LengthField {
    pub sent: Option<CodeLength>,
}

impl LengthField {
    /// The field by its number in a record: 0 for the default, 1 to 14 for a sent length. For a number that is known to be one of these.
    pub fn of(bits: u8) -> LengthField
        ensures { bits ≤ 14 → sent_by result ≡ bits }
    {
        let sent = CodeLength::new(bits);
        LengthField { sent }
    }

    /// The field by its number in a record, if that is from 0 to 14.
    pub fn new(bits: u8) -> Option<LengthField>
        ensures { MatchOption result (nat_lt 14 bits ≡ true) (λ f. sent_by f ≡ bits) }
    {
        if bits > LONGEST {
            return None;
        }
        Some(LengthField::of(bits))
    }

    /// The number of the field in a record.
    pub fn bits(self) -> u8
        ensures value { result ≡ sent_by self }
        ensures lawful { result ≤ 14 }
    {
        self.sent.map_or(0, |code_length| code_length.bits)
    }

    /// The length in use, given the default.
    pub fn chosen(self, default: CodeLength) -> CodeLength
        ensures { result.bits ≡ chosen_of (sent_by self) default.bits }
    {
        self.sent.unwrap_or(default)
    }
}

/// Length fields as a code: the bit 0 for the default, or the bit 1 and four bits of the length.
#[derive(Clone, Copy, Debug, PartialEq, Eq)]
pub struct LengthFields;

impl Code for LengthFields {
    type Value = LengthField;

    type Plain = u8;

    type Fault = NumberFault;

    ghost plain = { sent_by };

    ghost lawful = { λ s n. nat_le n 14 };

    ghost code = { λ s. field_code };

    ghost parse = { λ s. one_length_field };

    fn is_lawful(&self, value: LengthField) -> bool
        ensures lawful { result ≡ nat_le (sent_by value) 14 }
        ensures always { result ≡ true }
    {
        let _ = value;
        true
    }

    fn length(&self, value: LengthField) -> usize {
        if value.sent.is_some() { 5 } else { 1 }
    }

    fn append_to<S: Sink>(&self, sink: &mut S, value: LengthField) {
        match value.sent {
            None => append(sink, 1, 0),
            Some(code_length) => append(sink, 5, 16 + u32::from(code_length.bits)),
        }
    }

    /// A source that ends within the field is refused with 17, and a sent length of 0 or 15 with 21.
    #[tactic(auto, using(crate::proofs::FieldLaws::field_law))]
    fn take<S: Source>(&self, source: &mut S, field: usize) -> Result<LengthField, NumberFault> {
        if take_part(source, 1, field)? == 0 {
            return Ok(LengthField { sent: None });
        }
        let bits = take_part(source, 4, field)? as u8;
        let code_length = CodeLength::new(bits).ok_or(NumberFault::Length { position: field })?;
        let sent = Some(code_length);
        Ok(LengthField { sent })
    }
}
