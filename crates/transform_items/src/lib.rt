//! Transforms as a kind of item.
#![tactic(auto)]

ghost use Rattle.std.specs.Prelude.{◌≡◌, ◌≤◌, true, length};
ghost use Rattle.std.proofs.Common.{lit≤};
ghost use Rattle.bits.specs.Stores.{HasRoom, appended, left, Reads};
ghost use Rattle.lengths.specs.Coding.{Takes};
ghost use Rattle.lengths.specs.Fields.{sent_by, chosen};
ghost use Rattle.lengths.specs.declared.Mode.TheVariants.{Absolute};
ghost use Rattle.items.specs.declared.faults.ListName.TheVariants.{Transforms as TransformList};
ghost use Rattle.items.specs.Sequences.{only_used};
ghost use Rattle.transforms.specs.Records.{is_unused, marked as marked_of};
ghost use Rattle.transform_items.specs.Transforms.{argument_code, one_argument, argument_lawful, lengths_lawful, mark_lawful, one_mark, one_of_type, one_transform, transforms};
ghost use Rattle.transform_items.specs.ArgumentLaws.{Sound};
ghost use Rattle.transform_items.specs.TransformLaws.{transform_back, transform_exact};

use bits::{Sink, Source, append, or_back};
use integers::{Integers, in_range};
use items::ItemKind;
use items::faults::{ListFault, ListName};
use lengths::codes::Code;
use lengths::fields::{LengthField, LengthFields};
use lengths::{CodeLength, Defaults, Mode};
use transforms::records::{END, UNUSED};
use transforms::steps::{PlainArgument, Transform};
use transforms::types::TransformType;
use words::Words;

/// The most transforms of a list.
pub const MOST_TRANSFORMS: usize = 64;

/// Transforms: six types and the end word. Their configuration is the default lengths, of which the absolute one is used.
pub struct Transforms;

/// The words of the six types and the end word.
fn words() -> Words
    ensures { result.count ≡ 7 }
{
    Words { count: 7, width: 2 }
}

/// Whether a type has a mark.
fn marked(kind: u8) -> bool
    ensures { result ≡ marked_of kind }
{
    matches!(
        TransformType::try_from(kind),
        Ok(TransformType::Translate | TransformType::Rotate | TransformType::Scale)
    )
}

/// Whether the mark is lawful for the type.
fn mark_lawful(item: &Transform) -> bool
    ensures { result ≡ mark_lawful item.now }
{
    if marked(item.kind) {
        item.mark < 2
    } else {
        item.mark == 0
    }
}

/// Whether each length is lawful.
fn all_lengths_lawful(arguments: &[PlainArgument]) -> bool
    ensures { result ≡ lengths_lawful arguments.now }
{
    arguments.iter().all(|argument| argument.length <= 14)
}

/// Whether the first `used` arguments are in range, and the others are not used.
fn only_used(arguments: &[PlainArgument], used: usize) -> bool
    ensures { result ≡ only_used argument_lawful is_unused used 0 arguments.now }
{
    arguments.iter().enumerate().all(|(index, argument)| {
        if index < used {
            in_range(argument.value)
        } else {
            argument.is_unused()
        }
    })
}

/// How the value of an argument is coded: in absolute mode, at the length that is sent or else the default.
fn value_code(default: CodeLength, sent: LengthField) -> Integers
    ensures { (result.mode ≡ Absolute) × (result.code_length.bits ≡ chosen (sent_by sent) default.bits) }
{
    let mode = Mode::Absolute;
    let code_length = sent.chosen(default);
    Integers { mode, code_length }
}

// No `Code` for an argument: its length and its value are told each at its own place, and a code is told at one.

/// How many bits an argument has.
fn argument_length(default: CodeLength, argument: PlainArgument) -> usize
    requires { Sound 0 argument }
    ensures value { result ≡ length (argument_code default.bits argument) }
    ensures bound { result ≤ 1100000 }
{
    let sent = LengthField::of(argument.length);
    LengthFields.length(sent) + value_code(default, sent).length(argument.value)
}

/// Puts an argument where room for it is known.
fn append_argument<S: Sink>(sink: &mut S, default: CodeLength, argument: PlainArgument)
    requires few { argument.length ≤ 14 }
    requires room { HasRoom (S.content sink.old) (argument_code default.bits argument) }
    ensures kept { S.kept sink.old sink.new }
    ensures content { S.content sink.new ≡ appended (S.content sink.old) (argument_code default.bits argument) }
{
    let sent = LengthField::of(argument.length);
    LengthFields.append_to(sink, sent);
    value_code(default, sent).append_to(sink, argument.value);
}

/// An argument. A refusal leaves the source further on.
fn take_argument<S: Source>(source: &mut S, default: CodeLength) -> Result<PlainArgument, ListFault>
    ensures { Takes (one_argument default.bits) (S.tape source.old) result (S.tape source.new) }
{
    let sent = LengthFields.read(source)?;
    let value = value_code(default, sent).read(source)?;
    let length = sent.bits();
    Ok(PlainArgument { length, value })
}

/// The mark of a type that has one; otherwise it is 0.
fn read_mark<S: Source>(source: &mut S, kind: u8) -> Result<u8, ListFault>
    ensures reads { Reads (one_mark kind) (S.tape source.old) result (S.tape source.new) }
{
    if !marked(kind) {
        return Ok(0);
    }
    let mark = source.take_field(1)?;
    Ok(mark as u8)
}

/// A transform of the type. A refusal leaves the source further on.
fn take_of_type<S: Source>(
    source: &mut S,
    default: CodeLength,
    kind: u8,
) -> Result<Option<Transform>, ListFault>
    ensures { Takes (one_of_type default.bits kind) (S.tape source.old) result (S.tape source.new) }
{
    let mut arguments = [UNUSED; 6];
    arguments[0] = take_argument(source, default)?;
    let mark = read_mark(source, kind)?;
    for argument in &mut arguments[1..=Transform::following(kind, mark)] {
        *argument = take_argument(source, default)?;
    }
    Ok(Some(Transform::placed(kind, mark, arguments)))
}

/// A transform, or none at the end word. A refusal leaves the source further on.
fn take_transform<S: Source>(
    source: &mut S,
    default: CodeLength,
) -> Result<Option<Transform>, ListFault>
    ensures { Takes (one_transform default.bits) (S.tape source.old) result (S.tape source.new) }
{
    let kind = words().read(source)? as u8;
    if kind == END {
        return Ok(None);
    }
    take_of_type(source, default, kind)
}

impl ItemKind for Transforms {
    type Record = Transform;

    type Configuration = Defaults;

    const LIMIT: usize = MOST_TRANSFORMS;

    ghost LIMIT = { 64 };

    ghost few = { lit≤ tt };

    const LIST: ListName = ListName::Transforms;

    ghost LIST = { TransformList };

    ghost kind = { transforms };

    ghost back = { transform_back };

    ghost exact = { transform_exact };

    fn lengths_lawful(_configuration: &Defaults, item: &Transform) -> bool {
        all_lengths_lawful(&item.six()) && all_lengths_lawful(&item.other_six())
    }

    fn is_available(_configuration: &Defaults, item: &Transform) -> bool {
        TransformType::try_from(item.kind).is_ok()
    }

    fn values_lawful(_configuration: &Defaults, item: &Transform) -> bool {
        if !mark_lawful(item) {
            return false;
        }
        let used = Transform::following(item.kind, item.mark) + 1;
        only_used(&item.six(), used) && only_used(&item.other_six(), 0)
    }

    #[tactic(auto, using(crate::proofs::Writing::rest_none, crate::proofs::Writing::length_after))]
    fn length(configuration: &Defaults, item: &Transform) -> usize {
        let default = configuration.absolute;
        let arguments = item.six();
        let mut total = words().length(item.kind as u16);
        total += argument_length(default, arguments[0]);
        total += usize::from(marked(item.kind));
        for argument in &arguments[1..=Transform::following(item.kind, item.mark)] {
            total += argument_length(default, *argument);
        }
        total
    }

    fn end_length(_configuration: &Defaults) -> usize {
        words().length(END as u16)
    }

    fn append<S: Sink>(configuration: &Defaults, item: &Transform, sink: &mut S) {
        let default = configuration.absolute;
        let arguments = item.six();
        words().append_to(sink, item.kind as u16);
        append_argument(sink, default, arguments[0]);
        // Where the type has no mark, this field has no bits.
        append(sink, u8::from(marked(item.kind)), item.mark as u32);
        for argument in &arguments[1..=Transform::following(item.kind, item.mark)] {
            append_argument(sink, default, *argument);
        }
    }

    fn append_end<S: Sink>(_configuration: &Defaults, sink: &mut S) {
        words().append_to(sink, END as u16);
    }

    fn read<S: Source>(
        configuration: &Defaults,
        source: &mut S,
    ) -> Result<Option<Transform>, ListFault> {
        let start = S::position(source);
        let answer = take_transform(source, configuration.absolute);
        or_back(source, start, answer)
    }
}
