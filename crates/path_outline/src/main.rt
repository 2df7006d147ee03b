//! Carries the worked example's path data and a list of transforms as bits into a flat run and back, and tells every step.
#![tactic(auto)]

use commands::Command;
use configurations::path::PathConfiguration;
use lengths::{Defaults, Mode};
use outline::{path_data, transform_list};
use path_items::agreed::AgreedConfiguration;
use refusals::{few_places, long_length, many_commands, no_curves, unlawful_command};
use std::io;
use telling::attempts::{tell_answer, tell_attempt, tell_lawful};
use telling::example::FIELDS;

mod outline;
mod refusals;

/// Tells what is refused of lists, and of a configuration.
fn tell_list_refusals(
    rt: &impl Print,
    agreed: &AgreedConfiguration,
    defaults: &Defaults,
) -> io::Result<()> {
    let curve = Command::smooth_quadratic_to(Mode::Absolute, (1, 2));
    tell_lawful(
        rt,
        "A curve in the example's path",
        unlawful_command(agreed, curve),
    )?;
    let largest = Command::move_to(Mode::Absolute, (1_048_575, 0));
    tell_lawful(rt, "M 1048575 0 there", unlawful_command(agreed, largest))?;
    let larger = Command::move_to(Mode::Absolute, (1_048_576, 0));
    tell_lawful(rt, "M 1048576 0 there", unlawful_command(agreed, larger))?;
    tell_lawful(rt, "A path of 4096 commands", many_commands(agreed, 4096))?;
    tell_lawful(rt, "A path of 4097 commands", many_commands(agreed, 4097))?;
    tell_lawful(rt, "A skew with a length of 15", long_length(defaults))?;
    tell_attempt(
        rt,
        "Two commands into a list of one place",
        "position",
        few_places(agreed),
    )?;
    tell_answer(
        rt,
        "A configuration with curves of which all are absent",
        no_curves(),
    )
}

/// Path data, transforms, and what is refused of them.
fn run(rt: &impl Print, defaults: &Defaults) -> io::Result<()> {
    let configuration = match PathConfiguration::new(FIELDS) {
        Ok(configuration) => configuration,
        Err(fault) => return println!(rt; "    refused with {fault}"),
    };
    let agreed = AgreedConfiguration::new(configuration, *defaults);
    path_data(rt, &agreed, defaults)?;
    transform_list(rt, defaults)?;
    println!(rt; "What is refused alters nothing:")?;
    tell_list_refusals(rt, &agreed, defaults)
}

fn main(rt: HostRuntime) -> io::Result<()> {
    match Defaults::new(7, 4) {
        Ok(defaults) => run(&rt, &defaults),
        Err(fault) => println!(rt; "    refused with {fault}"),
    }
}
