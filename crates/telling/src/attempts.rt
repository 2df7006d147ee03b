//! Calls that should be refused, told.
ghost use Rattle.std.specs.Prelude.{◌≡◌, Result};
ghost use Rattle.std.specs.Fn.{FnOnceReturnsAtMut};
ghost use Rattle.std.specs.Result.{result_err};

use bits::Source;
use std::fmt::Display;
use std::io;

/// A call that should be refused: its fault, and a count before and after it.
#[derive(Clone, Copy, Debug, PartialEq, Eq)]
pub struct Attempt<F> {
    pub fault: Option<F>,
    pub before: usize,
    pub after: usize,
}

/// A call that reads from a source and should be refused; the counts are those of the position.
pub fn attempt_read<S: Source, T: Drop, F: Drop, C: FnOnce(&mut S) -> Result<T, F>>(
    source: &mut S,
    call: C,
) -> Attempt<F>
    requires { C.IsAlwaysCallable call }
    ensures before { result.before ≡ (S.tape source.old).position }
    ensures after { result.after ≡ (S.tape source.new).position }
    ensures fault { (answer : Result T F) × FnOnceReturnsAtMut C.FnOnce call source.old answer source.new × (result.fault ≡ result_err answer) }
{
    let before = S::position(source);
    let fault = call(source).err();
    let after = S::position(source);
    Attempt {
        fault,
        before,
        after,
    }
}

/// Tells a call that should be refused, and the count of `what` before and after it.
pub fn tell_attempt<F: Display + Drop>(
    rt: &impl Print,
    call: &str,
    what: &str,
    attempt: Attempt<F>,
) -> io::Result<()> {
    let Attempt {
        fault,
        before,
        after,
    } = attempt;
    tell_answer(rt, call, fault)?;
    println!(rt; "    {what} before: {before}, after: {after}")
}

/// Tells a call that should be refused and has no state.
pub fn tell_answer<F: Display + Drop>(
    rt: &impl Print,
    call: &str,
    fault: Option<F>,
) -> io::Result<()> {
    tell_call(rt, call, fault, "NOT REFUSED")
}

/// Tells a call that may be lawful, and whether it is refused.
pub fn tell_lawful<F: Display + Drop>(
    rt: &impl Print,
    call: &str,
    fault: Option<F>,
) -> io::Result<()> {
    tell_call(rt, call, fault, "lawful")
}

/// Tells a call and its fault, or the word for none.
fn tell_call<F: Display + Drop>(
    rt: &impl Print,
    call: &str,
    fault: Option<F>,
    unrefused: &str,
) -> io::Result<()> {
    println!(rt; "  {call}:")?;
    match fault {
        Some(fault) => println!(rt; "    refused with {fault}"),
        None => println!(rt; "    {unrefused}"),
    }
}
