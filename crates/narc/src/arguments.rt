//! The words of the command line.
ghost use Rattle.std.specs.Prelude.{◌≡◌, IfErr, IfOk, ◌⊎◌, drop, map, string_bytes};
ghost use Rattle.std.specs.Vec.Iter.{into_iter_items};
ghost use Rattle.narc.specs.Arguments.{arguments_status};

use narc_run::Outcome;
use narc_world::{NoMemory, Words};
use std::alloc::Global;
use std::env;
use std::io::ErrorKind;
use std::rt::Env;

/// The status where the arguments cannot be had: 4 for want of memory, and 8 for another cause, as where one is not
/// UTF-8.
fn status_of(cause: ErrorKind) -> u8
    ensures { result ≡ arguments_status cause }
{
    match cause {
        ErrorKind::OutOfMemory => 4,
        _ => 8,
    }
}

/// The program ends so, before any octet was read.
fn without_arguments(cause: ErrorKind) -> Outcome
    ensures status { result.status ≡ arguments_status cause }
    ensures place { result.at ≡ 0 }
{
    Outcome {
        status: status_of(cause),
        at: 0,
    }
}

/// The words behind the first argument, which is the program's name.
fn words_behind(alloc: Global, mut arguments: env::Args) -> Result<Words, NoMemory>
    ensures { IfOk result (λ words. words ≡ map string_bytes (drop 1 (into_iter_items arguments))) }
{
    let mut words = Words::new(alloc);
    let _name = arguments.next();
    for argument in arguments {
        words.add(argument.as_str())?;
    }
    Ok(words)
}

/// The arguments behind the program's name, or how the program ends without them.
pub fn words_of<R: Env + AllocGlobal>(rt: &R) -> Result<Words, Outcome>
    ensures status { IfErr result (λ outcome. (outcome.status ≡ 4) ⊎ (outcome.status ≡ 8)) }
    ensures place { IfErr result (λ outcome. outcome.at ≡ 0) }
{
    let arguments = match env::args(rt) {
        Ok(arguments) => arguments,
        Err(error) => return Err(without_arguments(error.kind())),
    };
    match words_behind(rt.alloc(), arguments) {
        Ok(words) => Ok(words),
        Err(_) => Err(without_arguments(ErrorKind::OutOfMemory)),
    }
}
