//! From the arguments to the request that they make.
ghost use Rattle.std.specs.Prelude.{◌≤◌, IfOk};
ghost use Rattle.command_line.specs.Requests.{IsSupported};

use crate::request::{Action, Comparison, Request};
use crate::usage::{MOST_WORKERS, usage};
use clap::error::ErrorKind;
use clap::{ArgMatches, Error};
use lattice::{Bitime, Pair};
use std::alloc::Global;

/// Reads the program's arguments. The first is the program's name.
///
/// If the arguments are not understood, or if help or the version is asked for, the error holds the
/// text to print and its kind.
///
/// Cost: linear in the arguments.
pub fn words<'a>(alloc: Global, words: &'a [&'a str]) -> Result<Request<'a>, Error>
    ensures { IfOk result IsSupported }
{
    let matches = usage(alloc)?.try_get_matches_from(words)?;
    match matches.subcommand() {
        Some((name, inner)) => asked(alloc, name, inner),
        None => Err(usage(alloc)?.error(ErrorKind::MissingSubcommand, "no command is given")?),
    }
}

// The request that the arguments after the subcommand `name` make.
fn asked<'a>(alloc: Global, name: &str, inner: &ArgMatches<'a>) -> Result<Request<'a>, Error>
    ensures { IfOk result IsSupported }
{
    if name == "import" {
        return asked_import(alloc, inner);
    }
    if name == "show" {
        return asked_show(alloc, inner);
    }
    if name == "explain" {
        return asked_explain(alloc, inner);
    }
    if name == "diff" {
        return asked_diff(alloc, inner);
    }
    asked_action(alloc, name, inner)
}

// The value of an argument that must be there.
fn given<'a>(alloc: Global, inner: &ArgMatches<'a>, id: &str) -> Result<&'a str, Error> {
    match inner.get_str(id) {
        Some(value) => Ok(value),
        None => Err(usage(alloc)?.error(ErrorKind::MissingRequiredArgument, "a word is missing")?),
    }
}

// The value of an argument that must be a whole number.
fn number<'a>(alloc: Global, inner: &ArgMatches<'a>, id: &str) -> Result<u64, Error> {
    match inner.get_one::<u64>(id) {
        Some(value) => Ok(value),
        None => Err(usage(alloc)?.error(ErrorKind::InvalidValue, "a whole number is due")?),
    }
}

// The number of workers, if it is supported.
fn workers<'a>(alloc: Global, inner: &ArgMatches<'a>) -> Result<u64, Error>
    ensures { IfOk result (λ workers. (1 ≤ workers) × (workers ≤ 16)) }
{
    match inner.get_one::<u64>("workers") {
        Some(workers) if 1 <= workers && workers <= MOST_WORKERS => Ok(workers),
        _ => Err(usage(alloc)?.error(ErrorKind::InvalidValue, "the workers are 1 to 16")?),
    }
}

// A run, a plain run or a check.
fn asked_action<'a>(alloc: Global, name: &str, inner: &ArgMatches<'a>) -> Result<Request<'a>, Error>
    ensures { IfOk result IsSupported }
{
    let file = given(alloc, inner, "FILE")?;
    let has_progress = inner.get_flag("progress");
    let action = if name == "plain" {
        Action::Plain { file }
    } else if name == "check" {
        Action::Check { file }
    } else {
        let workers = workers(alloc, inner)?;
        Action::Run { file, workers }
    };
    Ok(Request::Act {
        action,
        has_progress,
    })
}

fn asked_explain<'a>(alloc: Global, inner: &ArgMatches<'a>) -> Result<Request<'a>, Error>
    ensures { IfOk result IsSupported }
{
    let file = given(alloc, inner, "FILE")?;
    Ok(Request::Explain { file })
}

fn asked_diff<'a>(alloc: Global, inner: &ArgMatches<'a>) -> Result<Request<'a>, Error>
    ensures { IfOk result IsSupported }
{
    let file = given(alloc, inner, "FILE")?;
    let view = given(alloc, inner, "VIEW")?;
    let first = pair(alloc, inner, "V", "S")?;
    let second = pair(alloc, inner, "V2", "S2")?;
    let workers = workers(alloc, inner)?;
    Ok(Request::Compare(Comparison {
        file,
        view,
        first,
        second,
        workers,
    }))
}

// A pair of a valid time and a system time, from two arguments.
fn pair<'a>(
    alloc: Global,
    inner: &ArgMatches<'a>,
    valid: &str,
    system: &str,
) -> Result<Bitime, Error> {
    let first = number(alloc, inner, valid)?;
    let second = number(alloc, inner, system)?;
    Ok(Pair { first, second })
}

fn asked_import<'a>(alloc: Global, inner: &ArgMatches<'a>) -> Result<Request<'a>, Error>
    ensures { IfOk result IsSupported }
{
    let schema = given(alloc, inner, "SCHEMA")?;
    let table = given(alloc, inner, "TABLE")?;
    Ok(Request::Import { schema, table })
}

fn asked_show<'a>(alloc: Global, inner: &ArgMatches<'a>) -> Result<Request<'a>, Error>
    ensures { IfOk result IsSupported }
{
    let dictionary = given(alloc, inner, "DICTIONARY")?;
    let text = given(alloc, inner, "TEXT")?;
    Ok(Request::Show { dictionary, text })
}
