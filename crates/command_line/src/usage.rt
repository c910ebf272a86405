//! The grammar of the command line, and what help says. `docs/PROGRAM.md` says the same in more
//! detail.
use clap::{Arg, ArgAction, Command};
use std::alloc::{AllocError, Global};

/// The greatest number of workers.
pub(crate) const MOST_WORKERS: u64 = 16;

// The text after the options in the help.
const AFTER_HELP: &str = "Example:
  bitview run examples/late_correction.bv --workers 4

FILE may be /dev/stdin. Nothing is written before the file ends. A line ends with a
newline alone: a carriage return is part of the word before it.

Statuses:
  0  done, refused lines included
  1  the command line was not understood, or help or the version was asked for
  2  the file is at fault: `fault line L code C` on standard error
  3  no memory or no thread, a file was not read or written, or the output failed
  4  overflow: a number is no 64-bit number
  5  `explain` found no fault, but something to look at
  6  `diff` has no such view, or cannot read it at one of the two pairs

Refusals: `refused LINE CODE` on standard output. The line changes nothing, and the
run goes on.
   2  the row's width is not the input's
   3  the difference is 0
   4  the difference is above 2147483647 or below -2147483647
   5  the input's frontier has passed the time
   6  the frontier would go back
   7  the input has taken 1048576 changes
   8  the view's frontier has not passed the time
   9  the time was given up by `allow`

Faults: `fault line L code C` on standard error. Nothing is run.
  13  the plan has 256 nodes
  14  no such name, or a name of another sort
  15  the name is taken
  16  the source has no such column
  17  the sources have different widths
  18  a source is not arranged
  19  the sources are arranged by different keys
  20  a width that is not 1 to 8
  21  a key of no columns, or of more than the source has
  31  an unknown command, kind or comparison
  32  too few or too many words
  33  not a number or an item
  34  a line on the wrong side of `start`, a second `start`, or none
  35  a line of more than 4096 bytes
  36  a line that is not UTF-8
  37  not a name: 1 to 32 letters, digits and _, a letter first

`bitview explain FILE` tells faults in words. docs/SCRIPT.md describes the lines of a file.";

// What `run --help` says at its end.
const RUN_HELP: &str = "Example:
  bitview run examples/late_correction.bv --workers 4 --progress

The answers go to standard output, and a line for each refused command. With --progress
standard error gets `lines 12, reads 6, 0.4 s` now and then.";

// What `plain --help` says at its end.
const PLAIN_HELP: &str = "Example:
  bitview plain examples/late_correction.bv

It is slow where much is asked, and easy to believe: nothing is kept but the changes.";

// What `check --help` says at its end.
const CHECK_HELP: &str = "Example:
  bitview check examples/late_correction.bv

It writes `ok NODES COMMANDS`, or tells the first faulty line. `bitview explain` tells more.";

// What `explain --help` says at its end.
const EXPLAIN_HELP: &str = "Example:
  bitview explain examples/map.bv

Each faulty line is told with its code, the word at fault is marked, and a hint is given
where one is known. If no line is at fault, warnings tell what a run would refuse and what
an owner would regret. Status 0: nothing was found; 2: a fault; 5: warnings alone.";

// What `diff --help` says at its end.
const DIFF_HELP: &str = "Example:
  bitview diff examples/late_correction.bv postings 4 0 4 1

The file's lines are run, but its questions are not answered. Then each row that the view has
at one of the two pairs and not with the same weight at the other is written, in row order:
`- WEIGHT ROW` as it is at the first pair, `+ WEIGHT ROW` as it is at the second. The last
line counts both. Status 6: there is no such view, or it cannot be read at one of the pairs.";

// What `import --help` says at its end.
const IMPORT_HELP: &str = "Example:
  bitview import examples/bank.schema examples/bank.csv

Of FILE.csv two files are made beside it: FILE.bv, a command file, and FILE.names, the
dictionary that `bitview show` reads. docs/IMPORT.md describes the lines of a schema.";

// What `show --help` says at its end.
const SHOW_HELP: &str = "Example:
  bitview run examples/bank.bv | bitview show examples/bank.names

The text of a run is read, from standard input if no TEXT is named. Each answer becomes a
table with a line of titles; codes are written as names, days as dates, and decimals with
their point.";

/// The grammar of the arguments.
pub(crate) fn usage<'a>(alloc: Global) -> Result<Command<'a>, AllocError> {
    Command::new(alloc, "bitview")
        .about("Views of changing tables, right at every pair of valid time and system time")
        .version("0.1.0")
        .after_help(AFTER_HELP)
        .arg_required_else_help(true)
        .subcommand(run(alloc)?)?
        .subcommand(plain(alloc)?)?
        .subcommand(check(alloc)?)?
        .subcommand(explain(alloc)?)?
        .subcommand(diff(alloc)?)?
        .subcommand(import(alloc)?)?
        .subcommand(show(alloc)?)
}

// A word that must be given.
fn word<'a>(alloc: Global, id: &'a str, help: &'a str) -> Arg<'a> {
    Arg::new(alloc, id)
        .required(true)
        .action(ArgAction::Set)
        .help(help)
}

// The file name, an argument of most subcommands.
fn file<'a>(alloc: Global) -> Arg<'a> {
    word(alloc, "FILE", "The command file; /dev/stdin is one too")
}

// The number of workers.
fn workers<'a>(alloc: Global) -> Arg<'a> {
    Arg::new(alloc, "workers")
        .long("workers")
        .value_name("N")
        .default_value("1")
        .value_parser(clap::value_parser!(u64).range(1..17))
        .help("How many workers, 1 to 16")
}

// Whether progress is told.
fn progress<'a>(alloc: Global) -> Arg<'a> {
    Arg::new(alloc, "progress")
        .long("progress")
        .action(ArgAction::SetTrue)
        .help("Tell lines, reads and seconds on standard error, ten times a second at most")
}

// A time of `diff`.
fn time<'a>(alloc: Global, id: &'a str, name: &'a str, help: &'a str) -> Arg<'a> {
    word(alloc, id, help)
        .value_name(name)
        .value_parser(clap::value_parser!(u64))
}

// The arguments of `run`.
fn run<'a>(alloc: Global) -> Result<Command<'a>, AllocError> {
    Command::new(alloc, "run")
        .about("Runs a command file by workers, and writes what it asks for")
        .after_help(RUN_HELP)
        .arg(file(alloc))?
        .arg(workers(alloc))?
        .arg(progress(alloc))
}

// The arguments of `plain`.
fn plain<'a>(alloc: Global) -> Result<Command<'a>, AllocError> {
    Command::new(alloc, "plain")
        .about("Writes the same, worked out from scratch at each question")
        .after_help(PLAIN_HELP)
        .arg(file(alloc))?
        .arg(progress(alloc))
}

// The arguments of `check`.
fn check<'a>(alloc: Global) -> Result<Command<'a>, AllocError> {
    Command::new(alloc, "check")
        .about("Reads a command file, and writes how many nodes and commands it has")
        .after_help(CHECK_HELP)
        .arg(file(alloc))
}

// The arguments of `explain`.
fn explain<'a>(alloc: Global) -> Result<Command<'a>, AllocError> {
    Command::new(alloc, "explain")
        .about("Tells in words what is wrong with a command file")
        .after_help(EXPLAIN_HELP)
        .arg(file(alloc))
}

// The arguments of `diff`.
fn diff<'a>(alloc: Global) -> Result<Command<'a>, AllocError> {
    Command::new(alloc, "diff")
        .about("Runs a command file, and writes what differs between two reads of a view")
        .after_help(DIFF_HELP)
        .arg(file(alloc))?
        .arg(word(alloc, "VIEW", "The view"))?
        .arg(time(alloc, "V", "V", "The valid time of the first read"))?
        .arg(time(alloc, "S", "S", "Its system time"))?
        .arg(time(alloc, "V2", "V", "The valid time of the second read"))?
        .arg(time(alloc, "S2", "S", "Its system time"))?
        .arg(workers(alloc))
}

// The arguments of `import`.
fn import<'a>(alloc: Global) -> Result<Command<'a>, AllocError> {
    Command::new(alloc, "import")
        .about("Makes a command file and a dictionary of a CSV file")
        .after_help(IMPORT_HELP)
        .arg(word(alloc, "SCHEMA", "The file that says what the columns mean"))?
        .arg(word(
            alloc,
            "TABLE",
            "The CSV file; its first line has the titles",
        )
        .value_name("FILE.csv"))
}

// The arguments of `show`.
fn show<'a>(alloc: Global) -> Result<Command<'a>, AllocError> {
    let text = Arg::new(alloc, "TEXT")
        .action(ArgAction::Set)
        .default_value("/dev/stdin")
        .help("The text that a run has written");
    Command::new(alloc, "show")
        .about("Writes the text of a run as CSV, with names")
        .after_help(SHOW_HELP)
        .arg(word(alloc, "DICTIONARY", "The dictionary that `import` made"))?
        .arg(text)
}
