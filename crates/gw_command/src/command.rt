//! The command line.

ghost use Rattle.std.specs.Prelude.{◌≡◌, ◌∷◌, [], List, ℕ, Some, None, codes, map};
ghost use Rattle.std.specs.Prelude.{true, false, option_map, IfOk, IfErr, IfSome};
ghost use Rattle.std.specs.Fmt.{decimal};
ghost use Rattle.clap.specs.Words.{app_of, kind_of, first_of, found_of, one_of, rows_of, rule_of};
ghost use Rattle.clap.specs.Words.{subcommand_name_of, subcommand_rows_of, HasMatchesOf, Row, Text, takes};
ghost use Rattle.clap.specs.declared.builder.command.Command.TheViews.{out-Command};
ghost use Rattle.gw_command.specs.Words.{bxgate_app, core_app, turns_app, threads_app, slack_app};
ghost use Rattle.gw_command.specs.Words.{run_app, file_rule, number_rule, file_named, name_of, IsTurn};
ghost use Rattle.gw_command.specs.Words.{IsThreads, IsSlack, HasRanges, IsRunTask, IsFileName, IsTakenAs, asked_of};

use crate::order::Order;
use crate::task::Task;
use clap::error::ErrorKind;
use clap::{Arg, ArgMatches, Command, Error, value_parser};
use std::alloc::{AllocError, Global};
use std::convert::AsStr;

/// The version that `--version` tells.
const VERSION: &str = "0.5.0";

/// The most bits that may lie between two turns of a route.
const MOST_BITS: u32 = 1_000_000;

/// The most threads that may be asked for.
const MOST_THREADS: u32 = 16;

/// The most bits that a segment may be ahead of another.
const MOST_SLACK: u32 = 1_000_000;

/// The file that a command reads in place of standard input.
fn file_argument<'a>(alloc: Global) -> Arg<'a>
    ensures rule { rule_of result ≡ file_rule }
    ensures local { result.global ≡ false }
{
    Arg::new(alloc, "file").value_name("FILE").help(
        "The file to read; standard input where it is - or isn't given",
    )
}

/// An option of this name that takes a number from 1 to the most.
fn number_option<'a>(alloc: Global, name: &'static str, help: &'static str, most: u32) -> Arg<'a>
    ensures rule { rule_of result ≡ number_rule name.now most }
    ensures local { result.global ≡ false }
{
    Arg::new(alloc, name)
        .long(name)
        .value_name("N")
        .help(help)
        .value_parser(value_parser!(u32).range(1..=i64::from(most)))
}

/// The subcommand that reports on a list of events.
fn core_command<'a>(alloc: Global) -> Result<Command<'a>, AllocError>
    ensures app { IfOk result (λ command. app_of command ≡ core_app) }
    ensures local { IfOk result (λ command. (out-Command command).has_globals ≡ false) }
{
    let core = Command::new(alloc, "core").about(
        "Reads a list of mailbox events (JSON) from FILE, and reports what becomes of them",
    );
    core.arg(file_argument(alloc))
}

/// The subcommand that runs a script, with the option that says when turns are made.
fn turns_command<'a>(alloc: Global) -> Result<Command<'a>, AllocError>
    ensures app { IfOk result (λ command. app_of command ≡ turns_app) }
    ensures local { IfOk result (λ command. (out-Command command).has_globals ≡ false) }
{
    let help = "Makes a turn of each route after every N bits, 1 to 1000000";
    let turn = number_option(alloc, "turn", help, MOST_BITS).default_value("1");
    Command::new(alloc, "run")
        .about(
            "Reads a script of segments, controllers and routes (JSON) from FILE, runs it, and reports on the run",
        )
        .arg(turn)
}

/// The subcommand that runs a script, with the options that say how.
fn threads_command<'a>(alloc: Global) -> Result<Command<'a>, AllocError>
    ensures app { IfOk result (λ command. app_of command ≡ threads_app) }
    ensures local { IfOk result (λ command. (out-Command command).has_globals ≡ false) }
{
    let help = "Runs each segment in a thread of its own, and the routes by N more, 1 to 16";
    let threads = number_option(alloc, "threads", help, MOST_THREADS);
    let command = turns_command(alloc)?;
    command.arg(threads)
}

/// The same, with the option for how far segments may be apart.
fn slack_command<'a>(alloc: Global) -> Result<Command<'a>, AllocError>
    ensures app { IfOk result (λ command. app_of command ≡ slack_app) }
    ensures local { IfOk result (λ command. (out-Command command).has_globals ≡ false) }
{
    let help = "In threads, lets no segment be more than N bits ahead of another, 1 to 1000000";
    let slack = number_option(alloc, "slack", help, MOST_SLACK).default_value("64");
    let command = threads_command(alloc)?;
    command.arg(slack)
}

/// The subcommand that runs a script.
fn run_command<'a>(alloc: Global) -> Result<Command<'a>, AllocError>
    ensures app { IfOk result (λ command. app_of command ≡ run_app) }
    ensures local { IfOk result (λ command. (out-Command command).has_globals ≡ false) }
{
    let command = slack_command(alloc)?;
    command.arg(file_argument(alloc))
}

/// The matches of the words, the program's name first.
fn matches_of<'a, S: AsStr>(alloc: Global, words: &'a [S]) -> Result<ArgMatches<'a>, Error>
    ensures matches { IfOk result (HasMatchesOf bxgate_app (map S.text words.entry.now)) }
    ensures fails { IfErr result (λ e. takes bxgate_app (map S.text words.entry.now) ≡ true → kind_of e
        ≡ ErrorKind.OutOfMemory) }
{
    let core = core_command(alloc)?;
    let run = run_command(alloc)?;
    let command = Command::new(alloc, "bxgate")
        .version(VERSION)
        .subcommand(core)?
        .subcommand(run)?;
    command.try_get_matches_from(words)
}

/// A run in one thread with so many bits between two turns of a route, if that many may lie there.
// clap refuses other numbers before, here and below, but its contract says so of a command's own options alone
fn inline_of(turn: Option<u32>) -> Option<Task>
    ensures asked { (n : ℕ) → turn ≡ Some n → IsTurn n → result ≡ Some (Task.Run n) }
    ensures run { IfSome result IsRunTask }
{
    match turn {
        Some(turn) if 0 < turn && turn <= MOST_BITS => Some(Task::Run { turn }),
        _ => None,
    }
}

/// A run in threads with so many threads for the routes and so much slack, if these may be.
fn threaded_of(threads: u32, slack: Option<u32>) -> Option<Task>
    ensures asked { (n : ℕ) → slack ≡ Some n → IsSlack n → IsThreads threads → result
        ≡ Some (Task.RunThreads threads n) }
    ensures run { IfSome result IsRunTask }
{
    if threads == 0 || threads > MOST_THREADS {
        return None;
    }
    match slack {
        Some(slack) if 0 < slack && slack <= MOST_SLACK => Some(Task::RunThreads {
            threads,
            slack,
        }),
        _ => None,
    }
}

/// A run in threads where their number is given; else in one thread.
fn run_of(turn: Option<u32>, threads: Option<u32>, slack: Option<u32>) -> Option<Task>
    ensures asked { (n : ℕ) → turn ≡ Some n → IsTurn n → threads ≡ None → result ≡ Some (Task.Run n) }
    ensures threads { (n m : ℕ) → threads ≡ Some n → IsThreads n → slack ≡ Some m → IsSlack m → result
        ≡ Some (Task.RunThreads n m) }
    ensures run { IfSome result IsRunTask }
{
    match threads {
        None => inline_of(turn),
        Some(threads) => threaded_of(threads, slack),
    }
}

/// What the options of `run` ask for.
fn options_of(options: &ArgMatches<'_>) -> Option<Task>
    ensures asked { (n : ℕ) → IsTurn n → one_of (codes "turn") (rows_of (found_of options.now)) ≡ Some (decimal n)
        → one_of (codes "threads") (rows_of (found_of options.now)) ≡ None → result ≡ Some (Task.Run n) }
    ensures threads { (n m : ℕ) → IsThreads n → one_of (codes "threads") (rows_of (found_of options.now))
        ≡ Some (decimal n)
        → IsSlack m → one_of (codes "slack") (rows_of (found_of options.now)) ≡ Some (decimal m) → result
        ≡ Some (Task.RunThreads n m) }
    ensures run { IfSome result IsRunTask }
{
    let turn = options.get_one::<u32>("turn");
    let threads = options.get_one::<u32>("threads");
    let slack = options.get_one::<u32>("slack");
    run_of(turn, threads, slack)
}

/// What the matches ask for.
fn asked_by(matches: &ArgMatches<'_>) -> Option<Task>
    ensures core { subcommand_name_of matches.now ≡ Some (codes "core") → result ≡ Some Task.Core }
    ensures run { (rows : List Row) (n : ℕ) → subcommand_rows_of matches.now ≡ Some (codes "run", rows) → IsTurn n
        → one_of (codes "turn") rows ≡ Some (decimal n) → one_of (codes "threads") rows ≡ None → result
        ≡ Some (Task.Run n) }
    ensures threads { (rows : List Row) (n m : ℕ) → subcommand_rows_of matches.now ≡ Some (codes "run", rows)
        → IsThreads n
        → one_of (codes "threads") rows ≡ Some (decimal n) → IsSlack m → one_of (codes "slack") rows
        ≡ Some (decimal m) → result ≡ Some (Task.RunThreads n m) }
    ensures turn { IfSome result HasRanges }
    ensures nothing { subcommand_name_of matches.now ≡ None → result ≡ None }
    ensures name { IfSome result (λ task. subcommand_name_of matches.now ≡ Some (name_of task)) }
{
    match matches.subcommand_name() {
        Some("core") => Some(Task::Core),
        Some("run") => match matches.subcommand_matches("run") {
            Some(options) => options_of(options),
            None => None,
        },
        _ => None,
    }
}

/// The file that the matches name; `-` stands for standard input, as no file does.
fn file_of<'a>(matches: &ArgMatches<'a>) -> Option<&'a str>
    ensures { (name : Text) (rows : List Row) → subcommand_rows_of matches.now ≡ Some (name, rows)
        → option_map (λ file. file.now) result ≡ file_named (first_of (codes "file") rows) }
{
    let (_, options) = matches.subcommand()?;
    let name = options.get_str("file")?;
    if name == "-" { None } else { Some(name) }
}

/// What the matches ask for, and of which input.
fn order_of<'a>(matches: &ArgMatches<'a>) -> Option<Order<'a>>
    ensures core { (rows : List Row) → subcommand_rows_of matches.now ≡ Some (codes "core", rows)
        → option_map asked_of result ≡ Some (Task.Core, file_named (first_of (codes "file") rows)) }
    ensures run { (rows : List Row) (n : ℕ) → subcommand_rows_of matches.now ≡ Some (codes "run", rows) → IsTurn n
        → one_of (codes "turn") rows ≡ Some (decimal n) → one_of (codes "threads") rows ≡ None
        → option_map asked_of result ≡ Some (Task.Run n, file_named (first_of (codes "file") rows)) }
    ensures threads { (rows : List Row) (n m : ℕ) → subcommand_rows_of matches.now ≡ Some (codes "run", rows)
        → IsThreads n
        → one_of (codes "threads") rows ≡ Some (decimal n) → IsSlack m → one_of (codes "slack") rows ≡ Some (decimal m)
        → option_map asked_of result ≡ Some (Task.RunThreads n m, file_named (first_of (codes "file") rows)) }
    ensures turn { IfSome result (λ order. HasRanges order.task) }
    ensures nothing { subcommand_name_of matches.now ≡ None → result ≡ None }
{
    let task = asked_by(matches)?;
    let file = file_of(matches);
    Some(Order { task, file })
}

/// What the words ask for, the program's name first: `None` where they name no command. The words `core`, `run`, `run
/// --turn N`, with N from 1 to 1,000,000, and `run --threads N`, with N from 1 to 16 and a slack of 64 bits, are taken,
/// unless memory runs out, and so are `core FILE` and `run FILE`, with a FILE that doesn't begin with a hyphen or is
/// `-`.
pub fn task_of<'a, S: AsStr>(alloc: Global, words: &'a [S]) -> Result<Option<Order<'a>>, Error>
    ensures core { (name : List ℕ) → map S.text words.entry.now ≡ name ∷ codes "core" ∷ []
        → IsTakenAs (Some (Task.Core, None)) result }
    ensures run { (name : List ℕ) → map S.text words.entry.now ≡ name ∷ codes "run" ∷ []
        → IsTakenAs (Some (Task.Run 1, None)) result }
    ensures turns { (name : List ℕ) (n : ℕ) → IsTurn n
        → map S.text words.entry.now ≡ name ∷ codes "run" ∷ codes "--turn" ∷ decimal n ∷ []
        → IsTakenAs (Some (Task.Run n, None)) result }
    ensures threads { (name : List ℕ) (n : ℕ) → IsThreads n
        → map S.text words.entry.now ≡ name ∷ codes "run" ∷ codes "--threads" ∷ decimal n ∷ []
        → IsTakenAs (Some (Task.RunThreads n 64, None)) result }
    ensures nothing { (name : List ℕ) → map S.text words.entry.now ≡ name ∷ [] → IsTakenAs None result }
    ensures turn { IfOk result (λ order. IfSome order (λ o. HasRanges o.task)) }
    ensures core_hyphen { (name : List ℕ) → map S.text words.entry.now ≡ name ∷ codes "core" ∷ codes "-" ∷ []
        → IsTakenAs (Some (Task.Core, None)) result }
    ensures run_hyphen { (name : List ℕ) → map S.text words.entry.now ≡ name ∷ codes "run" ∷ codes "-" ∷ []
        → IsTakenAs (Some (Task.Run 1, None)) result }
    ensures core_file { (name file : List ℕ) → IsFileName file → map S.text words.entry.now ≡ name ∷ codes "core"
        ∷ file ∷ []
        → IsTakenAs (Some (Task.Core, Some file)) result }
    ensures run_file { (name file : List ℕ) → IsFileName file → map S.text words.entry.now ≡ name ∷ codes "run" ∷ file
        ∷ []
        → IsTakenAs (Some (Task.Run 1, Some file)) result }
{
    match matches_of(alloc, words) {
        Ok(matches) => Ok(order_of(&matches)),
        Err(error) => Err(error),
    }
}
