//! The command line of the program.
#![tactic(auto)]

ghost use Rattle.std.specs.Prelude.{◌≡◌, ◌≤◌, List, [], ◌∷◌, ◌++◌, codes, map, option_map, Ok, IfOk, IfErr, IfSome};
ghost use Rattle.clap.specs.Words.{Rule, Shape, Text, kind_of, found_of, first_of, one_of, rows_of, subcommand_rows_of};
ghost use Rattle.command_line.specs.CommandLine.{AreForms, IsArgument, IsForm, all_forms, form_of, needed, option, number, wide_number, limits, some_schedule, format, flag, configured, working, explained, searched, run_arguments, check_arguments, dump_arguments, replay_arguments, serve_arguments, explain_arguments, version_arguments, widen_arguments, plain_arguments, explore_arguments, GivesWorkers, GivesLimits, GivesBudget, GivesConfiguration, GivesFormat, GivesNumbers, GivesOrders, GivesSeed, GivesWiden, IsCount, IsSecond, says_yes, SaysWrong, SaysWrongRun, AsksBy, Reads, Holds, AsksFor, IsRefused};

use crate::options::Options;
use crate::wish::{ExplainWish, ExploreWish};
use clap::builder::ValueParser;
use clap::error::ErrorKind;
use clap::{Arg, ArgAction, ArgMatches, Command, Error};
use limits::{Configuration, Limits};
use std::alloc::{AllocError, Global};

/// What a command line asks for.
#[derive(Clone, Copy, Debug, PartialEq, Eq)]
pub enum Invocation<'a> {
    /// Runs the script of a file, with the line of its command in front of each reply or without, and with numbers or
    /// bytes in the replies to reads that name a type. A quiet run tells nothing of a launch that takes long
    Run {
        file: &'a str,
        options: Options,
        lines: bool,
        numbers: bool,
        quiet: bool,
    },
    /// Checks the source of a file within limits
    Check {
        file: &'a str,
        limits: Limits,
    },
    /// Writes the code of a kernel of the source of a file, which is built within limits
    Dump {
        file: &'a str,
        kernel: &'a str,
        limits: Limits,
    },
    /// Replays a schedule file on the script of a file
    Replay {
        script: &'a str,
        schedule: &'a str,
        configuration: Configuration,
    },
    /// Answers the commands of standard input one by one
    Serve {
        options: Options,
    },
    /// Explains the fault of a schedule file, or without one the first fault of a script
    Explain {
        script: &'a str,
        schedule: Option<&'a str>,
        wish: ExplainWish,
    },
    /// Tells the version, as JSON or as text
    Version {
        json: bool,
    },
    /// Runs the script of a file, and tells as JSON or as text for which bytes and numbers its replies hold
    Widen {
        script: &'a str,
        json: bool,
        limits: Limits,
    },
    /// Writes the script of a file as a plain one
    Plain {
        script: &'a str,
    },
    /// Tries the launches of the script of a file in other orders
    Explore {
        script: &'a str,
        wish: ExploreWish,
    },
}

/// The greatest budget of a device, by whatever limits.
const MAX_BUDGET: u32 = 1_000_000_000;

/// The most workers of a run.
const MAX_WORKERS: u32 = 16;

/// The most steps that an explanation may be asked for.
const MAX_STEPS: u32 = 1_000_000;

/// The greatest number of a launch that may be named.
const MAX_LAUNCH: u32 = 1_000_000;

/// The most orders that may be tried.
const MAX_ORDERS: u32 = 1_000_000;

/// How many orders are tried where no number is given.
const DEFAULT_ORDERS: usize = 1000;

/// The most seconds for which orders may be tried: those of a day.
const MAX_SECONDS: u32 = 86_400;

/// An argument that must be given, and what help says of it.
#[tactic(auto, unfolding(crate::specs::CommandLine::needed))]
fn needed<'a>(alloc: Global, name: &'a str, help: &'a str) -> Arg<'a>
    ensures { IsArgument (needed name.entry.now) result }
{
    Arg::new(alloc, name).required(true).help(help)
}

/// An option with a value, by its name, the value's name, and what help says of it.
#[tactic(auto, unfolding(crate::specs::CommandLine::option))]
fn option<'a>(alloc: Global, name: &'a str, value: &'a str, help: &'a str) -> Arg<'a>
    ensures { IsArgument (option name.entry.now) result }
{
    Arg::new(alloc, name)
        .long(name)
        .value_name(value)
        .help(help)
}

/// An option whose value is a number from 1 to `most`, and what help says of it.
#[tactic(auto, unfolding(crate::specs::CommandLine::option, crate::specs::CommandLine::number))]
fn number<'a>(alloc: Global, name: &'a str, most: u32, help: &'a str) -> Arg<'a>
    ensures { IsArgument (number name.entry.now most) result }
{
    option(alloc, name, "N", help).value_parser(ValueParser::unsigned(1, most as u64))
}

/// An option whose value is a number of 64 bits, and what help says of it.
#[tactic(auto, unfolding(crate::specs::CommandLine::option, crate::specs::CommandLine::wide_number))]
fn wide_number<'a>(alloc: Global, name: &'a str, help: &'a str) -> Arg<'a>
    ensures { IsArgument (wide_number name.entry.now) result }
{
    option(alloc, name, "N", help).value_parser(ValueParser::unsigned(0, u64::MAX))
}

/// The argument `SCHEDULE`, where it may be left out.
#[tactic(auto, unfolding(crate::specs::CommandLine::some_schedule))]
fn some_schedule<'a>(alloc: Global) -> Arg<'a>
    ensures { IsArgument some_schedule result }
{
    Arg::new(alloc, "SCHEDULE").help(
        "The schedule file; without one the first fault of the script is explained",
    )
}

/// An option without a value, by its name, and what help says of it.
#[tactic(auto, unfolding(crate::specs::CommandLine::flag))]
fn flag<'a>(alloc: Global, name: &'a str, help: &'a str) -> Arg<'a>
    ensures { IsArgument (flag name.entry.now) result }
{
    Arg::new(alloc, name)
        .long(name)
        .action(ArgAction::SetTrue)
        .help(help)
}

/// A form without arguments, and what help says of it.
#[tactic(auto, unfolding(crate::specs::CommandLine::form_of))]
fn named<'a>(alloc: Global, name: &'a str, about: &'a str) -> Command<'a>
    ensures { IsForm name.entry.now [] result }
{
    Command::new(alloc, name).about(about)
}

/// A form with one more argument, where it was made. In what makes a form each `?` would add a path.
fn with<'a>(form: Result<Command<'a>, AllocError>, arg: Arg<'a>) -> Result<Command<'a>, AllocError>
    ensures { (name : Text) (arguments : List Rule) (rule : Rule) → IfOk form.entry (IsForm name arguments) → IsArgument rule arg.entry → IfOk result (IsForm name (arguments ++ rule ∷ [])) }
{
    let form = form?;
    form.arg(arg)
}

/// A form with its first argument, which must be given, and what help says of each of them.
fn form_on<'a>(
    alloc: Global,
    name: &'a str,
    about: &'a str,
    argument: &'a str,
    help: &'a str,
) -> Result<Command<'a>, AllocError>
    ensures { IfOk result (IsForm name.entry.now (needed argument.entry.now ∷ [])) }
{
    let form = named(alloc, name, about);
    with(Ok(form), needed(alloc, argument, help))
}

/// A form with `--limits LIMITS`.
fn limited<'a>(
    alloc: Global,
    form: Result<Command<'a>, AllocError>,
) -> Result<Command<'a>, AllocError>
    ensures { (name : Text) (arguments : List Rule) → IfOk form.entry (IsForm name arguments) → IfOk result (IsForm name (arguments ++ limits ∷ [])) }
{
    let limits = option(
        alloc,
        "limits",
        "LIMITS",
        "What the device allows: profile (the default) or large",
    );
    with(form, limits)
}

/// A form with what a device is made with: `--budget N` and `--limits LIMITS`.
fn configured<'a>(
    alloc: Global,
    form: Result<Command<'a>, AllocError>,
) -> Result<Command<'a>, AllocError>
    ensures { (name : Text) (arguments : List Rule) → IfOk form.entry (IsForm name arguments) → IfOk result (IsForm name (arguments ++ configured)) }
{
    let budget = number(
        alloc,
        "budget",
        MAX_BUDGET,
        "The most ticks of a work-item: accesses, barriers and turns of loops",
    );
    limited(alloc, with(form, budget))
}

/// A form with the options of a run: `--workers N`, `--budget N` and `--limits LIMITS`.
fn working<'a>(
    alloc: Global,
    form: Result<Command<'a>, AllocError>,
) -> Result<Command<'a>, AllocError>
    ensures { (name : Text) (arguments : List Rule) → IfOk form.entry (IsForm name arguments) → IfOk result (IsForm name (arguments ++ working)) }
{
    let workers = number(
        alloc,
        "workers",
        MAX_WORKERS,
        "How many workers run the groups of a launch",
    );
    configured(alloc, with(form, workers))
}

/// The form `run FILE [--workers N] [--budget N] [--limits LIMITS] [--lines] [--format bytes|numbers] [--quiet]`.
fn run_form<'a>(alloc: Global) -> Result<Command<'a>, AllocError>
    ensures { IfOk result (IsForm (codes "run") run_arguments) }
{
    let form = form_on(
        alloc,
        "run",
        "Runs a script and prints its replies",
        "FILE",
        "The script",
    );
    let lines = flag(
        alloc,
        "lines",
        "Prints the line of its command in front of each reply",
    );
    let shown = formatted(
        alloc,
        with(working(alloc, form), lines),
        "How the replies to reads with a type are written: bytes or numbers",
    );
    let quiet = flag(alloc, "quiet", "Tells nothing of a launch that takes long");
    with(shown, quiet)
}

/// The form `check FILE [--limits LIMITS]`.
fn check_form<'a>(alloc: Global) -> Result<Command<'a>, AllocError>
    ensures { IfOk result (IsForm (codes "check") check_arguments) }
{
    let form = form_on(
        alloc,
        "check",
        "Checks a source and prints ok or its first fault",
        "FILE",
        "The source, in OpenCL C",
    );
    limited(alloc, form)
}

/// The form `dump FILE KERNEL [--limits LIMITS]`.
fn dump_form<'a>(alloc: Global) -> Result<Command<'a>, AllocError>
    ensures { IfOk result (IsForm (codes "dump") dump_arguments) }
{
    let form = form_on(
        alloc,
        "dump",
        "Prints the register code of a kernel",
        "FILE",
        "The source, in OpenCL C",
    );
    limited(
        alloc,
        with(form, needed(alloc, "KERNEL", "The kernel's name")),
    )
}

/// The form `replay SCRIPT SCHEDULE [--limits LIMITS]`.
fn replay_form<'a>(alloc: Global) -> Result<Command<'a>, AllocError>
    ensures { IfOk result (IsForm (codes "replay") replay_arguments) }
{
    let form = form_on(
        alloc,
        "replay",
        "Replays a schedule and prints whether it leads to its fault",
        "SCRIPT",
        "The script",
    );
    let schedule = needed(
        alloc,
        "SCHEDULE",
        "The schedule file: a line `ticket T`, and a fault's line",
    );
    limited(alloc, with(form, schedule))
}

/// The form `serve [--workers N] [--budget N] [--limits LIMITS]`.
fn serve_form<'a>(alloc: Global) -> Result<Command<'a>, AllocError>
    ensures { IfOk result (IsForm (codes "serve") serve_arguments) }
{
    let form = named(
        alloc,
        "serve",
        "Reads commands from standard input and answers each at once",
    );
    working(alloc, Ok(form))
}

/// A form with `--format FORMAT`, and what help says of it.
fn formatted<'a>(
    alloc: Global,
    form: Result<Command<'a>, AllocError>,
    help: &'a str,
) -> Result<Command<'a>, AllocError>
    ensures { (name : Text) (arguments : List Rule) → IfOk form.entry (IsForm name arguments) → IfOk result (IsForm name (arguments ++ format ∷ [])) }
{
    with(form, option(alloc, "format", "FORMAT", help))
}

/// The form `explain SCRIPT [SCHEDULE] [--format text|json]`, without its other options.
fn explained<'a>(alloc: Global) -> Result<Command<'a>, AllocError>
    ensures { IfOk result (IsForm (codes "explain") explained) }
{
    let form = form_on(
        alloc,
        "explain",
        "Explains a fault: where in the source, in whose ids, and how it comes about",
        "SCRIPT",
        "The script",
    );
    formatted(
        alloc,
        with(form, some_schedule(alloc)),
        "How the explanation is written: text or json",
    )
}

/// The form `explain SCRIPT [SCHEDULE] [--format text|json] [--budget N] [--limits LIMITS] [--as-given] [--all]
/// [--steps N] [--widen]`.
fn explain_form<'a>(alloc: Global) -> Result<Command<'a>, AllocError>
    ensures { IfOk result (IsForm (codes "explain") explain_arguments) }
{
    let as_given = flag(
        alloc,
        "as-given",
        "Explains the schedule as it is given, and looks for no shorter one",
    );
    let all = flag(
        alloc,
        "all",
        "Explains each fault and each refused command of the script",
    );
    let steps = number(
        alloc,
        "steps",
        MAX_STEPS,
        "The most steps of a way to a fault that are told, the last ones: 1000 without it",
    );
    let same = "Tells of each explained fault whether it is the same for all bytes";
    let widen = flag(alloc, "widen", same);
    let flagged = with(with(configured(alloc, explained(alloc)), as_given), all);
    with(with(flagged, steps), widen)
}

/// The form `version [--format text|json]`.
fn version_form<'a>(alloc: Global) -> Result<Command<'a>, AllocError>
    ensures { IfOk result (IsForm (codes "version") version_arguments) }
{
    let form = named(
        alloc,
        "version",
        "Prints the version and what was proved of it",
    );
    formatted(alloc, Ok(form), "How the version is written: text or json")
}

/// The form `widen SCRIPT [--format text|json] [--limits LIMITS]`.
fn widen_form<'a>(alloc: Global) -> Result<Command<'a>, AllocError>
    ensures { IfOk result (IsForm (codes "widen") widen_arguments) }
{
    let form = form_on(
        alloc,
        "widen",
        "Runs a script and tells for which bytes and numbers its replies hold",
        "SCRIPT",
        "The script",
    );
    limited(
        alloc,
        formatted(alloc, form, "How the replies are written: text or json"),
    )
}

/// The form `plain SCRIPT`.
fn plain_form<'a>(alloc: Global) -> Result<Command<'a>, AllocError>
    ensures { IfOk result (IsForm (codes "plain") plain_arguments) }
{
    form_on(
        alloc,
        "plain",
        "Prints a script of version 3 as a plain one, with its files in it",
        "SCRIPT",
        "The script",
    )
}

/// The form `explore SCRIPT [--launch N] [--orders N] [--seconds N] [--seed N]`, without its other options.
fn searched<'a>(alloc: Global) -> Result<Command<'a>, AllocError>
    ensures { IfOk result (IsForm (codes "explore") searched) }
{
    let form = form_on(
        alloc,
        "explore",
        "Tries other orders of a launch with orders, and tells the first fault that one shows",
        "SCRIPT",
        "The script",
    );
    let launch = number(
        alloc,
        "launch",
        MAX_LAUNCH,
        "The launch, by its number from 1 on: each launch with orders without it",
    );
    let orders = number(
        alloc,
        "orders",
        MAX_ORDERS,
        "How many orders of a launch are tried at most: 1000 without it",
    );
    let seconds = number(
        alloc,
        "seconds",
        MAX_SECONDS,
        "For how many seconds orders are tried at most",
    );
    let seed = wide_number(
        alloc,
        "seed",
        "With which number the draws begin: 1 without it",
    );
    with(with(with(with(form, launch), orders), seconds), seed)
}

/// The form `explore SCRIPT [--launch N] [--orders N] [--seconds N] [--seed N] [--budget N] [--limits LIMITS]`.
fn explore_form<'a>(alloc: Global) -> Result<Command<'a>, AllocError>
    ensures { IfOk result (IsForm (codes "explore") explore_arguments) }
{
    configured(alloc, searched(alloc))
}

/// The limits of a device, the profile's where the option isn't there, and `None` where it names none.
fn limits_of(matches: &ArgMatches<'_>) -> Option<Limits>
    ensures { Reads (GivesLimits (rows_of (found_of matches.now))) result }
{
    let Some(limits) = matches.get_str("limits") else {
        return Some(Limits::profile());
    };
    if limits == "profile" {
        return Some(Limits::profile());
    }
    if limits == "large" {
        return Some(Limits::large());
    }
    None
}

/// The budget of a device of these limits, theirs where the option isn't there, and `None` where it is no budget.
fn budget_of(matches: &ArgMatches<'_>, limits: Limits) -> Option<u32>
    ensures given { Reads (GivesBudget (rows_of (found_of matches.now)) limits) result }
    ensures limited { IfSome result (λ number. number ≤ limits.ticks) }
{
    match matches.try_get_one::<u32>("budget") {
        Ok(None) => Some(limits.default_ticks),
        Ok(Some(budget)) if budget >= 1 && budget <= limits.ticks => Some(budget),
        Ok(Some(_)) => None,
        Err(_) => None,
    }
}

/// What a device is made with, and `None` where the limits or the budget are none.
fn configuration_of(matches: &ArgMatches<'_>) -> Option<Configuration>
    ensures { Reads (GivesConfiguration (rows_of (found_of matches.now))) result }
{
    let limits = limits_of(matches)?;
    let budget = budget_of(matches, limits)?;
    Some(Configuration { limits, budget })
}

/// The number of workers of a run, the default where the option isn't there, and `None` where it is none.
fn workers_of(run: &ArgMatches<'_>) -> Option<u32>
    ensures given { Reads (GivesWorkers (rows_of (found_of run.now))) result }
    ensures limited { IfSome result (λ number. (1 ≤ number) × (number ≤ 16)) }
{
    match run.try_get_one::<u32>("workers") {
        Ok(None) => Some(Options::DEFAULT_WORKERS),
        Ok(Some(workers)) if workers >= 1 && workers <= MAX_WORKERS => Some(workers),
        Ok(Some(_)) => None,
        Err(_) => None,
    }
}

/// What the matches of `run` ask for.
fn run_of<'a>(run: &ArgMatches<'a>) -> Option<Invocation<'a>>
    ensures { Reads (AsksBy (codes "run") (rows_of (found_of run.now))) result }
{
    let file = run.get_str("FILE")?;
    let workers = workers_of(run)?;
    let configuration = configuration_of(run)?;
    let lines = run.get_flag("lines");
    let numbers = numbers_of(run)?;
    let quiet = run.get_flag("quiet");
    Some(Invocation::Run {
        file,
        options: Options {
            configuration,
            workers,
        },
        lines,
        numbers,
        quiet,
    })
}

/// What the matches of `check` ask for.
fn check_of<'a>(check: &ArgMatches<'a>) -> Option<Invocation<'a>>
    ensures { Reads (AsksBy (codes "check") (rows_of (found_of check.now))) result }
{
    let file = check.get_str("FILE")?;
    let limits = limits_of(check)?;
    Some(Invocation::Check { file, limits })
}

/// What the matches of `dump` ask for.
fn dump_of<'a>(dump: &ArgMatches<'a>) -> Option<Invocation<'a>>
    ensures { Reads (AsksBy (codes "dump") (rows_of (found_of dump.now))) result }
{
    let file = dump.get_str("FILE")?;
    let kernel = dump.get_str("KERNEL")?;
    let limits = limits_of(dump)?;
    Some(Invocation::Dump {
        file,
        kernel,
        limits,
    })
}

/// What the matches of `replay` ask for.
fn replay_of<'a>(replay: &ArgMatches<'a>) -> Option<Invocation<'a>>
    ensures { Reads (AsksBy (codes "replay") (rows_of (found_of replay.now))) result }
{
    let script = replay.get_str("SCRIPT")?;
    let schedule = replay.get_str("SCHEDULE")?;
    let limits = limits_of(replay)?;
    Some(Invocation::Replay {
        script,
        schedule,
        configuration: Configuration::of(limits),
    })
}

/// What the matches of `serve` ask for.
fn serve_of<'a>(serve: &ArgMatches<'a>) -> Option<Invocation<'a>>
    ensures { Reads (AsksBy (codes "serve") (rows_of (found_of serve.now))) result }
{
    let workers = workers_of(serve)?;
    let configuration = configuration_of(serve)?;
    Some(Invocation::Serve {
        options: Options {
            configuration,
            workers,
        },
    })
}

/// Whether the format is the second of two words, and not the first, and `None` where it is neither.
fn is_second(matches: &ArgMatches<'_>, first: &str, second: &str) -> Option<bool>
    ensures { Reads (IsSecond first.now second.now (first_of (codes "format") (rows_of (found_of matches.now)))) result }
{
    let Some(format) = matches.get_str("format") else {
        return Some(false);
    };
    if format == first {
        return Some(false);
    }
    if format == second {
        return Some(true);
    }
    None
}

/// Whether the format is JSON, and `None` where it is neither this nor text.
fn format_of(matches: &ArgMatches<'_>) -> Option<bool>
    ensures { Reads (GivesFormat (rows_of (found_of matches.now))) result }
{
    is_second(matches, "text", "json")
}

/// Whether replies are shown as numbers, and `None` where the format is neither these nor bytes.
fn numbers_of(run: &ArgMatches<'_>) -> Option<bool>
    ensures { Reads (GivesNumbers (rows_of (found_of run.now))) result }
{
    is_second(run, "bytes", "numbers")
}

/// The number of an option, where it is there, and `None` where it is none from 1 to `most`.
fn count_of(matches: &ArgMatches<'_>, name: &str, most: u32) -> Option<Option<usize>>
    ensures { Reads (IsCount most (one_of name.now (rows_of (found_of matches.now)))) result }
{
    match matches.try_get_one::<u32>(name) {
        Ok(None) => Some(None),
        Ok(Some(count)) if count >= 1 && count <= most => Some(Some(count as usize)),
        Ok(Some(_)) => None,
        Err(_) => None,
    }
}

/// Whether the text of a flag says that it is there.
fn says_yes(text: Option<&str>) -> bool
    ensures { result ≡ says_yes (option_map (λ s. s.now) text.entry) }
{
    match text {
        Some(text) => text == "true",
        None => false,
    }
}

/// Whether `--widen` is there, and `None` where it is there with JSON or with a schedule file.
fn widening_of(explain: &ArgMatches<'_>) -> Option<bool>
    ensures { Reads (GivesWiden (rows_of (found_of explain.now))) result }
{
    let widen = says_yes(explain.get_str("widen"));
    if !widen {
        return Some(false);
    }
    if explain.get_str("SCHEDULE").is_some() {
        return None;
    }
    let json = format_of(explain)?;
    if json {
        return None;
    }
    Some(true)
}

/// What the matches of `explain` ask for.
fn explain_of<'a>(explain: &ArgMatches<'a>) -> Option<Invocation<'a>>
    ensures { Reads (AsksBy (codes "explain") (rows_of (found_of explain.now))) result }
{
    let script = explain.get_str("SCRIPT")?;
    let schedule = explain.get_str("SCHEDULE");
    let configuration = configuration_of(explain)?;
    let json = format_of(explain)?;
    let as_given = explain.get_flag("as-given");
    let all = explain.get_flag("all");
    let steps = count_of(explain, "steps", MAX_STEPS)?;
    let widen = widening_of(explain)?;
    Some(Invocation::Explain {
        script,
        schedule,
        wish: ExplainWish {
            configuration,
            json,
            as_given,
            all,
            steps,
            widen,
        },
    })
}

/// What the matches of `version` ask for.
fn version_of<'a>(version: &ArgMatches<'a>) -> Option<Invocation<'a>>
    ensures { Reads (AsksBy (codes "version") (rows_of (found_of version.now))) result }
{
    let json = format_of(version)?;
    Some(Invocation::Version { json })
}

/// What the matches of `widen` ask for.
fn widen_of<'a>(widen: &ArgMatches<'a>) -> Option<Invocation<'a>>
    ensures { Reads (AsksBy (codes "widen") (rows_of (found_of widen.now))) result }
{
    let script = widen.get_str("SCRIPT")?;
    let json = format_of(widen)?;
    let limits = limits_of(widen)?;
    Some(Invocation::Widen {
        script,
        json,
        limits,
    })
}

/// What the matches of `plain` ask for.
fn plain_of<'a>(plain: &ArgMatches<'a>) -> Option<Invocation<'a>>
    ensures { Reads (AsksBy (codes "plain") (rows_of (found_of plain.now))) result }
{
    let script = plain.get_str("SCRIPT")?;
    Some(Invocation::Plain { script })
}

/// How many orders are tried at most, the default where the option isn't there, and `None` where its number is none.
fn orders_of(explore: &ArgMatches<'_>) -> Option<usize>
    ensures { Reads (GivesOrders (rows_of (found_of explore.now))) result }
{
    let orders = count_of(explore, "orders", MAX_ORDERS)?;
    Some(orders.unwrap_or(DEFAULT_ORDERS))
}

/// With which number the draws begin, 1 where the option isn't there, and `None` where its number has no 64 bits.
fn seed_of(explore: &ArgMatches<'_>) -> Option<u64>
    ensures { Reads (GivesSeed (rows_of (found_of explore.now))) result }
{
    match explore.try_get_one::<u64>("seed") {
        Ok(None) => Some(1),
        Ok(Some(seed)) => Some(seed),
        Err(_) => None,
    }
}

/// What the matches of `explore` ask for.
fn explore_of<'a>(explore: &ArgMatches<'a>) -> Option<Invocation<'a>>
    ensures { Reads (AsksBy (codes "explore") (rows_of (found_of explore.now))) result }
{
    let script = explore.get_str("SCRIPT")?;
    let launch = count_of(explore, "launch", MAX_LAUNCH)?;
    let orders = orders_of(explore)?;
    let seconds = count_of(explore, "seconds", MAX_SECONDS)?;
    let seed = seed_of(explore)?;
    let configuration = configuration_of(explore)?;
    Some(Invocation::Explore {
        script,
        wish: ExploreWish {
            configuration,
            launch,
            orders,
            seconds,
            seed,
        },
    })
}

/// What the matches of a command line ask for, by the form that they hold.
fn asked<'a>(matches: &ArgMatches<'a>) -> Option<Invocation<'a>>
    ensures { Reads (Holds (subcommand_rows_of matches.now)) result }
{
    if let Some(run) = matches.subcommand_matches("run") {
        return run_of(run);
    }
    if let Some(check) = matches.subcommand_matches("check") {
        return check_of(check);
    }
    if let Some(dump) = matches.subcommand_matches("dump") {
        return dump_of(dump);
    }
    if let Some(replay) = matches.subcommand_matches("replay") {
        return replay_of(replay);
    }
    if let Some(serve) = matches.subcommand_matches("serve") {
        return serve_of(serve);
    }
    if let Some(explain) = matches.subcommand_matches("explain") {
        return explain_of(explain);
    }
    if let Some(version) = matches.subcommand_matches("version") {
        return version_of(version);
    }
    if let Some(widen) = matches.subcommand_matches("widen") {
        return widen_of(widen);
    }
    if let Some(plain) = matches.subcommand_matches("plain") {
        return plain_of(plain);
    }
    explore_of(matches.subcommand_matches("explore")?)
}

/// The forms of the command line, without any of them yet. That there is a version gives them `--version`; what the
/// program tells of it is its own.
#[tactic(auto, unfolding(crate::specs::CommandLine::program_of, crate::specs::CommandLine::form_of))]
fn no_form<'a>(alloc: Global) -> Command<'a>
    ensures { AreForms [] result }
{
    named(alloc, "clsim", "A simulated OpenCL 1.2 device")
        .subcommand_required(true)
        .version("of clsim")
}

/// Forms with one more, where both were made. In `forms` each `?` would add a path.
fn with_form<'a>(
    forms: Result<Command<'a>, AllocError>,
    form: Result<Command<'a>, AllocError>,
) -> Result<Command<'a>, AllocError>
    ensures { (so_far : List Shape) (name : Text) (arguments : List Rule) → IfOk forms.entry (AreForms so_far) → IfOk form.entry (IsForm name arguments) → IfOk result (AreForms (so_far ++ form_of name arguments ∷ [])) }
{
    let forms = forms?;
    let form = form?;
    forms.subcommand(form)
}

/// The forms of the command line.
fn forms<'a>(alloc: Global) -> Result<Command<'a>, AllocError>
    ensures { IfOk result (AreForms all_forms) }
{
    let runs = with_form(Ok(no_form(alloc)), run_form(alloc));
    let with_checks = with_form(runs, check_form(alloc));
    let with_dumps = with_form(with_checks, dump_form(alloc));
    let with_replays = with_form(with_dumps, replay_form(alloc));
    let with_serving = with_form(with_replays, serve_form(alloc));
    let with_explaining = with_form(with_serving, explain_form(alloc));
    let with_version = with_form(with_explaining, version_form(alloc));
    let with_widening = with_form(with_version, widen_form(alloc));
    let with_writing = with_form(with_widening, plain_form(alloc));
    with_form(with_writing, explore_form(alloc))
}

/// A form whose usage is shown by this name.
fn shown<'a>(form: Result<Command<'a>, AllocError>, name: &str) -> Result<Command<'a>, AllocError> {
    form?.bin_name(name)
}

/// The form of this name, as its usage is shown.
fn form_of<'a>(alloc: Global, name: &str) -> Result<Command<'a>, AllocError> {
    if name == "run" {
        return shown(run_form(alloc), "clsim run");
    }
    if name == "check" {
        return shown(check_form(alloc), "clsim check");
    }
    if name == "dump" {
        return shown(dump_form(alloc), "clsim dump");
    }
    if name == "replay" {
        return shown(replay_form(alloc), "clsim replay");
    }
    if name == "serve" {
        return shown(serve_form(alloc), "clsim serve");
    }
    if name == "explain" {
        return shown(explain_form(alloc), "clsim explain");
    }
    if name == "widen" {
        return shown(widen_form(alloc), "clsim widen");
    }
    if name == "plain" {
        return shown(plain_form(alloc), "clsim plain");
    }
    if name == "explore" {
        return shown(explore_form(alloc), "clsim explore");
    }
    shown(version_form(alloc), "clsim version")
}

/// What is wrong with the values of a form that ask for nothing: its limits, or else its format, or else that `--widen`
/// is there with JSON or a schedule file, or else its budget, which is more than its limits allow.
fn wrong_in(values: &ArgMatches<'_>) -> &'static str
    ensures { SaysWrong (rows_of (found_of values.now)) result.now }
{
    if limits_of(values).is_none() {
        return "the limits are profile or large";
    }
    if format_of(values).is_none() {
        return "the format is text or json";
    }
    if widening_of(values).is_none() {
        return "--widen takes text and no schedule file";
    }
    "the budget is at most 1000000, and with --limits large at most 1000000000"
}

/// What is wrong with the values of `run` that ask for nothing: its limits, or else its format, or else its budget.
fn wrong_in_run(run: &ArgMatches<'_>) -> &'static str
    ensures { SaysWrongRun (rows_of (found_of run.now)) result.now }
{
    if limits_of(run).is_none() {
        return "the limits are profile or large";
    }
    if numbers_of(run).is_none() {
        return "the format is bytes or numbers";
    }
    "the budget is at most 1000000, and with --limits large at most 1000000000"
}

/// The error of a form whose values ask for nothing, with the form's usage.
fn wrong_value(alloc: Global, matches: &ArgMatches<'_>) -> Result<Error, AllocError>
    ensures { IfOk result (λ error. kind_of error ≡ ErrorKind.InvalidValue) }
{
    let Some((name, values)) = matches.subcommand() else {
        let mut forms = no_form(alloc);
        return forms.error(ErrorKind::InvalidValue, "a form is missing");
    };
    let mut form = form_of(alloc, name)?;
    if name == "run" {
        return form.error(ErrorKind::InvalidValue, wrong_in_run(values));
    }
    form.error(ErrorKind::InvalidValue, wrong_in(values))
}

/// Reads the words of a command line by its forms.
fn command_by<'a>(
    alloc: Global,
    forms: &mut Command<'a>,
    words: &'a [&'a str],
) -> Result<Invocation<'a>, Error>
    requires { AreForms all_forms forms.old }
    ensures asked { IfOk result (AsksFor (map (λ word. word.now) words.entry.now)) }
    ensures refused { IfErr result (IsRefused (map (λ word. word.now) words.entry.now)) }
{
    let matches = forms.try_get_matches_from_mut(words)?;
    match asked(&matches) {
        Some(asked) => Ok(asked),
        None => Err(wrong_value(alloc, &matches)?),
    }
}

/// Reads the words of a command line, the program's name first. The forms are:
/// - `clsim run FILE [--workers N] [--budget N] [--limits LIMITS] [--lines] [--format bytes|numbers] [--quiet]`
/// - `clsim check FILE [--limits LIMITS]`
/// - `clsim dump FILE KERNEL [--limits LIMITS]`
/// - `clsim replay SCRIPT SCHEDULE [--limits LIMITS]`
/// - `clsim serve [--workers N] [--budget N] [--limits LIMITS]`
/// - `clsim explain SCRIPT [SCHEDULE] [--format text|json] [--budget N] [--limits LIMITS] [--as-given]
///   [--all] [--steps N] [--widen]`
/// - `clsim version [--format text|json]`
/// - `clsim widen SCRIPT [--format text|json] [--limits LIMITS]`
/// - `clsim plain SCRIPT`
/// - `clsim explore SCRIPT [--launch N] [--orders N] [--seconds N] [--seed N] [--budget N] [--limits LIMITS]`
///
/// The errors of the words `--help`, `help` with a form or without, and `--version` have the kinds `DisplayHelp` and
/// `DisplayVersion`.
pub fn command<'a>(alloc: Global, words: &'a [&'a str]) -> Result<Invocation<'a>, Error>
    ensures asked { IfOk result (AsksFor (map (λ word. word.now) words.entry.now)) }
    ensures refused { IfErr result (IsRefused (map (λ word. word.now) words.entry.now)) }
{
    let mut forms = forms(alloc)?;
    command_by(alloc, &mut forms, words)
}
