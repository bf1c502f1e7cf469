//! The program `clsim`: a simulated OpenCL 1.2 device for scripts, schedules and host programs.
//!
//! It calls `cli`, `explaining`, `exploring` and `wide_text` with the files, the clock and the output of the system; a
//! file named `-` is standard input. A script of version 3 is handed on as its plain text, which `written_scripts`
//! makes of it and of the files that it names; `explain` and `widen` tell the lines of the script itself. The status
//! is the one that `cli` defines, whether standard error can be written or not; the process ends with 0, 1 or 2. What
//! stands on standard error is only tested.
#![tactic(auto)]

ghost use Rattle.std.specs.Prelude.{◌≡◌, ◌≤◌, IfOk, if◌then◌else◌};
ghost use Rattle.std.specs.Process.{exit_status};
ghost use Rattle.cli.specs.Checking.{source_status_of};
ghost use Rattle.cli.specs.Replaying.{replay_status_of};
ghost use Rattle.cli.specs.Session.{status_of};
ghost use Rattle.clsim.specs.Files.{IsExploreWished, IsWished};
ghost use Rattle.exploring.specs.Explored.{status_of as explore_status_of};
ghost use Rattle.wide_text.specs.Widened.{status_of as wide_status_of};

mod deadline;
mod explain_files;
mod looks;
mod named_file;
mod own_lines;
mod passing;
mod piped;
mod progress;
mod reporting;
mod shows;
mod version;
mod written_file;

use crate::deadline::Deadline;
use crate::explain_files::{explain_schedule, explain_script, explain_widely};
use crate::looks::Looks;
use crate::named_file::{NamedFile, STANDARD_INPUT};
use crate::own_lines::Written;
use crate::passing::pass;
use crate::piped::Piped;
use crate::progress::Progress;
use crate::reporting::{Told, tell, tell_place, tell_script, told_of};
use crate::shows::ReplyStyle;
use crate::version::print_version;
use crate::written_file::WrittenFile;
use byte_io::{Input, Output, StreamPeer};
use clap::Error;
use clap::error::ErrorKind;
use cli::checking::{check_file, source_status};
use cli::dialogue::serve;
use cli::dumping::dump_file;
use cli::reading::bytes_of;
use cli::replaying::{replay_files, replay_status};
use cli::session::RunEnd;
use cli::{OpenGate, Watch, run_shown, status};
use command_line::{ExplainWish, ExploreWish, Invocation, Options, command};
use explaining::{ExplainOptions, Format};
use exploring::{ExploreEnd, ExploreOptions, explore, status as explore_status};
use limits::{Configuration, Limits};
use simfile::faults::{Reader, RunFault};
use std::env::Env;
use std::io::{BufReader, BufWriter, IsTerminal, Printer};
use std::marker::Sync;
use std::process::ExitCode;
use std::rt::{Clock, Files};
use std::sync::Wait;
use std::thread::Threads;
use std::{env, io, thread};
use wide_text::{Format as WideFormat, WideEnd, status as wide_status, widen};

/// Standard output, to be written.
fn output_of<'a, R: Print + AllocGlobal>(
    rt: &'a R,
) -> Result<Output<Piped<Printer<'a, R>>>, RunFault> {
    let Ok(writer) = BufWriter::new(rt.alloc(), Piped::new(io::writer(rt))) else {
        return Err(RunFault::OutOfMemory);
    };
    Ok(Output::new(writer))
}

/// Runs a script, with the replies on standard output, and notes whether its reader is gone.
fn run_script<R: Files + io::Input + Print + AllocGlobal + Threads + Wait + Sync, W: Watch>(
    rt: &R,
    script: &mut WrittenFile<'_, R>,
    options: Options,
    watch: &W,
    gone: &mut bool,
) -> Result<RunEnd, RunFault> {
    let mut writer = output_of(rt)?;
    let outcome = run_shown(rt, rt.alloc(), script, &[], &mut writer, options, watch);
    *gone = writer.into_inner().is_gone();
    outcome
}

/// Runs a script, with the replies on standard output in a style.
fn run_in_style<R: Files + io::Input + Print + AllocGlobal + Threads + Wait + Sync, W: Watch>(
    rt: &R,
    script: &mut WrittenFile<'_, R>,
    options: Options,
    style: ReplyStyle,
    watch: &W,
    gone: &mut bool,
) -> Result<RunEnd, RunFault> {
    let text = bytes_of(rt.alloc(), script, Reader::First)?;
    let shows = script.shows(rt.alloc(), text.as_slice(), style)?;
    let mut reader = Input::new(text.as_slice());
    let mut writer = output_of(rt)?;
    let outcome = run_shown(
        rt,
        rt.alloc(),
        &mut reader,
        shows.as_slice(),
        &mut writer,
        options,
        watch,
    );
    *gone = writer.into_inner().is_gone();
    outcome
}

/// Runs a script, with its replies in a style.
fn run_watched<R: Files + io::Input + Print + AllocGlobal + Threads + Wait + Sync, W: Watch>(
    rt: &R,
    script: &mut WrittenFile<'_, R>,
    options: Options,
    style: ReplyStyle,
    watch: &W,
    gone: &mut bool,
) -> Result<RunEnd, RunFault> {
    if style.lines || style.numbers {
        run_in_style(rt, script, options, style, watch, gone)
    } else {
        run_script(rt, script, options, watch, gone)
    }
}

/// Runs a script, and tells on standard error how far each launch has come that takes long. Where no thread can be
/// started for that, nothing is told.
fn run_told<R: Files + io::Input + Print + Eprint + Clock + AllocGlobal + Threads + Wait + Sync>(
    rt: &R,
    script: &mut WrittenFile<'_, R>,
    options: Options,
    style: ReplyStyle,
    gone: &mut bool,
) -> Result<RunEnd, RunFault> {
    let progress = Progress::new(rt);
    let progress = &progress;
    thread::scope(thread::scope_env(), rt, |scope| {
        let _ = scope.spawn(move || progress.tell_all());
        let outcome = run_watched(rt, script, options, style, progress, gone);
        progress.finish();
        outcome
    })
}

/// How many bytes of standard input are read at once.
const READ_AHEAD: usize = 65_536;

/// Answers the commands of standard input one by one, with the replies on standard output.
fn serve_input<R: io::Input + Print + AllocGlobal + Threads + Wait + Sync>(
    rt: &R,
    options: Options,
) -> Result<RunEnd, RunFault> {
    let Ok(reader) = BufReader::with_capacity(rt.alloc(), READ_AHEAD, rt.reader()) else {
        return Err(RunFault::OutOfMemory);
    };
    let Ok(writer) = BufWriter::new(rt.alloc(), io::writer(rt)) else {
        return Err(RunFault::OutOfMemory);
    };
    let mut peer = StreamPeer::new(reader, Output::new(writer));
    serve(rt, rt.alloc(), &mut peer, options)
}

/// Checks a source within limits, with the line that tells what was found on standard output.
fn check_source<R: Files + io::Input + Print + AllocGlobal>(
    rt: &R,
    source: &mut NamedFile<'_, R>,
    limits: Limits,
    gone: &mut bool,
) -> Result<bool, RunFault> {
    let mut writer = output_of(rt)?;
    let outcome = check_file(rt.alloc(), limits, source, &mut writer);
    *gone = writer.into_inner().is_gone();
    outcome
}

/// Writes the code of a kernel of a source, which is built within limits, on standard output, or the line of the
/// source's fault.
fn dump_kernel<R: Files + io::Input + Print + AllocGlobal>(
    rt: &R,
    source: &mut NamedFile<'_, R>,
    kernel: &str,
    limits: Limits,
    gone: &mut bool,
) -> Result<bool, RunFault> {
    let mut writer = output_of(rt)?;
    let outcome = dump_file(rt.alloc(), limits, source, kernel, &mut writer);
    *gone = writer.into_inner().is_gone();
    outcome
}

/// Replays a schedule file on a script, with the answer on standard output. The schedule file is opened once the script
/// was read and found good.
fn replay_schedule<R: Files + io::Input + Print + AllocGlobal>(
    rt: &R,
    script: &mut WrittenFile<'_, R>,
    schedule: &str,
    configuration: Configuration,
    gone: &mut bool,
) -> Result<bool, RunFault> {
    let mut writer = output_of(rt)?;
    let mut file = NamedFile::new(rt, schedule);
    let outcome = replay_files(rt.alloc(), configuration, script, &mut file, &mut writer);
    *gone = writer.into_inner().is_gone();
    outcome
}

/// The format of an explanation.
fn format_of(json: bool) -> Format
    ensures { result ≡ (if json then Format.Json else Format.Text) }
{
    if json { Format::Json } else { Format::Text }
}

/// How an explanation is made, as it is wished.
fn options_of(wish: ExplainWish) -> ExplainOptions
    ensures { IsWished wish result }
{
    ExplainOptions {
        format: format_of(wish.json),
        configuration: wish.configuration,
        as_given: wish.as_given,
        all: wish.all,
        steps: wish.steps,
    }
}

/// Explains the fault of a schedule file, or without one the first fault of a script of this name or all of them, with
/// what is told on standard output. Where it is `wide`, the text of a script's faults says whether they are in the
/// kernel or in the data.
fn explain_fault<R: Files + io::Input + Print + AllocGlobal>(
    rt: &R,
    name: &str,
    script: &mut WrittenFile<'_, R>,
    schedule: Option<&str>,
    options: ExplainOptions,
    wide: bool,
    gone: &mut bool,
) -> Result<bool, RunFault> {
    let mut writer = output_of(rt)?;
    let outcome = match schedule {
        None if wide => explain_widely(rt.alloc(), name, script, options, &mut writer),
        None => explain_script(rt.alloc(), name, script, options, &mut writer),
        Some(schedule) => {
            let mut file = NamedFile::new(rt, schedule);
            explain_schedule(rt.alloc(), name, script, &mut file, options, &mut writer)
        }
    };
    *gone = writer.into_inner().is_gone();
    outcome
}

/// Runs a script, with its replies on standard output, and for which bytes and numbers they hold.
fn widen_script<R: Files + io::Input + Print + AllocGlobal>(
    rt: &R,
    script: &mut WrittenFile<'_, R>,
    json: bool,
    limits: Limits,
    gone: &mut bool,
) -> Result<WideEnd, RunFault> {
    let mut writer = output_of(rt)?;
    let text = bytes_of(rt.alloc(), script, Reader::First)?;
    let format = if json {
        WideFormat::Json
    } else {
        WideFormat::Text
    };
    let configuration = Configuration::of(limits);
    let outcome = widen(
        rt.alloc(),
        configuration,
        text.as_slice(),
        script.written(),
        format,
        &mut writer,
    );
    *gone = writer.into_inner().is_gone();
    outcome
}

/// How a script is explored, as it is wished.
fn explore_options_of(wish: ExploreWish) -> ExploreOptions
    ensures { IsExploreWished wish result }
{
    ExploreOptions {
        configuration: wish.configuration,
        launch: wish.launch,
        orders: wish.orders,
        seed: wish.seed,
    }
}

/// Plays other orders of the launches of a script, with what they show on standard output.
fn explore_script<R: Files + io::Input + Print + Clock + AllocGlobal>(
    rt: &R,
    script: &mut WrittenFile<'_, R>,
    wish: ExploreWish,
    gone: &mut bool,
) -> Result<ExploreEnd, RunFault> {
    let mut writer = output_of(rt)?;
    let text = bytes_of(rt.alloc(), script, Reader::First)?;
    let mut deadline = Deadline::new(rt, wish.seconds);
    let outcome = explore(
        rt.alloc(),
        explore_options_of(wish),
        text.as_slice(),
        &mut deadline,
        &mut writer,
    );
    *gone = writer.into_inner().is_gone();
    outcome
}

/// Writes a script on standard output, as a plain text.
fn write_plain<R: Files + io::Input + Print + AllocGlobal>(
    rt: &R,
    script: &mut WrittenFile<'_, R>,
    gone: &mut bool,
) -> Result<(), RunFault> {
    let mut writer = output_of(rt)?;
    let outcome = pass(rt.alloc(), script, &mut writer);
    *gone = writer.into_inner().is_gone();
    outcome
}

/// The status of a run. A fault is told.
fn end_run<R: Files + Eprint>(rt: &R, outcome: Result<RunEnd, RunFault>, told: Told<'_>) -> u8
    ensures { result ≡ status_of outcome }
{
    if let Err(fault) = outcome {
        tell(rt, fault, told);
    }
    status(&outcome)
}

/// The status of a check or a dump. A fault is told, and of a source that looks like a script that it does.
fn end_source<R: Files + Eprint>(rt: &R, outcome: Result<bool, RunFault>, told: Told<'_>) -> u8
    ensures { result ≡ source_status_of outcome }
{
    match outcome {
        Ok(true) => {}
        Ok(false) => tell_script(rt, told),
        Err(fault) => tell(rt, fault, told),
    }
    source_status(&outcome)
}

/// The status of a replay or of an explanation. A fault is told, with the file that couldn't be read.
fn end_replay<R: Files + Eprint>(
    rt: &R,
    outcome: Result<bool, RunFault>,
    schedule: &str,
    told: Told<'_>,
) -> u8
    ensures { result ≡ replay_status_of outcome }
{
    match outcome {
        Ok(_) => {}
        Err(RunFault::Read(Reader::Second)) => {
            let told = Told {
                file: schedule,
                ..told
            };
            tell(rt, RunFault::Read(Reader::Second), told)
        }
        Err(fault) => tell(rt, fault, told),
    }
    replay_status(&outcome)
}

/// The status of a script whose replies are widened. A fault is told.
fn end_widen<R: Files + Eprint>(rt: &R, outcome: Result<WideEnd, RunFault>, told: Told<'_>) -> u8
    ensures { result ≡ wide_status_of outcome }
{
    if let Err(fault) = outcome {
        tell(rt, fault, told);
    }
    wide_status(&outcome)
}

/// The status of a script that is explored. A fault is told.
fn end_explore<R: Files + Eprint>(
    rt: &R,
    outcome: Result<ExploreEnd, RunFault>,
    told: Told<'_>,
) -> u8
    ensures { result ≡ explore_status_of outcome }
{
    if let Err(fault) = outcome {
        tell(rt, fault, told);
    }
    explore_status(&outcome)
}

/// Runs the script of a file, with its replies in a style, and gives the status. `told` says that a person is told how
/// far a launch has come.
fn do_run<R: Files + io::Input + Print + Eprint + Clock + AllocGlobal + Threads + Wait + Sync>(
    rt: &R,
    file: &str,
    options: Options,
    style: ReplyStyle,
    told: bool,
) -> u8
    ensures { result ≤ 2 }
{
    let mut script = WrittenFile::new(rt, file);
    let mut gone = false;
    let outcome = if told {
        run_told(rt, &mut script, options, style, &mut gone)
    } else {
        run_watched(rt, &mut script, options, style, &OpenGate, &mut gone)
    };
    end_run(rt, outcome, script.told(gone))
}

/// Serves standard input, and gives the status.
fn do_serve<R: Files + io::Input + Print + Eprint + AllocGlobal + Threads + Wait + Sync>(
    rt: &R,
    options: Options,
) -> u8
    ensures { result ≤ 2 }
{
    let outcome = serve_input(rt, options);
    let told = Told {
        file: STANDARD_INPUT,
        looks: Looks::Unknown,
        gone: false,
        bad: None,
    };
    end_run(rt, outcome, told)
}

/// Checks the source of a file, and gives the status. Where a person looks on, the line and the column of its fault are
/// told.
fn do_check<R: Files + io::Input + Print + Eprint + AllocGlobal>(
    rt: &R,
    file: &str,
    limits: Limits,
    watched: bool,
) -> u8
    ensures { result ≤ 2 }
{
    let mut source = NamedFile::new(rt, file).keeping(watched);
    let mut gone = false;
    let outcome = check_source(rt, &mut source, limits, &mut gone);
    if let Ok(false) = outcome {
        if let Some(text) = source.kept() {
            tell_place(rt, limits, file, text);
        }
    }
    end_source(rt, outcome, told_of(&source, gone))
}

/// Writes the code of a kernel of the source of a file, and gives the status.
fn do_dump<R: Files + io::Input + Print + Eprint + AllocGlobal>(
    rt: &R,
    file: &str,
    kernel: &str,
    limits: Limits,
) -> u8
    ensures { result ≤ 2 }
{
    let mut source = NamedFile::new(rt, file);
    let mut gone = false;
    let outcome = dump_kernel(rt, &mut source, kernel, limits, &mut gone);
    end_source(rt, outcome, told_of(&source, gone))
}

/// Replays a schedule file on the script of a file, and gives the status.
fn do_replay<R: Files + io::Input + Print + Eprint + AllocGlobal>(
    rt: &R,
    file: &str,
    schedule: &str,
    configuration: Configuration,
) -> u8
    ensures { result ≤ 2 }
{
    let mut script = WrittenFile::new(rt, file);
    let mut gone = false;
    let outcome = replay_schedule(rt, &mut script, schedule, configuration, &mut gone);
    end_replay(rt, outcome, schedule, script.told(gone))
}

/// Explains a fault of the script of a file, and gives the status.
fn do_explain<R: Files + io::Input + Print + Eprint + AllocGlobal>(
    rt: &R,
    file: &str,
    schedule: Option<&str>,
    wish: ExplainWish,
) -> u8
    ensures { result ≤ 2 }
{
    let mut script = WrittenFile::explained(rt, file);
    let mut gone = false;
    let options = options_of(wish);
    let wide = wish.widen && !script.is_source();
    let outcome = explain_fault(rt, file, &mut script, schedule, options, wide, &mut gone);
    end_replay(rt, outcome, schedule.unwrap_or(file), script.told(gone))
}

/// Widens the replies of the script of a file, and gives the status.
fn do_widen<R: Files + io::Input + Print + Eprint + AllocGlobal>(
    rt: &R,
    file: &str,
    json: bool,
    limits: Limits,
) -> u8
    ensures { result ≤ 2 }
{
    let mut script = WrittenFile::new(rt, file);
    let mut gone = false;
    let outcome = widen_script(rt, &mut script, json, limits, &mut gone);
    end_widen(rt, outcome, script.told(gone))
}

/// Explores other orders of the launches of the script of a file, and gives the status.
fn do_explore<R: Files + io::Input + Print + Eprint + Clock + AllocGlobal>(
    rt: &R,
    file: &str,
    wish: ExploreWish,
) -> u8
    ensures { result ≤ 2 }
{
    let mut script = WrittenFile::new(rt, file);
    let mut gone = false;
    let outcome = explore_script(rt, &mut script, wish, &mut gone);
    end_explore(rt, outcome, script.told(gone))
}

/// Writes the script of a file as a plain text, and gives the status.
fn do_plain<R: Files + io::Input + Print + Eprint + AllocGlobal>(rt: &R, file: &str) -> u8
    ensures { result ≤ 2 }
{
    let mut script = WrittenFile::new(rt, file);
    let mut gone = false;
    match write_plain(rt, &mut script, &mut gone) {
        Ok(()) => 0,
        Err(fault) => {
            tell(rt, fault, script.told(gone));
            2
        }
    }
}

/// The status of what was printed on standard output. That it can't be written is told, but where its reader is gone.
fn end_printed(rt: &impl Eprint, printed: io::Result<()>) -> u8
    ensures { result ≤ 2 }
{
    let Err(error) = printed else {
        return 0;
    };
    if error.kind() != io::ErrorKind::BrokenPipe {
        let _ = eprintln!(rt; "clsim: {}", RunFault::Write);
    }
    2
}

/// Whether the words are of the form `help`.
fn asks_for_help(words: &[&str]) -> bool {
    match words.get(1) {
        Some(word) => *word == "help",
        None => false,
    }
}

/// Tells what is said of words that name no command, and gives the status. The version and the help of the form `help`
/// are answers, on standard output and with status 0; else the text goes to standard error.
fn answer_words<R: Print + Eprint>(rt: &R, words: &[&str], error: &Error) -> u8
    ensures { result ≤ 2 }
{
    match error.kind() {
        ErrorKind::DisplayVersion => end_printed(rt, print_version(rt, false)),
        ErrorKind::DisplayHelp if asks_for_help(words) => end_printed(rt, rt.print(error)),
        _ => {
            let _ = rt.eprint(error);
            2
        }
    }
}

/// Does what the words of the command line ask for, and gives the status. `watched` says that a person reads standard
/// error.
fn perform<R: Files + io::Input + Print + Eprint + Clock + AllocGlobal + Threads + Wait + Sync>(
    rt: &R,
    words: &[&str],
    watched: bool,
) -> u8
    ensures { result ≤ 2 }
{
    match command(rt.alloc(), words) {
        Ok(
            Invocation::Run {
                file,
                options,
                lines,
                numbers,
                quiet,
            },
        ) => do_run(
            rt,
            file,
            options,
            ReplyStyle { lines, numbers },
            watched && !quiet,
        ),
        Ok(Invocation::Check { file, limits }) => do_check(rt, file, limits, watched),
        Ok(
            Invocation::Dump {
                file,
                kernel,
                limits,
            },
        ) => do_dump(rt, file, kernel, limits),
        Ok(
            Invocation::Replay {
                script,
                schedule,
                configuration,
            },
        ) => do_replay(rt, script, schedule, configuration),
        Ok(Invocation::Serve { options }) => do_serve(rt, options),
        Ok(
            Invocation::Explain {
                script,
                schedule,
                wish,
            },
        ) => do_explain(rt, script, schedule, wish),
        Ok(Invocation::Version { json }) => end_printed(rt, print_version(rt, json)),
        Ok(
            Invocation::Widen {
                script,
                json,
                limits,
            },
        ) => do_widen(rt, script, json, limits),
        Ok(Invocation::Plain { script }) => do_plain(rt, script),
        Ok(Invocation::Explore { script, wish }) => do_explore(rt, script, wish),
        Err(error) => answer_words(rt, words, &error),
    }
}

/// Does what the command line asks for, and gives the status. No memory may be left for its words.
fn ask<R: Env + Files + io::Input + Print + Eprint + Clock + AllocGlobal + Threads + Wait + Sync>(
    rt: &R,
    watched: bool,
) -> io::Result<u8>
    ensures { IfOk result (λ status. status ≤ 2) }
{
    let words: Vec<String> = env::args(rt)?.collect(rt.alloc())?;
    let mut texts = Vec::new(rt.alloc());
    texts.push("clsim")?;
    for word in words.iter().skip(1) {
        texts.push(word.as_str())?;
    }
    Ok(perform(rt, texts.as_slice(), watched))
}

/// Does what the command line asks for, and gives the status of the process: where anything is told on standard error,
/// it is 2, whatever that takes.
fn end<R: Env + Files + io::Input + Print + Eprint + Clock + AllocGlobal + Threads + Wait + Sync>(
    rt: &R,
    watched: bool,
) -> ExitCode
    ensures { exit_status result ≤ 2 }
{
    match ask(rt, watched) {
        Ok(status) => ExitCode::from(status),
        Err(_) => {
            let _ = eprintln!(rt; "clsim: out of memory");
            ExitCode::from(2)
        }
    }
}

/// Does what the command line asks for, and ends the process with the status 0, 1 or 2.
fn main(rt: HostRuntime) -> ExitCode {
    end(&rt, rt.stderr().is_terminal())
}
