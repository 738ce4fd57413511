//! The top call: words, files and a sink in, a status out.
ghost use Rattle.std.specs.Prelude.{◌≡◌, ◌⊎◌, Some, Err};
ghost use Rattle.command_steps.specs.Running.{Ran, EndsSurely};
ghost use Rattle.command_steps.specs.Steps.{IsCall, Says};
ghost use Rattle.reports.specs.Refusals.{words_refusal};
ghost use Rattle.syswcet.specs.Words.{command_of, IsInRange};
ghost use Rattle.syswcet.specs.Commands.{StepsOf, files_of};
ghost use Rattle.syswcet.specs.Headline.{Means};

use crate::words::{Command, command_of};
use bound_commands::{all_bounds, bounded, certified, checked};
use command_steps::{Halt, Status, report};
use demo_command::demonstrated;
use listed::Memory;
use loops_command::loop_bounds;
use reports::words_refusal;
use show_commands::{replayed, show_code, show_oil};
use split_commands::{Wanted, split_checked, split_found};
use std::alloc::Global;
use trace_commands::{trace_judged, trace_recorded};
use wcet_io::{Bytes, Files, Sink, SureFiles, SureSink, Words};

/// Runs one command: `words` are those of the command line without the program's name, files are
/// read by name, and the text of the answer is written to the sink.
pub fn run<F: Files, O: Sink>(alloc: Global, words: &Words, files: &mut F, out: &mut O) -> Status
    // The run is that of the command's steps: which files were read in which order, what came of it,
    // what was written in which pieces, and what the two objects tell of it.
    ensures ran { Ran F.outside O.outside O.writes (files_of (command_of words.now))
        (StepsOf (IsCall F.outside F.reads) (command_of words.now))
        files.old files.new out.old out.new result }
    // Where it ended with Ok, what was written means what the command is for.
    ensures headline { result ≡ Status.Ok → Means F.outside F.reads files.old (command_of words.now)
        O.outside O.writes out.old out.new }
{
    let answered = answer(alloc, words, files);
    report(alloc, answered, out)
}

/// A run over objects that never fail ends with the command's answer or refusal, written whole, or
/// with want of memory.
pub fn run_surely(alloc: Global, words: &Words, files: &mut SureFiles, out: &mut SureSink) -> Status
    ensures { EndsSurely
        (StepsOf (IsCall ⟦<SureFiles as Files>⟧.outside ⟦<SureFiles as Files>⟧.reads)
        (command_of words.now))
        files.old files.new out.old out.new result }
{
    run(alloc, words, files, out)
}

/// What the steps of the command that the words name give.
fn answer<F: Files>(alloc: Global, words: &Words, files: &mut F) -> Result<Bytes, Halt>
    ensures { StepsOf (IsCall F.outside F.reads) (command_of words.now) files.old result files.new
        ⊎ ((files.new ≡ files.old) × (result ≡ Err Halt.Memory)) }
{
    match command_of(alloc, words) {
        Ok(Some(command)) => answer_command(alloc, &command, files),
        Ok(None) => no_command(alloc),
        Err(Memory) => Err(Halt::Memory),
    }
}

/// The refusal of words that have no shape.
fn no_command(alloc: Global) -> Result<Bytes, Halt>
    ensures { Says (λ given. given ≡ Err words_refusal) result }
{
    Err(Halt::Refused(words_refusal(alloc)?))
}

/// What the command's steps give.
fn answer_command<F: Files>(alloc: Global, command: &Command, files: &mut F) -> Result<Bytes, Halt>
    requires { IsInRange command.now }
    ensures { StepsOf (IsCall F.outside F.reads) (Some command.now) files.old result files.new }
{
    match command {
        Command::Check {
            subject,
            certificate,
        } => checked(alloc, subject, certificate, files),
        Command::Bound {
            subject,
            states,
            pivots,
        } => bounded(alloc, subject, states, *pivots, files),
        Command::Certify {
            subject,
            states,
            pivots,
        } => certified(alloc, subject, states, *pivots, files),
        Command::All {
            oil,
            elf,
            timing,
            states,
        } => all_bounds(alloc, oil, elf, timing, states, files),
        Command::ShowOil { oil } => show_oil(alloc, oil, files),
        Command::ShowCode { oil, elf, timing } => show_code(alloc, oil, elf, timing, files),
        Command::Replay {
            oil,
            elf,
            timing,
            schedule,
        } => replayed(alloc, oil, elf, timing, schedule, files),
        Command::Loops {
            oil,
            elf,
            timing,
            task,
            states,
        } => loop_bounds(alloc, oil, elf, timing, task, states, files),
        Command::SplitCheck {
            oil,
            elf,
            timing,
            task,
            certificate,
        } => split_checked(alloc, oil, elf, timing, task, certificate, files),
        Command::SplitFind {
            oil,
            elf,
            timing,
            task,
            states,
            bound,
            cuts,
        } => {
            let wanted = Wanted {
                bound: *bound,
                cuts: *cuts,
            };
            split_found(alloc, oil, elf, timing, task, states, wanted, files)
        }
        Command::TraceRecord {
            oil,
            elf,
            timing,
            schedule,
        } => trace_recorded(alloc, oil, elf, timing, schedule, files),
        Command::TraceJudge {
            oil,
            elf,
            timing,
            task,
            certificate,
            trace,
        } => trace_judged(alloc, oil, elf, timing, task, certificate, trace, files),
        Command::Demo { seed, count } => demonstrated(alloc, *seed, *count),
    }
}
