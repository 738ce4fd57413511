//! `trace judge OIL ELF TIMING TASK CERT TRACE` judges a recording by a good certificate.
ghost use Rattle.std.specs.Prelude.{◌≡◌, ◌<◌, IfOk, Ok, length};
ghost use Rattle.scheduler_moves.specs.Closed.{IsClosed};
ghost use Rattle.scheduler_moves.specs.Moves.{rules_of};
ghost use Rattle.certificate.specs.Lawful.{IsLawful};
ghost use Rattle.trace_check.specs.Trace as traces;
ghost use Rattle.command_steps.specs.Steps.{IsCall, Says};
ghost use Rattle.trace_commands.specs.Judge as words;
ghost use Rattle.trace_commands.specs.Texts.{saying};

use crate::texts::{close_refusal, fits_text, over_refusal, trace_refusal, walk_refusal};
use bound_checker::check;
use certificate::{Cert, Verdict};
use command_steps::{Halt, read_file};
use inputs::{Analysed, certificate_file, read_task, why_refusal};
use std::alloc::Global;
use trace_check::{Trace, TraceFault, TraceVerdict, judge, read_trace};
use wcet_atomic_blocks::Plant;
use wcet_io::{Bytes, Files, Text};

/// The most bytes of a recording.
const TRACE_LIMIT: usize = 16_777_216;

/// The answer by the named files and the task.
pub fn trace_judged<F: Files>(
    alloc: Global,
    oil: &Text,
    elf: &Text,
    timing: &Text,
    task: &Text,
    certificate: &Text,
    trace: &Text,
    files: &mut F,
) -> Result<Bytes, Halt>
    ensures { words.TraceJudge (IsCall F.outside F.reads) oil.now elf.now timing.now task.now
        certificate.now trace.now files.old result files.new }
{
    let analysed = read_task(alloc, oil, elf, timing, task, files)?;
    let answered = judge_on(alloc, &analysed, certificate, trace, task.as_str(), files);
    drop(analysed);
    answered
}

fn judge_on<F: Files>(
    alloc: Global,
    analysed: &Analysed,
    certificate: &Text,
    trace: &Text,
    name: &str,
    files: &mut F,
) -> Result<Bytes, Halt>
    requires { analysed.now.task < length analysed.now.plant.system.tasks }
    ensures { words.JudgeOn (IsCall F.outside F.reads) certificate.now trace.now name.now
        analysed.now files.old result files.new }
{
    let cert = good_certificate(alloc, analysed, certificate, name, files)?;
    judge_by(alloc, &analysed.plant, trace, &cert, files)
}

/// The certificate in the file for the task, which has this name, where it is good.
fn good_certificate<F: Files>(
    alloc: Global,
    analysed: &Analysed,
    certificate: &Text,
    name: &str,
    files: &mut F,
) -> Result<Cert, Halt>
    ensures steps { words.GoodCertificate (IsCall F.outside F.reads) certificate.now name.now
        analysed.now files.old result files.new }
    ensures lawful { IfOk result (IsLawful (rules_of analysed.now.plant) analysed.now.task) }
    ensures closed { IfOk result (λ cert. IsClosed analysed.now.plant cert.states) }
{
    let cert = certificate_file(alloc, certificate, name, analysed, files)?;
    good(alloc, analysed, cert)
}

/// The certificate itself, where it is good.
fn good(alloc: Global, analysed: &Analysed, cert: Cert) -> Result<Cert, Halt>
    requires { IsLawful (rules_of analysed.now.plant) analysed.now.task cert }
    ensures answer { Says (words.HasGood analysed.now cert) result }
    ensures lawful { IfOk result (IsLawful (rules_of analysed.now.plant) analysed.now.task) }
    ensures closed { IfOk result (λ good. IsClosed analysed.now.plant good.states) }
{
    match check(alloc, &analysed.plant, analysed.task, &cert)? {
        Verdict::Yes => Ok(cert),
        Verdict::No(why) => Err(Halt::Refused(why_refusal(alloc, &analysed.plant, why)?)),
    }
}

/// The verdict on the recording in the file.
fn judge_by<F: Files>(
    alloc: Global,
    plant: &Plant,
    trace: &Text,
    cert: &Cert,
    files: &mut F,
) -> Result<Bytes, Halt>
    requires closed { IsClosed plant.now cert.now.states }
    requires task { cert.now.task < length plant.now.system.tasks }
    ensures { words.TraceJudged (IsCall F.outside F.reads) trace.now plant.now cert.now
        files.old result files.new }
{
    let trace = trace_file(alloc, trace, plant, files)?;
    answer(alloc, plant, cert, &trace)
}

/// The recording in the file, over the system of the plant.
fn trace_file<F: Files>(
    alloc: Global,
    trace: &Text,
    plant: &Plant,
    files: &mut F,
) -> Result<Trace, Halt>
    ensures steps { words.TraceFile (IsCall F.outside F.reads) trace.now plant.now
        files.old result files.new }
    ensures lawful { IfOk result (traces.IsLawful plant.now.system) }
{
    let bytes = read_file(alloc, trace, TRACE_LIMIT, files)?;
    trace_in(alloc, plant, &bytes)
}

fn trace_in(alloc: Global, plant: &Plant, bytes: &Bytes) -> Result<Trace, Halt>
    ensures answer { Says (words.HasTrace plant.now bytes.now) result }
    ensures lawful { IfOk result (traces.IsLawful plant.now.system) }
{
    match read_trace(alloc, &plant.system, bytes.as_slice()) {
        Ok(trace) => Ok(trace),
        Err(TraceFault::Kind(kind)) => Err(Halt::Refused(trace_refusal(alloc, kind)?)),
        Err(TraceFault::Memory) => Err(Halt::Memory),
    }
}

/// The verdict on the recording, by the certificate's task and bound.
fn answer(alloc: Global, plant: &Plant, cert: &Cert, trace: &Trace) -> Result<Bytes, Halt>
    requires closed { IsClosed plant.now cert.now.states }
    requires task { cert.now.task < length plant.now.system.tasks }
    requires names { traces.IsOf plant.now.system trace.now }
    ensures { Says (words.HasJudged plant.now cert.now trace.now) result }
{
    let verdict = judge(alloc, plant, cert, trace)?;
    say(alloc, verdict)
}

/// What is said of the verdict.
fn say(alloc: Global, verdict: TraceVerdict) -> Result<Bytes, Halt>
    ensures { Says (λ given. given ≡ saying verdict) result }
{
    match verdict {
        TraceVerdict::Fits => Ok(fits_text(alloc)?),
        TraceVerdict::NotAWalk { event } => Err(Halt::Refused(walk_refusal(alloc, event)?)),
        TraceVerdict::TooClose { event } => Err(Halt::Refused(close_refusal(alloc, event)?)),
        TraceVerdict::OverBound { event } => Err(Halt::Refused(over_refusal(alloc, event)?)),
    }
}
