//! `split check` judges a split certificate.
ghost use Rattle.scheduler_moves.specs.Moves.{rules_of};
ghost use Rattle.split_cert.specs.Lawful.{IsLawful};
ghost use Rattle.command_steps.specs.Steps.{IsCall, Says};
ghost use Rattle.split_commands.specs.Check as words;

use crate::split_files::split_file;
use crate::texts::split_refusal;
use command_steps::Halt;
use inputs::{Analysed, read_task};
use reports::yes_text;
use split_cert::{SplitCert, SplitVerdict, check_split};
use std::alloc::Global;
use wcet_io::{Bytes, Files, Text};

/// The answer by the files of the system and that of the split certificate.
pub fn split_checked<F: Files>(
    alloc: Global,
    oil: &Text,
    elf: &Text,
    timing: &Text,
    task: &Text,
    split: &Text,
    files: &mut F,
) -> Result<Bytes, Halt>
    ensures { words.CheckSplit (IsCall F.outside F.reads) oil.now elf.now timing.now task.now
        split.now files.old result files.new }
{
    let analysed = read_task(alloc, oil, elf, timing, task, files)?;
    let answered = check_on(alloc, &analysed, split, task.as_str(), files);
    drop(analysed);
    answered
}

fn check_on<F: Files>(
    alloc: Global,
    analysed: &Analysed,
    split: &Text,
    name: &str,
    files: &mut F,
) -> Result<Bytes, Halt>
    ensures { words.CheckOn (IsCall F.outside F.reads) split.now name.now analysed.now
        files.old result files.new }
{
    let cert = split_file(alloc, split, name, analysed, files)?;
    answer(alloc, analysed, name, &cert)
}

/// The verdict on the split certificate, whose task has this name.
fn answer(alloc: Global, analysed: &Analysed, name: &str, cert: &SplitCert) -> Result<Bytes, Halt>
    requires { IsLawful (rules_of analysed.now.plant) analysed.now.task cert.now }
    ensures { Says (words.HasVerdict analysed.now name.now cert.now) result }
{
    match check_split(alloc, &analysed.plant, analysed.task, cert)? {
        SplitVerdict::Yes => Ok(yes_text(alloc, name, cert.bound)?),
        SplitVerdict::No(why) => Err(Halt::Refused(split_refusal(alloc, &analysed.plant, why)?)),
    }
}
