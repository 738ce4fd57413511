//! Split certificates as inputs.
ghost use Rattle.std.specs.Prelude.{IfOk};
ghost use Rattle.scheduler_moves.specs.Moves.{rules_of};
ghost use Rattle.split_cert.specs.Lawful.{IsLawful};
ghost use Rattle.command_steps.specs.Steps.{IsCall, Says};
ghost use Rattle.split_commands.specs.SplitFiles as words;

use certificate::CertFault;
use command_steps::{Halt, read_file};
use inputs::Analysed;
use reports::cert_refusal;
use scheduler_moves::rules;
use split_cert::{SplitCert, read_split};
use std::alloc::Global;
use wcet_io::{Bytes, Files, Text};

/// The most bytes of a split certificate.
const SPLIT_LIMIT: usize = 67_108_864;

/// The split certificate in the file for the task, which has this name.
pub fn split_file<F: Files>(
    alloc: Global,
    split: &Text,
    name: &str,
    analysed: &Analysed,
    files: &mut F,
) -> Result<SplitCert, Halt>
    ensures steps { words.SplitFile (IsCall F.outside F.reads) split.now name.now
        analysed.now files.old result files.new }
    ensures lawful { IfOk result (IsLawful (rules_of analysed.now.plant) analysed.now.task) }
{
    let bytes = read_file(alloc, split, SPLIT_LIMIT, files)?;
    split_in(alloc, name, analysed, &bytes)
}

fn split_in(
    alloc: Global,
    name: &str,
    analysed: &Analysed,
    bytes: &Bytes,
) -> Result<SplitCert, Halt>
    ensures answer { Says (words.HasSplit analysed.now name.now bytes.now) result }
    ensures lawful { IfOk result (IsLawful (rules_of analysed.now.plant) analysed.now.task) }
{
    let rules = rules(alloc, &analysed.plant)?;
    match read_split(
        alloc,
        &rules,
        analysed.task,
        name.as_bytes(),
        bytes.as_slice(),
    ) {
        Ok(cert) => Ok(cert),
        Err(CertFault::Kind(kind)) => Err(Halt::Refused(cert_refusal(alloc, kind)?)),
        Err(CertFault::Memory) => Err(Halt::Memory),
    }
}
