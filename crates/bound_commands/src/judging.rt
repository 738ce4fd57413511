//! `check` judges a certificate: of a task of a system, or of the task of a flat image.
ghost use Rattle.scheduler_moves.specs.Moves.{rules_of};
ghost use Rattle.certificate.specs.Lawful.{IsLawful};
ghost use Rattle.command_steps.specs.Steps.{IsCall, Says};
ghost use Rattle.bound_commands.specs.Check as words;

use bound_checker::check;
use certificate::{Cert, Verdict};
use command_steps::Halt;
use inputs::{Analysed, Subject, certificate_file, read_subject, why_refusal};
use reports::yes_text;
use std::alloc::Global;
use wcet_io::{Bytes, Files, Text};

/// The answer by the subject's files and the certificate's.
pub fn checked<F: Files>(
    alloc: Global,
    subject: &Subject,
    certificate: &Text,
    files: &mut F,
) -> Result<Bytes, Halt>
    ensures { words.Check (IsCall F.outside F.reads) subject.now certificate.now
        files.old result files.new }
{
    let analysed = read_subject(alloc, subject, files)?;
    let answered = check_on(alloc, &analysed, certificate, subject.name(), files);
    drop(analysed);
    answered
}

fn check_on<F: Files>(
    alloc: Global,
    analysed: &Analysed,
    certificate: &Text,
    name: &str,
    files: &mut F,
) -> Result<Bytes, Halt>
    ensures { words.CheckOn (IsCall F.outside F.reads) certificate.now name.now analysed.now
        files.old result files.new }
{
    let cert = certificate_file(alloc, certificate, name, analysed, files)?;
    answer(alloc, analysed, name, &cert)
}

/// The verdict on the certificate, whose task has this name.
fn answer(alloc: Global, analysed: &Analysed, name: &str, cert: &Cert) -> Result<Bytes, Halt>
    requires { IsLawful (rules_of analysed.now.plant) analysed.now.task cert.now }
    ensures { Says (words.HasVerdict analysed.now name.now cert.now) result }
{
    match check(alloc, &analysed.plant, analysed.task, cert)? {
        Verdict::Yes => Ok(yes_text(alloc, name, cert.bound)?),
        Verdict::No(why) => Err(Halt::Refused(why_refusal(alloc, &analysed.plant, why)?)),
    }
}
