//! From a file's bytes to a timing.

ghost use Rattle.std.specs.Prelude.{◌≡◌, IfOk};
ghost use Rattle.listed.specs.Faults.{Gives};
ghost use Rattle.json_fields.specs.Files.{Answers};
ghost use Rattle.timing_file.specs.Lawful.{IsLawful};
ghost use Rattle.timing_file.specs.Timing as words;
ghost use Rattle.timing_file.specs.Working.InRange.{IsInRange};

use crate::checked::Checked;
use crate::fault::{TimingFault, TimingKind};
use crate::form::has_form;
use crate::keys::has_known_keys;
use crate::reading::timing_of;
use crate::spans::spans_differ;
use crate::timing::Timing;
use json_fields::{Format, read_file};
use listed::{Fault, Memory};
use serde_json::Value;
use std::alloc::Global;

/// Reads a timing file of version 1 or 2. In a file of version 1 the service Schedule costs the
/// default of `services`, a branch costs the same whether it is taken or not, and there are no
/// extras.
pub fn read_timing(alloc: Global, bytes: &[u8]) -> Result<Timing, TimingFault>
    ensures answer { Answers TimingKind.Json words.timing_in bytes.now result }
    ensures lawful { IfOk result IsLawful }
{
    match read_file(alloc, &TimingFormat, TimingKind::Json, bytes) {
        Ok(checked) => Ok(checked.into_timing()),
        Err(fault) => Err(fault),
    }
}

/// A timing file.
#[derive(Clone, Copy)]
struct TimingFormat;

impl Format for TimingFormat {
    type Item = Checked;

    type Kind = TimingKind;

    ghost gives = { λ _ _ d. words.timing_in d };

    fn read(&self, alloc: Global, _place: usize, value: &Value) -> Result<Checked, TimingFault> {
        if !has_form(value) {
            return Err(Fault::Kind(TimingKind::Shape));
        }
        if !has_known_keys(value) {
            return Err(Fault::Kind(TimingKind::Key));
        }
        let timing = timing_of(alloc, value)?;
        if_once(alloc, timing)
    }
}

fn if_once(alloc: Global, timing: Timing) -> Result<Checked, TimingFault>
    requires { IsInRange timing }
    ensures { Gives result (words.if_once timing) }
{
    if each_once(alloc, &timing)? {
        Ok(Checked::new(timing))
    } else {
        Err(Fault::Kind(TimingKind::Twice))
    }
}

fn each_once(alloc: Global, timing: &Timing) -> Result<bool, Memory>
    ensures { IfOk result (λ once. once ≡ words.each_once timing.now) }
{
    Ok(
        spans_differ(alloc, timing.loops.as_slice())?
            && spans_differ(alloc, timing.extra.as_slice())?,
    )
}
