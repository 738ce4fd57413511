//! From a file's bytes to a certificate or a list of states.

ghost use Rattle.std.specs.Prelude.{◌≡◌, ◌&&◌, map, option_map, IfOk};
ghost use Rattle.std.specs.List.{list_all};
ghost use Rattle.listed.specs.Faults.{Gives};
ghost use Rattle.json_fields.specs.Files.{Answers};
ghost use Rattle.json_fields.specs.Forms.{is_text};
ghost use Rattle.serde_json.specs.View.{view};
ghost use Rattle.abstract_sched.specs.Fits.{AreLawful};
ghost use Rattle.certificate.specs.Certificate as words;
ghost use Rattle.certificate.specs.Form as form;
ghost use Rattle.certificate.specs.Form.{is_state};
ghost use Rattle.certificate.specs.Lawful.{IsLawful};
ghost use Rattle.certificate.specs.States.{states_in};

use crate::cert::{Cert, Numbers};
use crate::fault::{CertFault, CertKind, StatesFault, StatesKind};
use crate::form::are_states;
use crate::reading::states_of;
use abstract_sched::{StateRules, States};
use json_fields::{
    Format, digits_below, digits_in, each, has_exactly, list_at, list_in, read_file, text_at,
};
use listed::{Fault, told_as};
use serde_json::Value;
use std::alloc::Global;

/// Bounds are below it.
pub const BOUND_LIMIT: u128 = 1 << 120;

/// Denominators and multipliers are below it.
pub const MULTIPLIER_LIMIT: u128 = 1 << 80;

/// What is no number within its limit.
const OUT_OF_RANGE: CertFault = Fault::Kind(CertKind::Range);

/// A certificate for the task of this id and name.
#[derive(Clone, Copy)]
struct CertFormat<'r> {
    rules: &'r StateRules,
    task: usize,
    name: &'r [u8],
}

/// A list of scheduler states.
#[derive(Clone, Copy)]
struct StatesFormat<'r> {
    rules: &'r StateRules,
}

/// A multiplier of a row: a text of decimal digits, for a number below its limit.
#[derive(Clone, Copy)]
pub struct MultiplierFormat;

/// The members of a value that has the form of a certificate.
#[derive(Clone, Copy)]
struct CertParts<'v> {
    bound: &'v str,
    denominator: &'v str,
    multipliers: &'v [Value],
    states: &'v [Value],
    task: &'v str,
}

/// The numbers of a certificate.
#[derive(Drop)]
struct CertNumbers {
    bound: u128,
    denominator: u128,
    multipliers: Numbers,
}

/// Reads a certificate for the task of this id and name.
pub fn read_cert(
    alloc: Global,
    rules: &StateRules,
    task: usize,
    name: &[u8],
    bytes: &[u8],
) -> Result<Cert, CertFault>
    ensures answer { Answers CertKind.Json (words.cert_in rules.now task name.now) bytes.now result }
    ensures lawful { IfOk result (IsLawful rules.now task) }
{
    read_file(
        alloc,
        &CertFormat { rules, task, name },
        CertKind::Json,
        bytes,
    )
}

/// Reads a list of scheduler states, in the order of the file.
pub fn read_states(alloc: Global, rules: &StateRules, bytes: &[u8]) -> Result<States, StatesFault>
    ensures answer { Answers StatesKind.Json (states_in rules.now) bytes.now result }
    ensures lawful { IfOk result (AreLawful rules.now) }
{
    read_file(alloc, &StatesFormat { rules }, StatesKind::Json, bytes)
}

impl Format for StatesFormat<'_> {
    type Item = States;

    type Kind = StatesKind;

    ghost gives = { λ s _ d. states_in s.rules.now d };

    fn read(&self, alloc: Global, _place: usize, value: &Value) -> Result<States, StatesFault> {
        let values = state_list(value).ok_or(Fault::Kind(StatesKind::Shape))?;
        states_of(alloc, self.rules, values)
    }
}

impl Format for CertFormat<'_> {
    type Item = Cert;

    type Kind = CertKind;

    ghost gives = { λ s _ d. words.cert_in s.rules.now s.task s.name.now d };

    fn read(&self, alloc: Global, _place: usize, value: &Value) -> Result<Cert, CertFault> {
        let parts = cert_parts(value).ok_or(Fault::Kind(CertKind::Shape))?;
        let numbers = cert_numbers(alloc, parts)?;
        let states = told_as(states_of(alloc, self.rules, parts.states), CertKind::State)?;
        if parts.task.as_bytes() != self.name {
            return Err(Fault::Kind(CertKind::Task));
        }
        Ok(Cert {
            task: self.task,
            bound: numbers.bound,
            denominator: numbers.denominator,
            states,
            multipliers: numbers.multipliers,
        })
    }
}

impl Format for MultiplierFormat {
    type Item = u128;

    type Kind = CertKind;

    ghost gives = { λ _ _ d. words.multiplier_in d };

    fn read(&self, _alloc: Global, _place: usize, value: &Value) -> Result<u128, CertFault> {
        digits_in(value, MULTIPLIER_LIMIT).ok_or(OUT_OF_RANGE)
    }
}

fn state_list(value: &Value) -> Option<&[Value]>
    ensures { option_map (λ vs. map view vs.now) result ≡ form.state_list (view value.now) }
{
    let values = list_in(value)?;
    if are_states(values) {
        Some(values)
    } else {
        None
    }
}

#[tactic(auto, unfolding(crate::specs::Certificate::cert_numbers))]
fn cert_numbers(alloc: Global, parts: CertParts<'_>) -> Result<CertNumbers, CertFault>
    ensures { Gives result (words.cert_numbers (record {
      bound = parts.entry.bound.now;
      denominator = parts.entry.denominator.now;
      multipliers = map view parts.entry.multipliers.now;
      states = map view parts.entry.states.now;
      task = parts.entry.task.now;
    })) }
{
    let bound = digits_below(parts.bound, BOUND_LIMIT).ok_or(OUT_OF_RANGE)?;
    let denominator = digits_below(parts.denominator, MULTIPLIER_LIMIT).ok_or(OUT_OF_RANGE)?;
    let multipliers = each(alloc, &MultiplierFormat, parts.multipliers)?;
    if denominator == 0 {
        return Err(OUT_OF_RANGE);
    }
    Ok(CertNumbers {
        bound,
        denominator,
        multipliers: Numbers::from_vec(multipliers.into_vec()),
    })
}

#[tactic(auto, unfolding(crate::specs::Form::cert_parts))]
fn cert_parts(value: &Value) -> Option<CertParts<'_>>
    ensures { option_map (λ parts. record {
      bound = parts.bound.now;
      denominator = parts.denominator.now;
      multipliers = map view parts.multipliers.now;
      states = map view parts.states.now;
      task = parts.task.now;
    }) result
        ≡ form.cert_parts (view value.now) }
{
    if !has_exactly(
        value,
        &["bound", "denominator", "multipliers", "states", "task"],
    ) {
        return None;
    }
    let parts = CertParts {
        bound: text_at(value, "bound")?,
        denominator: text_at(value, "denominator")?,
        multipliers: list_at(value, "multipliers")?,
        states: list_at(value, "states")?,
        task: text_at(value, "task")?,
    };
    if have_form(parts.multipliers, parts.states) {
        Some(parts)
    } else {
        None
    }
}

fn have_form(multipliers: &[Value], states: &[Value]) -> bool
    ensures { result ≡ (list_all (λ v. is_text (view v)) multipliers.now
        && list_all (λ v. is_state (view v)) states.now) }
{
    are_texts(multipliers) && are_states(states)
}

fn are_texts(values: &[Value]) -> bool
    ensures { result ≡ list_all (λ v. is_text (view v)) values.now }
{
    values.iter().all(|value| value.is_string())
}
