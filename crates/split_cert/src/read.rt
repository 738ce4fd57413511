//! From a file's bytes to a split certificate.

ghost use Rattle.std.specs.Prelude.{◌≡◌, map, IfOk};
ghost use Rattle.listed.specs.Faults.{Gives};
ghost use Rattle.json_fields.specs.Files.{Answers};
ghost use Rattle.serde_json.specs.View.{view};
ghost use Rattle.certificate.specs.declared.fault.CertKind.TheVariants as CertKind;
ghost use Rattle.split_cert.specs.Certificate as words;
ghost use Rattle.split_cert.specs.Lawful.{IsLawful};

use crate::cert::SplitCert;
use crate::form::{Branch, SplitParts, branch_of, split_parts};
use abstract_sched::{StateRules, States};
use certificate::{
    BOUND_LIMIT, CertFault, CertKind, MULTIPLIER_LIMIT, MultiplierFormat, Numbers, states_of,
};
use json_fields::{Format, digits_below, digits_in, each, list_in, read_file, whole_in};
use listed::{Fault, told_as};
use serde_json::Value;
use split_trees::SplitTree;
use std::alloc::Global;

/// Cuts nest at most this deep.
const DEPTH_LIMIT: u32 = 100;

/// What has another form.
const NO_FORM: CertFault = Fault::Kind(CertKind::Shape);

/// What is no number within its limit.
const OUT_OF_RANGE: CertFault = Fault::Kind(CertKind::Range);

/// A split certificate for the task of this id and name.
#[derive(Clone, Copy)]
struct SplitFormat<'r> {
    rules: &'r StateRules,
    task: usize,
    name: &'r [u8],
}

/// Reads a split certificate for the task of this id and name. Cuts that nest deeper than 100 are out
/// of range, and where the JSON value nests deeper than its reader goes, the bytes are no JSON.
pub fn read_split(
    alloc: Global,
    rules: &StateRules,
    task: usize,
    name: &[u8],
    bytes: &[u8],
) -> Result<SplitCert, CertFault>
    ensures answer { Answers CertKind.Json (words.split_in rules.now task name.now) bytes.now result }
    ensures lawful { IfOk result (IsLawful rules.now task) }
{
    read_file(
        alloc,
        &SplitFormat { rules, task, name },
        CertKind::Json,
        bytes,
    )
}

impl Format for SplitFormat<'_> {
    type Item = SplitCert;

    type Kind = CertKind;

    ghost gives = { λ s _ d. words.split_in s.rules.now s.task s.name.now d };

    #[tactic(auto, unfolding(crate::specs::Certificate::split_in))]
    fn read(&self, alloc: Global, _place: usize, value: &Value) -> Result<SplitCert, CertFault> {
        let parts = split_parts(value).ok_or(NO_FORM)?;
        let bound = digits_below(parts.bound, BOUND_LIMIT).ok_or(OUT_OF_RANGE)?;
        let tree = shallow_tree_in(alloc, parts.tree)?;
        let states = told_as(states_of(alloc, self.rules, parts.states), CertKind::State)?;
        if parts.task.as_bytes() != self.name {
            return Err(Fault::Kind(CertKind::Task));
        }
        Ok(SplitCert {
            task: self.task,
            bound,
            states,
            tree,
        })
    }
}

/// The tree that a value of its form is, where its cuts don't nest too deep.
#[tactic(auto, unfolding(crate::specs::Certificate::shallow_tree_in))]
fn shallow_tree_in(alloc: Global, value: &Value) -> Result<SplitTree, CertFault>
    ensures { Gives result (words.shallow_tree_in (view value.now)) }
{
    let tree = tree_in(alloc, value)?;
    if tree.nests_within(DEPTH_LIMIT) {
        Ok(tree)
    } else {
        Err(OUT_OF_RANGE)
    }
}

/// The tree that a value of its form is, however deep its cuts nest.
fn tree_in(alloc: Global, value: &Value) -> Result<SplitTree, CertFault>
    ensures { Gives result (words.tree_in (view value.now)) }
{
    match branch_of(value) {
        Some(
            Branch::Three {
                denominator,
                multipliers,
                ..
            },
        ) => leaf_in(alloc, denominator, multipliers),
        Some(
            Branch::Five {
                column,
                k,
                low,
                high,
                ..
            },
        ) => {
            let place = place_in(column, k)?;
            let low = tree_in(alloc, low)?;
            let high = tree_in(alloc, high)?;
            Ok(SplitTree::cut(alloc, place.column, place.k, low, high)?)
        }
        None => Err(NO_FORM),
    }
}

/// Where a column is cut.
#[derive(Clone, Copy)]
struct Place {
    column: usize,
    k: u32,
}

fn place_in(column: &Value, k: &Value) -> Result<Place, CertFault>
    ensures { Gives result (words.place_in (view column.now) (view k.now)) }
{
    let column = whole_in(column, 0, u32::MAX as u64).ok_or(OUT_OF_RANGE)?;
    let k = whole_in(k, 0, i32::MAX as u64).ok_or(OUT_OF_RANGE)?;
    Ok(Place {
        column: column as usize,
        k: k as u32,
    })
}

#[tactic(auto, unfolding(crate::specs::Certificate::leaf_in))]
fn leaf_in(alloc: Global, denominator: &Value, multipliers: &Value) -> Result<SplitTree, CertFault>
    ensures { Gives result (words.leaf_in (view denominator.now) (view multipliers.now)) }
{
    let denominator = digits_in(denominator, MULTIPLIER_LIMIT).ok_or(OUT_OF_RANGE)?;
    let members = list_in(multipliers).ok_or(NO_FORM)?;
    let multipliers = each(alloc, &MultiplierFormat, members)?;
    if denominator == 0 {
        return Err(OUT_OF_RANGE);
    }
    Ok(SplitTree::leaf(denominator, Numbers::from_vec(multipliers.into_vec())))
}
