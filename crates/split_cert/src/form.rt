//! The form of split certificates in JSON: the types of values, and the lengths of lists.

ghost use Rattle.std.specs.Prelude.{◌≡◌, ◌&&◌, map, option_map};
ghost use Rattle.std.specs.List.{list_all};
ghost use Rattle.serde_json.specs.Data.{array};
ghost use Rattle.serde_json.specs.View.{view, items_view};
ghost use Rattle.json_fields.specs.Forms.{is_text};
ghost use Rattle.certificate.specs.Form.{is_state};
ghost use Rattle.split_cert.specs.Form as words;
ghost use Rattle.split_cert.specs.Working.Branches.{IsBranchOf};

use certificate::are_states;
use json_fields::{has_exactly, list_at, list_in, text_at};
use serde_json::Value;

/// The members of a value that has the form of a split certificate.
#[derive(Clone, Copy)]
pub(crate) struct SplitParts<'v> {
    pub(crate) bound: &'v str,
    pub(crate) states: &'v [Value],
    pub(crate) task: &'v str,
    pub(crate) tree: &'v Value,
}

#[tactic(auto, unfolding(crate::specs::Form::split_parts))]
pub(crate) fn split_parts(value: &Value) -> Option<SplitParts<'_>>
    ensures { option_map (λ parts. record {
      bound = parts.bound.now;
      states = map view parts.states.now;
      task = parts.task.now;
      tree = view parts.tree.now;
    }) result
        ≡ words.split_parts (view value.now) }
{
    if !has_exactly(value, &["bound", "states", "task", "tree"]) {
        return None;
    }
    let parts = SplitParts {
        bound: text_at(value, "bound")?,
        states: list_at(value, "states")?,
        task: text_at(value, "task")?,
        tree: value.get("tree")?,
    };
    if have_form(parts.states, parts.tree) {
        Some(parts)
    } else {
        None
    }
}

fn have_form(states: &[Value], tree: &Value) -> bool
    ensures { result ≡ (list_all (λ v. is_state (view v)) states.now
        && words.is_tree (view tree.now)) }
{
    are_states(states) && is_tree(tree)
}

/// The members of a list as long as those that have the form of a tree.
#[derive(Clone, Copy)]
pub(crate) enum Branch<'v> {
    Three {
        word: &'v Value,
        denominator: &'v Value,
        multipliers: &'v Value,
    },
    Five {
        word: &'v Value,
        column: &'v Value,
        k: &'v Value,
        low: &'v Value,
        high: &'v Value,
    },
}

pub(crate) fn branch_of(value: &Value) -> Option<Branch<'_>>
    ensures { IsBranchOf (view value.now) result }
{
    match list_in(value) {
        Some(members) => branch_in(members),
        None => None,
    }
}

fn branch_in(members: &[Value]) -> Option<Branch<'_>>
    ensures { IsBranchOf (array (items_view members.now)) result }
{
    match members.len() {
        3 => Some(Branch::Three {
            word: &members[0],
            denominator: &members[1],
            multipliers: &members[2],
        }),
        5 => Some(Branch::Five {
            word: &members[0],
            column: &members[1],
            k: &members[2],
            low: &members[3],
            high: &members[4],
        }),
        _ => None,
    }
}

/// Whether a value has the form of a tree.
fn is_tree(value: &Value) -> bool
    ensures { result ≡ words.is_tree (view value.now) }
{
    match branch_of(value) {
        Some(
            Branch::Three {
                word,
                denominator,
                multipliers,
            },
        ) => is_leaf(word, denominator, multipliers),
        Some(
            Branch::Five {
                word,
                column,
                k,
                low,
                high,
            },
        ) => is_cut(word, column, k) && is_tree(low) && is_tree(high),
        None => false,
    }
}

fn is_leaf(word: &Value, denominator: &Value, multipliers: &Value) -> bool
    ensures { result ≡ words.is_leaf (view word.now) (view denominator.now) (view multipliers.now) }
{
    is_word(word, "leaf") && denominator.is_string() && are_texts(multipliers)
}

fn is_cut(word: &Value, column: &Value, k: &Value) -> bool
    ensures { result ≡ words.is_cut (view word.now) (view column.now) (view k.now) }
{
    is_word(word, "cut") && column.is_number() && k.is_number()
}

fn is_word(value: &Value, word: &str) -> bool
    ensures { result ≡ words.is_word word.now (view value.now) }
{
    match value.as_str() {
        Some(text) => word == text,
        None => false,
    }
}

#[tactic(auto, using(crate::proofs::Branches::are_texts_view))]
fn are_texts(value: &Value) -> bool
    ensures { result ≡ words.are_texts (view value.now) }
{
    match list_in(value) {
        Some(members) => all_texts(members),
        None => false,
    }
}

fn all_texts(values: &[Value]) -> bool
    ensures { result ≡ list_all (λ v. is_text (view v)) values.now }
{
    values.iter().all(|value| value.is_string())
}
