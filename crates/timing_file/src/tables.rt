//! The costs of a timing file.

ghost use Rattle.std.specs.Prelude.{◌≡◌, Some, None, IfSome, OnSome, IfNone, length};
ghost use Rattle.serde_json.specs.View.{view};
ghost use Rattle.json_fields.specs.Objects.{texts};
ghost use Rattle.timing_file.specs.Lawful.{IsCost, AreCosts};
ghost use Rattle.timing_file.specs.Tables as words;
ghost use Rattle.timing_file.specs.Working.InRange.{AreAllCosts};

use crate::costs::{ClassCosts, ServiceCosts};
use crate::keys::{class_keys_of, service_keys};
use json_fields::whole_in;
use rv32_decode::Class;
use serde_json::Value;

/// A cost is at most this many cycles.
const MOST: u64 = 1 << 20;

/// The costs of a timing file.
#[derive(Clone, Copy)]
pub(crate) struct Costs {
    pub(crate) classes: ClassCosts,
    pub(crate) taken: u32,
    pub(crate) services: ServiceCosts,
    pub(crate) alarm: u32,
    pub(crate) interrupt: u32,
}

/// The costs that a value of the right form and keys gives, if each is in its range.
#[tactic(auto, unfolding(crate::specs::Tables::costs_of))]
pub(crate) fn costs_of(value: &Value) -> Option<Costs>
    ensures value { result ≡ words.costs_of (view value.now) }
    ensures range { IfSome result AreAllCosts }
{
    whole_in(value.get("version")?, 1, 2)?;
    let classes = class_costs_of(value.get("classes")?)?;
    let taken = cost_or(
        value.get("classes")?,
        "branch_taken",
        classes.cost(Class::Branch),
    )?;
    let services = service_costs_of(value.get("services")?)?;
    let alarm = cost_at(value, "alarm")?;
    let interrupt = cost_at(value, "interrupt")?;
    Some(Costs {
        classes,
        taken,
        services,
        alarm,
        interrupt,
    })
}

fn class_costs_of(table: &Value) -> Option<ClassCosts>
    ensures value { result ≡ words.class_costs_of (view table.now) }
    ensures range { IfSome result (λ classes. AreCosts 8 classes.costs) }
{
    let default = cost_at(table, "default")?;
    let mut costs = [default; 8];
    fill(&mut costs, table, class_keys_of(false), default)?;
    Some(ClassCosts { costs })
}

fn service_costs_of(table: &Value) -> Option<ServiceCosts>
    ensures value { result ≡ words.service_costs_of (view table.now) }
    ensures range { IfSome result (λ services. AreCosts 13 services.costs) }
{
    let default = cost_at(table, "default")?;
    let mut costs = [default; 13];
    fill(&mut costs, table, service_keys(), default)?;
    Some(ServiceCosts { costs })
}

/// Fills in the costs at the keys.
fn fill(costs: &mut [u32], table: &Value, keys: &[&str], default: u32) -> Option<()>
    requires { length costs.old ≡ length (texts keys.now) }
    ensures some { OnSome result
        (words.costs_at default (view table.now) (texts keys.now) ≡ Some costs.new) }
    ensures none { IfNone result
        (words.costs_at default (view table.now) (texts keys.now) ≡ None) }
    ensures range { OnSome result (IsCost default → AreCosts (length (texts keys.now)) costs.new) }
{
    for (place, key) in keys.iter().enumerate() {
        costs[place] = cost_or(table, *key, default)?;
    }
    Some(())
}

fn cost_or(table: &Value, key: &str, default: u32) -> Option<u32>
    ensures value { result ≡ words.cost_or default (view table.now) key.now }
    ensures range { IsCost default → IfSome result IsCost }
{
    match table.get(key) {
        Some(cost) => cost_in(cost),
        None => Some(default),
    }
}

fn cost_at(value: &Value, key: &str) -> Option<u32>
    ensures value { result ≡ words.cost_at key.now (view value.now) }
    ensures range { IfSome result IsCost }
{
    cost_in(value.get(key)?)
}

fn cost_in(value: &Value) -> Option<u32>
    ensures value { result ≡ words.cost_in (view value.now) }
    ensures range { IfSome result IsCost }
{
    let cost = whole_in(value, 1, MOST)?;
    Some(cost as u32)
}
