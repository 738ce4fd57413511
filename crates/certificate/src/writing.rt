//! The JSON value of a scheduler state, and of a number.

ghost use Rattle.std.specs.Prelude.{◌≡◌, ◌∷◌, ◌++◌, map, IfOk};
ghost use Rattle.serde_json.specs.View.{view};
ghost use Rattle.certificate.specs.Writing as words;

use abstract_sched::{AbsState, IsrAt, TaskAt};
use serde_json::{Value, json};
use std::alloc::{AllocError, Global};

/// What is written as a JSON value.
pub trait Written {
    ghost use Rattle.serde_json.specs.Data.{Data};

    ghost data_of: { Self → Data };

    fn value(&self, alloc: Global) -> Result<Value, AllocError>
        ensures { IfOk result (λ v. view v ≡ data_of self.now) };
}

/// A number of a certificate is written as a text of decimal digits.
impl Written for u128 {
    ghost use Rattle.certificate.specs.Writing.{digits_data};

    ghost data_of = { digits_data };

    fn value(&self, alloc: Global) -> Result<Value, AllocError> {
        digits_value(alloc, *self)
    }
}

/// A number of a state is written as a number.
impl Written for usize {
    ghost use Rattle.certificate.specs.Writing.{number_data};

    ghost data_of = { number_data };

    fn value(&self, _alloc: Global) -> Result<Value, AllocError> {
        Ok(Value::from(*self))
    }
}

impl Written for TaskAt {
    ghost use Rattle.certificate.specs.Writing.{task_data};

    ghost data_of = { task_data };

    fn value(&self, alloc: Global) -> Result<Value, AllocError> {
        match self {
            TaskAt::Suspended => Ok(Value::Array(Vec::new(alloc))),
            TaskAt::At { block, inner, held } => task_value(alloc, *block, *inner, held.as_slice()),
        }
    }
}

impl Written for AbsState {
    ghost use Rattle.certificate.specs.Writing.{state_data};

    ghost data_of = { state_data };

    fn value(&self, alloc: Global) -> Result<Value, AllocError> {
        let tasks = list_of(alloc, self.tasks.as_slice())?;
        let isr = isr_value(alloc, self.isr)?;
        let disabled = self.disabled as u8;
        json!(in alloc; [self.mode, tasks, isr, disabled, self.suspended])
    }
}

/// The list of what is written for each of the members.
pub fn list_of<T: Written>(alloc: Global, members: &[T]) -> Result<Value, AllocError>
    ensures { IfOk result (λ v. view v ≡ words.list_data (map T.data_of members.now)) }
{
    list_after(alloc, Vec::new(alloc), members)
}

/// The list of the values, and then what is written for each of the members.
fn list_after<T: Written>(
    alloc: Global,
    front: Vec<Value>,
    members: &[T],
) -> Result<Value, AllocError>
    ensures { IfOk result (λ v. view v
        ≡ words.list_data (map view front.items ++ map T.data_of members.now)) }
{
    let mut values = front;
    for member in members {
        values.push(member.value(alloc)?)?;
    }
    Ok(Value::Array(values))
}

/// The text of the number's decimal digits.
pub fn digits_value(alloc: Global, number: u128) -> Result<Value, AllocError>
    ensures { IfOk result (λ v. view v ≡ words.digits_data number) }
{
    let digits = format!(in alloc; "{number}")?;
    Ok(Value::String(digits))
}

fn task_value(alloc: Global, block: usize, inner: bool, held: &[usize]) -> Result<Value, AllocError>
    ensures { IfOk result (λ v. view v
        ≡ words.list_data (words.number_data block ∷ words.flag_data inner
        ∷ map words.number_data held.now)) }
{
    let mut front = Vec::new(alloc);
    front.push(Value::from(block))?;
    front.push(Value::from(inner as u8))?;
    list_after(alloc, front, held)
}

fn isr_value(alloc: Global, isr: Option<IsrAt>) -> Result<Value, AllocError>
    ensures { IfOk result (λ v. view v ≡ words.isr_data isr) }
{
    match isr {
        Some(at) => json!(in alloc; [at.isr, at.block]),
        None => Ok(Value::Array(Vec::new(alloc))),
    }
}
