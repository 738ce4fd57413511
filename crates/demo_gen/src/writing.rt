//! The texts of generated systems.
ghost use Rattle.std.specs.Prelude.{◌≡◌, ◌≤◌, All, map, Ok, IfOk};
ghost use Rattle.json_fields.specs.Files.{IsGiven};
ghost use Rattle.certificate.specs.States.{states_in};
ghost use Rattle.certificate.specs.declared.fault.StatesKind.TheVariants as StatesKind;
ghost use Rattle.elf_image.specs.Elf.{IsImageOf};
ghost use Rattle.timing_file.specs.Timing.{timing_in};
ghost use Rattle.timing_file.specs.declared.fault.TimingKind.TheVariants as TimingKind;
ghost use Rattle.demo_gen.specs.Reading.{the_rules, AreRead};
ghost use Rattle.certificate.specs.Writing as writing;
ghost use Rattle.elf_image.specs.Plain.{IsPlain, plain_file};
ghost use Rattle.oil_grammar.specs.Grammar.{IsTextOf};
ghost use Rattle.oil_grammar.specs.Layout.{layout_of};
ghost use Rattle.demo_gen.specs.Draws.{base, tasks_of};
ghost use Rattle.demo_gen.specs.Demo.{words_of, symbol_of, the_image, the_timing, the_tree, the_states};
ghost use Rattle.demo_gen.specs.Texts as words;
ghost use Rattle.demo_gen.specs.Texts.{texts_of, the_demo};
ghost use Rattle.demo_gen.specs.Working.Drawn.{AreDrawn, IsSmall};

use crate::code::{code_of, symbols_of};
use crate::draws::{BASE, tasks};
use crate::objects::tree_of;
use crate::states::states_of;
use crate::task::DemoTask;
use crate::texts::{Bytes, Demo};
use crate::timing::timing_value;
use certificate::write_states;
use elf_image::plain_elf;
use listed::Memory;
use oil_grammar::write_oil;
use std::alloc::Global;

/// The texts of the system that the seed gives for so many tasks, 1 to 8. Each passes its reader.
pub fn demo(alloc: Global, seed: u32, count: usize) -> Result<Demo, Memory>
    requires some { 1 ≤ count }
    requires few { count ≤ 8 }
    ensures text { IfOk result (λ made. made ≡ the_demo seed count) }
    ensures read { IfOk result (AreRead (tasks_of seed count)) }
{
    let tasks = tasks(alloc, seed, count)?;
    texts(alloc, &tasks)
}

/// The texts of the system of these tasks.
fn texts(alloc: Global, tasks: &[DemoTask]) -> Result<Demo, Memory>
    requires { AreDrawn tasks.now }
    ensures text { IfOk result (λ made. made ≡ texts_of tasks.now) }
    ensures read { IfOk result (AreRead tasks.now) }
{
    let oil = oil_text(alloc, tasks)?;
    let elf = elf_text(alloc, tasks)?;
    let timing = timing_text(alloc, tasks)?;
    let states = states_text(alloc, tasks.len())?;
    Ok(Demo {
        oil,
        elf,
        timing,
        states,
    })
}

fn oil_text(alloc: Global, tasks: &[DemoTask]) -> Result<Bytes, Memory>
    requires { AreDrawn tasks.now }
    ensures text { IfOk result (λ text. text ≡ layout_of (the_tree tasks.now)) }
    ensures again { IfOk result (λ text. IsTextOf (the_tree tasks.now) text) }
{
    let tree = tree_of(alloc, tasks)?;
    write_oil(alloc, &tree)
}

fn elf_text(alloc: Global, tasks: &[DemoTask]) -> Result<Bytes, Memory>
    requires small { All IsSmall tasks.now }
    requires plain { IsPlain base (words_of tasks.now) (map symbol_of tasks.now) }
    ensures text { IfOk result (λ text. text
        ≡ plain_file base (words_of tasks.now) (map symbol_of tasks.now)) }
    ensures again { IfOk result (λ text. IsImageOf text (the_image tasks.now)) }
{
    let code = code_of(alloc, tasks)?;
    let symbols = symbols_of(alloc, tasks)?;
    plain_elf(alloc, BASE, &code, &symbols)
}

fn timing_text(alloc: Global, tasks: &[DemoTask]) -> Result<Bytes, Memory>
    requires { AreDrawn tasks.now }
    ensures text { IfOk result (λ text. text ≡ words.timing_text tasks.now) }
    ensures again { IfOk result (λ text.
        IsGiven TimingKind.Json timing_in text (Ok (the_timing tasks.now))) }
{
    let value = timing_value(alloc, tasks)?;
    let mut text = value.to_vec(alloc)?;
    text.push(b'\n')?;
    Ok(Bytes::from_vec(text))
}

fn states_text(alloc: Global, count: usize) -> Result<Bytes, Memory>
    requires { count ≤ 8 }
    ensures text { IfOk result (λ text. text ≡ writing.states_text (the_states count)) }
    ensures again { IfOk result (λ text.
        IsGiven StatesKind.Json (states_in (the_rules count)) text (Ok (the_states count))) }
{
    let states = states_of(alloc, count)?;
    write_states(alloc, states.as_slice())
}
