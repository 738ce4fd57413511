//! Generated systems as their readers give them. The texts are read by the ordinary readers, of
//! which none refuses.
ghost use Rattle.std.specs.Prelude.{◌≡◌, ◌≤◌, true, Ok, None, IfOk};
ghost use Rattle.listed.specs.Lists.{differ};
ghost use Rattle.json_fields.specs.Files.{IsGiven};
ghost use Rattle.elf_image.specs.Elf.{IsImageOf};
ghost use Rattle.elf_image.specs.Image.{ImageData};
ghost use Rattle.oil_grammar.specs.Faults.{HasTree};
ghost use Rattle.oil_grammar.specs.Grammar.{IsTextOf, IsWellFormed};
ghost use Rattle.oil_model.specs.Meaning.{IsSystemOf, model_fault_of};
ghost use Rattle.oil_model.specs.System.{IsLawful as IsLawfulSystem};
ghost use Rattle.timing_file.specs.Lawful.{IsLawful as IsLawfulTiming};
ghost use Rattle.timing_file.specs.Timing.{timing_in};
ghost use Rattle.timing_file.specs.declared.fault.TimingKind.TheVariants as TimingKind;
ghost use Rattle.wcet_atomic_blocks.specs.Plants.{IsPlantOf};
ghost use Rattle.abstract_sched.specs.Fits.{AreLawful};
ghost use Rattle.abstract_sched.specs.States.{same_state};
ghost use Rattle.scheduler_moves.specs.Closed.{IsClosed};
ghost use Rattle.scheduler_moves.specs.Moves.{rules_of};
ghost use Rattle.certificate.specs.States.{states_in};
ghost use Rattle.certificate.specs.declared.fault.StatesKind.TheVariants as StatesKind;
ghost use Rattle.demo_gen.specs.Demo.{the_image, the_system, the_timing, the_states};
ghost use Rattle.demo_plants.specs.Laws.{HavePlant};
ghost use Rattle.demo_plants.specs.Working.Sources.{IsSource, tasks_in};
ghost use Rattle.demo_plants.specs.Reading.{IsGenerated, IsTimingText, AreStatesText};

use certificate::{States, StatesFault, read_states};
use demo_gen::{Demo, demo};
use elf_image::{ElfFault, Image, read_elf};
use listed::Memory;
use oil_grammar::{OilFault, Tree, one_tree, read_oil};
use oil_model::{ModelFault, System, model};
use scheduler_moves::rules;
use std::alloc::Global;
use timing_file::{Timing, TimingFault, read_timing};
use wcet_atomic_blocks::{Plant, PlantFault, plant};

/// The tree of a text that has one.
fn tree_of(alloc: Global, oil: &[u8]) -> Result<Tree, Memory>
    requires { HasTree oil.now }
    ensures { IfOk result (λ tree. IsTextOf tree oil.now) }
{
    match read_oil(alloc, oil) {
        Ok(tree) => Ok(tree),
        Err(OilFault::Memory) => Err(Memory),
        Err(OilFault::At { .. }) => unreachable!(),
    }
}

/// The system of a tree without a fault.
fn modelled(alloc: Global, tree: &Tree) -> Result<System, Memory>
    requires formed { IsWellFormed tree.now }
    requires sound { model_fault_of tree.now ≡ None }
    ensures is { IfOk result (IsSystemOf tree.now) }
    ensures lawful { IfOk result IsLawfulSystem }
{
    match model(alloc, tree) {
        Ok(system) => Ok(system),
        Err(ModelFault::Memory) => Err(Memory),
        Err(ModelFault::At { .. }) => unreachable!(),
    }
}

/// The image of a file that has one.
fn image_of(alloc: Global, elf: &[u8]) -> Result<Image, Memory>
    requires { (image : ImageData) × IsImageOf elf.now image }
    ensures { IfOk result (IsImageOf elf.now) }
{
    match read_elf(alloc, elf) {
        Ok(image) => Ok(image),
        Err(ElfFault::Memory) => Err(Memory),
        Err(ElfFault::Kind(_)) => unreachable!(),
    }
}

/// The timing of a text that has one.
fn timing_of(alloc: Global, text: &[u8]) -> Result<Timing, Memory>
    requires { IsTimingText text.now }
    ensures is { IfOk result (λ timing. IsGiven TimingKind.Json timing_in text.now (Ok timing)) }
    ensures lawful { IfOk result IsLawfulTiming }
{
    match read_timing(alloc, text) {
        Ok(timing) => Ok(timing),
        Err(TimingFault::Memory) => Err(Memory),
        Err(TimingFault::Kind(_)) => unreachable!(),
    }
}

/// The states of a text that has some by the rules of the plant.
fn states_of(alloc: Global, plant: &Plant, text: &[u8]) -> Result<States, Memory>
    requires { AreStatesText plant.now text.now }
    ensures are { IfOk result (λ states. IsGiven StatesKind.Json (states_in (rules_of plant.now))
        text.now (Ok states)) }
    ensures lawful { IfOk result (AreLawful (rules_of plant.now)) }
{
    let rules = rules(alloc, plant)?;
    match read_states(alloc, &rules, text) {
        Ok(states) => Ok(states),
        Err(StatesFault::Memory) => Err(Memory),
        Err(StatesFault::Kind(_)) => unreachable!(),
    }
}

/// The plant of three that have one.
fn plant_of(alloc: Global, image: Image, system: System, timing: Timing) -> Result<Plant, Memory>
    requires system { IsLawfulSystem system }
    requires timing { IsLawfulTiming timing }
    requires have { HavePlant image system timing }
    ensures { IfOk result (IsPlantOf image system timing) }
{
    match plant(alloc, image, system, timing) {
        Ok(plant) => Ok(plant),
        Err(PlantFault::Memory) => Err(Memory),
        Err(PlantFault::Code(_)) => unreachable!(),
        Err(PlantFault::Block(_)) => unreachable!(),
    }
}

/// The texts of the system of a seed with so many tasks.
#[derive(Drop)]
struct Source {
    seed: u32,
    count: usize,
    texts: Demo,
}

/// A generated system as its readers give it: its plant, and its list of states.
#[derive(Debug, Drop)]
pub struct Generated {
    pub plant: Plant,
    pub states: States,
}

/// The generated system of a seed with so many tasks, 1 to 8, read from its four texts.
pub fn read_generated(alloc: Global, seed: u32, count: usize) -> Result<Generated, Memory>
    requires some { 1 ≤ count }
    requires few { count ≤ 8 }
    ensures { IfOk result (IsGenerated seed count) }
{
    let texts = demo(alloc, seed, count)?;
    read_all(alloc, &Source { seed, count, texts })
}

fn read_all(alloc: Global, source: &Source) -> Result<Generated, Memory>
    requires { IsSource source.now }
    ensures { IfOk result (IsGenerated source.now.seed source.now.count) }
{
    let system = system_of(alloc, source)?;
    read_with_system(alloc, source, system)
}

fn read_with_system(alloc: Global, source: &Source, system: System) -> Result<Generated, Memory>
    requires whole { IsSource source.now }
    requires is { system ≡ the_system (tasks_in source.now) }
    requires lawful { IsLawfulSystem system }
    ensures { IfOk result (IsGenerated source.now.seed source.now.count) }
{
    let image = image_of(alloc, source.texts.elf.as_slice())?;
    read_with_image(alloc, source, system, image)
}

fn read_with_image(
    alloc: Global,
    source: &Source,
    system: System,
    image: Image,
) -> Result<Generated, Memory>
    requires whole { IsSource source.now }
    requires system { system ≡ the_system (tasks_in source.now) }
    requires lawful { IsLawfulSystem system }
    requires image { image ≡ the_image (tasks_in source.now) }
    ensures { IfOk result (IsGenerated source.now.seed source.now.count) }
{
    let timing = timing_of(alloc, source.texts.timing.as_slice())?;
    read_with_timing(alloc, source, system, image, timing)
}

fn read_with_timing(
    alloc: Global,
    source: &Source,
    system: System,
    image: Image,
    timing: Timing,
) -> Result<Generated, Memory>
    requires whole { IsSource source.now }
    requires system { system ≡ the_system (tasks_in source.now) }
    requires image { image ≡ the_image (tasks_in source.now) }
    requires timing { timing ≡ the_timing (tasks_in source.now) }
    requires lawful { IsLawfulSystem system }
    requires lawful_too { IsLawfulTiming timing }
    ensures { IfOk result (IsGenerated source.now.seed source.now.count) }
{
    let plant = plant_of(alloc, image, system, timing)?;
    read_with_plant(alloc, source, plant)
}

fn read_with_plant(alloc: Global, source: &Source, plant: Plant) -> Result<Generated, Memory>
    requires whole { IsSource source.now }
    requires plant { IsPlantOf (the_image (tasks_in source.now)) (the_system (tasks_in source.now))
        (the_timing (tasks_in source.now)) plant }
    ensures { IfOk result (IsGenerated source.now.seed source.now.count) }
{
    let states = states_of(alloc, &plant, source.texts.states.as_slice())?;
    Ok(Generated { plant, states })
}

/// The system of the OIL text.
fn system_of(alloc: Global, source: &Source) -> Result<System, Memory>
    requires { IsSource source.now }
    ensures is { IfOk result (λ system. system ≡ the_system (tasks_in source.now)) }
    ensures lawful { IfOk result IsLawfulSystem }
{
    one_tree();
    let tree = tree_of(alloc, source.texts.oil.as_slice())?;
    let system = modelled(alloc, &tree)?;
    Ok(system)
}
