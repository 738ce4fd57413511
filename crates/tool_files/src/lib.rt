//! The files of a system, as small programs of tools/ read them: a plant by the names of its three files, and a list of
//! states over it. A fault is told in a line; which one it is says `syswcet show code OIL ELF TIMING`. Nothing of the
//! analyser stands on this crate.
#![tactic(auto)]

ghost use Rattle.std.specs.Prelude.{◌≡◌, true, IfOk};
ghost use Rattle.listed.specs.Lists.{differ};
ghost use Rattle.oil_grammar.specs.Grammar.{IsWellFormed};
ghost use Rattle.oil_model.specs.System.{IsLawful as IsLawfulSystem};
ghost use Rattle.timing_file.specs.Lawful.{IsLawful as IsLawfulTiming};
ghost use Rattle.abstract_sched.specs.States.{same_state};

use abstract_sched::States;
use anyhow::{Result, anyhow};
use certificate::read_states;
use elf_image::{Image, read_elf};
use oil_grammar::{Tree, read_oil};
use oil_model::{System, model};
use scheduler_moves::rules;
use std::alloc::Global;
use std::{env, fs};
use timing_file::{Timing, read_timing};
use wcet_atomic_blocks::{Plant, plant};

/// The command words behind the program's name.
pub fn words(rt: &HostRuntime) -> Result<Vec<String>> {
    let mut words = Vec::new(rt.alloc());
    for word in env::args(rt)?.skip(1) {
        words.push(word)?;
    }
    Ok(words)
}

/// The plant of the three files.
pub fn plant_in(rt: &HostRuntime, oil: &str, elf: &str, timing: &str) -> Result<Plant> {
    let system = system_in(rt, oil)?;
    plant_with(rt, system, elf, timing)
}

fn plant_with(rt: &HostRuntime, system: System, elf: &str, timing: &str) -> Result<Plant>
    requires { IsLawfulSystem system }
{
    match image_at(rt, elf) {
        Ok(image) => plant_on(rt, system, image, timing),
        Err(error) => {
            drop(system);
            Err(error)
        }
    }
}

fn plant_on(rt: &HostRuntime, system: System, image: Image, timing: &str) -> Result<Plant>
    requires { IsLawfulSystem system }
{
    match timing_at(rt, timing) {
        Ok(timing) => planted(rt.alloc(), system, image, timing),
        Err(error) => {
            drop(system);
            drop(image);
            Err(error)
        }
    }
}

fn system_in(rt: &HostRuntime, path: &str) -> Result<System>
    ensures { IfOk result IsLawfulSystem }
{
    let tree = tree_at(rt, path)?;
    let system = system_of(rt.alloc(), &tree);
    drop(tree);
    system
}

fn tree_at(rt: &HostRuntime, path: &str) -> Result<Tree>
    ensures { IfOk result IsWellFormed }
{
    let bytes = fs::read(rt, path)?;
    tree_in(rt.alloc(), &bytes)
}

fn image_at(rt: &HostRuntime, path: &str) -> Result<Image> {
    let bytes = fs::read(rt, path)?;
    image_in(rt.alloc(), &bytes)
}

fn timing_at(rt: &HostRuntime, path: &str) -> Result<Timing>
    ensures { IfOk result IsLawfulTiming }
{
    let bytes = fs::read(rt, path)?;
    timing_in(rt.alloc(), &bytes)
}

fn tree_in(alloc: Global, bytes: &[u8]) -> Result<Tree>
    ensures { IfOk result IsWellFormed }
{
    match read_oil(alloc, bytes) {
        Ok(tree) => Ok(tree),
        Err(_) => Err(anyhow!("OIL has a fault, which `syswcet show oil OIL` tells")),
    }
}

fn system_of(alloc: Global, tree: &Tree) -> Result<System>
    requires { IsWellFormed tree.now }
    ensures { IfOk result IsLawfulSystem }
{
    match model(alloc, tree) {
        Ok(system) => Ok(system),
        Err(_) => Err(anyhow!("OIL is no system; `syswcet show oil OIL` tells why")),
    }
}

fn image_in(alloc: Global, bytes: &[u8]) -> Result<Image> {
    match read_elf(alloc, bytes) {
        Ok(image) => Ok(image),
        Err(_) => Err(anyhow!("ELF has a fault; `syswcet show code OIL ELF TIMING` tells which")),
    }
}

fn timing_in(alloc: Global, bytes: &[u8]) -> Result<Timing>
    ensures { IfOk result IsLawfulTiming }
{
    match read_timing(alloc, bytes) {
        Ok(timing) => Ok(timing),
        Err(_) => Err(anyhow!(
            "TIMING has a fault; `syswcet show code OIL ELF TIMING` tells which"
        )),
    }
}

fn planted(alloc: Global, system: System, image: Image, timing: Timing) -> Result<Plant>
    requires system { IsLawfulSystem system }
    requires timing { IsLawfulTiming timing }
{
    match plant(alloc, image, system, timing) {
        Ok(plant) => Ok(plant),
        Err(_) => Err(anyhow!(
            "the code has a fault; `syswcet show code OIL ELF TIMING` tells which"
        )),
    }
}

/// The listed states of the file, each once.
pub fn states_in(rt: &HostRuntime, plant: &Plant, path: &str) -> Result<States>
    ensures { IfOk result (λ states. differ same_state states ≡ true) }
{
    let bytes = fs::read(rt, path)?;
    states_of(rt.alloc(), plant, &bytes)
}

fn states_of(alloc: Global, plant: &Plant, bytes: &[u8]) -> Result<States>
    ensures { IfOk result (λ states. differ same_state states ≡ true) }
{
    let Ok(rules) = rules(alloc, plant) else {
        return Err(anyhow!("out of memory"));
    };
    match read_states(alloc, &rules, bytes) {
        Ok(states) => Ok(states),
        Err(_) => Err(anyhow!("STATES is no list of states over these files")),
    }
}
