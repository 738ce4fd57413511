//! Plants as inputs: an OIL file, an image and a timing file, and the code that they have together.
ghost use Rattle.std.specs.Prelude.{◌≡◌, IfOk, Some, option_map};
ghost use Rattle.oil_model.specs.System.{IsLawful as IsLawfulSystem};
ghost use Rattle.timing_file.specs.Lawful.{IsLawful as IsLawfulTiming};
ghost use Rattle.wcet_atomic_blocks.specs.Plants.{IsGraphOf};
ghost use Rattle.command_steps.specs.Steps.{IsCall, Says};
ghost use Rattle.inputs.specs.Plants as words;

use crate::oil_files::{oil_tree, system_of};
use command_steps::{Halt, Refusal, read_file};
use elf_image::{ElfFault, Image, read_elf};
use flow_graph::{CodeFault, CodeKind, Flow, build};
use listed::Memory;
use oil_model::System;
use osek_kernel::Context;
use reports::{blocks_refusal, code_refusal, elf_refusal, timing_refusal};
use std::alloc::Global;
use timing_file::{Timing, TimingFault, read_timing};
use wcet_atomic_blocks::{BlockFault, Plant, PlantFault, planted};
use wcet_io::{Bytes, Files, Text};

/// The most bytes of an image.
pub(crate) const IMAGE_LIMIT: usize = 16_777_216;

/// The most bytes of a timing file.
const TIMING_LIMIT: usize = 1_048_576;

/// The plant of the three files.
pub fn plant_of<F: Files>(
    alloc: Global,
    oil: &Text,
    elf: &Text,
    timing: &Text,
    files: &mut F,
) -> Result<Plant, Halt>
    ensures { words.PlantOf (IsCall F.outside F.reads) oil.now elf.now timing.now
        files.old result files.new }
{
    let system = oil_system(alloc, oil, files)?;
    plant_with_image(alloc, system, elf, timing, files)
}

/// The system that the OIL file declares.
pub fn oil_system<F: Files>(alloc: Global, oil: &Text, files: &mut F) -> Result<System, Halt>
    ensures steps { words.OilSystem (IsCall F.outside F.reads) oil.now
        files.old result files.new }
    ensures lawful { IfOk result IsLawfulSystem }
{
    let tree = oil_tree(alloc, oil, files)?;
    system_of(alloc, &tree)
}

fn plant_with_image<F: Files>(
    alloc: Global,
    system: System,
    elf: &Text,
    timing: &Text,
    files: &mut F,
) -> Result<Plant, Halt>
    requires { IsLawfulSystem system }
    ensures { words.PlantWithImage (IsCall F.outside F.reads) elf.now timing.now system
        files.old result files.new }
{
    let image = elf_file(alloc, elf, files)?;
    plant_with_timing(alloc, system, image, timing, files)
}

fn plant_with_timing<F: Files>(
    alloc: Global,
    system: System,
    image: Image,
    timing: &Text,
    files: &mut F,
) -> Result<Plant, Halt>
    requires { IsLawfulSystem system }
    ensures { words.PlantWithTiming (IsCall F.outside F.reads) timing.now system image
        files.old result files.new }
{
    match timing_file(alloc, timing, files) {
        Ok(timing) => plant_with(alloc, system, image, timing),
        Err(halt) => {
            drop(system);
            drop(image);
            Err(halt)
        }
    }
}

/// The image in the ELF file.
pub fn elf_file<F: Files>(alloc: Global, name: &Text, files: &mut F) -> Result<Image, Halt>
    ensures { words.ElfImage (IsCall F.outside F.reads) name.now files.old result files.new }
{
    let bytes = read_file(alloc, name, IMAGE_LIMIT, files)?;
    elf_in(alloc, &bytes)
}

fn elf_in(alloc: Global, bytes: &Bytes) -> Result<Image, Halt>
    ensures { Says (words.HasImage bytes.now) result }
{
    match read_elf(alloc, bytes.as_slice()) {
        Ok(image) => Ok(image),
        Err(ElfFault::Kind(kind)) => Err(Halt::Refused(elf_refusal(alloc, kind)?)),
        Err(ElfFault::Memory) => Err(Halt::Memory),
    }
}

/// The timing in the file.
pub fn timing_file<F: Files>(alloc: Global, name: &Text, files: &mut F) -> Result<Timing, Halt>
    ensures steps { words.TimingFile (IsCall F.outside F.reads) name.now
        files.old result files.new }
    ensures lawful { IfOk result IsLawfulTiming }
{
    let bytes = read_file(alloc, name, TIMING_LIMIT, files)?;
    timing_in(alloc, &bytes)
}

fn timing_in(alloc: Global, bytes: &Bytes) -> Result<Timing, Halt>
    ensures answer { Says (words.HasTiming bytes.now) result }
    ensures lawful { IfOk result IsLawfulTiming }
{
    match read_timing(alloc, bytes.as_slice()) {
        Ok(timing) => Ok(timing),
        Err(TimingFault::Kind(kind)) => Err(Halt::Refused(timing_refusal(alloc, kind)?)),
        Err(TimingFault::Memory) => Err(Halt::Memory),
    }
}

/// The plant of the three, or the refusal of their code.
pub fn plant_with(
    alloc: Global,
    system: System,
    image: Image,
    timing: Timing,
) -> Result<Plant, Halt>
    requires system { IsLawfulSystem system }
    requires timing { IsLawfulTiming timing }
    ensures { Says (words.HasPlant image system timing) result }
{
    match build(alloc, &image, &system, &timing) {
        Ok(flow) => plant_on(alloc, system, image, timing, flow),
        Err(
            CodeFault::At {
                kind,
                context,
                address,
            },
        ) => {
            let refusal = fault_refusal(alloc, &system, kind, context, address);
            drop(system);
            drop(image);
            drop(timing);
            Err(Halt::Refused(refusal?))
        }
        Err(CodeFault::Memory) => {
            drop(system);
            drop(image);
            drop(timing);
            Err(Halt::Memory)
        }
    }
}

/// The plant with the code graph.
fn plant_on(
    alloc: Global,
    system: System,
    image: Image,
    timing: Timing,
    flow: Flow,
) -> Result<Plant, Halt>
    requires system { IsLawfulSystem system }
    requires timing { IsLawfulTiming timing }
    requires graph { IsGraphOf image system timing flow }
    ensures { Says (words.HasPlant image system timing) result }
{
    match planted(alloc, image, system, timing, flow) {
        Ok(plant) => Ok(plant),
        Err(PlantFault::Block(BlockFault::Limit { count })) => {
            Err(Halt::Refused(blocks_refusal(alloc, count)?))
        }
        Err(_) => Err(Halt::Memory),
    }
}

fn fault_refusal(
    alloc: Global,
    system: &System,
    kind: CodeKind,
    context: Option<usize>,
    address: Option<u32>,
) -> Result<Refusal, Memory>
    ensures { IfOk result (λ made. made ≡ words.fault_refusal system.now kind context address) }
{
    match context {
        Some(context) => code_refusal(alloc, name_at(system, context), address, kind),
        None => code_refusal(alloc, None, address, kind),
    }
}

/// The name of the context at a place among all contexts, if there is one.
pub fn name_at(system: &System, context: usize) -> Option<&[u8]>
    ensures { option_map (λ name. name.now) result ≡ words.name_at system.now context }
{
    match Context::at(system, context) {
        Context::Task(task) => match system.tasks.as_slice().get(task) {
            Some(task) => Some(task.name.as_slice()),
            None => None,
        },
        Context::Isr(isr) => match system.isrs.as_slice().get(isr) {
            Some(isr) => Some(isr.name.as_slice()),
            None => None,
        },
    }
}
