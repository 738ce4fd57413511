//! What is analysed as input: a task of a system, or the task of a flat image.
ghost use Rattle.std.specs.Prelude.{◌≡◌, ◌≤◌, length};
ghost use Rattle.oil_model.specs.Lone.{the_lone_system};
ghost use Rattle.oil_model.specs.System.{IsLawful as IsLawfulSystem};
ghost use Rattle.timing_file.specs.Lawful.{IsLawful as IsLawfulTiming};
ghost use Rattle.timing_file.specs.Unit.{the_unit_timing};
ghost use Rattle.command_steps.specs.Steps.{IsCall, Says, File};
ghost use Rattle.inputs.specs.Inputs.{image_limit};
ghost use Rattle.inputs.specs.Plants.{HasPlant};
ghost use Rattle.inputs.specs.declared.subjects.Subject.TheVariants.{Named};
ghost use Rattle.inputs.specs.Subjects as words;

use crate::plants::{IMAGE_LIMIT, elf_file, oil_system, plant_with, timing_file};
use command_steps::{Halt, read_file};
use elf_image::{ElfFault, Image, flat};
use oil_model::{System, lone_system, task_named};
use reports::{elf_refusal, task_refusal};
use std::alloc::Global;
use timing_file::{Timing, unit_timing};
use wcet_atomic_blocks::Plant;
use wcet_io::{Bytes, Files, Text};

/// What is analysed.
#[derive(Debug, Drop)]
pub enum Subject {
    /// The task of a flat image, which is named `T`.
    Lone {
        image: Text,
    },
    /// The task of this name in the system that the three files make.
    Named {
        oil: Text,
        elf: Text,
        timing: Text,
        task: Text,
    },
}

impl Subject {
    /// The name of the task.
    pub fn name(&self) -> &str
        ensures { result.now ≡ words.name_of self.now }
    {
        match self {
            Subject::Lone { .. } => "T",
            Subject::Named { task, .. } => task.as_str(),
        }
    }
}

/// A plant, and its task that is analysed, by id.
#[derive(Debug, Drop)]
pub struct Analysed {
    pub plant: Plant,
    pub task: usize,
}

/// What the files of the subject are.
pub fn read_subject<F: Files>(
    alloc: Global,
    subject: &Subject,
    files: &mut F,
) -> Result<Analysed, Halt>
    ensures { words.AnalysedOf (IsCall F.outside F.reads) subject.now files.old result files.new }
{
    match subject {
        Subject::Lone { image } => lone(alloc, image, files),
        Subject::Named {
            oil,
            elf,
            timing,
            task,
        } => read_task(alloc, oil, elf, timing, task, files),
    }
}

/// The task of the flat image in the file.
fn lone<F: Files>(alloc: Global, image: &Text, files: &mut F) -> Result<Analysed, Halt>
    ensures { File (IsCall F.outside F.reads) image.now image_limit words.HasLone
        files.old result files.new }
{
    let bytes = read_file(alloc, image, IMAGE_LIMIT, files)?;
    lone_in(alloc, &bytes)
}

fn lone_in(alloc: Global, bytes: &Bytes) -> Result<Analysed, Halt>
    requires { length bytes.now ≤ image_limit }
    ensures { Says (words.HasLone bytes.now) result }
{
    match flat(alloc, bytes.as_slice()) {
        Ok(image) => {
            let plant = lone_plant(alloc, image)?;
            Ok(Analysed { plant, task: 0 })
        }
        Err(ElfFault::Kind(kind)) => Err(Halt::Refused(elf_refusal(alloc, kind)?)),
        Err(ElfFault::Memory) => Err(Halt::Memory),
    }
}

/// The plant of the image of one task, where each instruction takes 1 cycle and each service 10.
fn lone_plant(alloc: Global, image: Image) -> Result<Plant, Halt>
    ensures { Says (HasPlant image the_lone_system the_unit_timing) result }
{
    let system = lone_system(alloc)?;
    let timing = unit_timing(alloc)?;
    plant_with(alloc, system, image, timing)
}

/// The task of this name in the system of the three files.
pub fn read_task<F: Files>(
    alloc: Global,
    oil: &Text,
    elf: &Text,
    timing: &Text,
    task: &Text,
    files: &mut F,
) -> Result<Analysed, Halt>
    ensures { words.AnalysedOf (IsCall F.outside F.reads)
        (Named oil.now elf.now timing.now task.now) files.old result files.new }
{
    let system = oil_system(alloc, oil, files)?;
    task_with_image(alloc, system, elf, timing, task, files)
}

fn task_with_image<F: Files>(
    alloc: Global,
    system: System,
    elf: &Text,
    timing: &Text,
    task: &Text,
    files: &mut F,
) -> Result<Analysed, Halt>
    requires { IsLawfulSystem system }
    ensures { words.TaskWithImage (IsCall F.outside F.reads) elf.now timing.now task.now system
        files.old result files.new }
{
    let image = elf_file(alloc, elf, files)?;
    task_with_timing(alloc, system, image, timing, task, files)
}

fn task_with_timing<F: Files>(
    alloc: Global,
    system: System,
    image: Image,
    timing: &Text,
    task: &Text,
    files: &mut F,
) -> Result<Analysed, Halt>
    requires { IsLawfulSystem system }
    ensures { words.TaskWithTiming (IsCall F.outside F.reads) timing.now task.now system image
        files.old result files.new }
{
    match timing_file(alloc, timing, files) {
        Ok(timing) => task_of(alloc, system, image, timing, task),
        Err(halt) => {
            drop(system);
            drop(image);
            Err(halt)
        }
    }
}

/// The task of this name in the plant of the three.
fn task_of(
    alloc: Global,
    system: System,
    image: Image,
    timing: Timing,
    name: &Text,
) -> Result<Analysed, Halt>
    requires system { IsLawfulSystem system }
    requires timing { IsLawfulTiming timing }
    ensures { Says (words.HasTask image system name.now timing) result }
{
    match task_named(&system, name.as_slice()) {
        Some(task) => {
            let plant = plant_with(alloc, system, image, timing)?;
            Ok(Analysed { plant, task })
        }
        None => {
            drop(system);
            drop(image);
            drop(timing);
            Err(Halt::Refused(task_refusal(alloc)?))
        }
    }
}
