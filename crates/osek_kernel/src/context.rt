//! Contexts: what runs code.

ghost use Rattle.std.specs.Prelude.{◌≡◌, Some};
ghost use Rattle.osek_kernel.specs.Contexts as words;
ghost use Rattle.oil_model.specs.System.{IsLawful};

use elf_image::Image;
use oil_model::System;

/// A task or an interrupt service routine, by its id.
#[derive(Clone, Copy, Debug, PartialEq, Eq)]
pub enum Context {
    Task(usize),
    Isr(usize),
}

impl Context {
    /// The context at a place of a list over all contexts: tasks by id, then interrupt service
    /// routines by id.
    pub fn at(system: &System, place: usize) -> Context
        ensures { result ≡ words.context_at system.now place }
    {
        let tasks = system.tasks.len();
        if place < tasks {
            Context::Task(place)
        } else {
            Context::Isr(place - tasks)
        }
    }

    /// The context's place in a list over all contexts.
    pub fn place(self, system: &System) -> usize
        requires lawful { IsLawful system.now }
        requires exists { words.IsContext system.now self }
        ensures { result ≡ words.place_of system.now self }
    {
        match self {
            Context::Task(task) => task,
            Context::Isr(isr) => system.tasks.len() + isr,
        }
    }

    /// The context's name.
    pub fn name(self, system: &System) -> &[u8]
        requires { words.IsContext system.now self }
        ensures { words.name_of system.now self ≡ Some result.now }
    {
        match self {
            Context::Task(task) => system.tasks.get(task).name.as_slice(),
            Context::Isr(isr) => system.isrs.get(isr).name.as_slice(),
        }
    }

    /// The address at which the context's code begins; none where the image has no such symbol.
    pub fn entry(self, image: &Image, system: &System) -> Option<u32>
        requires { words.IsContext system.now self }
        ensures { result ≡ words.entry_of image.now system.now self }
    {
        image.symbol(self.symbol_prefix(), self.name(system))
    }

    /// What stands before the context's name in the name of the symbol at which its code begins.
    pub fn symbol_prefix(self) -> &'static [u8]
        ensures { result.now ≡ words.symbol_prefix self }
    {
        match self {
            Context::Task(_) => b"Task_",
            Context::Isr(_) => b"Isr_",
        }
    }
}
