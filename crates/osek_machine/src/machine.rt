//! The machine, and what can be asked of it.

ghost use Rattle.std.specs.Prelude.{◌≡◌, [], option_map, option_copied};
ghost use Rattle.std.specs.Option.{option_map_or};
ghost use Rattle.oil_model.specs.declared.system.System.{System};
ghost use Rattle.oil_model.specs.System.{IsLawful};
ghost use Rattle.elf_image.specs.Image.{ImageData};
ghost use Rattle.rv32_machine.specs.Registers.{value_of};
ghost use Rattle.osek_kernel.specs.Contexts.{IsContext};
ghost use Rattle.osek_kernel.specs.Kernel.{interrupts_open};
ghost use Rattle.osek_kernel.specs.Running.{runs};
ghost use Rattle.osek_machine.specs.State.{standing_of, is_pending};
ghost use Rattle.osek_machine.specs.Machine.{Fits, state_of};

use crate::decoded::Decoded;
use crate::stance::Stance;
use crate::stances::stance_at;
use oil_model::System;
use osek_kernel::{Context, Kernel};
use rv32_decode::RegNo;
use rv32_machine::Store;

/// The OSEK machine of a system with its code in an image, both of which each call is given. The
/// contracts speak of the state that it is in, `state_of`. Moments and cycles count from the start.
#[derive(Debug, Drop)]
pub struct Machine {
    pub(crate) kernel: Kernel,
    /// For each context, tasks by id and then interrupt service routines by id, how it stands.
    pub(crate) stances: Vec<Option<Stance>>,
    pub(crate) memory: Store,
    /// For each source by number, whether it has arrived and wasn't taken yet.
    pub(crate) pending: Vec<bool>,
    pub(crate) moment: u64,
    pub(crate) last_start: u64,
    pub(crate) code: Decoded,
    /// The context that runs.
    pub(crate) running: Option<Context>,
}

impl Machine {
    /// The application mode.
    pub fn mode(&self) -> usize
        ensures { result ≡ (state_of self.now).kernel.mode }
    {
        self.kernel.mode
    }

    /// The context that runs; none where no context is active.
    pub fn running(&self) -> Option<Context>
        ensures kept { result ≡ self.now.running }
        ensures runs { (image : ImageData) (system : System) → Fits image system self.now
            → result ≡ runs system (state_of self.now).kernel }
    {
        self.running
    }

    /// Whether the kernel may take a source.
    pub fn interrupts_open(&self) -> bool
        ensures { result ≡ interrupts_open (state_of self.now).kernel }
    {
        self.kernel.interrupts_open()
    }

    /// The moment now, in cycles.
    pub fn moment(&self) -> u64
        ensures { result ≡ (state_of self.now).moment }
    {
        self.moment
    }

    /// The moment at which the last step that takes time began.
    pub fn last_start(&self) -> u64
        ensures { result ≡ (state_of self.now).last_start }
    {
        self.last_start
    }

    /// Whether the source of a number has arrived and wasn't taken yet.
    pub fn pending(&self, source: usize) -> bool
        ensures { result ≡ is_pending (state_of self.now) source }
    {
        match self.pending.get(source) {
            Some(pending) => *pending,
            None => false,
        }
    }

    /// The address at which the context stands; none where it isn't active.
    pub fn place(&self, system: &System, context: Context) -> Option<u32>
        requires lawful { IsLawful system.now }
        requires exists { IsContext system.now context }
        ensures { result ≡ option_map (λ s. s.place) (standing_of system.now (state_of self.now) context) }
    {
        match self.stance(system, context) {
            Some(stance) => Some(stance.place()),
            None => None,
        }
    }

    /// The value of a register of the context; none where it isn't active.
    pub fn value(&self, system: &System, context: Context, reg: RegNo) -> Option<u32>
        requires lawful { IsLawful system.now }
        requires exists { IsContext system.now context }
        ensures { result ≡ option_map (λ s. value_of s.registers reg)
            (standing_of system.now (state_of self.now) context) }
    {
        match self.stance(system, context) {
            Some(stance) => Some(stance.registers().get(reg)),
            None => None,
        }
    }

    /// The context's open calls by the addresses of the calls, outermost first; none where it isn't
    /// active.
    pub fn sites(&self, system: &System, context: Context) -> &[u32]
        requires lawful { IsLawful system.now }
        requires exists { IsContext system.now context }
        ensures { result.now ≡ option_map_or (λ s. s.calls)
            (standing_of system.now (state_of self.now) context) [] }
    {
        match self.stance(system, context) {
            Some(stance) => stance.calls(),
            None => &[],
        }
    }

    pub(crate) fn stance(&self, system: &System, context: Context) -> Option<&Stance>
        requires lawful { IsLawful system.now }
        requires exists { IsContext system.now context }
        ensures { option_copied result ≡ standing_of system.now (state_of self.now) context }
    {
        stance_at(self.stances.as_slice(), context.place(system))
    }
}
