//! Two tasks and an alarm, of which the tests are.
ghost use Rattle.std.specs.Prelude.{IfSome};
ghost use Rattle.oil_grammar.specs.Grammar.{IsWellFormed};
ghost use Rattle.oil_model.specs.System.{IsLawful};

use abstract_sched::{AbsState, TaskAt, TaskStates};
use elf_image::{Bytes, Image, Memory, Name, Symbol, Symbols, plain_elf, read_elf};
use oil_grammar::{Tree, read_oil};
use oil_model::{Ids, System, model};
use std::alloc::Global;
use timing_file::read_timing;
use wcet_atomic_blocks::{Plant, plant};

/// T is started, and an alarm activates H, which goes before it.
const TWO_TASKS: &[u8] = b"OIL_VERSION = \"2.5\"; CPU A { APPMODE Main; COUNTER C;
    TASK T { PRIORITY = 1; AUTOSTART = TRUE { APPMODE = Main; }; }; TASK H { PRIORITY = 2; };
    ALARM Tick { COUNTER = C; ACTION = ACTIVATETASK { TASK = H; };
        AUTOSTART = TRUE { APPMODE = Main; ALARMTIME = 1; CYCLETIME = 1000; }; }; };";

const TICKS: &[u8] =
    br#"{"version":1,"classes":{"default":1},"services":{"default":20},"alarm":30,"interrupt":10,"ticks":{"C":1}}"#;

/// T at 0x100: li t0, 7; li a0, 0; li a7, 2; ecall. H at 0x110: the last three again. They call
/// TerminateTask.
#[rattlefmt::skip]
const TWO_CODES: [u32; 7] = [
    0x0070_0293, 0x0000_0513, 0x0020_0893, 0x0000_0073,
    0x0000_0513, 0x0020_0893, 0x0000_0073,
];

pub(crate) fn two_tasks(alloc: Global) -> Option<System>
    ensures { IfSome result IsLawful }
{
    match read_oil(alloc, TWO_TASKS) {
        Ok(tree) => system_in(alloc, &tree),
        Err(_) => None,
    }
}

fn system_in(alloc: Global, tree: &Tree) -> Option<System>
    requires { IsWellFormed tree.now }
    ensures { IfSome result IsLawful }
{
    match model(alloc, tree) {
        Ok(system) => Some(system),
        Err(_) => None,
    }
}

fn two_codes_file(alloc: Global) -> Result<Bytes, Memory> {
    let mut symbols = Symbols::new(alloc);
    symbols.push(Symbol {
        name: Name::from_slice(alloc, b"Task_T")?,
        value: 0x100,
    })?;
    symbols.push(Symbol {
        name: Name::from_slice(alloc, b"Task_H")?,
        value: 0x110,
    })?;
    plain_elf(alloc, 0x100, &TWO_CODES, &symbols)
}

pub(crate) fn two_codes(alloc: Global) -> Option<Image> {
    match two_codes_file(alloc) {
        Ok(file) => read_elf(alloc, file.as_slice()).ok(),
        Err(_) => None,
    }
}

fn with_system(alloc: Global, image: Image, system: System) -> Option<Plant>
    requires { IsLawful system }
{
    match read_timing(alloc, TICKS) {
        Ok(timing) => plant(alloc, image, system, timing).ok(),
        Err(_) => None,
    }
}

fn with_image(alloc: Global, image: Image) -> Option<Plant> {
    match two_tasks(alloc) {
        Some(system) => with_system(alloc, image, system),
        None => None,
    }
}

pub(crate) fn two_tasks_planted(alloc: Global) -> Option<Plant> {
    match two_codes(alloc) {
        Some(image) => with_image(alloc, image),
        None => None,
    }
}

/// A task that holds nothing at the block, or is suspended.
fn place(alloc: Global, block: Option<usize>) -> TaskAt {
    match block {
        Some(block) => TaskAt::At {
            block,
            inner: false,
            held: Ids::new(alloc),
        },
        None => TaskAt::Suspended,
    }
}

/// The state of mode 0 without a lock and without an ISR, in which the tasks stand there.
pub(crate) fn state(tasks: Vec<TaskAt>) -> AbsState {
    AbsState {
        mode: 0,
        tasks: TaskStates::from_vec(tasks),
        isr: None,
        disabled: false,
        suspended: 0,
    }
}

fn state_of(alloc: Global, low: Option<usize>, high: Option<usize>) -> Result<AbsState, Memory> {
    let mut tasks = Vec::new(alloc);
    tasks.push(place(alloc, low))?;
    tasks.push(place(alloc, high))?;
    Ok(state(tasks))
}

/// The four states of T and H: T at its block 0 or suspended, H suspended or at its block 1.
pub(crate) fn four_states(alloc: Global) -> Result<Vec<AbsState>, Memory> {
    let mut states = Vec::new(alloc);
    states.push(state_of(alloc, Some(0), None)?)?;
    states.push(state_of(alloc, Some(0), Some(1))?)?;
    states.push(state_of(alloc, None, None)?)?;
    states.push(state_of(alloc, None, Some(1))?)?;
    Ok(states)
}
