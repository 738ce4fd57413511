//! Laws of the kernel. Each function is empty: its contract is a theorem over the definitions.

ghost use Rattle.osek_kernel.specs.Laws.{ServicesKeepActive, MisuseChangesNothing, CallersRunOn, TakesKeepActive, TheFirstRuns, DispatchKeepsActive};

/// A service ends and activates what it says, only its own end makes a context inactive, only an
/// activation makes one active, and the number of tasks stays.
pub fn services_keep_active()
    ensures { ServicesKeepActive }
{}

/// A misuse changes nothing in the kernel.
pub fn misuse_changes_nothing()
    ensures { MisuseChangesNothing }
{}

/// A context that calls a service and isn't ended runs on, unless it is a task and a task is
/// activated, it gives a resource back or it calls Schedule.
pub fn callers_run_on()
    ensures { CallersRunOn }
{}

/// Taking a source leaves every active context active, and starts who it says.
pub fn takes_keep_active()
    ensures { TakesKeepActive }
{}

/// Where a context is active one runs, it is active, and no active task goes before it.
pub fn the_first_runs()
    ensures { TheFirstRuns }
{}

/// Dispatching keeps who is active, who runs and what is held.
pub fn dispatch_keeps_active()
    ensures { DispatchKeepsActive }
{}
