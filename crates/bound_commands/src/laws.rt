//! Laws of the answers. Each function does nothing: its contract is a theorem over the definitions.
ghost use Rattle.bound_commands.specs.Lines.{LinesBound};

/// Each line `TASK N` that `all` writes bounds its task, those before a refusal too.
pub fn lines_bound_tasks()
    ensures { LinesBound }
{}
