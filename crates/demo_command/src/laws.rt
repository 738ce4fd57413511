//! Laws of the answers. The function does nothing: its contract is a theorem over the definitions.
ghost use Rattle.demo_command.specs.Lines.{LinesBound};

/// Each line `NAME bound N seen M` that `demo` writes bounds its task, those before a refusal too.
pub fn demo_lines_bound_tasks()
    ensures { LinesBound }
{}
