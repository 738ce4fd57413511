//! How often the body of a counted loop is gone through.

ghost use Rattle.std.specs.Prelude.{◌≡◌, ◌<◌, ◌≤◌, ◌*◌, ◌+◌, ◌≤ℤ◌, ◌<ℤ◌, ℕ, suc, pos, ◌↔◌, IsTrue, MatchOption};
ghost use Rattle.rv32_decode.specs.declared.instruction.BranchOp.TheVariants as ops;
ghost use Rattle.counted_loops.specs.Working.Distances.{Leads, StaysBelow};
ghost use Rattle.counted_loops.specs.Rounds.{AreRounds};

use rv32_decode::BranchOp;

/// How often a branch of this kind is taken, for a counter that starts with `start` and goes up by
/// `step` in each round, and a limit of this value; none where it compares otherwise, or never ends.
pub(crate) fn bound_of(op: BranchOp, start: i32, step: i32, limit: i32) -> Option<u32>
    requires { step ≡ pos 0 → ⊥ }
    ensures { MatchOption result ((bound : ℕ) → AreRounds op start step limit (suc bound) → ⊥)
        (λ bound. AreRounds op start step limit (suc bound)) }
{
    match op {
        BranchOp::Bne => bound_until(start, step, limit),
        BranchOp::Blt => bound_past(start, step, limit),
        _ => None,
    }
}

/// The same where the branch is `bne`: the counter comes to the limit itself.
fn bound_until(start: i32, step: i32, limit: i32) -> Option<u32>
    requires { step ≡ pos 0 → ⊥ }
    ensures { MatchOption result ((bound : ℕ) → AreRounds ops.Bne start step limit (suc bound) → ⊥)
        (λ bound. AreRounds ops.Bne start step limit (suc bound)) }
{
    if leads(start, step, limit) {
        exact(limit.abs_diff(start), step.unsigned_abs())
    } else {
        None
    }
}

/// Whether the step leads from the start towards the limit.
fn leads(start: i32, step: i32, limit: i32) -> bool
    ensures { IsTrue result ↔ Leads start step limit }
{
    (0 < step && start < limit) || (step < 0 && limit < start)
}

/// How many steps lie before the last one of those that make up the distance.
fn exact(distance: u32, step: u32) -> Option<u32>
    requires far { 1 ≤ distance }
    requires moves { 1 ≤ step }
    ensures { MatchOption result ((bound : ℕ) → suc bound * step ≡ distance → ⊥)
        (λ bound. suc bound * step ≡ distance) }
{
    if distance % step == 0 {
        Some(distance / step - 1)
    } else {
        None
    }
}

/// The same where the branch is `blt`: the counter comes to the limit or goes past it.
fn bound_past(start: i32, step: i32, limit: i32) -> Option<u32>
    ensures { MatchOption result ((bound : ℕ) → AreRounds ops.Blt start step limit (suc bound) → ⊥)
        (λ bound. AreRounds ops.Blt start step limit (suc bound)) }
{
    if 0 < step {
        Some(steps_before(start, limit) / step.unsigned_abs())
    } else {
        None
    }
}

/// The greatest distance from the start that is below the limit, or 0.
fn steps_before(start: i32, limit: i32) -> u32
    ensures { StaysBelow start limit result }
{
    if start < limit {
        limit.abs_diff(start) - 1
    } else {
        0
    }
}
