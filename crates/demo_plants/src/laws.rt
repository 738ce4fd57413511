//! Laws of generated systems.
ghost use Rattle.demo_plants.specs.Laws.{SystemsHavePlants, StatesAreClosed};

/// The code of a generated system has no fault, and few blocks.
pub fn systems_have_plants()
    ensures { SystemsHavePlants }
{}

/// The states of a generated system are closed under the moves of its plant.
pub fn states_are_closed()
    ensures { StatesAreClosed }
{}
