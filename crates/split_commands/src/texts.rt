//! What is said of split certificates that aren't good, and where none is found.
ghost use Rattle.std.specs.Prelude.{◌≡◌, IfOk, string_bytes};
ghost use Rattle.split_commands.specs.Texts as words;

use certificate::Why;
use command_steps::{Reason, Refusal};
use inputs::why_refusal;
use listed::Memory;
use split_cert::SplitWhy;
use std::alloc::{AllocError, Global};
use wcet_atomic_blocks::Plant;

/// What is said of the first condition that fails.
pub fn split_refusal(alloc: Global, plant: &Plant, why: SplitWhy) -> Result<Refusal, Memory>
    ensures { IfOk result (λ made. made ≡ words.split_refusal plant.now why) }
{
    match why {
        SplitWhy::States(why) => why_refusal(alloc, plant, why),
        SplitWhy::Cut { column } => cut_refusal(alloc, column),
        SplitWhy::Leaf { leaf, why } => leaf_refusal(alloc, leaf, why),
    }
}

fn cut_refusal(alloc: Global, column: usize) -> Result<Refusal, Memory>
    ensures { IfOk result (λ made. made ≡ words.cut_refusal column) }
{
    let text = format!(in alloc; "no cut {column}\n")?;
    Ok(Refusal::new(Reason::No, text))
}

fn leaf_refusal(alloc: Global, leaf: usize, why: Why) -> Result<Refusal, Memory>
    ensures { IfOk result (λ made. made ≡ words.leaf_refusal leaf why) }
{
    let text = leaf_text(alloc, leaf, why)?;
    Ok(Refusal::new(Reason::No, text))
}

fn leaf_text(alloc: Global, leaf: usize, why: Why) -> Result<String, AllocError>
    ensures { IfOk result (λ text. string_bytes text ≡ words.leaf_text leaf why) }
{
    match why {
        Why::Count { given, wanted } => {
            format!(in alloc; "no leaf {leaf} count {given} {wanted}\n")
        }
        Why::Column { column } => format!(in alloc; "no leaf {leaf} column {column}\n"),
        Why::Bound => format!(in alloc; "no leaf {leaf} bound\n"),
        _ => format!(in alloc; "no leaf {leaf}\n"),
    }
}

/// No tree of cuts shows the bound.
pub(crate) fn no_tree_refusal(alloc: Global) -> Result<Refusal, Memory>
    ensures { IfOk result (λ made. made ≡ words.no_tree_refusal) }
{
    let text = String::from_str(alloc, "no tree\n")?;
    Ok(Refusal::new(Reason::No, text))
}

/// So many cuts are too few.
pub(crate) fn cuts_refusal(alloc: Global, cuts: u32) -> Result<Refusal, Memory>
    ensures { IfOk result (λ made. made ≡ words.cuts_refusal cuts) }
{
    let text = format!(in alloc; "budget cuts {cuts}\n")?;
    Ok(Refusal::new(Reason::Budget, text))
}
