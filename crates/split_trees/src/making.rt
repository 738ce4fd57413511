//! Trees from their parts.
ghost use Rattle.std.specs.Prelude.{◌≡◌, nat_le, IfOk};
ghost use Rattle.split_trees.specs.Tree.{Leaf, Cut, height};

use crate::{Numbers, SplitNode, SplitTree};
use listed::Memory;
use std::alloc::Global;

impl SplitTree {
    /// A tree without a cut.
    pub fn leaf(denominator: u128, multipliers: Numbers) -> SplitTree
        ensures { result ≡ Leaf denominator multipliers }
    {
        SplitTree {
            node: SplitNode::Leaf {
                denominator,
                multipliers,
            },
        }
    }

    /// The two parts under a cut of the column at `k`.
    pub fn cut(
        alloc: Global,
        column: usize,
        k: u32,
        low: SplitTree,
        high: SplitTree,
    ) -> Result<SplitTree, Memory>
        ensures { IfOk result (λ tree. tree ≡ Cut column k low high) }
    {
        let low = Box::new(alloc, low)?;
        let high = Box::new(alloc, high)?;
        Ok(SplitTree {
            node: SplitNode::Cut {
                column,
                k,
                low,
                high,
            },
        })
    }

    /// Whether cuts nest at most that deep.
    #[tactic(auto, using(crate::proofs::Heights::nests_within))]
    pub fn nests_within(&self, most: u32) -> bool
        ensures { result ≡ nat_le (height self.now) most }
    {
        match &self.node {
            SplitNode::Leaf { .. } => true,
            SplitNode::Cut { low, high, .. } => {
                most > 0 && low.nests_within(most - 1) && high.nests_within(most - 1)
            }
        }
    }
}
