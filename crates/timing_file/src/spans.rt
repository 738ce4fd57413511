//! Whether ranges of addresses stand once.

ghost use Rattle.std.specs.Prelude.{◌≡◌, map, IfOk};
ghost use Rattle.listed.specs.Lists.{differ};
ghost use Rattle.timing_file.specs.Timing as words;

use crate::timing::{Extra, Loop};
use listed::{Memory, all_differ};
use std::alloc::Global;

/// The addresses of a range.
#[derive(Clone, Copy, Debug, PartialEq, Eq, PartialOrd, Ord)]
pub(crate) struct Span {
    pub(crate) from: u32,
    pub(crate) to: u32,
}

/// What has a range of addresses.
pub(crate) trait Spanned {
    ghost use Rattle.timing_file.specs.declared.spans.Span.{Span};

    ghost span: { Self → Span };

    fn span(&self) -> Span
        ensures { result ≡ span self.now };
}

impl Spanned for Loop {
    ghost span = { words.loop_span };

    fn span(&self) -> Span {
        Span {
            from: self.from,
            to: self.to,
        }
    }
}

impl Spanned for Extra {
    ghost span = { words.extra_span };

    fn span(&self) -> Span {
        Span {
            from: self.from,
            to: self.to,
        }
    }
}

/// Whether no two ranges have the same addresses.
pub(crate) fn spans_differ<T: Spanned>(alloc: Global, ranges: &[T]) -> Result<bool, Memory>
    ensures { IfOk result (λ all. all ≡ differ words.same_span (map T.span ranges.now)) }
{
    let mut spans = Vec::new(alloc);
    for range in ranges {
        spans.push(range.span())?;
    }
    all_differ(alloc, spans.as_slice())
}
