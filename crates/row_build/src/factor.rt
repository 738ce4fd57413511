//! Factors of columns in a row.

ghost use Rattle.std.specs.Prelude.{◌≡◌, ◌-ℤ◌};
ghost use Rattle.whole_rows.specs.Row.{IsInRange};
ghost use Rattle.row_build.specs.Families.{counted};
ghost use Rattle.row_build.specs.Working.Factors as words;

/// A factor as the difference of two numbers.
#[derive(Clone, Copy, Debug)]
pub(crate) struct Factor {
    pub(crate) more: u64,
    pub(crate) less: u64,
}

impl Factor {
    /// One for the first less one for the second, where they hold.
    pub(crate) fn of(more: bool, less: bool) -> Factor
        ensures { words.entry_of result ≡ counted more -ℤ counted less }
    {
        Factor {
            more: once(more),
            less: once(less),
        }
    }

    /// The difference.
    pub(crate) fn entry(self) -> i128
        ensures value { result ≡ words.entry_of self }
        ensures in_range { IsInRange result }
    {
        i128::from(self.more) - i128::from(self.less)
    }
}

/// 1 where it holds, else 0.
pub(crate) fn once(test: bool) -> u64
    ensures { result ≡ words.once test }
{
    if test { 1 } else { 0 }
}
