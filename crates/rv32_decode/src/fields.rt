//! The fields of a word, and the numbers that they stand for.
ghost use Rattle.std.specs.Prelude.{◌≡◌, ◌<◌, ◌≤◌, ◌+◌, ◌-◌, ◌^◌};
ghost use Rattle.rv32_decode.specs.Formats.{bits_of, imm_bits, signed};

/// The bits from `high` down to `low` of a word, fewer than all.
pub(crate) fn bits(word: u32, high: u32, low: u32) -> u32
    requires ordered { low ≤ high }
    requires within { high < 32 }
    requires part { high - low < 31 }
    ensures { result ≡ bits_of high low word }
{
    (word >> low) & ((1 << (high - low + 1)) - 1)
}

/// The same bits of an immediate, in two's complement.
pub(crate) fn immediate_bits(immediate: i32, high: u32, low: u32) -> u32
    requires ordered { low ≤ high }
    requires within { high < 32 }
    requires part { high - low < 31 }
    ensures { result ≡ imm_bits high low immediate }
{
    bits(immediate.cast_unsigned(), high, low)
}

/// The signed number whose two's complement in `width` bits is `value`.
pub(crate) fn sign_extend(value: u32, width: u32) -> i32
    requires some { 0 < width }
    requires most { width ≤ 32 }
    requires below { value < 2 ^ width }
    ensures { result ≡ signed width value }
{
    if value < 1 << (width - 1) {
        value as i32
    } else {
        (i64::from(value) - (1 << width)) as i32
    }
}
