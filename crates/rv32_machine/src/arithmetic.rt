//! Operations on words.
ghost use Rattle.std.specs.Prelude.{◌≡◌, IsTrue};
ghost use Rattle.rv32_machine.specs.Execution.{reg_result, imm_result, is_taken, moved, word_of};

use rv32_decode::{BranchOp, ImmOp, RegOp};

/// The result of an operation on two words.
pub(crate) fn reg_result(op: RegOp, a: u32, b: u32) -> u32
    ensures { result ≡ reg_result op a b }
{
    match op {
        RegOp::Add => a.wrapping_add(b),
        RegOp::Sub => a.wrapping_sub(b),
        RegOp::Sll => a << (b % 32),
        RegOp::Slt => u32::from(a.cast_signed() < b.cast_signed()),
        RegOp::Sltu => u32::from(a < b),
        RegOp::Xor => a ^ b,
        RegOp::Srl => a >> (b % 32),
        RegOp::Sra => shift_right_signed(a, b),
        RegOp::Or => a | b,
        RegOp::And => a & b,
        RegOp::Mul => a.wrapping_mul(b),
        RegOp::Mulh => multiply_high_signed(a, b),
        RegOp::Mulhsu => multiply_high_mixed(a, b),
        RegOp::Mulhu => multiply_high(a, b),
        RegOp::Div => divide_signed(a, b),
        RegOp::Divu => divide(a, b),
        RegOp::Rem => remainder_signed(a, b),
        RegOp::Remu => remainder(a, b),
    }
}

fn shift_right_signed(a: u32, b: u32) -> u32
    ensures { result ≡ reg_result RegOp.Sra a b }
{
    (a.cast_signed() >> (b % 32)).cast_unsigned()
}

fn multiply_high_signed(a: u32, b: u32) -> u32
    ensures { result ≡ reg_result RegOp.Mulh a b }
{
    let product = i64::from(a.cast_signed()) * i64::from(b.cast_signed());
    (product.cast_unsigned() >> 32) as u32
}

fn multiply_high_mixed(a: u32, b: u32) -> u32
    ensures { result ≡ reg_result RegOp.Mulhsu a b }
{
    let product = i64::from(a.cast_signed()) * i64::from(b);
    (product.cast_unsigned() >> 32) as u32
}

fn multiply_high(a: u32, b: u32) -> u32
    ensures { result ≡ reg_result RegOp.Mulhu a b }
{
    ((u64::from(a) * u64::from(b)) >> 32) as u32
}

fn divide_signed(a: u32, b: u32) -> u32
    ensures { result ≡ reg_result RegOp.Div a b }
{
    if b == 0 {
        u32::MAX
    } else {
        a.cast_signed()
            .wrapping_div(b.cast_signed())
            .cast_unsigned()
    }
}

fn divide(a: u32, b: u32) -> u32
    ensures { result ≡ reg_result RegOp.Divu a b }
{
    if b == 0 { u32::MAX } else { a / b }
}

fn remainder_signed(a: u32, b: u32) -> u32
    ensures { result ≡ reg_result RegOp.Rem a b }
{
    if b == 0 {
        a
    } else {
        a.cast_signed()
            .wrapping_rem(b.cast_signed())
            .cast_unsigned()
    }
}

fn remainder(a: u32, b: u32) -> u32
    ensures { result ≡ reg_result RegOp.Remu a b }
{
    if b == 0 { a } else { a % b }
}

/// The result of an operation on a word and an immediate.
pub(crate) fn imm_result(op: ImmOp, a: u32, imm: i32) -> u32
    ensures { result ≡ imm_result op a imm }
{
    let operation = match op {
        ImmOp::Addi => RegOp::Add,
        ImmOp::Slti => RegOp::Slt,
        ImmOp::Sltiu => RegOp::Sltu,
        ImmOp::Xori => RegOp::Xor,
        ImmOp::Ori => RegOp::Or,
        ImmOp::Andi => RegOp::And,
        ImmOp::Slli => RegOp::Sll,
        ImmOp::Srli => RegOp::Srl,
        ImmOp::Srai => RegOp::Sra,
    };
    reg_result(operation, a, word_of(imm))
}

/// Whether a branch is taken that finds these words in its two registers.
pub fn is_taken(op: BranchOp, a: u32, b: u32) -> bool
    ensures { result ≡ is_taken op a b }
{
    match op {
        BranchOp::Beq => a == b,
        BranchOp::Bne => a != b,
        BranchOp::Blt => a.cast_signed() < b.cast_signed(),
        BranchOp::Bge => a.cast_signed() >= b.cast_signed(),
        BranchOp::Bltu => a < b,
        BranchOp::Bgeu => a >= b,
    }
}

/// The word of a signed number.
pub(crate) fn word_of(number: i32) -> u32
    ensures { result ≡ word_of number }
{
    number.cast_unsigned()
}

/// A word plus a signed number.
pub(crate) fn moved(word: u32, by: i32) -> u32
    ensures { result ≡ moved word by }
{
    word.wrapping_add(word_of(by))
}
