//! Code words (RISC-V unprivileged ISA, "RV32/64G Instruction Set Listings"; Zicbom): the word of each
//! instruction, and the instruction of each word that has one.
ghost use Rattle.std.specs.Prelude.{◌≡◌, ℕ, ◌+◌, ◌*◌, ◌/◌, ◌%◌, ◌^◌, ◌<◌, IfSome};
ghost use Rattle.rv64_isa.specs.declared.instr.Instr.{Instr};
ghost use Rattle.rv64_isa.specs.Formats.{IsInstruction, word_of, decoded, decoded_fields, bits_of, format_r, format_i, format_s};
ghost use Rattle.rv64_isa.specs.Formats.{format_b, format_u, format_j, immediate_of, store_immediate_of, upper_immediate_of};
ghost use Rattle.rv64_isa.specs.Formats.{branch_offset_of, jump_offset_of, immediate_at, immediate_word_at, memory_at, system_at};

use crate::field::{
    BranchOffset, Immediate, JumpOffset, Register, ShiftCount, UpperImmediate, WordShiftCount,
};
use crate::instr::{ImmediateOperation, Instr, ShiftOperation};
use crate::table;

/// The word of an instruction.
#[tactic(auto, unfolding(crate::specs::Formats::word_of))]
pub fn encode(instr: Instr) -> u32
    ensures word { result ≡ word_of instr }
    ensures instruction { IsInstruction instr }
{
    match instr {
        Instr::Lui { rd, immediate } => format_u(0b0110111, rd, immediate),
        Instr::Auipc { rd, immediate } => format_u(0b0010111, rd, immediate),
        Instr::Jal { rd, offset } => format_j(0b1101111, rd, offset),
        Instr::Jalr { rd, rs1, offset } => format_i(0b1100111, 0b000, rd, rs1, offset),
        Instr::Branch {
            condition,
            rs1,
            rs2,
            offset,
        } => format_b(
            0b1100011,
            table::condition_funct3(condition),
            rs1,
            rs2,
            offset,
        ),
        Instr::Load {
            kind,
            rd,
            rs1,
            offset,
        } => format_i(0b0000011, table::load_funct3(kind), rd, rs1, offset),
        Instr::Store {
            kind,
            rs2,
            rs1,
            offset,
        } => format_s(0b0100011, table::store_funct3(kind), rs1, rs2, offset),
        Instr::OpImmediate {
            operation,
            rd,
            rs1,
            immediate,
        } => format_i(
            table::immediate_opcode(operation),
            table::immediate_funct3(operation),
            rd,
            rs1,
            immediate,
        ),
        Instr::ShiftImmediate {
            operation,
            rd,
            rs1,
            count,
        } => format_shift(operation, rd, rs1, count),
        Instr::ShiftImmediateWord {
            operation,
            rd,
            rs1,
            count,
        } => format_word_shift(operation, rd, rs1, count),
        Instr::Op {
            operation,
            rd,
            rs1,
            rs2,
        } => format_r(
            table::op_opcode(operation),
            table::op_funct3(operation),
            table::op_funct7(operation),
            rd,
            rs1,
            rs2,
        ),
        Instr::CboClean { rs1 } => 0b0001111
            + (0b010 << 12)
            + (u32::from(rs1.number()) << 15)
            + (1 << 20),
        Instr::Fence => 0x0330_000F,
        Instr::Ecall => 0x0000_0073,
    }
}

/// The format R.
fn format_r(
    opcode: u32,
    funct3: u32,
    funct7: u32,
    rd: Register,
    rs1: Register,
    rs2: Register,
) -> u32
    requires opcode_fits { opcode < 2 ^ 7 }
    requires funct3_fits { funct3 < 2 ^ 3 }
    requires funct7_fits { funct7 < 2 ^ 7 }
    ensures word { result ≡ format_r opcode funct3 funct7 rd rs1 rs2 }
    ensures registers { (rd < 32) × (rs1 < 32) × (rs2 < 32) }
{
    opcode
        + (u32::from(rd.number()) << 7)
        + (funct3 << 12)
        + (u32::from(rs1.number()) << 15)
        + (u32::from(rs2.number()) << 20)
        + (funct7 << 25)
}

/// The format I.
fn format_i(opcode: u32, funct3: u32, rd: Register, rs1: Register, immediate: Immediate) -> u32
    requires opcode_fits { opcode < 2 ^ 7 }
    requires funct3_fits { funct3 < 2 ^ 3 }
    ensures word { result ≡ format_i opcode funct3 rd rs1 immediate }
    ensures registers { (rd < 32) × (rs1 < 32) }
    ensures immediate { immediate < 2 ^ 12 }
{
    opcode
        + (u32::from(rd.number()) << 7)
        + (funct3 << 12)
        + (u32::from(rs1.number()) << 15)
        + (u32::from(immediate.bits()) << 20)
}

/// The format I of a 64-bit shift.
#[tactic(auto, unfolding(crate::specs::Formats::word_of))]
fn format_shift(operation: ShiftOperation, rd: Register, rs1: Register, count: ShiftCount) -> u32
    ensures word { result ≡ word_of (Instr.ShiftImmediate operation rd rs1 count) }
    ensures instruction { IsInstruction (Instr.ShiftImmediate operation rd rs1 count) }
{
    0b0010011
        + (u32::from(rd.number()) << 7)
        + (table::shift_funct3(operation) << 12)
        + (u32::from(rs1.number()) << 15)
        + ((table::shift_upper(operation) + u32::from(count.bits())) << 20)
}

/// The format I of a 32-bit shift.
#[tactic(auto, unfolding(crate::specs::Formats::word_of))]
fn format_word_shift(
    operation: ShiftOperation,
    rd: Register,
    rs1: Register,
    count: WordShiftCount,
) -> u32
    ensures word { result ≡ word_of (Instr.ShiftImmediateWord operation rd rs1 count) }
    ensures instruction { IsInstruction (Instr.ShiftImmediateWord operation rd rs1 count) }
{
    0b0011011
        + (u32::from(rd.number()) << 7)
        + (table::shift_funct3(operation) << 12)
        + (u32::from(rs1.number()) << 15)
        + ((table::shift_upper(operation) + u32::from(count.bits())) << 20)
}

/// The format S.
fn format_s(opcode: u32, funct3: u32, rs1: Register, rs2: Register, immediate: Immediate) -> u32
    requires opcode_fits { opcode < 2 ^ 7 }
    requires funct3_fits { funct3 < 2 ^ 3 }
    ensures word { result ≡ format_s opcode funct3 rs1 rs2 immediate }
    ensures registers { (rs1 < 32) × (rs2 < 32) }
    ensures immediate { immediate < 2 ^ 12 }
{
    let bits = u32::from(immediate.bits());
    opcode
        + ((bits % 32) << 7)
        + (funct3 << 12)
        + (u32::from(rs1.number()) << 15)
        + (u32::from(rs2.number()) << 20)
        + ((bits / 32) << 25)
}

/// The format B.
fn format_b(opcode: u32, funct3: u32, rs1: Register, rs2: Register, offset: BranchOffset) -> u32
    requires opcode_fits { opcode < 2 ^ 7 }
    requires funct3_fits { funct3 < 2 ^ 3 }
    ensures word { result ≡ format_b opcode funct3 rs1 rs2 offset }
    ensures registers { (rs1 < 32) × (rs2 < 32) }
    ensures offset { (offset < 2 ^ 13) × (offset % 2 ≡ 0) }
{
    let bits = u32::from(offset.bits());
    opcode
        + ((bits / 0x800 % 2) << 7)
        + ((bits / 2 % 16) << 8)
        + (funct3 << 12)
        + (u32::from(rs1.number()) << 15)
        + (u32::from(rs2.number()) << 20)
        + ((bits / 0x20 % 64) << 25)
        + ((bits / 0x1000) << 31)
}

/// The format U.
fn format_u(opcode: u32, rd: Register, immediate: UpperImmediate) -> u32
    requires { opcode < 2 ^ 7 }
    ensures word { result ≡ format_u opcode rd immediate }
    ensures register { rd < 32 }
    ensures immediate { immediate < 2 ^ 20 }
{
    opcode + (u32::from(rd.number()) << 7) + (immediate.bits() << 12)
}

/// The format J.
fn format_j(opcode: u32, rd: Register, offset: JumpOffset) -> u32
    requires { opcode < 2 ^ 7 }
    ensures word { result ≡ format_j opcode rd offset }
    ensures register { rd < 32 }
    ensures offset { (offset < 2 ^ 21) × (offset % 2 ≡ 0) }
{
    let bits = offset.bits();
    opcode
        + (u32::from(rd.number()) << 7)
        + ((bits / 0x1000 % 256) << 12)
        + ((bits / 0x800 % 2) << 20)
        + ((bits / 2 % 1024) << 21)
        + ((bits / 0x10_0000) << 31)
}

/// The instruction of a word; none where no instruction has it.
pub fn decode(word: u32) -> Option<Instr>
    ensures exact { result ≡ decoded word }
    ensures found { IfSome result (λ i. IsInstruction i × (word_of i ≡ word)) }
    ensures complete { (i : Instr) → IsInstruction i → word_of i ≡ word → result ≡ Some i }
{
    decode_fields(
        word % 128,
        register_at(word / 0x80),
        word / 0x1000 % 8,
        register_at(word / 0x8000),
        register_at(word / 0x10_0000),
        word / 0x200_0000,
    )
}

/// The register in the low five bits.
fn register_at(bits: u32) -> Register
    ensures { result ≡ bits % 2 ^ 5 }
{
    Register::new((bits % 32) as u8).unwrap()
}

/// The instruction of a word's six fields.
fn decode_fields(
    opcode: u32,
    rd: Register,
    funct3: u32,
    rs1: Register,
    rs2: Register,
    funct7: u32,
) -> Option<Instr>
    requires funct3_fits { funct3 < 2 ^ 3 }
    requires funct7_fits { funct7 < 2 ^ 7 }
    ensures { result ≡ decoded_fields opcode rd funct3 rs1 rs2 funct7 }
{
    match opcode {
        0b0110111 => Some(Instr::Lui {
            rd,
            immediate: upper_immediate(funct3, rs1, rs2, funct7),
        }),
        0b0010111 => Some(Instr::Auipc {
            rd,
            immediate: upper_immediate(funct3, rs1, rs2, funct7),
        }),
        0b1101111 => Some(Instr::Jal {
            rd,
            offset: jump_offset(funct3, rs1, rs2, funct7),
        }),
        0b1100111 if funct3 == 0 => Some(Instr::Jalr {
            rd,
            rs1,
            offset: immediate(rs2, funct7),
        }),
        0b1100011 => table::condition_at(funct3).map(|condition| Instr::Branch {
            condition,
            rs1,
            rs2,
            offset: branch_offset(rd, funct7),
        }),
        0b0000011 => table::load_at(funct3).map(|kind| Instr::Load {
            kind,
            rd,
            rs1,
            offset: immediate(rs2, funct7),
        }),
        0b0100011 => table::store_at(funct3).map(|kind| Instr::Store {
            kind,
            rs2,
            rs1,
            offset: store_immediate(rd, funct7),
        }),
        0b0010011 => decode_immediate(rd, funct3, rs1, rs2, funct7),
        0b0011011 => decode_immediate_word(rd, funct3, rs1, rs2, funct7),
        0b0110011 => table::operation_at(funct3, funct7).map(|operation| Instr::Op {
            operation,
            rd,
            rs1,
            rs2,
        }),
        0b0111011 => table::word_operation_at(funct3, funct7).map(|operation| Instr::Op {
            operation,
            rd,
            rs1,
            rs2,
        }),
        0b0001111 => decode_memory(rd, funct3, rs1, rs2, funct7),
        0b1110011 => decode_system(rd, funct3, rs1, rs2, funct7),
        _ => None,
    }
}

/// Opcode 0010011.
fn decode_immediate(
    rd: Register,
    funct3: u32,
    rs1: Register,
    rs2: Register,
    funct7: u32,
) -> Option<Instr>
    requires { funct7 < 2 ^ 7 }
    ensures { result ≡ immediate_at rd funct3 rs1 rs2 funct7 }
{
    match table::immediate_operation_at(funct3) {
        Some(operation) => Some(Instr::OpImmediate {
            operation,
            rd,
            rs1,
            immediate: immediate(rs2, funct7),
        }),
        None => table::shift_at(funct3, 64 * (funct7 / 2)).map(|operation| Instr::ShiftImmediate {
            operation,
            rd,
            rs1,
            count: shift_count(rs2, funct7),
        }),
    }
}

/// Opcode 0011011.
fn decode_immediate_word(
    rd: Register,
    funct3: u32,
    rs1: Register,
    rs2: Register,
    funct7: u32,
) -> Option<Instr>
    requires { funct7 < 2 ^ 7 }
    ensures { result ≡ immediate_word_at rd funct3 rs1 rs2 funct7 }
{
    if funct3 == 0b000 {
        Some(Instr::OpImmediate {
            operation: ImmediateOperation::Addiw,
            rd,
            rs1,
            immediate: immediate(rs2, funct7),
        })
    } else {
        table::shift_at(funct3, 32 * funct7).map(|operation| Instr::ShiftImmediateWord {
            operation,
            rd,
            rs1,
            count: word_shift_count(rs2),
        })
    }
}

/// Opcode 0001111.
fn decode_memory(
    rd: Register,
    funct3: u32,
    rs1: Register,
    rs2: Register,
    funct7: u32,
) -> Option<Instr>
    requires { funct7 < 2 ^ 7 }
    ensures { result ≡ memory_at rd funct3 rs1 rs2 funct7 }
{
    match (rd.number(), funct3, immediate(rs2, funct7).bits()) {
        (0, 0b000, 0x033) if rs1.number() == 0 => Some(Instr::Fence),
        (0, 0b010, 1) => Some(Instr::CboClean { rs1 }),
        _ => None,
    }
}

/// Opcode 1110011.
fn decode_system(
    rd: Register,
    funct3: u32,
    rs1: Register,
    rs2: Register,
    funct7: u32,
) -> Option<Instr>
    requires { funct7 < 2 ^ 7 }
    ensures { result ≡ system_at rd funct3 rs1 rs2 funct7 }
{
    match (
        rd.number(),
        funct3,
        rs1.number(),
        immediate(rs2, funct7).bits(),
    ) {
        (0, 0b000, 0, 0) => Some(Instr::Ecall),
        _ => None,
    }
}

/// The immediate of the format I.
fn immediate(rs2: Register, funct7: u32) -> Immediate
    requires { funct7 < 2 ^ 7 }
    ensures { result ≡ immediate_of rs2 funct7 }
{
    Immediate::new(u16::from(rs2.number()) + 32 * funct7 as u16).unwrap()
}

/// The immediate of the format S.
fn store_immediate(rd: Register, funct7: u32) -> Immediate
    requires { funct7 < 2 ^ 7 }
    ensures { result ≡ store_immediate_of rd funct7 }
{
    Immediate::new(u16::from(rd.number()) + 32 * funct7 as u16).unwrap()
}

/// The immediate of the format U.
fn upper_immediate(funct3: u32, rs1: Register, rs2: Register, funct7: u32) -> UpperImmediate
    requires funct3_fits { funct3 < 2 ^ 3 }
    requires funct7_fits { funct7 < 2 ^ 7 }
    ensures { result ≡ upper_immediate_of funct3 rs1 rs2 funct7 }
{
    let registers = 0x8 * u32::from(rs1.number()) + 0x100 * u32::from(rs2.number());
    UpperImmediate::new(funct3 + registers + 0x2000 * funct7).unwrap()
}

/// The offset of the format B.
fn branch_offset(rd: Register, funct7: u32) -> BranchOffset
    requires { funct7 < 2 ^ 7 }
    ensures { result ≡ branch_offset_of rd funct7 }
{
    let low = u16::from(rd.number());
    let high = funct7 as u16;
    let middle = 0x20 * (high % 64) + 0x800 * (low % 2);
    BranchOffset::new(2 * (low / 2) + middle + 0x1000 * (high / 64)).unwrap()
}

/// The offset of the format J.
fn jump_offset(funct3: u32, rs1: Register, rs2: Register, funct7: u32) -> JumpOffset
    requires funct3_fits { funct3 < 2 ^ 3 }
    requires funct7_fits { funct7 < 2 ^ 7 }
    ensures { result ≡ jump_offset_of funct3 rs1 rs2 funct7 }
{
    let low = u32::from(rs2.number());
    let middle = 0x20 * (funct7 % 64)
        + 0x800 * (low % 2)
        + 0x1000 * funct3
        + 0x8000 * u32::from(rs1.number());
    JumpOffset::new(2 * (low / 2) + middle + 0x10_0000 * (funct7 / 64)).unwrap()
}

/// The count of a 64-bit shift.
fn shift_count(rs2: Register, funct7: u32) -> ShiftCount
    ensures { result ≡ rs2 + 2 ^ 5 * (funct7 % 2) }
{
    ShiftCount::new(rs2.number() + 32 * (funct7 % 2) as u8).unwrap()
}

/// The count of a 32-bit shift.
fn word_shift_count(rs2: Register) -> WordShiftCount
    ensures { result ≡ rs2 }
{
    WordShiftCount::new(rs2.number()).unwrap()
}
