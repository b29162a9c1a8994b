//! The numbers that stand in a word for the kinds of instructions, both ways.
ghost use Rattle.std.specs.Prelude.{◌≡◌, ◌^◌, ◌<◌};
ghost use Rattle.rv64_isa.specs.Formats.{condition_funct3, condition_at, load_funct3, load_at, store_funct3, store_at, immediate_opcode};
ghost use Rattle.rv64_isa.specs.Formats.{immediate_funct3, immediate_operation_at, shift_funct3, shift_upper, shift_at, op_opcode, op_funct3};
ghost use Rattle.rv64_isa.specs.Formats.{op_funct7, base_operation_at, alternate_operation_at, multiply_operation_at, operation_at};
ghost use Rattle.rv64_isa.specs.Formats.{base_word_operation_at, alternate_word_operation_at, multiply_word_operation_at, word_operation_at};

use crate::instr::{Condition, ImmediateOperation, LoadKind, Operation, ShiftOperation, StoreKind};

/// funct3 of a branch.
pub fn condition_funct3(condition: Condition) -> u32
    ensures value { result ≡ condition_funct3 condition }
    ensures range { result < 2 ^ 3 }
{
    match condition {
        Condition::Beq => 0b000,
        Condition::Bne => 0b001,
        Condition::Blt => 0b100,
        Condition::Bge => 0b101,
        Condition::Bltu => 0b110,
        Condition::Bgeu => 0b111,
    }
}

/// The branch of this funct3.
pub fn condition_at(funct3: u32) -> Option<Condition>
    ensures { result ≡ condition_at funct3 }
{
    match funct3 {
        0b000 => Some(Condition::Beq),
        0b001 => Some(Condition::Bne),
        0b100 => Some(Condition::Blt),
        0b101 => Some(Condition::Bge),
        0b110 => Some(Condition::Bltu),
        0b111 => Some(Condition::Bgeu),
        _ => None,
    }
}

/// funct3 of a load.
pub fn load_funct3(kind: LoadKind) -> u32
    ensures value { result ≡ load_funct3 kind }
    ensures range { result < 2 ^ 3 }
{
    match kind {
        LoadKind::Lb => 0b000,
        LoadKind::Lh => 0b001,
        LoadKind::Lw => 0b010,
        LoadKind::Ld => 0b011,
        LoadKind::Lbu => 0b100,
        LoadKind::Lhu => 0b101,
        LoadKind::Lwu => 0b110,
    }
}

/// The load of this funct3.
pub fn load_at(funct3: u32) -> Option<LoadKind>
    ensures { result ≡ load_at funct3 }
{
    match funct3 {
        0b000 => Some(LoadKind::Lb),
        0b001 => Some(LoadKind::Lh),
        0b010 => Some(LoadKind::Lw),
        0b011 => Some(LoadKind::Ld),
        0b100 => Some(LoadKind::Lbu),
        0b101 => Some(LoadKind::Lhu),
        0b110 => Some(LoadKind::Lwu),
        _ => None,
    }
}

/// funct3 of a store.
pub fn store_funct3(kind: StoreKind) -> u32
    ensures value { result ≡ store_funct3 kind }
    ensures range { result < 2 ^ 3 }
{
    match kind {
        StoreKind::Sb => 0b000,
        StoreKind::Sh => 0b001,
        StoreKind::Sw => 0b010,
        StoreKind::Sd => 0b011,
    }
}

/// The store of this funct3.
pub fn store_at(funct3: u32) -> Option<StoreKind>
    ensures { result ≡ store_at funct3 }
{
    match funct3 {
        0b000 => Some(StoreKind::Sb),
        0b001 => Some(StoreKind::Sh),
        0b010 => Some(StoreKind::Sw),
        0b011 => Some(StoreKind::Sd),
        _ => None,
    }
}

/// The opcode of an operation on an immediate.
pub fn immediate_opcode(operation: ImmediateOperation) -> u32
    ensures value { result ≡ immediate_opcode operation }
    ensures range { result < 2 ^ 7 }
{
    match operation {
        ImmediateOperation::Addiw => 0b0011011,
        ImmediateOperation::Addi
        | ImmediateOperation::Slti
        | ImmediateOperation::Sltiu
        | ImmediateOperation::Xori
        | ImmediateOperation::Ori
        | ImmediateOperation::Andi => 0b0010011,
    }
}

/// funct3 of an operation on an immediate.
pub fn immediate_funct3(operation: ImmediateOperation) -> u32
    ensures value { result ≡ immediate_funct3 operation }
    ensures range { result < 2 ^ 3 }
{
    match operation {
        ImmediateOperation::Addi | ImmediateOperation::Addiw => 0b000,
        ImmediateOperation::Slti => 0b010,
        ImmediateOperation::Sltiu => 0b011,
        ImmediateOperation::Xori => 0b100,
        ImmediateOperation::Ori => 0b110,
        ImmediateOperation::Andi => 0b111,
    }
}

/// The 64-bit operation on an immediate that has this funct3.
pub fn immediate_operation_at(funct3: u32) -> Option<ImmediateOperation>
    ensures { result ≡ immediate_operation_at funct3 }
{
    match funct3 {
        0b000 => Some(ImmediateOperation::Addi),
        0b010 => Some(ImmediateOperation::Slti),
        0b011 => Some(ImmediateOperation::Sltiu),
        0b100 => Some(ImmediateOperation::Xori),
        0b110 => Some(ImmediateOperation::Ori),
        0b111 => Some(ImmediateOperation::Andi),
        _ => None,
    }
}

/// funct3 of a shift by a count.
pub fn shift_funct3(operation: ShiftOperation) -> u32
    ensures value { result ≡ shift_funct3 operation }
    ensures range { result < 2 ^ 3 }
{
    match operation {
        ShiftOperation::Slli => 0b001,
        ShiftOperation::Srli | ShiftOperation::Srai => 0b101,
    }
}

/// What stands above the count in the immediate of a shift.
pub fn shift_upper(operation: ShiftOperation) -> u32
    ensures value { result ≡ shift_upper operation }
    ensures range { result < 2 ^ 11 }
{
    match operation {
        ShiftOperation::Slli | ShiftOperation::Srli => 0,
        ShiftOperation::Srai => 1 << 10,
    }
}

/// The shift of this funct3 with this above its count.
pub fn shift_at(funct3: u32, upper: u32) -> Option<ShiftOperation>
    ensures { result ≡ shift_at funct3 upper }
{
    match (funct3, upper) {
        (0b001, 0) => Some(ShiftOperation::Slli),
        (0b101, 0) => Some(ShiftOperation::Srli),
        (0b101, 0x400) => Some(ShiftOperation::Srai),
        _ => None,
    }
}

/// The opcode of an operation on two registers.
pub fn op_opcode(operation: Operation) -> u32
    ensures value { result ≡ op_opcode operation }
    ensures range { result < 2 ^ 7 }
{
    match operation {
        Operation::Add
        | Operation::Sub
        | Operation::Sll
        | Operation::Slt
        | Operation::Sltu
        | Operation::Xor
        | Operation::Srl
        | Operation::Sra
        | Operation::Or
        | Operation::And
        | Operation::Mul
        | Operation::Mulh
        | Operation::Mulhsu
        | Operation::Mulhu
        | Operation::Div
        | Operation::Divu
        | Operation::Rem
        | Operation::Remu => 0b0110011,
        Operation::Addw
        | Operation::Subw
        | Operation::Sllw
        | Operation::Srlw
        | Operation::Sraw
        | Operation::Mulw
        | Operation::Divw
        | Operation::Divuw
        | Operation::Remw
        | Operation::Remuw => 0b0111011,
    }
}

/// funct3 of an operation on two registers.
pub fn op_funct3(operation: Operation) -> u32
    ensures value { result ≡ op_funct3 operation }
    ensures range { result < 2 ^ 3 }
{
    match operation {
        Operation::Add
        | Operation::Sub
        | Operation::Mul
        | Operation::Addw
        | Operation::Subw
        | Operation::Mulw => 0b000,
        Operation::Sll | Operation::Mulh | Operation::Sllw => 0b001,
        Operation::Slt | Operation::Mulhsu => 0b010,
        Operation::Sltu | Operation::Mulhu => 0b011,
        Operation::Xor | Operation::Div | Operation::Divw => 0b100,
        Operation::Srl
        | Operation::Sra
        | Operation::Divu
        | Operation::Srlw
        | Operation::Sraw
        | Operation::Divuw => 0b101,
        Operation::Or | Operation::Rem | Operation::Remw => 0b110,
        Operation::And | Operation::Remu | Operation::Remuw => 0b111,
    }
}

/// funct7 of an operation on two registers.
pub fn op_funct7(operation: Operation) -> u32
    ensures value { result ≡ op_funct7 operation }
    ensures range { result < 2 ^ 7 }
{
    match operation {
        Operation::Add
        | Operation::Sll
        | Operation::Slt
        | Operation::Sltu
        | Operation::Xor
        | Operation::Srl
        | Operation::Or
        | Operation::And
        | Operation::Addw
        | Operation::Sllw
        | Operation::Srlw => 0b0000000,
        Operation::Sub | Operation::Sra | Operation::Subw | Operation::Sraw => 0b0100000,
        Operation::Mul
        | Operation::Mulh
        | Operation::Mulhsu
        | Operation::Mulhu
        | Operation::Div
        | Operation::Divu
        | Operation::Rem
        | Operation::Remu
        | Operation::Mulw
        | Operation::Divw
        | Operation::Divuw
        | Operation::Remw
        | Operation::Remuw => 0b0000001,
    }
}

/// The 64-bit operation with this funct3 and funct7 0000000.
pub fn base_operation_at(funct3: u32) -> Option<Operation>
    ensures { result ≡ base_operation_at funct3 }
{
    match funct3 {
        0b000 => Some(Operation::Add),
        0b001 => Some(Operation::Sll),
        0b010 => Some(Operation::Slt),
        0b011 => Some(Operation::Sltu),
        0b100 => Some(Operation::Xor),
        0b101 => Some(Operation::Srl),
        0b110 => Some(Operation::Or),
        0b111 => Some(Operation::And),
        _ => None,
    }
}

/// The 64-bit operation with this funct3 and funct7 0100000.
pub fn alternate_operation_at(funct3: u32) -> Option<Operation>
    ensures { result ≡ alternate_operation_at funct3 }
{
    match funct3 {
        0b000 => Some(Operation::Sub),
        0b101 => Some(Operation::Sra),
        _ => None,
    }
}

/// The 64-bit operation with this funct3 and funct7 0000001.
pub fn multiply_operation_at(funct3: u32) -> Option<Operation>
    ensures { result ≡ multiply_operation_at funct3 }
{
    match funct3 {
        0b000 => Some(Operation::Mul),
        0b001 => Some(Operation::Mulh),
        0b010 => Some(Operation::Mulhsu),
        0b011 => Some(Operation::Mulhu),
        0b100 => Some(Operation::Div),
        0b101 => Some(Operation::Divu),
        0b110 => Some(Operation::Rem),
        0b111 => Some(Operation::Remu),
        _ => None,
    }
}

/// The 64-bit operation with this funct3 and funct7.
pub fn operation_at(funct3: u32, funct7: u32) -> Option<Operation>
    ensures { result ≡ operation_at funct3 funct7 }
{
    match funct7 {
        0b0000000 => base_operation_at(funct3),
        0b0100000 => alternate_operation_at(funct3),
        0b0000001 => multiply_operation_at(funct3),
        _ => None,
    }
}

/// The 32-bit operation with this funct3 and funct7 0000000.
pub fn base_word_operation_at(funct3: u32) -> Option<Operation>
    ensures { result ≡ base_word_operation_at funct3 }
{
    match funct3 {
        0b000 => Some(Operation::Addw),
        0b001 => Some(Operation::Sllw),
        0b101 => Some(Operation::Srlw),
        _ => None,
    }
}

/// The 32-bit operation with this funct3 and funct7 0100000.
pub fn alternate_word_operation_at(funct3: u32) -> Option<Operation>
    ensures { result ≡ alternate_word_operation_at funct3 }
{
    match funct3 {
        0b000 => Some(Operation::Subw),
        0b101 => Some(Operation::Sraw),
        _ => None,
    }
}

/// The 32-bit operation with this funct3 and funct7 0000001.
pub fn multiply_word_operation_at(funct3: u32) -> Option<Operation>
    ensures { result ≡ multiply_word_operation_at funct3 }
{
    match funct3 {
        0b000 => Some(Operation::Mulw),
        0b100 => Some(Operation::Divw),
        0b101 => Some(Operation::Divuw),
        0b110 => Some(Operation::Remw),
        0b111 => Some(Operation::Remuw),
        _ => None,
    }
}

/// The 32-bit operation with this funct3 and funct7.
pub fn word_operation_at(funct3: u32, funct7: u32) -> Option<Operation>
    ensures { result ≡ word_operation_at funct3 funct7 }
{
    match funct7 {
        0b0000000 => base_word_operation_at(funct3),
        0b0100000 => alternate_word_operation_at(funct3),
        0b0000001 => multiply_word_operation_at(funct3),
        _ => None,
    }
}
