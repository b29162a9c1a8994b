//! Names of instructions in a listing.
ghost use Rattle.std.specs.Prelude.{◌≡◌};
ghost use Rattle.object_listing.specs.Instructions.{operation_name, immediate_name, shift_name, word_shift_name, condition_name, load_name, store_name};

use rv64_isa::instr::{
    Condition, ImmediateOperation, LoadKind, Operation, ShiftOperation, StoreKind,
};

/// An operation on two registers.
pub fn operation_name(operation: Operation) -> &'static str
    ensures { result.now ≡ operation_name operation }
{
    match operation {
        Operation::Add => "add",
        Operation::Sub => "sub",
        Operation::Sll => "sll",
        Operation::Slt => "slt",
        Operation::Sltu => "sltu",
        Operation::Xor => "xor",
        Operation::Srl => "srl",
        Operation::Sra => "sra",
        Operation::Or => "or",
        Operation::And => "and",
        Operation::Mul => "mul",
        Operation::Mulh => "mulh",
        Operation::Mulhsu => "mulhsu",
        Operation::Mulhu => "mulhu",
        Operation::Div => "div",
        Operation::Divu => "divu",
        Operation::Rem => "rem",
        Operation::Remu => "remu",
        Operation::Addw => "addw",
        Operation::Subw => "subw",
        Operation::Sllw => "sllw",
        Operation::Srlw => "srlw",
        Operation::Sraw => "sraw",
        Operation::Mulw => "mulw",
        Operation::Divw => "divw",
        Operation::Divuw => "divuw",
        Operation::Remw => "remw",
        Operation::Remuw => "remuw",
    }
}

/// An operation on a register and an immediate.
pub fn immediate_name(operation: ImmediateOperation) -> &'static str
    ensures { result.now ≡ immediate_name operation }
{
    match operation {
        ImmediateOperation::Addi => "addi",
        ImmediateOperation::Slti => "slti",
        ImmediateOperation::Sltiu => "sltiu",
        ImmediateOperation::Xori => "xori",
        ImmediateOperation::Ori => "ori",
        ImmediateOperation::Andi => "andi",
        ImmediateOperation::Addiw => "addiw",
    }
}

/// A shift by a count.
pub fn shift_name(operation: ShiftOperation) -> &'static str
    ensures { result.now ≡ shift_name operation }
{
    match operation {
        ShiftOperation::Slli => "slli",
        ShiftOperation::Srli => "srli",
        ShiftOperation::Srai => "srai",
    }
}

/// The W form of a shift by a count.
pub fn word_shift_name(operation: ShiftOperation) -> &'static str
    ensures { result.now ≡ word_shift_name operation }
{
    match operation {
        ShiftOperation::Slli => "slliw",
        ShiftOperation::Srli => "srliw",
        ShiftOperation::Srai => "sraiw",
    }
}

/// A branch.
pub fn condition_name(condition: Condition) -> &'static str
    ensures { result.now ≡ condition_name condition }
{
    match condition {
        Condition::Beq => "beq",
        Condition::Bne => "bne",
        Condition::Blt => "blt",
        Condition::Bge => "bge",
        Condition::Bltu => "bltu",
        Condition::Bgeu => "bgeu",
    }
}

/// A load.
pub fn load_name(kind: LoadKind) -> &'static str
    ensures { result.now ≡ load_name kind }
{
    match kind {
        LoadKind::Lb => "lb",
        LoadKind::Lh => "lh",
        LoadKind::Lw => "lw",
        LoadKind::Ld => "ld",
        LoadKind::Lbu => "lbu",
        LoadKind::Lhu => "lhu",
        LoadKind::Lwu => "lwu",
    }
}

/// A store.
pub fn store_name(kind: StoreKind) -> &'static str
    ensures { result.now ≡ store_name kind }
{
    match kind {
        StoreKind::Sb => "sb",
        StoreKind::Sh => "sh",
        StoreKind::Sw => "sw",
        StoreKind::Sd => "sd",
    }
}
