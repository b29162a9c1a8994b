//! Code whose values stand in registers.
use operator_code::Test;
use rv64_isa::field::Register;
use rv64_isa::instr::Instr;

/// Code after which a register has a value.
#[derive(Drop)]
pub(crate) struct Operand {
    pub code: Vec<Instr>,
    pub register: Register,
}

/// Code after which two registers have values.
#[derive(Drop)]
pub(crate) struct Pair {
    pub code: Vec<Instr>,
    pub left: Register,
    pub right: Register,
}

/// Code and a test that is passed after it exactly where the condition isn't 0.
#[derive(Drop)]
pub struct TestCode {
    pub code: Vec<Instr>,
    pub test: Test,
}
