//! Addresses and loads of elements.
ghost use Rattle.std.specs.Prelude.{◌≡◌, ◌<◌, ◌≤◌, ◌^◌, ◌+◌, ◌*◌, ◌/◌, ◌%◌, ℕ, length, slice_index, IfOk};
ghost use Rattle.ido_base.specs.declared.place.Place.{Place};
ghost use Rattle.ido_base.specs.declared.limits.TheConstants.{MOST_TEMPORARIES};
ghost use Rattle.ido_ints.specs.Kinds.{bytes_of};
ghost use Rattle.c_tree.specs.Exprs as e;
ghost use Rattle.rv64_isa.specs.declared.instr.Instr.{Instr};
ghost use Rattle.ido_ints.specs.declared.kinds.Kind.{Kind};
ghost use Rattle.expr_code.specs.declared.home.Home.TheVariants.{InFrame};
ghost use Rattle.expr_code.specs.EvaluationCode.{Homes, EvaluatesTo, IsElementAddressCode, IsVariableAddressCode, home_of, impure_among};
ghost use Rattle.expr_code.specs.links.OperandCode.{IsEvaluation, IsOperand, is_free};
ghost use Rattle.expr_code.specs.links.ElementLoads.{loaded_by, places_of, HasUpper};

use crate::operand::Operand;
use crate::temporaries::{ADDRESS, temporary};
use ido_base::memory::OutOfMemory;
use ido_ints::Kind;
use operator_code::instructions::{add, immediate, lui, shift};
use rv64_isa::field::{Immediate, Register};
use rv64_isa::instr::{ImmediateOperation, Instr, LoadKind, ShiftOperation};
use std::alloc::Global;

/// The instruction that loads an element of a kind in its register form.
fn load_kind(kind: Kind) -> LoadKind
    ensures { result ≡ loaded_by kind }
{
    match kind {
        Kind::Char | Kind::UnsignedChar => LoadKind::Lbu,
        Kind::SignedChar => LoadKind::Lb,
        Kind::Short => LoadKind::Lh,
        Kind::UnsignedShort => LoadKind::Lhu,
        Kind::Int | Kind::UnsignedInt => LoadKind::Lw,
        Kind::Long | Kind::UnsignedLong => LoadKind::Ld,
    }
}

/// By how many places an index is shifted to count bytes.
fn scale(kind: Kind) -> u8
    ensures value { result ≡ places_of kind }
    ensures small { result < 4 }
{
    match kind {
        Kind::Char | Kind::UnsignedChar | Kind::SignedChar => 0,
        Kind::Short | Kind::UnsignedShort => 1,
        Kind::Int | Kind::UnsignedInt => 2,
        Kind::Long | Kind::UnsignedLong => 3,
    }
}

/// The part of an address that LUI gives: the multiple of 4096 that is nearest to it.
fn upper(address: u32) -> Instr
    ensures { result ≡ Instr.Lui 31 ((address + 2048) % 2 ^ 32 / 4096) }
{
    lui(ADDRESS, address.wrapping_add(0x800) / 4096)
}

/// The part of an address that an immediate adds.
fn lower(address: u32) -> u16
    ensures value { result ≡ address % 4096 }
    ensures small { result < 2 ^ 12 }
{
    (address % 4096) as u16
}

/// The upper part of an element's address into the register for addresses, with the bytes of the elements before it.
fn element_upper(
    index: Operand,
    address: u32,
    kind: Kind,
    held: u32,
) -> Result<Vec<Instr>, OutOfMemory>
    requires { held < MOST_TEMPORARIES }
    ensures short { IfOk result (λ code. length code.items ≤ length index.code.items + 3) }
    ensures pure { IfOk result (λ code. impure_among code.items ≡ impure_among index.code.items) }
    ensures code { IfOk result (λ code. (h : Homes) (x : e.Expr) → address + 2048 < 2 ^ 31 → IsOperand h x held index.register index.code.items →
        EvaluatesTo h x code.items (is_free held) (λ v y. HasUpper address (bytes_of kind) v y)) }
{
    let mut code = index.code;
    let count = scale(kind);
    code.push(upper(address))?;
    if count == 0 {
        code.push(add(ADDRESS, ADDRESS, index.register))?;
        return Ok(code);
    }
    let bytes = temporary(held);
    code.push(shift(ShiftOperation::Slli, bytes, index.register, count))?;
    code.push(add(ADDRESS, ADDRESS, bytes))?;
    Ok(code)
}

/// Loads an element from the address in the register for addresses and the lower part.
fn load(kind: Kind, rd: Register, address: u32) -> Instr
    ensures { result ≡ Instr.Load (loaded_by kind) rd 31 (address % 4096) }
{
    Instr::Load {
        kind: load_kind(kind),
        rd,
        rs1: ADDRESS,
        offset: Immediate::new(lower(address)).unwrap(),
    }
}

/// The value of a variable that is no array, into `rd`.
pub(crate) fn variable_code(
    alloc: Global,
    address: u32,
    kind: Kind,
    rd: Register,
) -> Result<Vec<Instr>, OutOfMemory>
    requires { 0 < rd }
    ensures short { IfOk result (λ code. length code.items ≡ 2) }
    ensures pure { IfOk result (λ code. impure_among code.items ≡ 0) }
    ensures code { IfOk result (λ code. (h : Homes) (place : Place) (variable held : ℕ) → slice_index h.addresses variable ≡ address →
        IsEvaluation h (e.Variable place variable kind) held rd code.items) }
{
    Ok(vec![in alloc; upper(address), load(kind, rd, address)]?)
}

/// The word of memory in which a local stands, into `rd`.
pub(crate) fn framed_code(
    alloc: Global,
    address: u32,
    rd: Register,
) -> Result<Vec<Instr>, OutOfMemory>
    requires { 0 < rd }
    ensures short { IfOk result (λ code. length code.items ≡ 2) }
    ensures pure { IfOk result (λ code. impure_among code.items ≡ 0) }
    ensures code { IfOk result (λ code. (h : Homes) (local : ℕ) (kind : Kind) (held : ℕ) → home_of h.locals local ≡ InFrame address → address < 2 ^ 30 →
        IsEvaluation h (e.Local local kind) held rd code.items) }
{
    Ok(vec![in alloc; upper(address), load(Kind::UnsignedLong, rd, address)]?)
}

/// The value of an element, into `rd`.
pub(crate) fn element_code(
    index: Operand,
    address: u32,
    kind: Kind,
    rd: Register,
    held: u32,
) -> Result<Vec<Instr>, OutOfMemory>
    requires some { 0 < rd }
    requires held { held < MOST_TEMPORARIES }
    ensures short { IfOk result (λ code. length code.items ≤ length index.code.items + 4) }
    ensures pure { IfOk result (λ code. impure_among code.items ≡ impure_among index.code.items) }
    ensures code { IfOk result (λ code. (h : Homes) (place : Place) (variable : ℕ) (index_place : Place) (x : e.Expr) →
        slice_index h.addresses variable ≡ address →
        IsOperand h x held index.register index.code.items → IsEvaluation h (e.Element place variable kind index_place x) held rd code.items) }
{
    let mut code = element_upper(index, address, kind, held)?;
    code.push(load(kind, rd, address))?;
    Ok(code)
}

/// The address of a variable that is no array, into `rd`.
pub(crate) fn variable_address(
    alloc: Global,
    address: u32,
    rd: Register,
) -> Result<Vec<Instr>, OutOfMemory>
    requires { 0 < rd }
    ensures short { IfOk result (λ code. length code.items ≡ 2) }
    ensures pure { IfOk result (λ code. impure_among code.items ≡ 0) }
    ensures code { IfOk result (λ code. (h : Homes) (variable : ℕ) → slice_index h.addresses variable ≡ address →
        IsVariableAddressCode h variable rd code.items) }
{
    Ok(vec![in alloc;
        upper(address),
        immediate(ImmediateOperation::Addi, rd, ADDRESS, lower(address)),
    ]?)
}

/// The address of an element, into `rd`, where no temporary is held.
pub(crate) fn element_address(
    index: Operand,
    address: u32,
    kind: Kind,
    rd: Register,
) -> Result<Vec<Instr>, OutOfMemory>
    requires { 0 < rd }
    ensures short { IfOk result (λ code. length code.items ≤ length index.code.items + 4) }
    ensures pure { IfOk result (λ code. impure_among code.items ≡ impure_among index.code.items) }
    ensures code { IfOk result (λ code. (h : Homes) (variable : ℕ) (x : e.Placed) → slice_index h.addresses variable ≡ address →
        IsOperand h x.expr 0 index.register index.code.items → IsElementAddressCode h variable kind x rd code.items) }
{
    let mut code = element_upper(index, address, kind, 0)?;
    code.push(immediate(ImmediateOperation::Addi, rd, ADDRESS, lower(address)))?;
    Ok(code)
}
