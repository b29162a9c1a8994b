//! Code that evaluates what is assigned.
ghost use Rattle.std.specs.Prelude.{◌≡◌, ◌<◌, ◌≤◌, ◌+◌, ◌++◌, length, IfOk, true};
ghost use Rattle.ido_base.specs.declared.limits.TheConstants.{MOST_PRICE, MOST_TEMPORARIES};
ghost use Rattle.c_tree.specs.Exprs.{expr_of, placed_of, ToLocal, ToVariable, ToElement};
ghost use Rattle.c_tree.specs.Prices.{need_of, nodes_of, node_price};
ghost use Rattle.expr_code.specs.EvaluationCode.{AreAtHome, home_of, homes_of, is_home};
ghost use Rattle.rv64_codegen.specs.links.Targets.{IsSelected};

use c_tree::expr::Placed;
use expr_code::{Frame, Home, select_converted, select_element_address, select_variable_address};
use ido_base::memory::OutOfMemory;
use ido_base::place::Place;
use ido_ints::Kind;
use operator_code::constant::constant;
use rv64_isa::field::Register;
use rv64_isa::instr::Instr;
use std::alloc::Global;

/// The address of the element that is assigned next.
const PENDING_ADDRESS: Register = Register::X28;

/// The value that it is assigned.
const PENDING_VALUE: Register = Register::X29;

/// A variable that is assigned, by its number. The place is that of its name.
#[derive(Clone, Copy)]
pub(crate) struct Assigned {
    pub place: Place,
    pub variable: u32,
    pub kind: Kind,
}

/// Code after code.
fn joined(mut first: Vec<Instr>, second: &[Instr]) -> Result<Vec<Instr>, OutOfMemory>
    ensures { IfOk result (λ code. code.items ≡ first.items ++ second.now) }
{
    first.extend_from_slice(second)?;
    Ok(first)
}

/// A local takes the value.
pub(crate) fn local_code(
    alloc: Global,
    frame: &Frame,
    place: Place,
    local: u32,
    kind: Kind,
    value: &Placed,
) -> Result<Vec<Instr>, OutOfMemory>
    requires local { local < length frame.now.locals.now }
    requires standing { is_home (home_of frame.now.locals.now local) ≡ true }
    requires home { AreAtHome (homes_of frame.now) (expr_of value.now.expr) }
    requires need { need_of (expr_of value.now.expr) ≤ MOST_TEMPORARIES }
    requires price { node_price (nodes_of (expr_of value.now.expr)) ≤ MOST_PRICE }
    ensures { IfOk result (λ code. IsSelected (homes_of frame.now) (ToLocal place local kind) (expr_of value.now.expr) code.items) }
{
    match frame.locals[local as usize] {
        Home::InRegister { register } => {
            let code = select_converted(alloc, &value.expr, kind, frame, register)?;
            Ok(code)
        }
        Home::InFrame { address } => {
            let first = constant(alloc, PENDING_ADDRESS, u64::from(address))?;
            let second = select_converted(alloc, &value.expr, kind, frame, PENDING_VALUE)?;
            let whole = joined(first, &second)?;
            Ok(whole)
        }
    }
}

/// x28 takes the address of a variable that is no array, and x29 the value.
pub(crate) fn variable_code(
    alloc: Global,
    frame: &Frame,
    assigned: Assigned,
    value: &Placed,
) -> Result<Vec<Instr>, OutOfMemory>
    requires variable { assigned.variable < length frame.now.addresses.now }
    requires home { AreAtHome (homes_of frame.now) (expr_of value.now.expr) }
    requires need { need_of (expr_of value.now.expr) ≤ MOST_TEMPORARIES }
    requires price { node_price (nodes_of (expr_of value.now.expr)) ≤ MOST_PRICE }
    ensures { IfOk result (λ code.
        IsSelected (homes_of frame.now) (ToVariable assigned.place assigned.variable assigned.kind) (expr_of value.now.expr) code.items) }
{
    let address = select_variable_address(alloc, assigned.variable, frame, PENDING_ADDRESS)?;
    let value = select_converted(alloc, &value.expr, assigned.kind, frame, PENDING_VALUE)?;
    let code = joined(address, &value)?;
    Ok(code)
}

/// x28 takes the address of the element of an array, and x29 the value.
pub(crate) fn element_code(
    alloc: Global,
    frame: &Frame,
    assigned: Assigned,
    index: &Placed,
    value: &Placed,
) -> Result<Vec<Instr>, OutOfMemory>
    requires variable { assigned.variable < length frame.now.addresses.now }
    requires index { AreAtHome (homes_of frame.now) (expr_of index.now.expr) }
    requires home { AreAtHome (homes_of frame.now) (expr_of value.now.expr) }
    requires need_index { need_of (expr_of index.now.expr) ≤ MOST_TEMPORARIES }
    requires need { need_of (expr_of value.now.expr) ≤ MOST_TEMPORARIES }
    requires price { node_price (nodes_of (expr_of index.now.expr) + nodes_of (expr_of value.now.expr)) ≤ MOST_PRICE }
    ensures { IfOk result (λ code.
        IsSelected (homes_of frame.now) (ToElement assigned.place assigned.variable assigned.kind (placed_of index.now))
        (expr_of value.now.expr) code.items) }
{
    let address = select_element_address(
        alloc,
        assigned.variable,
        assigned.kind,
        index,
        frame,
        PENDING_ADDRESS,
    )?;
    let value = select_converted(alloc, &value.expr, assigned.kind, frame, PENDING_VALUE)?;
    let code = joined(address, &value)?;
    Ok(code)
}
