//! What expressions read.
ghost use Rattle.std.specs.Prelude.{◌≡◌, ◌++◌, IfOk};
ghost use Rattle.c_tree.specs.Exprs.{expr_of, placed_ref_of};
ghost use Rattle.c_tree.specs.LockDiscipline.{expr_locals};
ghost use Rattle.flow_graph.specs.Lowering.{element_number, elements, expr_reads};
ghost use Rattle.flow_lower.specs.links.Tables.{table_from};

use crate::table::{Table, key};
use c_ranges::range;
use c_tree::expr::{Expr, PlacedRef};
use ido_base::location::Location;
use ido_base::memory::OutOfMemory;

/// The number of an element, kept within 32 bits.
fn element_number(number: i128) -> u32
    ensures { result ≡ element_number number }
{
    if number < 0 {
        0
    } else if number < 4_294_967_295 {
        number as u32
    } else {
        4_294_967_295
    }
}

/// The elements of an array that an index may name, and the name whose lock guards the one that it names.
pub(crate) fn elements(
    table: &Table<'_>,
    variable: u32,
    index: PlacedRef<'_>,
) -> Result<Location, OutOfMemory>
    ensures { IfOk result (λ location. location ≡ elements (table_from table.now) variable (placed_ref_of index.entry)) }
{
    let range = range(index.expr);
    let key = key(table, variable, index)?;
    Ok(Location {
        variable,
        lo: element_number(range.lo),
        hi: element_number(range.hi),
        key,
    })
}

/// Adds the locals that an expression reads, from left to right.
pub(crate) fn add_locals(locals: &mut Vec<u32>, expr: &Expr) -> Result<(), OutOfMemory>
    ensures { IfOk result (λ _. locals.new.items ≡ locals.old.items ++ expr_locals (expr_of expr.now)) }
{
    match expr {
        Expr::Constant { .. } | Expr::Variable { .. } => {}
        Expr::Local { local, .. } | Expr::Referent { local, .. } => locals.push(*local)?,
        Expr::Element { index, .. } | Expr::Address { index, .. } => add_locals(locals, index)?,
        Expr::Unary { operand, .. }
        | Expr::Cast { operand, .. }
        | Expr::Converted { operand, .. } => add_locals(locals, operand)?,
        Expr::Binary { left, right, .. } => {
            add_locals(locals, left)?;
            add_locals(locals, right)?;
        }
        Expr::Conditional {
            condition,
            then,
            otherwise,
            ..
        } => {
            add_locals(locals, condition)?;
            add_locals(locals, then)?;
            add_locals(locals, otherwise)?;
        }
    }
    Ok(())
}

/// Adds the elements of variables that an expression reads, from left to right.
pub(crate) fn add_reads(
    reads: &mut Vec<Location>,
    table: &Table<'_>,
    expr: &Expr,
) -> Result<(), OutOfMemory>
    ensures { IfOk result (λ _. reads.new.items ≡ reads.old.items ++ expr_reads (table_from table.now) (expr_of expr.now)) }
{
    match expr {
        Expr::Constant { .. } | Expr::Local { .. } | Expr::Referent { .. } => {}
        Expr::Variable { variable, .. } => reads.push(Location {
            variable: *variable,
            lo: 0,
            hi: 0,
            key: None,
        })?,
        Expr::Element {
            variable,
            index_place,
            index,
            ..
        } => {
            let at = PlacedRef {
                place: *index_place,
                expr: index,
            };
            reads.push(elements(table, *variable, at)?)?;
            add_reads(reads, table, index)?;
        }
        Expr::Address { index, .. } => add_reads(reads, table, index)?,
        Expr::Unary { operand, .. }
        | Expr::Cast { operand, .. }
        | Expr::Converted { operand, .. } => add_reads(reads, table, operand)?,
        Expr::Binary { left, right, .. } => {
            add_reads(reads, table, left)?;
            add_reads(reads, table, right)?;
        }
        Expr::Conditional {
            condition,
            then,
            otherwise,
            ..
        } => {
            add_reads(reads, table, condition)?;
            add_reads(reads, table, then)?;
            add_reads(reads, table, otherwise)?;
        }
    }
    Ok(())
}
