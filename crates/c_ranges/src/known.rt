//! What is known of a reference: that it isn't null where a condition has said so, until it is assigned.
ghost use Rattle.std.specs.Prelude.{◌≡◌, ◌++◌, pos, OnOk};
ghost use Rattle.ido_ints.specs.declared.kinds.Kind.TheVariants.{UnsignedLong};
ghost use Rattle.ido_ints.specs.TypedNumbers.{typed};
ghost use Rattle.c_tree.specs.Exprs.{expr_of, lvalue_of};
ghost use Rattle.c_tree.specs.LockNames.{same_typed};
ghost use Rattle.c_tree.specs.NullReferences.{is_null, local_in, unequal_null, unnull, is_among, target_assigned};

use c_tree::expr::{Expr, Lvalue};
use ido_ints::{Binary, Kind, Value};
use std::alloc::AllocError;

/// Whether the value is what null is.
fn is_zero(value: Value) -> bool
    ensures { result ≡ same_typed value (typed UnsignedLong (pos 0)) }
{
    value.kind() == Kind::UnsignedLong && value.number() == 0
}

/// Whether the expression is null.
fn is_null(expr: &Expr) -> bool
    ensures { result ≡ is_null (expr_of expr.now) }
{
    match expr {
        Expr::Constant { value } => is_zero(*value),
        _ => false,
    }
}

/// The local, where the expression is one.
fn local_in(expr: &Expr) -> Option<u32>
    ensures { result ≡ local_in (expr_of expr.now) }
{
    match expr {
        Expr::Local { local, .. } => Some(*local),
        _ => None,
    }
}

/// The local of which a comparison of these operands by `!=` says that it isn't null, if there is one.
fn unequal(left: &Expr, right: &Expr) -> Option<u32>
    ensures { result ≡ unequal_null (expr_of left.now) (expr_of right.now) }
{
    if is_null(right) {
        local_in(left)
    } else if is_null(left) {
        local_in(right)
    } else {
        None
    }
}

/// The local of which the condition says that it isn't null, if there is one.
pub fn unnull(expr: &Expr) -> Option<u32>
    ensures { result ≡ unnull (expr_of expr.now) }
{
    match expr {
        Expr::Binary {
            operator,
            left,
            right,
        } => match operator {
            Binary::NotEqual => unequal(left, right),
            _ => None,
        },
        _ => None,
    }
}

/// Whether the local is one of these.
pub fn is_among(locals: &[u32], local: u32) -> bool
    ensures { result ≡ is_among locals.now local }
{
    locals.iter().any(|it| *it == local)
}

/// Adds the local that an assignment to the target assigns, if it is one. `AllocError`: want of memory.
pub fn add_target_assigned(locals: &mut Vec<u32>, target: &Lvalue) -> Result<(), AllocError>
    ensures { OnOk result (locals.new.items ≡ locals.old.items ++ target_assigned (lvalue_of target.now)) }
{
    match target {
        Lvalue::Local { local, .. } => {
            locals.push(*local)?;
            Ok(())
        }
        Lvalue::Variable { .. } | Lvalue::Element { .. } => Ok(()),
    }
}
