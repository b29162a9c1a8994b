//! A source and the graph of its flat form, stepped beside each other: what C leaves open, worked by hand.
use crate::flats::{HERE, KIND, assign, binary, flat};
use c_tree::expr::{Expr, LockName, Lvalue};
use c_tree::flat::{Flat, Statement};
use flow_lower::lower;
use flow_machine::FlowState;
use ido_ints::{Binary, Kind, Unary, Value};
use source_machine::{SourceState, Stepped};
use std::alloc::{AllocError, Global};
use std::test::Fail;

/// The least `int`, and the greatest.
const LEAST: i128 = -2147483648;

const GREATEST: i128 = 2147483647;

/// What the variables a and b begin with.
const INITIAL: [i128; 2] = [GREATEST, 1];

/// What each step answers, and the variables after it, of `lock(m); a = a + 1; b = -1 < 1u; unlock(m);`, of the end, and of one step more.
const STEPS: [(Stepped, [i128; 2]); 8] = [
    (Stepped::Did, [GREATEST, 1]),
    (Stepped::Did, [GREATEST, 1]),
    (Stepped::Did, [LEAST, 1]),
    (Stepped::Did, [LEAST, 1]),
    (Stepped::Did, [LEAST, 0]),
    (Stepped::Did, [LEAST, 0]),
    (Stepped::Did, [LEAST, 0]),
    (Stepped::Ended, [LEAST, 0]),
];

fn read(variable: u32) -> Expr {
    Expr::Variable {
        place: HERE,
        variable,
        kind: KIND,
    }
}

fn one(kind: Kind) -> Expr {
    Expr::Constant {
        value: Value::reduce(kind, 1),
    }
}

/// The variable takes the operator's value.
fn keep(
    a: Global,
    variable: u32,
    operator: Binary,
    left: Expr,
    right: Expr,
) -> Result<Statement, AllocError> {
    let target = Lvalue::Variable {
        place: HERE,
        variable,
        kind: KIND,
    };
    Ok(assign(HERE, target, binary(a, operator, left, right)?))
}

/// The mutex's lock.
const LOCK: LockName = LockName {
    mutex: 0,
    key: None,
};

/// `-1`.
fn minus_one(a: Global) -> Result<Expr, AllocError> {
    Ok(Expr::Unary {
        operator: Unary::Minus,
        operand: Box::new(a, one(KIND))?,
    })
}

/// The flat form of the section.
fn section(a: Global) -> Result<Flat, AllocError> {
    let mut body = Vec::new(a);
    body.push(Statement::Lock {
        place: HERE,
        lock: LOCK,
    })?;
    body.push(keep(a, 0, Binary::Add, read(0), one(KIND))?)?;
    let minus_one = minus_one(a)?;
    body.push(keep(a, 1, Binary::Less, minus_one, one(Kind::UnsignedInt))?)?;
    body.push(Statement::Unlock {
        place: HERE,
        lock: LOCK,
    })?;
    flat(a, 0, body, &INITIAL)
}

/// Another life of the source begins, if one may.
fn begin_another(source: &mut SourceState<'_>) {
    if source.can_restart() {
        source.restart();
    }
}

#[test]
fn in_step_with_the_source(rt: HostRuntime) -> Result<(), Fail> {
    let a = rt.alloc();
    let flat = section(a)?;
    let graph = lower(a, &flat)?;
    let mut source = SourceState::start(a, &flat)?;
    let mut flow = FlowState::start(a, &graph, &flat)?;
    for (answer, numbers) in STEPS {
        assert!(rt; source.threads() > 0 && flow.threads() > 0);
        let answers = (source.step(0), flow.step(0));
        assert_eq!(rt;
            (answers, source.variables(), flow.variables()),
            ((answer, answer), numbers.as_slice(), numbers.as_slice())
        );
    }
    assert!(rt; flow.threads() > 0);
    assert_eq!(rt; (flow.ended_sections(0), flow.between(0)), (1, true));
    begin_another(&mut source);
    assert!(rt; source.threads() > 0);
    assert_eq!(rt; source.step(0), Stepped::Did);
    Ok(())
}
