//! Results and branches that an emulator of RV64 gave.
use crate::arithmetic_vectors::{BRANCHES, RESULTS};
use rv64_alu::{alu, taken};

#[test]
fn computes_what_an_emulator_does(rt: HostRuntime) {
    for (operation, a, b, result) in RESULTS.iter() {
        let found = alu(*operation, *a, *b);
        assert_eq!(rt; found, *result, "{operation:?} of {a:#x} and {b:#x}");
    }
}

#[test]
fn branches_as_an_emulator_does(rt: HostRuntime) {
    for (condition, a, b, is_taken) in BRANCHES.iter() {
        let found = taken(*condition, *a, *b);
        assert_eq!(rt; found, *is_taken, "{condition:?} of {a:#x} and {b:#x}");
    }
}
