//! Shapes of variables, the parts of them that are read and written, and whether two such parts have an element in common.
ghost use Rattle.std.specs.Prelude.{◌≡◌};
ghost use Rattle.ido_base.specs.Locations.{have_one_key, have_two_keys, overlap, same};

/// How a variable stands in memory.
#[derive(Clone, Copy, Debug, PartialEq, Eq, Drop)]
pub struct Shape {
    /// Bytes of an element: 1, 2, 4 or 8.
    pub bytes: u32,
    /// Number of elements, 1 for a scalar.
    pub length: u32,
}

/// Elements `lo` to `hi` (both included) of the variable of this number: any of them, or, where there is a key, the one that the key of this number
/// names. Of one moment of a thread two keys name two elements.
#[derive(Clone, Copy, Debug, PartialEq, Eq, Drop)]
pub struct Location {
    pub variable: u32,
    pub lo: u32,
    pub hi: u32,
    pub key: Option<u32>,
}

/// Whether both have a key, and it is one key.
fn have_one_key(a: Option<u32>, b: Option<u32>) -> bool
    ensures { result ≡ have_one_key a b }
{
    match (a, b) {
        (Some(one), Some(other)) => one == other,
        _ => false,
    }
}

/// Whether both have a key, and these are two.
fn have_two_keys(a: Option<u32>, b: Option<u32>) -> bool
    ensures { result ≡ have_two_keys a b }
{
    match (a, b) {
        (Some(one), Some(other)) => one != other,
        _ => false,
    }
}

/// Whether an element may be in both: they are parts of one variable, their ranges meet, and they don't have two keys.
pub fn overlap(a: Location, b: Location) -> bool
    ensures { result ≡ overlap a b }
{
    a.variable == b.variable && a.lo <= b.hi && b.lo <= a.hi && !have_two_keys(a.key, b.key)
}

/// Whether both are one and the same single element of a variable: the only one of their ranges, or the one that their key names.
pub fn same(a: Location, b: Location) -> bool
    ensures { result ≡ same a b }
{
    let one_element = a.lo == a.hi && b.lo == b.hi && a.lo == b.lo;
    a.variable == b.variable && (one_element || have_one_key(a.key, b.key))
}
