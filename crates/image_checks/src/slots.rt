//! What the slots of a bank are to hold.
ghost use Rattle.std.specs.Prelude.{◌≡◌, ◌↔◌, ◌+◌, ◌*◌, ◌<◌, ℕ, [], None, map, IfSome, IsTrue, pos};
ghost use Rattle.c_tree.specs.Programs.{variable_of};
ghost use Rattle.c_tree.specs.Ranges.{elements_of};
ghost use Rattle.c_tree.specs.WellFormed.{shape_of};
ghost use Rattle.c_tree.specs.links.KnownNames.{names_of};
ghost use Rattle.flow_graph.specs.HeldKeys.{names_in};
ghost use Rattle.ido_ints.specs.Reduction.{reduced};
ghost use Rattle.memory_layout.specs.Variables.{AreAddresses};
ghost use Rattle.image_checks.specs.Checks.{IsForm, IsElementOf, IsLocalWord, IsReferenceWord, IsUnnull};
ghost use Rattle.image_checks.specs.links.LocationElements.{IsElementIn, IsNumberedIn};

use crate::keys::named_element;
use c_tree::expr::LockRef;
use c_tree::program::Variable;
use flat_compile::resumes::LiveLocal;
use ido_base::location::Location;
use ido_ints::{Kind, Value, register_form};
use source_machine::variables::Variables;

/// Whether a word is the register form of a number of the kind.
pub fn is_form(kind: Kind, word: u64) -> bool
    ensures { IsTrue result ↔ IsForm kind word }
{
    register_form(Value::reduce(kind, i128::from(word))) == word
}

/// The number of the kind that a word is reduced to.
pub fn reduced(kind: Kind, word: u64) -> i128
    ensures { result ≡ reduced kind (pos word) }
{
    Value::reduce(kind, i128::from(word)).number()
}

// ---- References

/// How many elements the array of that number has for an index.
pub fn elements_of(variables: &[Variable], variable: u32) -> u32
    ensures { result ≡ elements_of (map variable_of variables.now) variable }
{
    match variables.get(variable as usize) {
        Some(found) => found.length.unwrap_or(0),
        None => 0,
    }
}

/// Whether the word is that of null, or of a reference to an element, where it is one of what refers so.
pub fn is_reference(variables: &[Variable], refers: Option<u32>, word: u64) -> bool
    ensures { IsTrue result ↔ IsReferenceWord (map variable_of variables.now) refers word }
{
    match refers {
        Some(array) => word <= u64::from(elements_of(variables, array)),
        None => true,
    }
}

/// Whether the word isn't that of null, where it is known not to be.
pub fn is_unnull(known: bool, word: u64) -> bool
    ensures { IsTrue result ↔ IsUnnull known word }
{
    if known { word != 0 } else { true }
}

/// Whether the word is a number that the local may have.
pub fn is_local_word(variables: &[Variable], local: LiveLocal, word: u64) -> bool
    ensures { IsTrue result ↔ IsLocalWord (map variable_of variables.now) local word }
{
    if !is_form(local.kind, word) {
        return false;
    }
    if !is_reference(variables, local.refers, word) {
        return false;
    }
    is_unnull(local.known, word)
}

// ---- Elements

/// Which element of so many bytes stands at the address, where the first stands at that one.
fn element_at(first: u64, bytes: u64, address: u64) -> Option<u64>
    requires { 0 < bytes }
    ensures is { IfSome result (λ element. address ≡ first + bytes * element) }
    ensures none { result ≡ None → (element : ℕ) → ¬ (address ≡ first + bytes * element) }
{
    let after = address.checked_sub(first)?;
    if after % bytes == 0 {
        Some(after / bytes)
    } else {
        None
    }
}

/// Whether an address is that of an element of the location's range, where these are those of the variables' first elements.
fn stands_in(variables: &[Variable], addresses: &[u32], location: Location, address: u64) -> bool
    requires { AreAddresses (map shape_of (map variable_of variables.now)) addresses.now }
    ensures { IsTrue result ↔ IsElementIn (map variable_of variables.now) location address }
{
    let Some(variable) = variables.get(location.variable as usize) else {
        return false;
    };
    let first = u64::from(addresses[location.variable as usize]);
    let bytes = u64::from(variable.kind.bytes());
    match element_at(first, bytes, address) {
        Some(element) => element >= u64::from(location.lo) && element <= u64::from(location.hi),
        None => false,
    }
}

/// Whether an address is that of the element of that number, which is one of the location's range.
fn is_numbered_in(
    variables: &[Variable],
    addresses: &[u32],
    location: Location,
    number: u128,
    address: u64,
) -> bool
    requires { AreAddresses (map shape_of (map variable_of variables.now)) addresses.now }
    ensures { IsTrue result ↔ IsNumberedIn (map variable_of variables.now) location number address }
{
    if number < u128::from(location.lo) {
        return false;
    }
    if number > u128::from(location.hi) {
        return false;
    }
    let one = Location {
        variable: location.variable,
        lo: number as u32,
        hi: number as u32,
        key: None,
    };
    stands_in(variables, addresses, one, address)
}

/// Whether an address is that of an element of the location, of which a thread has these names, and its locals these numbers.
pub fn is_element_of(
    variables: &[Variable],
    addresses: &[u32],
    names: &[LockRef<'_>],
    locals: &[i128],
    none: &Variables,
    location: Location,
    address: u64,
) -> bool
    requires addresses { AreAddresses (map shape_of (map variable_of variables.now)) addresses.now }
    requires none { none.now ≡ [] }
    ensures { IsTrue result ↔ IsElementOf (map variable_of variables.now)
        (names_in (map variable_of variables.now) (names_of names.now) locals.now) location address }
{
    let Some(key) = location.key else {
        return stands_in(variables, addresses, location, address);
    };
    match named_element(variables, names, locals, none, location.variable, key) {
        Some(number) => is_numbered_in(variables, addresses, location, number, address),
        None => false,
    }
}
