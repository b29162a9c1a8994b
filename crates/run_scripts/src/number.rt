//! Decimal numbers.
ghost use Rattle.std.specs.Prelude.{◌≡◌, ◌+◌, ◌-◌, ◌*◌, ◌≤◌, length, min, take, true, false, IfSome, IfNone, IsTrue};
ghost use Rattle.std.specs.List.{prefix_len};
ghost use Rattle.std.specs.Str.Parse.{digits_value};
ghost use Rattle.run_scripts.specs.Schedules.{is_digit, is_numeral};

/// Numbers are below this.
pub(crate) const NUMBER_LIMIT: u64 = 1 << 32;

/// The number with this digit after its own, or the limit where it is no less.
fn with_digit(number: u64, digit: u8) -> u64
    requires digit { IsTrue (is_digit digit) }
    requires bound { number ≤ 4294967296 }
    ensures { result ≡ min (number * 10 + (digit - 48)) 4294967296 }
{
    (number * 10 + u64::from(digit - b'0')).min(NUMBER_LIMIT)
}

/// The digits at the front of a text.
#[derive(Clone, Copy, Drop)]
pub(crate) struct Digits {
    /// The number that they spell, or the limit where it is no less.
    pub number: u64,
    /// How many they are.
    pub count: usize,
}

/// The digits at the front of a text, counted and summed at once.
pub(crate) fn leading_digits(text: &[u8]) -> Digits
    ensures number { result.number ≡ min (digits_value 10 (take result.count text.now)) 4294967296 }
    ensures count { result.count ≡ prefix_len is_digit text.now }
    ensures bound { result.count ≤ length text.now }
{
    let mut number = 0;
    let mut count = 0;
    while count < text.len() && text[count].is_ascii_digit() {
        number = with_digit(number, text[count]);
        count += 1;
    }
    Digits { number, count }
}

/// The number that a text spells, or the limit where it is no less; none where it spells none.
pub(crate) fn numeral(text: &[u8]) -> Option<u64>
    ensures none { IfNone result (is_numeral text.now ≡ false) }
    ensures numeral { IfSome result (λ n. is_numeral text.now ≡ true) }
    ensures value { IfSome result (λ n. n ≡ min (digits_value 10 text.now) 4294967296) }
{
    if text.is_empty() {
        return None;
    }
    let mut number = 0;
    for digit in text {
        if !digit.is_ascii_digit() {
            return None;
        }
        number = with_digit(number, *digit);
    }
    Some(number)
}
