//! Pieces of a text between gaps, as words between blanks and lines between line ends.
ghost use Rattle.std.specs.Prelude.{◌≡◌, ◌+◌, ◌<◌, ◌≤◌, ◌∷◌, ℕ, List, length, drop, false};
ghost use Rattle.run_scripts.specs.Pieces.{pieces_at};
ghost use Rattle.run_scripts.specs.links.Lengths.{is_gap, gap_length, piece_length};

/// What stands between the pieces of a text.
#[derive(Clone, Copy, Drop)]
pub(crate) enum Gap {
    /// Spaces, LFs, and CRs with an LF after them: the pieces are words.
    Blank,
    /// LFs, and CRs with an LF after them: the pieces are the lines that aren't empty.
    LineEnd,
}

/// The greatest byte of a gap. Most bytes of a text are above it.
fn greatest_byte(gap: Gap) -> u8
    ensures { (byte : ℕ) (rest : List ℕ) → result < byte → is_gap gap (byte ∷ rest) ≡ false }
{
    match gap {
        Gap::Blank => b' ',
        Gap::LineEnd => b'\r',
    }
}

/// A byte of a gap comes next, or nothing.
fn begins_gap(gap: Gap, text: &[u8]) -> bool
    ensures { result ≡ is_gap gap text.now }
{
    match text {
        [byte, ..] if *byte > greatest_byte(gap) => false,
        [] | [b'\n', ..] | [b'\r', b'\n', ..] => true,
        [b' ', ..] => matches!(gap, Gap::Blank),
        _ => false,
    }
}

/// How far the gap at the front reaches.
fn gap_length(gap: Gap, text: &[u8]) -> usize
    ensures value { result ≡ gap_length (is_gap gap) text.now }
    ensures bound { result ≤ length text.now }
{
    let mut at = 0;
    while at < text.len() && begins_gap(gap, &text[at..]) {
        at += 1;
    }
    at
}

/// How far the piece at the front reaches.
fn piece_length(gap: Gap, text: &[u8]) -> usize
    ensures value { result ≡ piece_length (is_gap gap) text.now }
    ensures bound { result ≤ length text.now }
{
    let mut at = 0;
    while at < text.len() && !begins_gap(gap, &text[at..]) {
        at += 1;
    }
    at
}

/// Where the next piece stands, at or after a place; the end where there is none.
pub(crate) fn next_piece(gap: Gap, text: &[u8], at: usize) -> usize
    requires { at ≤ length text.now }
    ensures pieces { pieces_at (is_gap gap) at (drop at text.now) ≡ pieces_at (is_gap gap) result (drop result text.now) }
    ensures forward { at ≤ result }
    ensures bound { result ≤ length text.now }
    ensures piece { result < length text.now → is_gap gap (drop result text.now) ≡ false }
{
    at + gap_length(gap, &text[at..])
}

/// The piece at a place.
pub(crate) fn piece_at(gap: Gap, text: &[u8], at: usize) -> &[u8]
    requires within { at < length text.now }
    requires piece { is_gap gap (drop at text.now) ≡ false }
    ensures piece { pieces_at (is_gap gap) at (drop at text.now)
        ≡ record { place = at; bytes = result.now } ∷ pieces_at (is_gap gap) (at + length result.now) (drop (at + length result.now) text.now) }
    ensures bound { at + length result.now ≤ length text.now }
    ensures filled { 0 < length result.now }
{
    let rest = &text[at..];
    &rest[..piece_length(gap, rest)]
}
