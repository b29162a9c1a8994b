//! Places in a text.
ghost use Rattle.std.specs.Prelude.{◌≡◌, ◌≤◌, ◌<◌, ◌^◌, ◌==◌, length, count_by, reverse, not};
ghost use Rattle.std.specs.List.{prefix_len};
ghost use Rattle.ido_base.specs.Places.{line_feed, line_of, column_of};

/// A byte offset in a text, from 0.
#[derive(Clone, Copy, Debug, PartialEq, Eq, PartialOrd, Ord, Drop)]
pub struct Place(pub u32);

/// The bytes from a place up to another, which is not part of it.
#[derive(Clone, Copy, Debug, PartialEq, Eq, Drop)]
pub struct Span {
    pub from: Place,
    pub to: Place,
}

const LINE_FEED: u8 = b'\n';

/// The line and the byte column of a place that is printed, both from 1. Lines end with LF.
pub fn line_column(text: &[u8], place: Place) -> (u32, u32)
    requires within { place.0 ≤ length text.now }
    requires short { length text.now < 2 ^ 31 }
    ensures line { result.0 ≡ line_of text.now place.0 }
    ensures column { result.1 ≡ column_of text.now place.0 }
{
    let before = &text[..place.0 as usize];
    let line = 1 + count_line_feeds(before);
    let column = 1 + length_after_line_feed(before);
    (line, column)
}

/// How many line feeds there are.
fn count_line_feeds(text: &[u8]) -> u32
    requires { length text.now < 2 ^ 31 }
    ensures value { result ≡ count_by (λ c. c == line_feed) text.now }
    ensures bound { result ≤ length text.now }
{
    let mut count = 0;
    for c in text {
        if *c == LINE_FEED {
            count += 1;
        }
    }
    count
}

/// How many bytes stand after the last line feed.
fn length_after_line_feed(text: &[u8]) -> u32
    requires { length text.now < 2 ^ 31 }
    ensures value { result ≡ prefix_len (λ c. not (c == line_feed)) (reverse text.now) }
    ensures bound { result ≤ length text.now }
{
    let mut after = 0;
    for c in text {
        after = if *c == LINE_FEED { 0 } else { after + 1 };
    }
    after
}
