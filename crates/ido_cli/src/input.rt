//! An input: a source text, a line `%%`, and the rest.
ghost use Rattle.std.specs.Prelude.{◌≡◌, option_map};
ghost use Rattle.std.specs.Option.{option_copied};
ghost use Rattle.ido_cli.specs.Inputs.{after_mark, after_mark_at, source_of, rest_of};

/// What stands after a line `%%`, where the text begins with one.
#[tactic(auto, unfolding(crate::specs::Inputs::after_mark), using(crate::proofs::InputSteps::up_to_end))]
fn after_mark(text: &[u8]) -> Option<&[u8]>
    ensures { option_map (λ r. r.now) result ≡ after_mark text.now }
{
    if text.starts_with(b"%%\n") {
        Some(&text[3..])
    } else if text.starts_with(b"%%\r\n") {
        Some(&text[4..])
    } else if text == b"%%".as_slice() {
        Some(&text[2..])
    } else {
        None
    }
}

/// What stands after a line `%%`, where a line begins here.
fn after_mark_at(begins: bool, text: &[u8]) -> Option<&[u8]>
    ensures { option_map (λ r. r.now) result ≡ after_mark_at begins text.now }
{
    if begins { after_mark(text) } else { None }
}

/// The source text of an input, which ends before its first line `%%`, and what stands after that line.
pub fn split(input: &[u8]) -> (&[u8], &[u8])
    ensures source { result.0.now ≡ source_of input.now }
    ensures rest { result.1.now ≡ rest_of input.now }
{
    let mut begins = true;
    for (i, c) in input.iter().enumerate() {
        if let Some(rest) = after_mark_at(begins, &input[i..]) {
            return (&input[..i], rest);
        }
        begins = *c == b'\n';
    }
    (input, &input[input.len()..])
}
