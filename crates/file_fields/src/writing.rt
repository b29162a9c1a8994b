//! Fields written.
ghost use Rattle.std.specs.Prelude.{◌≡◌, ◌++◌, flat_map, OnOk};
ghost use Rattle.file_fields.specs.Numbers.{number, word};

use ido_base::memory::OutOfMemory;

/// Adds bytes.
pub fn put(out: &mut Vec<u8>, bytes: &[u8]) -> Result<(), OutOfMemory>
    ensures { OnOk result (out.new.items ≡ out.old.items ++ bytes.now) }
{
    out.extend_from_slice(bytes)?;
    Ok(())
}

/// Adds a number.
pub fn put_number(out: &mut Vec<u8>, n: u32) -> Result<(), OutOfMemory>
    ensures { OnOk result (out.new.items ≡ out.old.items ++ number n) }
{
    put(out, &n.to_le_bytes())
}

/// Adds a word.
pub fn put_word(out: &mut Vec<u8>, n: u64) -> Result<(), OutOfMemory>
    ensures { OnOk result (out.new.items ≡ out.old.items ++ word n) }
{
    put(out, &n.to_le_bytes())
}

/// Adds numbers.
pub fn put_numbers(out: &mut Vec<u8>, numbers: &[u32]) -> Result<(), OutOfMemory>
    ensures { OnOk result (out.new.items ≡ out.old.items ++ flat_map number numbers.now) }
{
    for n in numbers {
        put_number(out, *n)?;
    }
    Ok(())
}

/// Adds words.
pub fn put_words(out: &mut Vec<u8>, words: &[u64]) -> Result<(), OutOfMemory>
    ensures { OnOk result (out.new.items ≡ out.old.items ++ flat_map word words.now) }
{
    for word in words {
        put_word(out, *word)?;
    }
    Ok(())
}
