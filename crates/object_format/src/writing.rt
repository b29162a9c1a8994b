//! An object written as bytes.
ghost use Rattle.std.specs.Prelude.{◌≡◌, ◌++◌, ◌<◌, ◌^◌, length, map, IfOk, OnOk, flat_map, All};
ghost use Rattle.file_fields.specs.Numbers.{number};
ghost use Rattle.object_format.specs.Contents.{contents_of, items_of};
ghost use Rattle.object_format.specs.ObjectEncoder.{HasLengths, magic, thread_text, spelling};

use crate::limits::version_of;
use file_fields::writing::{put, put_number, put_numbers};
use ido_base::memory::OutOfMemory;
use machine_model::object::Object;
use std::alloc::Global;

/// Adds the code of a thread.
fn put_thread(out: &mut Vec<u8>, words: &[u32]) -> Result<(), OutOfMemory>
    requires { length words.now < 2 ^ 32 }
    ensures { OnOk result (out.new.items ≡ out.old.items ++ thread_text words.now) }
{
    put_number(out, words.len() as u32)?;
    put_numbers(out, words)
}

/// Adds the code of threads.
fn put_code(out: &mut Vec<u8>, code: &[Vec<u32>]) -> Result<(), OutOfMemory>
    requires { All (λ words. length words.items < 2 ^ 32) code.now }
    ensures { OnOk result (out.new.items ≡ out.old.items ++ flat_map thread_text (map items_of code.now)) }
{
    for words in code {
        put_thread(out, words)?;
    }
    Ok(())
}

/// The bytes of an object, of which four bytes tell each length. They are read again exactly where the
/// object is within its limits and each of its words is an instruction's.
#[tactic(auto, using(crate::proofs::Objects::all_lengths_fit))]
pub fn write_object(alloc: Global, object: &Object) -> Result<Vec<u8>, OutOfMemory>
    requires { HasLengths (contents_of object.now) }
    ensures { IfOk result (λ bytes. bytes.items ≡ spelling (contents_of object.now)) }
{
    let mut out = Vec::new(alloc);
    put(&mut out, b"IDO-OBJ\n")?;
    put_number(&mut out, version_of(object.log))?;
    put_number(&mut out, object.code.len() as u32)?;
    put_number(&mut out, object.mutexes)?;
    put_number(&mut out, object.initial.len() as u32)?;
    put(&mut out, &object.initial)?;
    put_code(&mut out, &object.code)?;
    Ok(out)
}
