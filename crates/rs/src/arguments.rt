//! The words of the command line, as the operating system passes them.
ghost use Rattle.std.specs.Prelude.{◌≡◌, drop, IfOk};
ghost use Rattle.std.specs.Vec.Iter.{into_iter_items};

use crate::fault::Fault;
use reed_solomon_simd::Error;
use std::alloc::{AllocError, Global};
use std::env;
use std::env::Args;
use std::io::ErrorKind;

/// Returns all words after the name of the program, in order.
///
/// # Errors
///
/// [`Fault::Usage`] if a word is not UTF-8, and [`Fault::Refused`] with [`Error::OutOfMemory`] if the words cannot be
/// allocated.
pub fn read_words(rt: &HostRuntime) -> Result<Vec<String>, Fault> {
    match env::args(rt) {
        Ok(arguments) => Ok(words_after_name(rt.alloc(), arguments)?),
        Err(e) if e.kind() == ErrorKind::OutOfMemory => Err(Fault::Refused(Error::OutOfMemory)),
        Err(_) => Err(Fault::Usage),
    }
}

// Returns all arguments but the first one, which is the name of the program. Fails if memory cannot be allocated.
fn words_after_name(alloc: Global, mut arguments: Args) -> Result<Vec<String>, AllocError>
    ensures { IfOk result (λ words. words.items ≡ drop 1 (into_iter_items arguments)) }
{
    drop(arguments.next());
    let mut words = Vec::new(alloc);
    for word in arguments {
        words.push(word)?;
    }
    Ok(words)
}
