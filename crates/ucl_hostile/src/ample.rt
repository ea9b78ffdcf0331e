//! Inputs of each length, with ample memory: no call may say that there is none.

use std::alloc::Global;
use ucl_screen::{FromRead, InputFault, read_night, read_words};

/// Whether these bytes, read as a script or as a sheet, find no memory.
fn finds_no_memory(alloc: Global, input: &[u8]) -> bool {
    let script = read_night(alloc, &mut FromRead::new(input)).err();
    let sheet = read_words(alloc, &mut FromRead::new(input)).err();
    [script, sheet].contains(&Some(InputFault::OutOfMemory))
}

/// Reads each proper prefix of the input as a script and as a sheet, fails if one finds no memory, and prints how many there are.
pub fn run<R: Print>(rt: &R, alloc: Global, input: &[u8]) -> anyhow::Result<()> {
    for length in 0..input.len() {
        if finds_no_memory(alloc, &input[..length]) {
            anyhow::bail!("out of memory at {length} bytes");
        }
    }
    println!(rt; "{} beginnings", input.len())?;
    Ok(())
}
