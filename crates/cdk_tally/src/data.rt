// Files of the folder `data/`.
use crate::Trouble;
use cdk_outside::Files;
use std::alloc::Global;

// The most bytes of a file of `data/`.
const MOST_BYTES: usize = 16_777_216;

/// The text of a file, of at most 16,777,216 bytes. `Memory` where no memory is found, `Data` where the file can't be
/// read, is longer or is no UTF-8.
pub fn text_of_file<F: Files>(
    alloc: Global,
    source: &mut F,
    name: &str,
) -> Result<String, Trouble> {
    let bytes = source.read(alloc, name, MOST_BYTES)?;
    match String::from_utf8(bytes) {
        Ok(text) => Ok(text),
        Err(_) => Err(Trouble::Data),
    }
}
