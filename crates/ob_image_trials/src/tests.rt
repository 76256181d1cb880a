// What the tests share: images in version 2 from those in version 1, and where reading stops.

mod bytes;
mod heads;
mod names;
mod places;
mod written;

use ob_image::{ImageFault, read_image};
use std::alloc::{AllocError, Global};

/// The first wrong place, or nothing where the bytes are an image.
fn place(alloc: Global, bytes: &[u8]) -> Option<ImageFault> {
    read_image(alloc, bytes).err()
}

/// The bytes with one of them turned.
fn turned(alloc: Global, bytes: &[u8], at: usize, value: u8) -> Result<Vec<u8>, AllocError> {
    let mut out = bytes.to_vec(alloc)?;
    if let Some(byte) = out.get_mut(at) {
        *byte = value;
    }
    Ok(out)
}

/// The spelling in version 2, for profile 1, of an image that is spelled in version 1, with these bytes in
/// place of the names, which begin with their count.
fn second(alloc: Global, first: &[u8], names: &[u8]) -> Result<Vec<u8>, AllocError> {
    let mut out = b"OBLV\x02\0\0\0\x01\0\0\0".to_vec(alloc)?;
    for byte in first.iter().skip(8) {
        out.push(*byte)?;
    }
    out.extend_from_slice(names)?;
    Ok(out)
}
