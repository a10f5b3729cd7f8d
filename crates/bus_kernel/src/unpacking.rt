//! The image of a kernel, unpacked.

use crate::gzip::{Unpacking, unzip};
use crate::image::{Packing, packing_of};
use std::alloc::Global;

/// The longest image, unpacked or not, in bytes.
pub const MAX_IMAGE_LEN: usize = 268_435_456;

/// Why nothing is read of an image.
#[derive(Clone, Copy, Debug)]
pub enum ImageError {
    /// It is packed in a way that isn't unpacked here.
    Packed(Packing),
    /// It is a gzip file of which nothing comes.
    Gzip(Unpacking),
}

/// An image as it lies in memory, out of a file that may be a gzip file.
pub fn unpacked_image(alloc: Global, image: Vec<u8>) -> Result<Vec<u8>, ImageError> {
    match packing_of(image.as_slice()) {
        Packing::Plain => Ok(image),
        Packing::Gzip => unzip(alloc, image.as_slice(), MAX_IMAGE_LEN).map_err(ImageError::Gzip),
        packing => Err(ImageError::Packed(packing)),
    }
}
