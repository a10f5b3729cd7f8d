//! The strings of the drivers that are built into a kernel.

use bus_kernel::tables::tables_in;
use std::alloc::{AllocError, Global};

/// The strings of each table of an image.
pub(crate) fn strings_of<'a>(
    alloc: Global,
    image: &'a [u8],
) -> Result<Vec<Vec<&'a [u8]>>, AllocError> {
    let mut lists = Vec::new(alloc);
    for table in tables_in(alloc, image)? {
        lists.push(table.compatibles)?;
    }
    Ok(lists)
}
