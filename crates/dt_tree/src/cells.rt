//! Numbers in bytes, the greatest byte first.
ghost use Rattle.std.specs.Prelude.{◌≡◌, ◌+◌, ◌≤◌, drop, length, take};
ghost use Rattle.std.specs.Int.{from_be_bytes, w32};
ghost use Rattle.dt_tree.specs.Cell.{cell_in};

/// The number in the four bytes at an offset.
pub fn cell_at(bytes: &[u8], offset: usize) -> u32
    requires { offset + 4 ≤ length bytes.now }
    ensures { result ≡ from_be_bytes w32 (take 4 (drop offset bytes.now)) }
{
    let mut cell = [0; 4];
    cell.copy_from_slice(&bytes[offset..offset + 4]);
    u32::from_be_bytes(cell)
}

/// The number that four bytes are; none of fewer or more.
pub fn cell_in(bytes: &[u8]) -> Option<u32>
    ensures { result ≡ cell_in bytes.now }
{
    if bytes.len() != 4 {
        return None;
    }
    Some(cell_at(bytes, 0))
}
