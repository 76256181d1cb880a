ghost use Rattle.std.specs.Prelude.{◌≡◌, ◌+◌, ◌≤◌, length};
ghost use Rattle.ob_words.specs.Fields.{IsFieldSize, field_at, with_field};

/// The number of the little-endian field of `size` bytes at place `at`, from 0 to 256 ^ size - 1.
/// `size` is 1, 2, 4 or 8, and the field lies in the bytes.
pub fn get_le(bytes: &[u8], at: usize, size: usize) -> u64
    requires size { IsFieldSize size }
    requires inside { at + size ≤ length bytes.now }
    ensures { result ≡ field_at bytes.now at size }
{
    match size {
        1 => bytes[at] as u64,
        2 => {
            let mut field = [0; 2];
            field.copy_from_slice(&bytes[at..at + 2]);
            u16::from_le_bytes(field) as u64
        }
        4 => {
            let mut field = [0; 4];
            field.copy_from_slice(&bytes[at..at + 4]);
            u32::from_le_bytes(field) as u64
        }
        _ => {
            let mut field = [0; 8];
            field.copy_from_slice(&bytes[at..at + 8]);
            u64::from_le_bytes(field)
        }
    }
}

/// Puts the low bytes of `w` into the little-endian field of `size` bytes at place `at`, and keeps
/// all other bytes. `size` is 1, 2, 4 or 8, and the field lies in the bytes.
pub fn put_le(bytes: &mut [u8], at: usize, size: usize, w: u64)
    requires size { IsFieldSize size }
    requires inside { at + size ≤ length bytes.old }
    ensures { bytes.new ≡ with_field bytes.old at size w }
{
    match size {
        1 => bytes[at] = (w & 0xff) as u8,
        2 => bytes[at..at + 2].copy_from_slice(&((w & 0xffff) as u16).to_le_bytes()),
        4 => bytes[at..at + 4].copy_from_slice(&((w & 0xffff_ffff) as u32).to_le_bytes()),
        _ => bytes[at..at + 8].copy_from_slice(&w.to_le_bytes()),
    }
}
