//! The header of the file, and its heap as words.

ghost use Rattle.std.specs.Prelude.{◌≡◌, ℕ, ◌==◌, ◌%◌, ◌+◌, ◌*◌, ◌/◌, ◌<◌, ◌≤◌, ◌^◌, IfOk, length};
ghost use Rattle.cs_model.specs.ImageFile.{u32_at as u32_of, u64_at as u64_of, words_in, birth_count, heap_size};
ghost use Rattle.cs_model.specs.ImageFile.{has_births};
ghost use Rattle.cs_model.specs.ImageFault.{is_bad_length, is_bad_profile};

use byteorder::{ByteOrder, LittleEndian};
use std::alloc::{AllocError, Global};

/// The number of 4 bytes from a place on.
pub(crate) fn u32_at(bytes: &[u8], place: usize) -> u32
    requires { place + 4 ≤ length bytes.now }
    ensures { result ≡ u32_of bytes.now place }
{
    LittleEndian::read_u32(&bytes[place..])
}

/// The number of 8 bytes from a place on.
pub(crate) fn u64_at(bytes: &[u8], place: usize) -> u64
    requires { place + 8 ≤ length bytes.now }
    ensures { result ≡ u64_of bytes.now place }
{
    LittleEndian::read_u64(&bytes[place..])
}

/// Whether the header is of profile 2, in which it says how many stack pages there are, and that number isn't one of a
/// machine: 0, which leaves it to the machine, or 2 to 64.
pub(crate) fn has_bad_profile(bytes: &[u8]) -> bool
    requires { 64 ≤ length bytes.now }
    ensures { result ≡ is_bad_profile bytes.now }
{
    let pages = LittleEndian::read_u16(&bytes[36..]);
    u32_at(bytes, 28) >> 31 == 1 && !(pages == 0 || 2 <= pages && pages <= 64)
}

/// Whether the file goes on behind its heap.
pub(crate) fn goes_on(bytes: &[u8]) -> bool
    requires { 64 ≤ length bytes.now }
    ensures { result ≡ has_births bytes.now }
{
    bytes.len() as u64 != 64 + u64::from(u32_at(bytes, 8))
}

/// Whether the sizes of the header and of the file don't fit one another.
pub(crate) fn has_bad_length(bytes: &[u8]) -> bool
    requires long { 64 ≤ length bytes.now }
    requires short { length bytes.now ≤ 536870912 }
    ensures { result ≡ is_bad_length bytes.now }
{
    let size = u32_at(bytes, 8);
    let heap = u64::from(size);
    let base = u64::from(u32_at(bytes, 12));
    if heap == 0 || heap % 8 != 0 || base % 8 != 0 || base + heap > 1 << 32 {
        return true;
    }
    goes_on(bytes) && !ends_in_births(bytes, size)
}

/// Whether the file ends behind a birth section of so many births as it says.
fn ends_in_births(bytes: &[u8], size: u32) -> bool
    requires long { 64 ≤ length bytes.now }
    requires short { length bytes.now ≤ 536870912 }
    requires size { size ≡ heap_size bytes.now }
    ensures { result ≡ (length bytes.now == 80 + heap_size bytes.now + 8 * birth_count bytes.now) }
{
    let heap = u64::from(size);
    let len = bytes.len() as u64;
    if len < 80 + heap {
        return false;
    }
    let rest = len - 80 - heap;
    rest % 8 == 0 && rest / 8 == u64_at(bytes, (72 + heap) as usize)
}

/// The heap of a file, as words.
pub(crate) fn heap_words(alloc: Global, bytes: &[u8]) -> Result<Vec<u32>, AllocError>
    requires long { 64 + heap_size bytes.now ≤ length bytes.now }
    requires whole { heap_size bytes.now % 8 ≡ 0 }
    ensures { IfOk result (λ words. words.items ≡ words_in bytes.now) }
{
    let heap = &bytes[64..64 + u32_at(bytes, 8) as usize];
    let mut words = vec![in alloc; 0u32; heap.len() / 4]?;
    LittleEndian::read_u32_into(heap, &mut words);
    Ok(words)
}
