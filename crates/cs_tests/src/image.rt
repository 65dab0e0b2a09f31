//! Loading a small image, whole and damaged.

use byteorder::{ByteOrder, LittleEndian};
use cs_image::{ImageError, load};
use cs_word::Oop;
use std::alloc::{AllocError, Global};

/// The size of the small image: its header and a heap of 4,560 bytes.
const SIZE: usize = 4624;

/// The words of the small image that aren't 0, each with its place in the file. The old base is 0, and nil comes
/// first, so that a word of 0 names nil.
const WORDS: [(usize, u32); 43] = [
    // the header: the heap's size, the special objects at 80, and 2^22 + 5 as the last hash
    (0, 6521),
    (4, 64),
    (8, 4560),
    (16, 80),
    (20, 4_194_309),
    // nil, false and true
    (64, 32),
    (80, 32),
    (96, 32),
    // the hidden object of words, and the root with one page
    (112, 0x0a00_0010),
    (116, 0x0200_0000),
    (128, 0x0200_0010),
    (132, 0x0100_0000),
    (136, 456),
    // 51 special objects, of which number 3 is the association
    (144, 0x0200_0020),
    (148, 0x3300_0000),
    (164, 296),
    // the association, and the scheduler without an active process
    (360, 0x0100_0020),
    (364, 0x0200_0000),
    (372, 312),
    (376, 0x0100_0020),
    (380, 0x0200_0000),
    // the classes of indices 1, 2, 32, 36 and 37
    (392, 0x0100_0020),
    (396, 0x0300_0001),
    (416, 0x0100_0020),
    (420, 0x0300_0002),
    (440, 0x0100_0020),
    (444, 0x0300_0020),
    (464, 0x0100_0020),
    (468, 0x0300_0024),
    (488, 0x0100_0020),
    (492, 0x0300_0025),
    // the page: 1,024 slots in an overflow word, and its entries
    (512, 1024),
    (516, 0xff00_0000),
    (520, 0x0200_0010),
    (524, 0xff00_0000),
    (532, 328),
    (536, 352),
    (540, 328),
    (656, 376),
    (672, 400),
    (676, 424),
    // window size and flags are kept
    (88, 0),
    (28, 7),
];

/// A word of the small image that is changed, and the fault that it has then, in the order of the faults.
const DAMAGES: [(usize, u32, ImageError); 34] = [
    (0, 6522, ImageError::BadFormat),
    (4, 60, ImageError::BadHeaderSize),
    // a heap that isn't as long as the file, of no byte, or of half a unit; an old base within a unit, or too high
    (8, 4552, ImageError::BadLength),
    (8, 0, ImageError::BadLength),
    (8, 4564, ImageError::BadLength),
    (12, 4, ImageError::BadLength),
    (12, 0xffff_fff8, ImageError::BadLength),
    // no header of count 255 behind an overflow word; one that has no count behind it; a format that isn't accepted;
    // a slot of an object without fields; and a method whose first slot is no number
    (524, 0, ImageError::BadObject { at: 448 }),
    (380, 0xff00_0000, ImageError::BadObject { at: 312 }),
    (80, 0x0600_0020, ImageError::BadObject { at: 16 }),
    (68, 0x0100_0000, ImageError::BadObject { at: 0 }),
    (376, 0x1800_0020, ImageError::BadObject { at: 312 }),
    // the words aren't hidden, the root has another format, and a page is none
    (112, 0x0a00_0020, ImageError::BadTable),
    (128, 0x0100_0010, ImageError::BadTable),
    (136, 328, ImageError::BadTable),
    // entries 0 and 16 are there; 1, 2, 36 or 37 isn't; 3 isn't 1; a class has another hash
    (528, 328, ImageError::BadTable),
    (592, 328, ImageError::BadTable),
    (532, 0, ImageError::BadTable),
    (536, 0, ImageError::BadTable),
    (672, 0, ImageError::BadTable),
    (676, 0, ImageError::BadTable),
    (540, 352, ImageError::BadTable),
    (396, 0x0300_0002, ImageError::BadTable),
    // no header is there, or a hidden one
    (372, 316, ImageError::BadRef { at: 308 }),
    (152, 48, ImageError::BadRef { at: 88 }),
    // a class that isn't there, the index of an immediate, and an index without an entry
    (656, 0, ImageError::BadClass { at: 0 }),
    (360, 0x0100_0002, ImageError::BadClass { at: 296 }),
    (360, 0x0100_0021, ImageError::BadClass { at: 296 }),
    (376, 0x0100_0024, ImageError::BadContext { at: 312 }),
    // no array of special objects: nothing, or one of another format; no association; no scheduler; no process
    (16, 4, ImageError::BadRoots),
    (16, 296, ImageError::BadRoots),
    (164, 0, ImageError::BadRoots),
    (372, 0, ImageError::BadRoots),
    (388, 296, ImageError::BadRoots),
];

/// The flags of a small image, its number of stack pages, and whether it has a fault then.
const PROFILES: [(u32, u32, Option<ImageError>); 8] = [
    (0x8000_0000, 0, None),
    (0x8000_0000, 1, Some(ImageError::BadProfile)),
    (0x8000_0000, 2, None),
    (0x8000_0000, 64, None),
    (0x8000_0000, 65, Some(ImageError::BadProfile)),
    (0x8000_0000, 0x1_0000, None),
    (0x7fff_ffff, 1, None),
    (0, 65, None),
];

/// How many births a section has, its last one, where the others are 100 and up, the next birth, and the fault.
const BIRTHS: [(u64, u64, u64, Option<ImageError>); 8] = [
    (11, 7, 200, None),
    (11, 199, 200, None),
    (11, 7, 1 << 62, None),
    (10, 7, 200, Some(ImageError::BadBirths)),
    (12, 7, 200, Some(ImageError::BadBirths)),
    (11, 105, 200, Some(ImageError::BadBirths)),
    (11, 200, 200, Some(ImageError::BadBirths)),
    (11, 7, (1 << 62) + 1, Some(ImageError::BadBirths)),
];

fn put(bytes: &mut [u8], place: usize, word: u32) {
    if place < bytes.len() && bytes.len() - place >= 4 {
        LittleEndian::write_u32(&mut bytes[place..], word);
    }
}

#[test]
fn loads_a_small_image(rt: HostRuntime) {
    let mut bytes = [0u8; SIZE];
    for (place, word) in WORDS {
        put(&mut bytes, place, word);
    }
    let loaded = load(rt.alloc(), &bytes, 4096).expect(&rt, "an image");
    assert_eq!(rt; loaded.heap.used_words(), 104);
    assert_eq!(rt; loaded.roots.next_birth, 11);
    assert_eq!(rt; loaded.roots.last_hash, 5);
    assert_eq!(rt; loaded.roots.special.0, 65584);
    assert_eq!(rt; loaded.classes.entry(3), loaded.classes.entry(1));
}

#[test]
fn tells_the_first_fault(rt: HostRuntime) {
    let mut bytes = [0u8; SIZE];
    for (place, word) in WORDS {
        put(&mut bytes, place, word);
    }
    for (place, word, fault) in DAMAGES {
        let mut damaged = bytes;
        put(&mut damaged, place, word);
        let told = load(rt.alloc(), &damaged, 4096).err();
        assert!(rt; told == Some(fault));
    }
    assert!(rt; load(rt.alloc(), &[0; 63], 4096).err() == Some(ImageError::Short));
}

#[test]
fn tells_a_fault_of_profile_2(rt: HostRuntime) {
    let mut bytes = [0u8; SIZE];
    for (place, word) in WORDS {
        put(&mut bytes, place, word);
    }
    for (flags, pages, fault) in PROFILES {
        let mut damaged = bytes;
        put(&mut damaged, 28, flags);
        put(&mut damaged, 36, pages);
        assert!(rt; load(rt.alloc(), &damaged, 4096).err() == fault);
        // a fault of the header's size comes first, and one of the lengths later
        put(&mut damaged, 8, 0);
        assert!(rt;
            load(rt.alloc(), &damaged, 4096).err() == Some(fault.unwrap_or(ImageError::BadLength))
        );
        put(&mut damaged, 4, 65);
        assert!(rt; load(rt.alloc(), &damaged, 4096).err() == Some(ImageError::BadHeaderSize));
    }
}

/// The small image with a birth section: the next birth, a count and so many births, from 100 on, but for the last.
fn with_births(alloc: Global, count: u64, last: u64, next: u64) -> Result<Vec<u8>, AllocError> {
    let mut bytes = vec![in alloc; 0u8; SIZE]?;
    for (place, word) in WORDS {
        put(&mut bytes, place, word);
    }
    bytes.extend_from_slice(&next.to_le_bytes())?;
    bytes.extend_from_slice(&count.to_le_bytes())?;
    for k in 1..count {
        bytes.extend_from_slice(&k.wrapping_add(99).to_le_bytes())?;
    }
    bytes.extend_from_slice(&last.to_le_bytes())?;
    Ok(bytes)
}

#[test]
fn tells_a_fault_of_the_births(rt: HostRuntime) -> Result<(), AllocError> {
    let alloc = rt.alloc();
    for (count, last, next, fault) in BIRTHS {
        let bytes = with_births(alloc, count, last, next)?;
        assert!(rt; load(alloc, &bytes, 4096).err() == fault);
    }
    // a section of another length than it says, and one of a file with a fault of its objects
    let mut short = with_births(alloc, 11, 7, 200)?;
    short.truncate(SIZE + 96);
    assert!(rt; load(alloc, &short, 4096).err() == Some(ImageError::BadLength));
    let mut damaged = with_births(alloc, 10, 7, 200)?;
    put(&mut damaged, 164, 0);
    assert!(rt; load(alloc, &damaged, 4096).err() == Some(ImageError::BadRoots));
    Ok(())
}

#[test]
fn objects_have_the_births_of_the_section(rt: HostRuntime) -> Result<(), AllocError> {
    let alloc = rt.alloc();
    let bytes = with_births(alloc, 11, 7, 200)?;
    let loaded = load(alloc, &bytes, 4096).expect(&rt, "an image with births");
    assert_eq!(rt; loaded.roots.next_birth, 200);
    // nil is the first object, and the class of index 37 the last one, six words long
    let nil = Oop(65536);
    let last = Oop(65536 + 4 * 98);
    assert!(rt; loaded.heap.is_object(nil) && loaded.heap.birth(nil) == 100);
    assert!(rt; loaded.heap.is_object(last) && loaded.heap.birth(last) == 7);
    Ok(())
}

#[test]
fn bit_23_is_kept_but_for_contexts(rt: HostRuntime) -> Result<(), AllocError> {
    let alloc = rt.alloc();
    let mut bytes = vec![in alloc; 0u8; SIZE]?;
    for (place, word) in WORDS {
        put(&mut bytes, place, word);
    }
    // false is read-only; and behind all others is a context of 22 slots that are nil, with bit 23 as well
    put(&mut bytes, 80, 0x0080_0020);
    put(&mut bytes, 8, 4656);
    for word in [0x0380_0024_u32, 0x1600_0000] {
        bytes.extend_from_slice(&word.to_le_bytes())?;
    }
    for _ in 0..22 {
        bytes.extend_from_slice(&[0; 4])?;
    }
    let loaded = load(alloc, &bytes, 4096).expect(&rt, "an image with a context");
    let nil = Oop(65536);
    let no = Oop(65552);
    let context = Oop(65536 + 4 * 104);
    assert!(rt; loaded.heap.is_object(nil) && !loaded.heap.is_fixed(nil));
    assert!(rt; loaded.heap.is_object(no) && loaded.heap.is_fixed(no));
    assert!(rt; loaded.heap.is_object(context) && !loaded.heap.is_fixed(context));
    Ok(())
}

/// The small image with one object more behind the others, of so many slots that are 0, in a number that is even. It
/// has a raw format, so that none of them names an object.
fn with_object(alloc: Global, slots: u32) -> Result<Vec<u8>, AllocError> {
    let mut bytes = vec![in alloc; 0u8; SIZE]?;
    for (place, word) in WORDS {
        put(&mut bytes, place, word);
    }
    put(&mut bytes, 8, 4576_u32.wrapping_add(slots.wrapping_mul(4)));
    for word in [slots, 0xff00_0000, 0x0a00_0020, 0xff00_0000] {
        bytes.extend_from_slice(&word.to_le_bytes())?;
    }
    for _ in 0..slots {
        bytes.extend_from_slice(&[0; 4])?;
    }
    Ok(bytes)
}

// The other objects take 104 words: four for each of nil, false, true, the association and the scheduler, 54 for the
// special objects, and six for each of the five classes. The one that is added takes its slots, and four before them.
#[test]
fn tells_that_objects_pass_the_limit(rt: HostRuntime) -> Result<(), AllocError> {
    let alloc = rt.alloc();
    let most = with_object(alloc, 3988)?;
    let loaded = load(alloc, &most, 4096).expect(&rt, "4,096 words");
    assert_eq!(rt; loaded.heap.used_words(), 4096);
    let over = with_object(alloc, 3990)?;
    assert!(rt; load(alloc, &over, 4096).err() == Some(ImageError::OverLimit));
    assert!(rt; load(alloc, &over, 4098).is_ok());
    Ok(())
}
