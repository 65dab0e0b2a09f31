//! Copies between the words of a zone.

use cs_zone::Zone;
use std::test::Fail;

// Words 1 to 6, after a copy of three words: (from, to, the words then).
const COPIES: [(u32, u32, [u32; 6]); 4] = [
    (0, 2, [1, 2, 1, 2, 3, 6]),
    (2, 0, [3, 4, 5, 4, 5, 6]),
    (1, 1, [1, 2, 3, 4, 5, 6]),
    (0, 3, [1, 2, 3, 1, 2, 3]),
];

#[test]
fn copies_as_memmove(rt: HostRuntime) -> Result<(), Fail> {
    for (from, to, words) in COPIES {
        let mut zone = Zone::new(rt.alloc(), 6)?;
        assert_eq!(rt; zone.len(), 6);
        for at in 0..6u32 {
            assert_eq!(rt; zone.len(), 6);
            zone.set(at, at + 1);
        }
        assert_eq!(rt; zone.len(), 6);
        zone.copy(from, to, 3);
        assert_eq!(rt; zone.slots(0, 6), words.as_slice());
        assert_eq!(rt; zone.get(5), words[5]);
    }
    Ok(())
}
