//! The order of pages.

use cs_pages::Pages;
use std::test::Fail;

// A call that changes the order.
#[derive(Clone, Copy)]
enum Call {
    TakeFree(Option<u32>),
    Touch(u32),
    Free(u32),
}

// Each call, with the pages from the most recent to the least recent that it leaves.
#[test]
fn keeps_four_pages_in_order(rt: HostRuntime) -> Result<(), Fail> {
    let calls: [(Call, &[u32]); 20] = [
        (Call::TakeFree(Some(0)), &[0]),
        (Call::TakeFree(Some(1)), &[1, 0]),
        (Call::Touch(0), &[0, 1]),
        (Call::TakeFree(Some(2)), &[2, 0, 1]),
        (Call::TakeFree(Some(3)), &[3, 2, 0, 1]),
        (Call::TakeFree(None), &[3, 2, 0, 1]),
        (Call::Touch(3), &[3, 2, 0, 1]),
        (Call::Touch(1), &[1, 3, 2, 0]),
        (Call::Touch(2), &[2, 1, 3, 0]),
        (Call::Free(1), &[2, 3, 0]),
        (Call::Touch(3), &[3, 2, 0]),
        (Call::TakeFree(Some(1)), &[1, 3, 2, 0]),
        (Call::Free(0), &[1, 3, 2]),
        (Call::Free(1), &[3, 2]),
        (Call::TakeFree(Some(0)), &[0, 3, 2]),
        (Call::Touch(2), &[2, 0, 3]),
        (Call::Free(3), &[2, 0]),
        (Call::Free(2), &[0]),
        (Call::Free(0), &[]),
        (Call::TakeFree(Some(0)), &[0]),
    ];
    let mut pages = Pages::new(rt.alloc(), 4)?;
    assert_eq!(rt; pages.len(), 4);
    for (call, order) in calls {
        match call {
            Call::TakeFree(taken) => assert_eq!(rt; pages.take_free(), taken),
            Call::Touch(page) => {
                assert!(rt; page < pages.len() && pages.is_used(page));
                pages.touch(page);
            }
            Call::Free(page) => {
                assert!(rt; page < pages.len() && pages.is_used(page));
                pages.free(page);
            }
        }
        assert_eq!(rt; pages.used() as usize, order.len());
        for k in 0..pages.used() {
            assert_eq!(rt; pages.order(k), order[k as usize]);
        }
        assert_eq!(rt; pages.least(), order.last().copied());
    }
    Ok(())
}
