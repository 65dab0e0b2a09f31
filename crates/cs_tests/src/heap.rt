//! The calls on a small heap, with addresses, words and bytes that are counted by hand.

use cs_heap::{Heap, HeapFull, format_allows, size};
use cs_word::Oop;

/// A new object's address, or None where its condition fails.
fn make(heap: &mut Heap, class: u32, format: u8, slots: u32) -> Option<Result<Oop, HeapFull>> {
    if class < 4194304 && format_allows(format, slots) {
        Some(heap.allocate(class, format, slots, 70 + u64::from(class)))
    } else {
        None
    }
}

/// Class, format, slots, hash, birth and the object behind.
fn head(heap: &Heap, o: Oop) -> Option<(u32, u8, u32, u32, u64, Option<Oop>)> {
    if !heap.is_object(o) {
        return None;
    }
    let next = heap.next(o);
    Some((
        heap.class_index(o),
        heap.format(o),
        heap.slot_count(o),
        heap.hash(o),
        heap.birth(o),
        next,
    ))
}

fn slot(heap: &Heap, o: Oop, i: u32) -> Option<u32> {
    if heap.is_object(o) && i < heap.slot_count(o) {
        Some(heap.slot(o, i).0)
    } else {
        None
    }
}

fn store(heap: &mut Heap, o: Oop, i: u32, v: u32) {
    if heap.is_object(o) && i < heap.slot_count(o) {
        heap.set_slot(o, i, Oop(v));
    }
}

/// Byte `i` of an object, and `b` in its place.
fn exchange(heap: &mut Heap, o: Oop, i: u32, b: u8) -> Option<u8> {
    if heap.is_object(o) && u64::from(i) < 4 * u64::from(heap.slot_count(o)) {
        let old = heap.byte(o, i);
        heap.set_byte(o, i, b);
        Some(old)
    } else {
        None
    }
}

/// Whether an object is read-only, and whether it is watched.
fn marks(heap: &Heap, o: Oop) -> Option<(bool, bool)> {
    if heap.is_object(o) {
        Some((heap.is_fixed(o), heap.is_watched(o)))
    } else {
        None
    }
}

/// Makes an object read-only.
fn fix(heap: &mut Heap, o: Oop) {
    if heap.is_object(o) {
        heap.set_fixed(o, true);
    }
}

fn watch(heap: &mut Heap, o: Oop) {
    if heap.is_object(o) {
        heap.watch(o);
    }
}

/// The hash that an object's header says.
fn hash(heap: &Heap, o: Oop) -> Option<u32> {
    if heap.is_object(o) {
        Some(heap.header(o).hash)
    } else {
        None
    }
}

#[test]
fn objects_lie_one_behind_another(rt: HostRuntime) {
    let mut heap = Heap::new(rt.alloc(), 4096).expect(&rt, "memory");
    assert_eq!(rt; heap.first(), None);
    assert_eq!(rt; heap.limit_words(), 4096);
    // class, format, slots, and then the address and the words that are used
    let rows = [
        (1, 0, 0, 65536, 4),
        (51, 2, 3, 65552, 10),
        (52, 18, 2, 65576, 14),
        (53, 10, 255, 65600, 274),
        (54, 25, 254, 66632, 530),
    ];
    for (class, format, slots, address, used) in rows {
        assert_eq!(rt;
            make(&mut heap, class, format, slots),
            Some(Ok(Oop(address)))
        );
        assert_eq!(rt; heap.used_words(), used);
    }
    assert_eq!(rt; make(&mut heap, 55, 16, 3564), Some(Err(HeapFull)));
    assert_eq!(rt; size(3563), 3568);
    assert_eq!(rt; make(&mut heap, 55, 16, 3562), Some(Ok(Oop(67664))));
    assert_eq!(rt; make(&mut heap, 55, 0, 1), None);

    assert_eq!(rt; heap.first(), Some(Oop(65536)));
    assert_eq!(rt;
        head(&heap, Oop(65552)),
        Some((51, 2, 3, 0, 121, Some(Oop(65576))))
    );
    assert_eq!(rt;
        head(&heap, Oop(65576)),
        Some((52, 18, 2, 0, 122, Some(Oop(65600))))
    );
    assert_eq!(rt;
        head(&heap, Oop(65600)),
        Some((53, 10, 255, 0, 123, Some(Oop(66632))))
    );
    assert_eq!(rt; head(&heap, Oop(65592)), None);
    assert_eq!(rt; slot(&heap, Oop(65552), 2), Some(65536));
    store(&mut heap, Oop(65552), 2, 67305985);
    assert_eq!(rt; exchange(&mut heap, Oop(65552), 9, 255), Some(2));
    assert_eq!(rt; slot(&heap, Oop(65552), 2), Some(67370753));
    assert_eq!(rt; slot(&heap, Oop(65600), 254), Some(0));
    if heap.is_object(Oop(65600)) {
        heap.set_hash(Oop(65600), 4194303);
    }
    assert_eq!(rt;
        head(&heap, Oop(65600)),
        Some((53, 10, 255, 4194303, 123, Some(Oop(66632))))
    );
    assert_eq!(rt; hash(&heap, Oop(65600)), Some(4194303));
}

/// A store into a watched object makes the heap dirty until it is cleaned.
#[test]
fn objects_are_read_only_and_watched(rt: HostRuntime) {
    let mut heap = Heap::new(rt.alloc(), 4096).expect(&rt, "memory");
    make(&mut heap, 51, 2, 1)
        .expect(&rt, "an object")
        .expect(&rt, "room");
    let o = Oop(65536);
    assert_eq!(rt; marks(&heap, o), Some((false, false)));
    fix(&mut heap, o);
    assert_eq!(rt; marks(&heap, o), Some((true, false)));
    watch(&mut heap, o);
    assert_eq!(rt; marks(&heap, o), Some((true, true)));
    assert!(rt; !heap.dirty());
    store(&mut heap, o, 0, 1);
    assert!(rt; heap.dirty());
    heap.clean();
    assert!(rt; !heap.dirty());
    assert_eq!(rt; slot(&heap, o, 0), Some(1));
}
