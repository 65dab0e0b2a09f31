//! Making methods.

ghost use Rattle.std.specs.Prelude.{◌≡◌, ◌+◌, ◌<◌, ◌≤◌, ◌^◌, ◌↔◌, IfOk, IsErr, OnErr, false};
ghost use Rattle.cs_heap.specs.Object.{is_watched, next_address, size as size_of, slot_count_of, used};
ghost use Rattle.cs_classes.specs.Methods.{method_added, method_slots, nil_literals};

use crate::METHODS_BEGIN;
use cs_heap::{BASE, Heap, HeapFull};
use cs_word::{MethodHeader, Oop};

/// Adds a method with this header: its literals are nil, and it has `count` bytecode bytes of 0. `HeapFull` comes
/// exactly where the heap has no room for it, and then it is as it was.
pub fn add_method(
    heap: &mut Heap,
    class: u32,
    header: MethodHeader,
    count: u32,
    birth: u64,
) -> Result<Oop, HeapFull>
    requires class { class < 2 ^ 22 }
    requires header { header.0 < 2 ^ 30 }
    ensures full { IsErr result ↔ (heap.old.limit < used heap.old.objects + size_of (method_slots header.0 count)) }
    ensures unchanged_if_full { OnErr result (heap.new ≡ heap.old) }
    ensures added { IfOk result (λ _. heap.new ≡ method_added heap.old class header.0 count birth) }
    ensures address { IfOk result (λ o. o.0 ≡ next_address heap.old.objects (method_slots header.0 count)) }
{
    let unused = (4 - count % 4) % 4;
    let slots = 1 + header.literals() + count.div_ceil(4);
    let format = METHODS_BEGIN + unused as u8;
    match heap.allocate(class, format, slots, birth) {
        Ok(method) => {
            heap.set_slot(method, 0, Oop::from_natural(header.0));
            set_literals_nil(heap, method, header.literals());
            Ok(method)
        }
        Err(full) => Err(full),
    }
}

/// Makes so many literals of a method nil. It must not be watched.
fn set_literals_nil(heap: &mut Heap, method: Oop, literals: u32)
    requires slots { 1 + literals ≤ slot_count_of heap.old.objects method.0 }
    requires few { literals < 2 ^ 15 }
    requires unwatched { is_watched heap.old method.0 ≡ false }
    ensures { heap.new ≡ record heap.old { objects = nil_literals heap.old.objects method.0 literals } }
{
    for i in 0..literals {
        heap.set_slot(method, 1 + i, Oop(BASE));
    }
}
