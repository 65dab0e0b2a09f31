//! The objects of a heap in the order of their births.

ghost use Rattle.std.specs.Prelude.{IfOk};
ghost use Rattle.std.specs.BTreeMap.{values};
ghost use Rattle.cs_classes.specs.Sound.{AreSoundObjects};
ghost use Rattle.cs_inspect.specs.Reading.{IsInOrder};

use cs_heap::Heap;
use cs_word::Oop;
use std::alloc::{AllocError, Global};
use std::collections::BTreeMap;

/// The objects of a heap by their births.
fn by_birth(alloc: Global, heap: &Heap) -> Result<BTreeMap<u64, Oop>, AllocError>
    requires { AreSoundObjects heap.now.objects }
    ensures { IfOk result (λ births. IsInOrder heap.now.objects (values births)) }
{
    let mut births = BTreeMap::new(alloc);
    let mut object = heap.first();
    while let Some(o) = object {
        births.insert(heap.birth(o), o)?;
        object = heap.next(o);
    }
    Ok(births)
}

/// The objects of a heap in the order of their births.
pub(crate) fn in_order(alloc: Global, heap: &Heap) -> Result<Vec<Oop>, AllocError>
    requires { AreSoundObjects heap.now.objects }
    ensures { IfOk result (λ order. IsInOrder heap.now.objects order.items) }
{
    let births = by_birth(alloc, heap)?;
    let mut order = Vec::new(alloc);
    for o in births.values() {
        order.push(*o)?;
    }
    Ok(order)
}
