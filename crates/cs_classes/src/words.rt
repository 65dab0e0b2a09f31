//! What is read of the heap by its words alone.

ghost use Rattle.std.specs.Prelude.{◌≡◌, ◌<◌, ◌==◌, ◌&&◌, IsTrue, true, unwrap_or};
ghost use Rattle.cs_word.specs.Word.{natural_of_word};
ghost use Rattle.cs_heap.specs.Format.{is_code};
ghost use Rattle.cs_heap.specs.Object.{class_at, format_at, is_object, slot_count_of, slot_of};
ghost use Rattle.cs_classes.specs.Meaning.{first_byte_at};
ghost use Rattle.cs_model.specs.Obj.{context_class};
ghost use Rattle.cs_classes.specs.Sound.{has_slots};

use crate::{CONTEXT_CLASS, METHODS_BEGIN, METHODS_END, POINTERS_END};
use cs_heap::Heap;
use cs_word::{MethodHeader, Oop};

/// Whether a word is the address of a context.
pub fn is_context(heap: &Heap, o: Oop) -> bool
    ensures { result ≡ (is_object heap.now.objects o.0 && class_at heap.now.objects o.0 == context_class) }
{
    heap.is_object(o) && heap.class_index(o) == CONTEXT_CLASS
}

/// Whether a word is the address of a pointer object with at least so many slots. A context isn't one.
pub fn has_slots(heap: &Heap, o: Oop, least: u32) -> bool
    ensures { result ≡ has_slots heap.now.objects least o.0 }
{
    heap.is_object(o)
        && heap.class_index(o) != CONTEXT_CLASS
        && heap.format(o) < POINTERS_END
        && heap.slot_count(o) >= least
}

/// The header of a method, which its first slot says. A slot that is no number says 0.
pub fn method_header(heap: &Heap, method: Oop) -> MethodHeader
    requires { 0 < slot_count_of heap.now.objects method.0 }
    ensures { result.0 ≡ unwrap_or (natural_of_word (slot_of heap.now.objects method.0 0)) 0 }
{
    MethodHeader(heap.slot(method, 0).natural().unwrap_or(0))
}

/// The first byte of an object that may be written: that behind the header and the literals of a method, and the first
/// of any other object.
pub fn first_byte(heap: &Heap, o: Oop) -> u32
    requires object { IsTrue (is_object heap.now.objects o.0) }
    requires header { is_code (format_at heap.now.objects o.0) ≡ true → 0 < slot_count_of heap.now.objects o.0 }
    ensures { result ≡ first_byte_at heap.now.objects o.0 }
{
    if (METHODS_BEGIN..METHODS_END).contains(&heap.format(o)) {
        4 * (1 + method_header(heap, o).literals())
    } else {
        0
    }
}
