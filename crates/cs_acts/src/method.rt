//! What is read of a method: the number of its arguments, its primitive, the size of its contexts, and which pcs lie in
//! it.
ghost use Rattle.std.specs.Prelude.{◌≡◌, ◌<◌, ◌≤◌, ◌+◌, ◌*◌, ◌-◌, IsSome, IsTrue, Some};
ghost use Rattle.cs_heap.specs.Object.{slot_count_of};
ghost use Rattle.cs_model.specs.Obj.{argument_count, bytecodes_in, context_size, header_in, lies_in, literal_count};
ghost use Rattle.cs_model.specs.Obj.{number_in, primitive_number};
ghost use Rattle.cs_model.specs.State.{object_of};
ghost use Rattle.cs_acts.specs.Names.{name_of};
ghost use Rattle.cs_acts.specs.Ready.{IsSound};
ghost use Rattle.cs_acts.specs.Reading.{IsMethodNamed, bounded_number};

use crate::World;
use crate::words::{byte_count, count_of_literals, is_between};
use cs_classes::method_header;
use cs_heap::Heap;
use cs_word::{MethodHeader, Oop};

/// The bytecode that a method with a primitive begins with.
const CALL_PRIMITIVE: u8 = 139;

/// How many arguments a method takes.
pub fn argument_count<W: World>(w: &W, method: Oop) -> u32
    requires sound { IsSound (W.stored w.now) (W.view w.now) }
    requires method { IsMethodNamed (W.stored w.now) (W.view w.now) method }
    ensures { result ≡ argument_count (header_in (object_of (W.view w.now) (name_of (W.stored w.now) method))) }
{
    header(w, method).arguments()
}

/// The primitive of a method; None exactly where its header says that it has none, or its bytecodes begin with none.
pub fn primitive<W: World>(w: &W, method: Oop) -> Option<u32>
    requires sound { IsSound (W.stored w.now) (W.view w.now) }
    requires method { IsMethodNamed (W.stored w.now) (W.view w.now) method }
    ensures { result ≡ primitive_number (header_in (object_of (W.view w.now) (name_of (W.stored w.now) method)))
        (bytecodes_in (object_of (W.view w.now) (name_of (W.stored w.now) method))) }
{
    let header = header(w, method);
    if header.has_primitive() {
        first_number(w, method, 4 * (header.literals() + 1))
    } else {
        None
    }
}

/// How many values the stack of a method's contexts may hold: 56 or 16.
pub fn context_size<W: World>(w: &W, method: Oop) -> u32
    requires sound { IsSound (W.stored w.now) (W.view w.now) }
    requires method { IsMethodNamed (W.stored w.now) (W.view w.now) method }
    ensures { result ≡ context_size (header_in (object_of (W.view w.now) (name_of (W.stored w.now) method))) }
{
    header(w, method).context_size()
}

/// Whether a pc lies in a method: from its first bytecode to the one behind its last.
pub fn lies<W: World>(w: &W, method: Oop, pc: u32) -> bool
    requires sound { IsSound (W.stored w.now) (W.view w.now) }
    requires method { IsMethodNamed (W.stored w.now) (W.view w.now) method }
    ensures { result ≡ lies_in (object_of (W.view w.now) (name_of (W.stored w.now) method)) pc }
{
    let heap = w.heap();
    let first = 4 * (count_of_literals(heap, method) + 1) + 1;
    let end = byte_count(heap, method) + 1;
    is_between(first, end, u64::from(pc))
}

/// The primitive that the bytecodes of a method begin with; `first` is their first byte, behind the header and the
/// literals.
fn first_number<W: World>(w: &W, method: Oop, first: u32) -> Option<u32>
    requires sound { IsSound (W.stored w.now) (W.view w.now) }
    requires method { IsMethodNamed (W.stored w.now) (W.view w.now) method }
    requires first { first ≡ 4 * (literal_count (header_in (object_of (W.view w.now)
        (name_of (W.stored w.now) method))) + 1) }
    ensures { result ≡ number_in (bytecodes_in (object_of (W.view w.now) (name_of (W.stored w.now) method))) }
{
    let heap = w.heap();
    number_between(heap, method, first, byte_count(heap, method))
}

/// The number behind the bytecode 139, the lower byte first, where these three bytes are before the end.
fn number_between(heap: &Heap, method: Oop, first: u32, end: u32) -> Option<u32>
    requires first { first < 4294967292 }
    requires end { end ≤ 4 * slot_count_of heap.now.objects method.0 }
    ensures { result ≡ bounded_number heap.now.objects method.0 first end }
{
    if first + 3 <= end && heap.byte(method, first) == CALL_PRIMITIVE {
        let low = u32::from(heap.byte(method, first + 1));
        let high = u32::from(heap.byte(method, first + 2));
        Some(low + 256 * high)
    } else {
        None
    }
}

/// The header of a method, which its first slot holds.
fn header<W: World>(w: &W, method: Oop) -> MethodHeader
    requires sound { IsSound (W.stored w.now) (W.view w.now) }
    requires method { IsMethodNamed (W.stored w.now) (W.view w.now) method }
    ensures { result.0 ≡ header_in (object_of (W.view w.now) (name_of (W.stored w.now) method)) }
{
    method_header(w.heap(), method)
}
