//! What objects hold.
ghost use Rattle.std.specs.Prelude.{◌≡◌, ◌≤◌};
ghost use Rattle.cs_model.specs.State.{object_of};
ghost use Rattle.cs_acts.specs.Names.{IsNamed, name_of};
ghost use Rattle.cs_acts.specs.Ready.{IsSound};
ghost use Rattle.cs_model.specs.Words.{unused_bytes};
ghost use Rattle.cs_prim_obj.specs.Contents.{amount_in, contents_of};

use cs_acts::World;
use cs_classes::{CONTEXT_CLASS, method_header};
use cs_word::Oop;

/// The formats below this one have pointers in their slots.
const POINTERS_END: u8 = 6;

/// The formats from this one on are those of methods.
const FIRST_CODE: u8 = 24;

/// The formats from this one on have units of one byte and count those that are unused; the lower ones that count any
/// count units of 16 bits.
pub(crate) const FIRST_BYTES: u8 = 16;

/// What an object holds.
#[derive(Clone, Copy)]
pub(crate) enum Contents {
    /// Nothing: it is no object.
    Immediate,
    /// So many slots with pointers.
    Slots { format: u8, count: u32 },
    /// So many raw bytes, of which a format below 16 takes 2, 4 or 8 to a unit.
    Bytes { format: u8, count: u32 },
    /// The header of a method, so many literals, and so many bytes of bytecodes.
    Code { literals: u32, count: u32 },
    /// The fields and the stack of a context.
    Context,
}

/// What the object that a word names holds. Its header is read once.
pub(crate) fn held_by<W: World>(w: &W, o: Oop) -> Contents
    requires sound { IsSound (W.stored w.now) (W.view w.now) }
    requires named { IsNamed (W.stored w.now) o }
    ensures value { result ≡ contents_of (object_of (W.view w.now) (name_of (W.stored w.now) o)) }
    ensures most { amount_in result ≤ 268435456 }
{
    let heap = w.heap();
    if !heap.is_object(o) {
        return Contents::Immediate;
    }
    let header = heap.header(o);
    let format = header.format;
    if header.class == CONTEXT_CLASS {
        return Contents::Context;
    }
    let slots = heap.slot_count(o);
    if format < POINTERS_END {
        Contents::Slots {
            format,
            count: slots,
        }
    } else if format < FIRST_CODE {
        Contents::Bytes {
            format,
            count: 4 * slots - unused_bytes(format),
        }
    } else {
        let literals = method_header(heap, o).literals();
        Contents::Code {
            literals,
            count: 4 * (slots - (1 + literals)) - unused_bytes(format),
        }
    }
}

/// How many bytes at the end of the last slot of an object of this format, which has no pointer slots, are unused.
fn unused_bytes(format: u8) -> u32
    ensures { result ≡ unused_bytes format }
{
    if format >= FIRST_CODE {
        u32::from(format - FIRST_CODE)
    } else if format >= FIRST_BYTES {
        u32::from(format - FIRST_BYTES)
    } else {
        2 * u32::from(format.saturating_sub(12))
    }
}
