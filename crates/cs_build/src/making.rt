//! Objects of given slots or bytes.

ghost use Rattle.std.specs.Prelude.{◌≡◌, ◌<◌, ◌^◌, map, IfOk};
ghost use Rattle.cs_model.specs.Words.{plain_format as plain_format_of};
ghost use Rattle.cs_model.specs.Obj.{new_head, given_hash, Ptr};
ghost use Rattle.cs_model.specs.Builder.{natural as natural_in, spare as spare_of, obj_or_nil};
ghost use Rattle.cs_model.specs.Builder.{index_at as index_of};
ghost use Rattle.cs_model.specs.Builder.{raw_object as raw_object_of};
ghost use Rattle.cs_build.specs.Laid.{reference_by, laid_by, laid};

use crate::object::{Object, Reference};
use std::alloc::{AllocError, Global};

/// nil, which is the first object.
pub(crate) const NIL: Reference = Reference::Object(0);

/// The indices of the classes that each text has, in the class table.
const KNOWN_INDICES: [u32; 22] = [
    32, 33, 34, 35, 36, 37, 38, 1, 2, 39, 40, 41, 42, 43, 44, 45, 46, 47, 48, 49, 50, 51,
];

/// The number, or 0 where it is negative.
pub(crate) fn natural(value: i32) -> u32
    ensures { result ≡ natural_in value }
{
    if value < 0 { 0 } else { value as u32 }
}

/// The index of the class at a place. Those of the text have the next ones from 52 on.
pub(crate) fn index_at(place: u32) -> u32
    requires { place < 2 ^ 31 }
    ensures { result ≡ index_of place }
{
    if place < 22 {
        KNOWN_INDICES[place as usize]
    } else {
        52 + (place - 22)
    }
}

/// The object of a number, and nil where there is none.
pub(crate) fn object_or_nil(number: Option<u32>) -> Reference
    ensures { reference_by result ≡ obj_or_nil number }
{
    match number {
        Some(number) => Reference::Object(number),
        None => NIL,
    }
}

/// The unused bytes at the end of the last word.
pub(crate) fn spare(count: usize) -> u8
    ensures { result ≡ spare_of count }
{
    ((4 - count % 4) % 4) as u8
}

/// Weak objects stand as ones with named and indexed fields, and ephemerons as ones with named fields.
pub(crate) fn plain_format(format: u32) -> u8
    requires { format < 2 ^ 5 }
    ensures { result ≡ plain_format_of format }
{
    match format {
        4 => 3,
        5 => 1,
        _ => format as u8,
    }
}

/// An object of pointers.
pub(crate) fn pointers(
    alloc: Global,
    class: u32,
    format: u8,
    slots: &[Reference],
) -> Result<Object, AllocError>
    ensures { IfOk result (λ o. laid_by o ≡ laid (Ptr (new_head class format) (map reference_by slots.now))) }
{
    Ok(Object {
        class,
        format,
        hash: 0,
        slots: Vec::from_slice(alloc, slots)?,
        bytes: Vec::new(alloc),
    })
}

/// An object of pointers with an identity hash.
pub(crate) fn hashed_pointers(
    alloc: Global,
    class: u32,
    format: u8,
    hash: u32,
    slots: &[Reference],
) -> Result<Object, AllocError>
    ensures { IfOk result (λ o. laid_by o
        ≡ laid (Ptr (given_hash hash (new_head class format)) (map reference_by slots.now))) }
{
    Ok(Object {
        class,
        format,
        hash,
        slots: Vec::from_slice(alloc, slots)?,
        bytes: Vec::new(alloc),
    })
}

/// An object of bytes.
pub(crate) fn raw_object(alloc: Global, class: u32, bytes: &[u8]) -> Result<Object, AllocError>
    ensures { IfOk result (λ o. laid_by o ≡ laid (raw_object_of class bytes.now)) }
{
    Ok(Object {
        class,
        format: 16 + spare(bytes.len()),
        hash: 0,
        slots: Vec::new(alloc),
        bytes: Vec::from_slice(alloc, bytes)?,
    })
}
