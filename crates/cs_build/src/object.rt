//! Objects before they have addresses.

/// What a slot of an object holds.
#[derive(Clone, Copy, PartialEq, Eq, Debug)]
pub(crate) enum Reference {
    /// A SmallInteger, -2^30 to 2^30 - 1.
    Small(i32),
    /// The Character of a code below 2^30.
    Character(u32),
    /// The object of a number, counted from 0 in the order of the file's visible objects.
    Object(u32),
}

/// An object of the image: its slots, and behind them its bytes.
#[derive(Debug, Drop)]
pub(crate) struct Object {
    /// The index of its class.
    pub(crate) class: u32,
    /// Its Spur format.
    pub(crate) format: u8,
    /// Its identity hash.
    pub(crate) hash: u32,
    /// The slots that may name objects, and a method's header.
    pub(crate) slots: Vec<Reference>,
    /// A raw object's bytes, or a method's bytecodes.
    pub(crate) bytes: Vec<u8>,
}
