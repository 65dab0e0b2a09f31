//! The numbers of the primitives of this crate.
ghost use Rattle.std.specs.Prelude.{◌≡◌};
ghost use Rattle.cs_prim_obj.specs.Numbers.{HasObjectNumber, takes};

/// What a primitive of this crate does.
#[derive(Clone, Copy)]
pub(crate) enum Primitive {
    /// 64: writes a byte by its Character.
    CharAtPut,
    /// 69: writes a literal of a method.
    ObjectAtPut,
    /// 164: makes the receiver read-only, or ends that.
    SetReadOnly,
    /// 74: writes a slot.
    SlotAtPut,
    /// 60: reads an element.
    At,
    /// 62: tells how many elements there are.
    Size,
    /// 63: reads a byte as a Character.
    CharAt,
    /// 68: reads the header or a literal of a method.
    ObjectAt,
    /// 73: reads a slot, or a field of a context.
    SlotAt,
    /// 110: tells whether two values are the same.
    Identical,
    /// 111: answers the class.
    Class,
    /// 163: tells whether nothing can be stored into the receiver.
    IsReadOnly,
    /// 256 to 519: answers the receiver, a constant, or a field of the receiver.
    Quick,
}

impl Primitive {
    /// The primitive of this number; None exactly where it is none of this crate.
    pub(crate) fn from_number(number: u32) -> Option<Primitive>
        ensures { HasObjectNumber result number }
    {
        match number {
            64 => Some(Primitive::CharAtPut),
            69 => Some(Primitive::ObjectAtPut),
            164 => Some(Primitive::SetReadOnly),
            74 => Some(Primitive::SlotAtPut),
            60 => Some(Primitive::At),
            62 => Some(Primitive::Size),
            63 => Some(Primitive::CharAt),
            68 => Some(Primitive::ObjectAt),
            73 => Some(Primitive::SlotAt),
            110 => Some(Primitive::Identical),
            111 => Some(Primitive::Class),
            163 => Some(Primitive::IsReadOnly),
            256..=519 => Some(Primitive::Quick),
            _ => None,
        }
    }

    /// Whether it may have so many arguments. A quick one may have any number.
    pub(crate) fn takes(self, args: u32) -> bool
        ensures { result ≡ takes self args }
    {
        match self {
            Primitive::CharAtPut | Primitive::ObjectAtPut | Primitive::SlotAtPut => args == 2,
            Primitive::SetReadOnly
            | Primitive::At
            | Primitive::CharAt
            | Primitive::ObjectAt
            | Primitive::SlotAt
            | Primitive::Identical => args == 1,
            Primitive::Size | Primitive::Class | Primitive::IsReadOnly => args == 0,
            Primitive::Quick => true,
        }
    }
}
