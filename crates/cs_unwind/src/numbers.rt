//! The numbers of the primitives of this crate.
ghost use Rattle.cs_unwind.specs.Numbers.{HasNumber};

/// What a primitive of this crate does.
#[derive(Clone, Copy, Debug, PartialEq, Eq)]
pub(crate) enum Primitive {
    /// 195: looks for the first context marked with 198 among the senders of one.
    FindUnwindMark,
    /// 197: looks for the first context marked with 199, from one on along its senders.
    FindHandlerMark,
    /// 198 and 199: are marks, and fail.
    Mark,
    /// 201 to 205, 221 and 222: evaluates a closure with so many arguments.
    Evaluate { args: u32 },
    /// 206: evaluates a closure with the elements of an Array.
    EvaluateArray,
}

impl Primitive {
    /// The primitive of this number; None exactly where it is none of this crate.
    pub(crate) fn from_number(number: u32) -> Option<Primitive>
        ensures { HasNumber result number }
    {
        match number {
            195 => Some(Primitive::FindUnwindMark),
            197 => Some(Primitive::FindHandlerMark),
            198 | 199 => Some(Primitive::Mark),
            201 | 221 => Some(Primitive::Evaluate { args: 0 }),
            202 | 222 => Some(Primitive::Evaluate { args: 1 }),
            203 => Some(Primitive::Evaluate { args: 2 }),
            204 => Some(Primitive::Evaluate { args: 3 }),
            205 => Some(Primitive::Evaluate { args: 4 }),
            206 => Some(Primitive::EvaluateArray),
            _ => None,
        }
    }
}
