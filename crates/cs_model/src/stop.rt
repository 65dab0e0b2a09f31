//! Why a step stops.

ghost use Rattle.std.specs.Prelude.{◌≡◌, ◌≤◌, length};
ghost use Rattle.cs_model.specs.Report.{reason_text};

/// Why a step stops. The names are this machine's own; a report prints them.
#[derive(Clone, Copy, Debug, PartialEq, Eq)]
pub enum Stop {
    /// The bytes at the pc are no instruction, or a jump or block leaves the method.
    BadCode,
    /// A literal isn't there, or isn't a variable where one is needed.
    BadLiteral,
    /// A receiver field, a temporary or a slot of a vector isn't there.
    BadField,
    /// A context refuses the value that a store bytecode writes into one of its fields.
    BadStore,
    /// More values are taken than the stack holds.
    StackUnder,
    /// A stack would hold more values than its size.
    StackOver,
    /// A method is found whose argument count is another one.
    BadArgs,
    /// A special object hasn't the shape that is needed.
    BadSpecial,
    /// A process, a semaphore or a list hasn't the shape that is needed.
    BadProcess,
    /// Neither the selector nor `doesNotUnderstand:` is found.
    NotUnderstood,
    /// The chain of superclasses has more than 65,536 classes.
    ClassLoop,
    /// A chain of senders or homes has more than 1,048,576 links, or a list more than 65,536.
    ChainTooLong,
    /// The births are used up: the next one is above 2^62 - 64.
    BirthLimit,
    /// The bytecode or primitive isn't built yet.
    NotBuilt,
}

impl Stop {
    /// The name of a reason, as reports print it: at most 13 letters.
    pub fn name(self) -> &'static str
        ensures name { result.now ≡ reason_text self }
        ensures short { length result.now ≤ 13 }
    {
        match self {
            Stop::BadCode => "BadCode",
            Stop::BadLiteral => "BadLiteral",
            Stop::BadField => "BadField",
            Stop::BadStore => "BadStore",
            Stop::StackUnder => "StackUnder",
            Stop::StackOver => "StackOver",
            Stop::BadArgs => "BadArgs",
            Stop::BadSpecial => "BadSpecial",
            Stop::BadProcess => "BadProcess",
            Stop::NotUnderstood => "NotUnderstood",
            Stop::ClassLoop => "ClassLoop",
            Stop::ChainTooLong => "ChainTooLong",
            Stop::BirthLimit => "BirthLimit",
            Stop::NotBuilt => "NotBuilt",
        }
    }
}
