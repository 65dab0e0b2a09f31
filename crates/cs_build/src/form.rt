//! What the lines of a text say.
//!
//! A number that has more digits than an `i32` stands as the nearest `i32`. No number of a text without faults does:
//! each has a narrower range of its own.

use cs_model::Op;

/// A reference: what a slot, a literal, a special object or the receiver of a process is.
#[derive(Clone, Copy, Debug)]
pub enum Mention<'a> {
    /// A SmallInteger, -2^30 to 2^30 - 1.
    Number(i32),
    /// The Character of a code, 0 to 2^30 - 1.
    Code(i32),
    /// nil.
    Nil,
    /// true.
    True,
    /// false.
    False,
    /// The symbol of these bytes, of which there is one at least.
    Symbol(&'a [u8]),
    /// The class, object or process of a name.
    Named(&'a [u8]),
    /// The method dictionary of a class.
    Dictionary(&'a [u8]),
    /// The array of the methods in the dictionary of a class.
    Values(&'a [u8]),
    /// A method of the text.
    MethodOf {
        /// Its class.
        class: &'a [u8],
        /// Its selector, which has one byte at least.
        selector: &'a [u8],
    },
}

/// A class of the text.
#[derive(Clone, Copy, Debug)]
pub struct ClassLine<'a> {
    /// Its name.
    pub name: &'a [u8],
    /// Its superclass, or none where that is nil.
    pub superclass: Option<&'a [u8]>,
    /// The format of its instances: 0 to 5, 9, 10, 12, 16 or 24.
    pub format: i32,
    /// How many fields its instances have, 0 to 65,535.
    pub fields: i32,
}

/// The first line of a method.
#[derive(Clone, Copy, Debug)]
pub struct MethodLine<'a> {
    /// Its class.
    pub class: &'a [u8],
    /// Its selector.
    pub selector: &'a [u8],
    /// How many arguments it takes, 0 to 15.
    pub arguments: i32,
    /// How many arguments and temporaries it has, up to 16, or 56 where it is large.
    pub temporaries: i32,
    /// Whether its contexts have 56 slots, and not 16.
    pub large: bool,
    /// Its primitive, 0 to 65,535, if it has one.
    pub primitive: Option<i32>,
}

/// A process of the text.
#[derive(Clone, Copy, Debug)]
pub struct ProcessLine<'a> {
    /// Its name.
    pub name: &'a [u8],
    /// Its priority, 1 to 8.
    pub priority: i32,
    /// The class of the method in which it begins.
    pub class: &'a [u8],
    /// The selector of that method.
    pub selector: &'a [u8],
    /// The receiver there.
    pub receiver: Mention<'a>,
}

/// Which jump an instruction is.
#[derive(Clone, Copy, PartialEq, Eq, Debug)]
pub enum Jump {
    /// `jump`.
    Always,
    /// `jumpTrue`.
    IfTrue,
    /// `jumpFalse`.
    IfFalse,
}

/// What a line says. Those from `Literal` on stand in methods.
#[derive(Debug, Drop)]
pub enum Form<'a> {
    /// A class.
    Class(ClassLine<'a>),
    /// An object and its slots.
    Object {
        /// Its name.
        name: &'a [u8],
        /// Its class.
        class: &'a [u8],
        /// Its slots.
        slots: Vec<Mention<'a>>,
    },
    /// An object of bytes.
    Bytes {
        /// Its name.
        name: &'a [u8],
        /// Its class.
        class: &'a [u8],
        /// Its bytes.
        bytes: Vec<u8>,
    },
    /// A method, whose lines follow up to `End`.
    Method(MethodLine<'a>),
    /// A process.
    Process(ProcessLine<'a>),
    /// What a special object is, 0 to 50 without 3.
    Special {
        /// Its place.
        place: i32,
        /// The object.
        value: Mention<'a>,
    },
    /// The active process.
    Active(&'a [u8]),
    /// A process that is ready.
    Ready(&'a [u8]),
    /// The next literal of the method.
    Literal(Mention<'a>),
    /// The next byte of the method's code, 0 to 255.
    Byte(i32),
    /// A label in front of what follows.
    Label(&'a [u8]),
    /// An instruction, or none where a number in it fits no instruction of that word.
    Plain(Option<Op>),
    /// A jump to a label.
    JumpTo {
        /// Which jump.
        jump: Jump,
        /// The label.
        label: &'a [u8],
    },
    /// An instruction that makes a closure of the code up to a label.
    ClosureTo {
        /// How many values it copies, 0 to 15.
        copied: i32,
        /// How many arguments it takes, 0 to 15.
        args: i32,
        /// The label.
        label: &'a [u8],
    },
    /// The end of a method.
    End,
}
