//! The instructions of the V3PlusClosures bytecodes.

ghost use Rattle.std.specs.Prelude.{◌≡◌};
ghost use Rattle.cs_model.specs.Assemble.{op_name, plain_name};

/// An instruction and the number of its bytes.
#[derive(Clone, Copy, Debug, PartialEq, Eq)]
pub struct Instr {
    /// What it does.
    pub op: Op,
    /// Its bytes, 1 to 4. The pc is moved past them before the effect.
    pub len: u8,
}

/// What an instruction does. Fields, temporaries and literals are counted from 0.
#[derive(Clone, Copy, Debug, PartialEq, Eq)]
pub enum Op {
    /// Pushes a field of the receiver.
    PushRcvr(u8),
    /// Pushes an argument or temporary.
    PushTemp(u8),
    /// Pushes a literal.
    PushLit(u8),
    /// Pushes the value of a literal variable, which is its slot 1.
    PushLitVar(u8),
    /// Pops into a field of the receiver.
    PopRcvr(u8),
    /// Pops into an argument or temporary.
    PopTemp(u8),
    /// Pops into a literal variable.
    PopLitVar(u8),
    /// Stores into a field of the receiver and leaves the value on the stack.
    StoreRcvr(u8),
    /// Stores into an argument or temporary and leaves the value on the stack.
    StoreTemp(u8),
    /// Stores into a literal variable and leaves the value on the stack.
    StoreLitVar(u8),
    /// Pushes the receiver.
    PushSelf,
    /// Pushes true.
    PushTrue,
    /// Pushes false.
    PushFalse,
    /// Pushes nil.
    PushNil,
    /// Pushes a SmallInteger, -1 to 2.
    PushInt(i8),
    /// Returns the receiver.
    ReturnSelf,
    /// Returns true.
    ReturnTrue,
    /// Returns false.
    ReturnFalse,
    /// Returns nil.
    ReturnNil,
    /// Pops a value and returns it; from a block, to the sender of its home.
    ReturnTop,
    /// Pops a value and returns it to the sender.
    BlockReturn,
    /// Sends the selector that a literal is, with so many arguments.
    Send { lit: u8, args: u8 },
    /// The same, looked up from the superclass of the method's class.
    SendSuper { lit: u8, args: u8 },
    /// Drops the topmost value.
    Pop,
    /// Pushes the topmost value once more.
    Dup,
    /// Pushes the active context.
    ThisContext,
    /// Pushes a new Array of so many slots of nil.
    NewArray(u8),
    /// Pops so many values into a new Array and pushes it.
    PopArray(u8),
    /// Names a primitive at the head of a method, and does nothing when it is reached.
    Prim { i: u8, j: u8 },
    /// Pushes slot k of the vector that is stack value j.
    PushVec { k: u8, j: u8 },
    /// Stores into slot k of the vector that is stack value j.
    StoreVec { k: u8, j: u8 },
    /// Pops into slot k of the vector that is stack value j.
    PopVec { k: u8, j: u8 },
    /// Pushes a closure over the active context and jumps past its block of so many bytes.
    Closure { copied: u8, args: u8, size: u16 },
    /// Jumps by an offset from the pc behind the instruction.
    Jump(i16),
    /// Pops a condition and jumps forward if it is true.
    JumpTrue(u16),
    /// Pops a condition and jumps forward if it is false.
    JumpFalse(u16),
    /// Special selector 0 to 15, which computes on SmallIntegers.
    Special(u8),
    /// Special selector 16 + i.
    Common(u8),
}

impl Op {
    /// The assembler's word for an instruction. A send by its selector's place among the special
    /// selectors is `op` or `common`, and code 139 is `prim`.
    pub fn name(self) -> &'static str
        ensures { result.now ≡ op_name self }
    {
        match self {
            Op::PushRcvr(_) => "pushRcvr",
            Op::PushTemp(_) => "pushTemp",
            Op::PushLit(_) => "pushLit",
            Op::PushLitVar(_) => "pushLitVar",
            Op::PopRcvr(_) => "popRcvr",
            Op::PopTemp(_) => "popTemp",
            Op::PopLitVar(_) => "popLitVar",
            Op::StoreRcvr(_) => "storeRcvr",
            Op::StoreTemp(_) => "storeTemp",
            Op::StoreLitVar(_) => "storeLitVar",
            Op::PushInt(_) => "int",
            Op::Send { .. } => "send",
            Op::SendSuper { .. } => "super",
            Op::NewArray(_) => "newArray",
            Op::PopArray(_) => "popArray",
            Op::Prim { .. } => "prim",
            Op::PushVec { .. } => "pushVec",
            Op::StoreVec { .. } => "storeVec",
            Op::PopVec { .. } => "popVec",
            Op::Closure { .. } => "closure",
            Op::Jump(_) => "jump",
            Op::JumpTrue(_) => "jumpTrue",
            Op::JumpFalse(_) => "jumpFalse",
            Op::Special(_) => "op",
            Op::Common(_) => "common",
            _ => self.plain_name(),
        }
    }

    /// The word for an instruction without numbers, the last of which is `ThisContext`.
    fn plain_name(self) -> &'static str
        ensures { result.now ≡ plain_name self }
    {
        match self {
            Op::PushSelf => "self",
            Op::PushTrue => "true",
            Op::PushFalse => "false",
            Op::PushNil => "nil",
            Op::ReturnSelf => "returnSelf",
            Op::ReturnTrue => "returnTrue",
            Op::ReturnFalse => "returnFalse",
            Op::ReturnNil => "returnNil",
            Op::ReturnTop => "returnTop",
            Op::BlockReturn => "blockReturn",
            Op::Pop => "pop",
            Op::Dup => "dup",
            _ => "thisContext",
        }
    }
}
