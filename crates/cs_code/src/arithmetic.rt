//! The special selectors: arithmetic and comparisons of SmallIntegers, identity and class.
//!
//! What has no answer at once is sent.
ghost use Rattle.std.specs.Prelude.{◌≡◌, ◌-◌, ◌≤◌, unwrap_or};
ghost use Rattle.cs_model.specs.Exec.{class_out, common_out, same_out, special_out};
ghost use Rattle.cs_model.specs.Operation.{drop_of, nil_of, push_of};
ghost use Rattle.cs_model.specs.Read.{class_of, depth_of};
ghost use Rattle.cs_model.specs.End.{done};
ghost use Rattle.cs_acts.specs.Made.{MakesAtMost};
ghost use Rattle.cs_acts.specs.Names.{IsNamed, Names, name_of};
ghost use Rattle.cs_acts.specs.Ready.{IsReady, IsSound};
ghost use Rattle.cs_code.specs.Gives.{Gives};
ghost use Rattle.cs_code.specs.Selectors.{HasIndex};

use crate::CodeEnd;
use crate::sends::send_selector;
use cs_acts::World;
use cs_acts::arithmetic::{Operation, computed};
use cs_acts::read::{boolean, class_of, from_top, nil, same};
use cs_model::Stop;
use cs_word::Oop;

/// Special selector `i`: what it computes of the two topmost values, or else its send.
#[tactic(auto, unfolding(cs_model::specs::Exec::special_out))]
pub fn special<W: World>(w: &mut W, i: u8) -> CodeEnd
    requires { IsReady (W.stored w.old) (W.view w.old) }
    ensures gives { Gives (W.stored w.old) (W.stored w.new) (W.layout w.old) (W.view w.new) result
        (special_out (W.view w.old) i) }
    ensures layout { W.layout w.new ≡ W.layout w.old }
    ensures limit { (W.stored w.new).memory.limit ≡ (W.stored w.old).memory.limit }
    ensures contexts { MakesAtMost 0 (W.layout w.old) (W.stored w.old) (W.stored w.new) }
{
    let i = u16::from(i);
    let Selector::Computes(operation) = Selector::from_index(i) else {
        return send_selector(w, i);
    };
    match computed(w, operation) {
        Some(x) => replace_two(w, x),
        None => send_selector(w, i),
    }
}

/// Special selector 16 + `i`: `==`, `class`, or else its send.
#[tactic(auto, unfolding(cs_model::specs::Exec::common_out))]
pub fn common<W: World>(w: &mut W, i: u8) -> CodeEnd
    requires { IsReady (W.stored w.old) (W.view w.old) }
    ensures gives { Gives (W.stored w.old) (W.stored w.new) (W.layout w.old) (W.view w.new) result
        (common_out (W.view w.old) i) }
    ensures layout { W.layout w.new ≡ W.layout w.old }
    ensures limit { (W.stored w.new).memory.limit ≡ (W.stored w.old).memory.limit }
    ensures contexts { MakesAtMost 0 (W.layout w.old) (W.stored w.old) (W.stored w.new) }
{
    let i = 16 + u16::from(i);
    match Selector::from_index(i) {
        Selector::Compares => compare(w),
        Selector::TellsClass => push_class(w),
        _ => send_selector(w, i),
    }
}

/// Whether the two topmost values are the same.
#[tactic(auto, unfolding(cs_model::specs::Exec::same_out))]
fn compare<W: World>(w: &mut W) -> CodeEnd
    requires { IsReady (W.stored w.old) (W.view w.old) }
    ensures gives { Gives (W.stored w.old) (W.stored w.new) (W.layout w.old) (W.view w.new) result
        (same_out (W.view w.old)) }
    ensures layout { W.layout w.new ≡ W.layout w.old }
    ensures limit { (W.stored w.new).memory.limit ≡ (W.stored w.old).memory.limit }
    ensures contexts { MakesAtMost 0 (W.layout w.old) (W.stored w.old) (W.stored w.new) }
{
    let Some(a) = from_top(w, 1) else {
        return CodeEnd::Stop(Stop::StackUnder);
    };
    let Some(b) = from_top(w, 0) else {
        return CodeEnd::Stop(Stop::StackUnder);
    };
    let truth = same(w, a, b);
    let answer = boolean(w, truth);
    replace_two(w, answer)
}

/// The class of the topmost value, or nil where it has none.
#[tactic(auto, unfolding(cs_model::specs::Exec::class_out))]
fn push_class<W: World>(w: &mut W) -> CodeEnd
    requires { IsReady (W.stored w.old) (W.view w.old) }
    ensures gives { Gives (W.stored w.old) (W.stored w.new) (W.layout w.old) (W.view w.new) result
        (class_out (W.view w.old)) }
    ensures layout { W.layout w.new ≡ W.layout w.old }
    ensures limit { (W.stored w.new).memory.limit ≡ (W.stored w.old).memory.limit }
    ensures contexts { MakesAtMost 0 (W.layout w.old) (W.stored w.old) (W.stored w.new) }
{
    let Some(x) = from_top(w, 0) else {
        return CodeEnd::Stop(Stop::StackUnder);
    };
    let class = class_or_nil(w, x);
    let depth = w.depth();
    w.set_stack(depth - 1, class);
    CodeEnd::Done
}

/// The class of what a word names, or nil where the class table has none.
fn class_or_nil<W: World>(w: &W, x: Oop) -> Oop
    requires sound { IsSound (W.stored w.now) (W.view w.now) }
    requires named { IsNamed (W.stored w.now) x }
    ensures { Names (W.stored w.now) result
        (unwrap_or (class_of (W.view w.now) (name_of (W.stored w.now) x)) (nil_of (W.view w.now))) }
{
    match class_of(w, x) {
        Some(class) => class,
        None => nil(w),
    }
}

/// Puts a value in the place of the two topmost ones.
fn replace_two<W: World>(w: &mut W, x: Oop) -> CodeEnd
    requires ready { IsReady (W.stored w.old) (W.view w.old) }
    requires there { 2 ≤ depth_of (W.view w.old) }
    requires named { IsNamed (W.stored w.old) x }
    ensures gives { Gives (W.stored w.old) (W.stored w.new) (W.layout w.old) (W.view w.new) result
        (done (push_of (drop_of (W.view w.old) 2) (name_of (W.stored w.old) x))) }
    ensures layout { W.layout w.new ≡ W.layout w.old }
    ensures limit { (W.stored w.new).memory.limit ≡ (W.stored w.old).memory.limit }
    ensures contexts { MakesAtMost 0 (W.layout w.old) (W.stored w.old) (W.stored w.new) }
{
    let depth = w.depth();
    w.set_stack(depth - 2, x);
    w.pop();
    CodeEnd::Done
}

/// What a special selector does before it is sent.
#[derive(Clone, Copy, Debug, PartialEq, Eq)]
enum Selector {
    /// It computes of two SmallIntegers.
    Computes(Operation),
    /// `==` compares two values.
    Compares,
    /// `class` is answered of any value.
    TellsClass,
    /// Nothing: it is sent.
    IsSent,
}

impl Selector {
    /// Special selector `i`: `+` `-` `<` `>` `<=` `>=` `=` `~=` `*` `/` `\\` `@` `bitShift:` `//` `bitAnd:` `bitOr:`
    /// are the first sixteen, and among the others 22 is `==` and 23 is `class` (Blue Book, part four).
    fn from_index(i: u16) -> Selector
        ensures { HasIndex result i }
    {
        match i {
            0 => Selector::Computes(Operation::Add),
            1 => Selector::Computes(Operation::Subtract),
            2 => Selector::Computes(Operation::Less),
            3 => Selector::Computes(Operation::Greater),
            4 => Selector::Computes(Operation::AtMost),
            5 => Selector::Computes(Operation::AtLeast),
            6 => Selector::Computes(Operation::Equal),
            7 => Selector::Computes(Operation::NotEqual),
            8 => Selector::Computes(Operation::Multiply),
            9 => Selector::Computes(Operation::Divide),
            10 => Selector::Computes(Operation::Modulo),
            12 => Selector::Computes(Operation::BitShift),
            13 => Selector::Computes(Operation::DivideDown),
            14 => Selector::Computes(Operation::BitAnd),
            15 => Selector::Computes(Operation::BitOr),
            22 => Selector::Compares,
            23 => Selector::TellsClass,
            _ => Selector::IsSent,
        }
    }
}
