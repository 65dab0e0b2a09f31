//! Marks: contexts without a closure whose method has primitive 198 or 199, and the search for them along the senders.
ghost use Rattle.std.specs.Prelude.{◌≡◌, ◌<◌, IfSome, IsSome, Some, is_some, not, true, if◌then◌else◌, None};
ghost use Rattle.cs_model.specs.Obj.{is_context_at};
ghost use Rattle.cs_model.specs.PrimUnwind.{Marked, answer_context, answer_mark, handler_mark_prim, is_end, is_goal};
ghost use Rattle.cs_model.specs.PrimUnwind.{search_mark, unwind_mark_prim};
ghost use Rattle.cs_model.specs.Read.{depth_of};
ghost use Rattle.cs_model.specs.Ref.{named_object};
ghost use Rattle.cs_model.specs.Return.{is_marked, is_number, links, method_primitive};
ghost use Rattle.cs_model.specs.State.{object_at, object_of};
ghost use Rattle.cs_acts.specs.Names.{IsNamed, name_of};
ghost use Rattle.cs_acts.specs.Ready.{IsReady, IsSound};
ghost use Rattle.cs_acts.specs.Targets.{is_gone};
ghost use Rattle.cs_unwind.specs.Performed.{Performs};
ghost use Rattle.cs_unwind.specs.Marks.{FindsMark, MarkStands};

use crate::search::LINKS;
use cs_acts::answer::{answer, argument, receiver};
use cs_acts::read::{is_context, is_method, nil, same};
use cs_acts::{Act, PrimEnd, World, method};
use cs_model::Stop;
use cs_word::Oop;

/// The primitives that mark contexts: that of those whose unwinding is told, and that of handlers.
pub(crate) const UNWIND_MARK: u32 = 198;

const HANDLER_MARK: u32 = 199;

/// What a search for a mark finds.
#[derive(Clone, Copy, Debug, PartialEq, Eq)]
pub(crate) enum Mark {
    /// This context is marked.
    At(Act),
    /// None is.
    Nowhere,
    /// The links were followed, and there are more.
    TooFar,
}

/// Primitive 195: the first context marked with 198 from the receiver's sender on and before the argument.
pub(crate) fn unwind_mark<W: World>(w: &mut W, args: u32) -> PrimEnd
    requires ready { IsReady (W.stored w.old) (W.view w.old) }
    requires there { args < depth_of (W.view w.old) }
    ensures { Performs (W.stored w.old) (W.stored w.new) (W.layout w.old) (W.layout w.new) (W.view w.old) (W.view w.old)
        (W.view w.new) result (unwind_mark_prim (W.view w.old) args) }
{
    if args != 1 {
        return PrimEnd::Fail;
    }
    let ctx = receiver(w, 1);
    if !is_context(w, ctx) {
        return PrimEnd::Fail;
    }
    let Some(goal) = goal_of(w, argument(w)) else {
        return PrimEnd::Fail;
    };
    let from = w.sender_act(w.act_of(ctx));
    let mark = search_mark(w, from, UNWIND_MARK, Some(goal));
    answer_mark(w, 1, mark)
}

/// Primitive 197: the first context marked with 199 from the receiver itself on.
pub(crate) fn handler_mark<W: World>(w: &mut W, args: u32) -> PrimEnd
    requires ready { IsReady (W.stored w.old) (W.view w.old) }
    requires there { args < depth_of (W.view w.old) }
    ensures { Performs (W.stored w.old) (W.stored w.new) (W.layout w.old) (W.layout w.new) (W.view w.old) (W.view w.old)
        (W.view w.new) result (handler_mark_prim (W.view w.old) args) }
{
    if args != 0 {
        return PrimEnd::Fail;
    }
    let ctx = receiver(w, 0);
    if !is_context(w, ctx) {
        return PrimEnd::Fail;
    }
    let here = w.act_of(ctx);
    if is_marked(w, here, HANDLER_MARK) {
        return answer_context(w, 0, here);
    }
    let from = w.sender_act(here);
    let mark = search_mark(w, from, HANDLER_MARK, None);
    answer_mark(w, 0, mark)
}

/// The birth of what a word names, where that is nil or a context.
fn goal_of<W: World>(w: &W, end: Oop) -> Option<u64>
    requires sound { IsSound (W.stored w.now) (W.view w.now) }
    requires named { IsNamed (W.stored w.now) end }
    ensures { result ≡ (if is_end (W.view w.now) (name_of (W.stored w.now) end) then named_object
        (name_of (W.stored w.now) end) else None) }
{
    if is_end(w, end) {
        Some(w.heap().birth(end))
    } else {
        None
    }
}

/// Whether a word names nil or a context.
fn is_end<W: World>(w: &W, end: Oop) -> bool
    requires sound { IsSound (W.stored w.now) (W.view w.now) }
    requires named { IsNamed (W.stored w.now) end }
    ensures { result ≡ is_end (W.view w.now) (name_of (W.stored w.now) end) }
{
    same(w, end, nil(w)) || is_context(w, end)
}

/// Searches for the first context that is marked by `number`, from `from` on along the senders, and before the one of
/// birth `goal`, where that is given.
fn search_mark<W: World>(w: &W, from: Act, number: u32, goal: Option<u64>) -> Mark
    requires sound { IsSound (W.stored w.now) (W.view w.now) }
    requires gone { is_gone from ≡ not (is_some (W.act w.now from)) }
    requires context { IfSome (W.act w.now from) (λ birth. is_context_at (object_at (W.view w.now) birth) ≡ true) }
    ensures found { FindsMark (W.act w.now) result (search_mark links (W.view w.now) number goal (W.act w.now from)) }
    ensures stands { MarkStands (W.act w.now) result }
{
    let mut here = from;
    for _ in 0..LINKS {
        if is_gone(here) || is_goal(w, here, goal) {
            return Mark::Nowhere;
        }
        if is_marked(w, here, number) {
            return Mark::At(here);
        }
        here = w.sender_act(here);
    }
    if is_gone(here) {
        Mark::Nowhere
    } else {
        Mark::TooFar
    }
}

/// Whether an act stands for nothing.
fn is_gone(a: Act) -> bool
    ensures { result ≡ is_gone a }
{
    match a {
        Act::Gone => true,
        Act::Frame { .. } | Act::Context(_) => false,
    }
}

/// Whether a context has the birth `goal`, where that is given.
fn is_goal<W: World>(w: &W, a: Act, goal: Option<u64>) -> bool
    requires sound { IsSound (W.stored w.now) (W.view w.now) }
    requires stands { IsSome (W.act w.now a) }
    ensures { IfSome (W.act w.now a) (λ birth. result ≡ is_goal goal birth) }
{
    match goal {
        Some(goal) => w.act_birth(a) == goal,
        None => false,
    }
}

/// Whether a context is marked by `number`: it has no closure, and that is the primitive of its method.
///
/// A world doesn't say that what an act stands for is a context; whoever was led to it along the senders knows.
pub(crate) fn is_marked<W: World>(w: &W, a: Act, number: u32) -> bool
    requires sound { IsSound (W.stored w.now) (W.view w.now) }
    requires stands { IsSome (W.act w.now a) }
    requires context { IfSome (W.act w.now a) (λ birth. is_context_at (object_at (W.view w.now) birth) ≡ true) }
    ensures { IfSome (W.act w.now a) (λ birth. result ≡ is_marked (W.view w.now) number birth) }
{
    let method = w.act_method(a);
    same(w, w.act_closure(a), nil(w)) && has_primitive(w, method, number)
}

/// Whether a word names a method with primitive `number`.
fn has_primitive<W: World>(w: &W, method: Oop, number: u32) -> bool
    requires sound { IsSound (W.stored w.now) (W.view w.now) }
    requires named { IsNamed (W.stored w.now) method }
    ensures { result ≡ is_number number
        (method_primitive (object_of (W.view w.now) (name_of (W.stored w.now) method))) }
{
    if !is_method(w, method) {
        return false;
    }
    match method::primitive(w, method) {
        Some(found) => found == number,
        None => false,
    }
}

/// Answers what a search found: the context, or nil.
fn answer_mark<W: World>(w: &mut W, args: u32, mark: Mark) -> PrimEnd
    requires ready { IsReady (W.stored w.old) (W.view w.old) }
    requires there { args < depth_of (W.view w.old) }
    requires stands { MarkStands (W.act w.old) mark }
    ensures { (m : Marked) → FindsMark (W.act w.old) mark m → Performs (W.stored w.old) (W.stored w.new)
        (W.layout w.old) (W.layout w.new) (W.view w.old) (W.view w.old) (W.view w.new) result
        (answer_mark (W.view w.old) args m) }
{
    match mark {
        Mark::At(here) => answer_context(w, args, here),
        Mark::Nowhere => {
            let nil = nil(w);
            answer(w, args, nil);
            PrimEnd::Answer
        }
        Mark::TooFar => PrimEnd::Stop(Stop::ChainTooLong),
    }
}

/// Answers the context that an act stands for.
fn answer_context<W: World>(w: &mut W, args: u32, a: Act) -> PrimEnd
    requires ready { IsReady (W.stored w.old) (W.view w.old) }
    requires there { args < depth_of (W.view w.old) }
    requires stands { IsSome (W.act w.old a) }
    ensures { IfSome (W.act w.old a) (λ birth. Performs (W.stored w.old) (W.stored w.new) (W.layout w.old)
        (W.layout w.new) (W.view w.old) (W.view w.old) (W.view w.new) result
        (answer_context (W.view w.old) args (Some birth))) }
{
    match w.act_context(a) {
        Ok(ctx) => {
            answer(w, args, ctx);
            PrimEnd::Answer
        }
        Err(why) => PrimEnd::Full(why),
    }
}
