//! What an object is: the same as another one, of which class, and whether it may be stored into.
ghost use Rattle.std.specs.Prelude.{◌<◌, ◌≡◌, unwrap_or};
ghost use Rattle.cs_model.specs.Operation.{nil_of};
ghost use Rattle.cs_model.specs.PrimObject.{boolean_in, class_prim, identical_prim, is_unwritable, read_only_prim};
ghost use Rattle.cs_model.specs.PrimObject.{set_read_only_prim};
ghost use Rattle.cs_model.specs.Read.{class_of, depth_of};
ghost use Rattle.cs_model.specs.State.{object_of};
ghost use Rattle.cs_acts.specs.Names.{IsNamed, Names, name_of};
ghost use Rattle.cs_acts.specs.Ready.{IsReady, IsSound};
ghost use Rattle.cs_prim_ctx.specs.Answered.{PerformsInPlace};
ghost use Rattle.cs_prim_obj.specs.Contents.{can_be_fixed_by};

use crate::answering::answer;
use crate::contents::{Contents, held_by};
use cs_acts::answer::{argument, receiver};
use cs_acts::read::{boolean, class_of, is_read_only, nil, same};
use cs_acts::{PrimEnd, World, answer};
use cs_word::Oop;

/// Primitive 110: whether the receiver is the argument.
pub(crate) fn identical<W: World>(w: &mut W) -> PrimEnd
    requires ready { IsReady (W.stored w.old) (W.view w.old) }
    requires there { 1 < depth_of (W.view w.old) }
    ensures { PerformsInPlace (W.stored w.old) (W.stored w.new) (W.layout w.old) (W.layout w.new) (W.view w.old)
        (W.view w.new) result (identical_prim (W.view w.old) 1) }
{
    let is_same = same(w, receiver(w, 1), argument(w));
    let truth = boolean(w, is_same);
    answer(w, 1, truth)
}

/// Primitive 111: the class of the receiver; nil where the class table has none.
pub(crate) fn class<W: World>(w: &mut W) -> PrimEnd
    requires ready { IsReady (W.stored w.old) (W.view w.old) }
    requires there { 0 < depth_of (W.view w.old) }
    ensures { PerformsInPlace (W.stored w.old) (W.stored w.new) (W.layout w.old) (W.layout w.new) (W.view w.old)
        (W.view w.new) result (class_prim (W.view w.old) 0) }
{
    let class = class_or_nil(w, receiver(w, 0));
    answer(w, 0, class)
}

/// Primitive 163: whether the receiver is read-only. An immediate counts as such, and a context never does.
pub(crate) fn is_unwritable_receiver<W: World>(w: &mut W) -> PrimEnd
    requires ready { IsReady (W.stored w.old) (W.view w.old) }
    requires there { 0 < depth_of (W.view w.old) }
    ensures { PerformsInPlace (W.stored w.old) (W.stored w.new) (W.layout w.old) (W.layout w.new) (W.view w.old)
        (W.view w.new) result (read_only_prim (W.view w.old) 0) }
{
    let is_unwritable = is_unwritable(w, receiver(w, 0));
    let truth = boolean(w, is_unwritable);
    answer(w, 0, truth)
}

/// Primitive 164: makes the receiver read-only where the argument is true, and ends that where it is false. It answers
/// whether the receiver was read-only before.
pub(crate) fn set_read_only<W: World>(w: &mut W) -> PrimEnd
    requires ready { IsReady (W.stored w.old) (W.view w.old) }
    requires there { 1 < depth_of (W.view w.old) }
    ensures { PerformsInPlace (W.stored w.old) (W.stored w.new) (W.layout w.old) (W.layout w.new) (W.view w.old)
        (W.view w.new) result (set_read_only_prim (W.view w.old) 1) }
{
    let receiver = receiver(w, 1);
    if !can_be_fixed(held_by(w, receiver)) {
        return PrimEnd::Fail;
    }
    let Some(on) = truth_of(w, argument(w)) else {
        return PrimEnd::Fail;
    };
    let was = boolean(w, is_read_only(w, receiver));
    w.set_fixed(receiver, on);
    answer::answer(w, 1, was);
    PrimEnd::Answer
}

/// Whether what holds this can be made read-only: an object that is no context.
fn can_be_fixed(held: Contents) -> bool
    ensures { result ≡ can_be_fixed_by held }
{
    match held {
        Contents::Slots { .. } | Contents::Bytes { .. } | Contents::Code { .. } => true,
        Contents::Immediate | Contents::Context => false,
    }
}

/// What a word says that names true or false; None exactly where it names neither.
fn truth_of<W: World>(w: &W, o: Oop) -> Option<bool>
    requires sound { IsSound (W.stored w.now) (W.view w.now) }
    requires named { IsNamed (W.stored w.now) o }
    ensures { result ≡ boolean_in (W.view w.now) (name_of (W.stored w.now) o) }
{
    if same(w, o, boolean(w, true)) {
        Some(true)
    } else if same(w, o, boolean(w, false)) {
        Some(false)
    } else {
        None
    }
}

/// The class of what a word names, or nil where the class table has none.
fn class_or_nil<W: World>(w: &W, o: Oop) -> Oop
    requires sound { IsSound (W.stored w.now) (W.view w.now) }
    requires named { IsNamed (W.stored w.now) o }
    ensures { Names (W.stored w.now) result (unwrap_or (class_of (W.view w.now) (name_of (W.stored w.now) o))
        (nil_of (W.view w.now))) }
{
    match class_of(w, o) {
        Some(class) => class,
        None => nil(w),
    }
}

/// Whether nothing can be stored into what a word names: it is an immediate, or a read-only object.
fn is_unwritable<W: World>(w: &W, o: Oop) -> bool
    requires sound { IsSound (W.stored w.now) (W.view w.now) }
    requires named { IsNamed (W.stored w.now) o }
    ensures { result ≡ is_unwritable (object_of (W.view w.now) (name_of (W.stored w.now) o)) }
{
    match held_by(w, o) {
        Contents::Immediate => true,
        _ => is_read_only(w, o),
    }
}
