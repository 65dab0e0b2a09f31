//! Closures over the active context.
ghost use Rattle.std.specs.Prelude.{◌≡◌, ◌+◌, ◌<◌, ◌≤◌, false, IfErr, IfOk, OnOk, pos};
ghost use Rattle.cs_model.specs.Exec.{closure_out, new_closure};
ghost use Rattle.cs_model.specs.Obj.{words_of_slots};
ghost use Rattle.cs_model.specs.Operation.{add_of, drop_of, next_ref};
ghost use Rattle.cs_model.specs.Read.{depth_of, pc_of};
ghost use Rattle.cs_model.specs.Ref as ref;
ghost use Rattle.cs_acts.specs.declared.act.Full.{Full};
ghost use Rattle.cs_acts.specs.declared.act.Full.TheVariants as full;
ghost use Rattle.cs_acts.specs.Full.{CausesFull};
ghost use Rattle.cs_acts.specs.Led.{Leads};
ghost use Rattle.cs_acts.specs.Made.{MakesAtMost};
ghost use Rattle.cs_acts.specs.Names.{Names};
ghost use Rattle.cs_acts.specs.Ready.{IsReady};
ghost use Rattle.cs_code.specs.declared.end.CodeEnd.TheVariants as ends;
ghost use Rattle.cs_code.specs.Closures.{bare_closure};
ghost use Rattle.cs_code.specs.Gives.{Gives, Refuses, is_refused};

use crate::CodeEnd;
use crate::jumps::pc_after;
use crate::pushes::has_room;
use cs_acts::arithmetic::small_word;
use cs_acts::{Full, World};
use cs_classes::slots::{ARGUMENT_COUNT, FIRST_COPIED, OUTER_CONTEXT, START_PC};
use cs_classes::{CLOSURE_CLASS, FIELDS_AND_INDICES};
use cs_model::Stop;
use cs_word::Oop;

/// Pushes a closure over the active context, with the topmost values as its copied ones, and jumps past its block.
///
/// The closure is made before room on the stack is looked at.
pub fn make_closure<W: World>(w: &mut W, copied: u8, args: u8, size: u16) -> CodeEnd
    requires ready { IsReady (W.stored w.old) (W.view w.old) }
    requires births { (W.view w.old).rest.next < 4611686018427387904 }
    ensures gives { is_refused result ≡ false → Gives (W.stored w.old) (W.stored w.new) (W.layout w.old) (W.view w.new)
        result (closure_out (W.view w.old) copied args size) }
    ensures full { (why : Full) → result ≡ ends.Full why → Refuses (W.stored w.new) (W.layout w.old) (W.view w.old)
        (closure_out (W.view w.old) copied args size) why }
    ensures layout { is_refused result ≡ false → W.layout w.new ≡ W.layout w.old }
    ensures limit { (W.stored w.new).memory.limit ≡ (W.stored w.old).memory.limit }
    ensures contexts { is_refused result ≡ false → MakesAtMost (closure_out (W.view w.old) copied args size).count.looks
        (W.layout w.old) (W.stored w.old) (W.stored w.new) }
{
    let Some(pc) = pc_after(w, i32::from(size)) else {
        return CodeEnd::Stop(Stop::BadCode);
    };
    if w.depth() < u32::from(copied) {
        return CodeEnd::Stop(Stop::StackUnder);
    }
    let closure = match make(w, copied, args) {
        Ok(closure) => closure,
        Err(why) => return CodeEnd::Full(why),
    };
    drop_values(w, copied);
    if !has_room(w) {
        return CodeEnd::Stop(Stop::StackOver);
    }
    w.push(closure);
    w.set_pc(pc);
    CodeEnd::Done
}

/// Makes a closure over the active context, with so many of the topmost values as its copied ones. These stay where
/// they are.
fn make<W: World>(w: &mut W, copied: u8, args: u8) -> Result<Oop, Full>
    requires ready { IsReady (W.stored w.old) (W.view w.old) }
    requires births { (W.view w.old).rest.next < 4611686018427387904 }
    requires there { copied ≤ depth_of (W.view w.old) }
    ensures value { IfOk result (λ o. Names (W.stored w.new) o (next_ref (W.view w.old))) }
    ensures leads { OnOk result (Leads (W.stored w.old) (W.stored w.new) (W.layout w.old) (W.layout w.new)
        (W.view w.new) (add_of (W.view w.old) (new_closure (W.view w.old) copied args)) 1) }
    ensures limit { (W.stored w.new).memory.limit ≡ (W.stored w.old).memory.limit }
    ensures heap_alone { IfErr result (λ why. why ≡ full.Heap) }
    ensures full { IfErr result (CausesFull (W.stored w.new) (W.layout w.old) (W.view w.old)
        (words_of_slots (3 + copied)) (add_of (W.view w.old) (new_closure (W.view w.old) copied args))) }
{
    let closure = match begin(w, copied, args) {
        Ok(closure) => closure,
        Err(why) => return Err(why),
    };
    let first = w.depth() - u32::from(copied);
    for i in 0..u32::from(copied) {
        let value = w.stack_at(first + i);
        w.store(closure, FIRST_COPIED + i, value);
    }
    Ok(closure)
}

/// Makes a closure over the active context, whose copied values are nil still.
fn begin<W: World>(w: &mut W, copied: u8, args: u8) -> Result<Oop, Full>
    requires ready { IsReady (W.stored w.old) (W.view w.old) }
    requires births { (W.view w.old).rest.next < 4611686018427387904 }
    ensures value { IfOk result (λ o. Names (W.stored w.new) o (next_ref (W.view w.old))) }
    ensures leads { OnOk result (Leads (W.stored w.old) (W.stored w.new) (W.layout w.old) (W.layout w.new)
        (W.view w.new) (add_of (W.view w.old) (bare_closure (W.view w.old) copied args)) 1) }
    ensures limit { (W.stored w.new).memory.limit ≡ (W.stored w.old).memory.limit }
    ensures heap_alone { IfErr result (λ why. why ≡ full.Heap) }
    ensures full { IfErr result (CausesFull (W.stored w.new) (W.layout w.old) (W.view w.old)
        (words_of_slots (3 + copied)) (add_of (W.view w.old) (bare_closure (W.view w.old) copied args))) }
{
    let context = match w.this_context() {
        Ok(context) => context,
        Err(why) => return Err(why),
    };
    let pc = pc_word(w);
    let closure = match w.allocate(
        CLOSURE_CLASS,
        FIELDS_AND_INDICES,
        FIRST_COPIED + u32::from(copied),
    ) {
        Ok(closure) => closure,
        Err(why) => return Err(why),
    };
    w.store(closure, OUTER_CONTEXT, context);
    w.store(closure, START_PC, pc);
    w.store(closure, ARGUMENT_COUNT, small_word(i32::from(args)));
    Ok(closure)
}

/// The SmallInteger that the pc of the active context is.
fn pc_word<W: World>(w: &W) -> Oop
    requires { IsReady (W.stored w.now) (W.view w.now) }
    ensures { Names (W.stored w.now) result (ref.Small (pos (pc_of (W.view w.now)))) }
{
    // for what its clause says: no pc of a method in the heap is too large
    let _method = w.method();
    small_word(w.pc() as i32)
}

/// Drops so many of the topmost values.
fn drop_values<W: World>(w: &mut W, count: u8)
    requires ready { IsReady (W.stored w.old) (W.view w.old) }
    requires there { count ≤ depth_of (W.view w.old) }
    ensures { Leads (W.stored w.old) (W.stored w.new) (W.layout w.old) (W.layout w.new) (W.view w.new)
        (drop_of (W.view w.old) count) 0 }
{
    for _ in 0..u32::from(count) {
        w.pop();
    }
}
