//! What all primitives share: receiver and argument, and how they answer.
ghost use Rattle.std.specs.Prelude.{◌<◌, ◌+◌};
ghost use Rattle.cs_model.specs.Operation.{drop_of, push_of};
ghost use Rattle.cs_model.specs.PrimAnswer.{argument, receiver};
ghost use Rattle.cs_model.specs.Read.{depth_of};
ghost use Rattle.cs_acts.specs.Led.{Leads};
ghost use Rattle.cs_acts.specs.Names.{IsNamed, Names, name_of};
ghost use Rattle.cs_acts.specs.Ready.{IsReady};

use crate::World;
use cs_word::Oop;

/// The receiver below so many arguments.
pub fn receiver<W: World>(w: &W, args: u32) -> Oop
    requires ready { IsReady (W.stored w.now) (W.view w.now) }
    requires there { args < depth_of (W.view w.now) }
    ensures { Names (W.stored w.now) result (receiver (W.view w.now) args) }
{
    w.stack_at(w.depth() - (args + 1))
}

/// The argument, where there is one alone.
pub fn argument<W: World>(w: &W) -> Oop
    requires ready { IsReady (W.stored w.now) (W.view w.now) }
    requires there { 0 < depth_of (W.view w.now) }
    ensures { Names (W.stored w.now) result (argument (W.view w.now) 1 0) }
{
    w.stack_at(w.depth() - 1)
}

/// Pops the receiver and so many arguments, and pushes the answer.
pub fn answer<W: World>(w: &mut W, args: u32, value: Oop)
    requires ready { IsReady (W.stored w.old) (W.view w.old) }
    requires there { args < depth_of (W.view w.old) }
    requires named { IsNamed (W.stored w.old) value }
    ensures { Leads (W.stored w.old) (W.stored w.new) (W.layout w.old) (W.layout w.new) (W.view w.new)
        (push_of (drop_of (W.view w.old) (args + 1)) (name_of (W.stored w.old) value)) 0 }
{
    // for what its clauses say: the stack fits
    let _depth = w.depth();
    w.pop();
    for _ in 0..args {
        w.pop();
    }
    w.push(value);
}
