//! What is asked of scheduler and active process between two steps.
ghost use Rattle.std.specs.Prelude.{◌≡◌, IfSome, None, Some};
ghost use Rattle.cs_model.specs.Due.{is_idle};
ghost use Rattle.cs_model.specs.State.{active_process};
ghost use Rattle.cs_model.specs.Step.{is_process, shape_fault};
ghost use Rattle.cs_acts.specs.Names.{NamesOption, name_of};
ghost use Rattle.cs_acts.specs.Ready.{IsSound};
ghost use Rattle.cs_acts.specs.Shaped.{IsScheduled, fault_in, is_idle_in, process_in};

use crate::World;
use crate::read::{has_slots, nil, same, slot, special};
use cs_classes::slots::{ACTIVE_PROCESS, ASSOCIATION_SLOTS, PROCESS_SLOTS, SCHEDULER_SLOTS, VALUE};
use cs_model::Stop;
use cs_word::Oop;

/// What the scheduler and the active process are between two steps.
#[derive(Clone, Copy, Debug, PartialEq, Eq)]
pub enum Shape {
    /// One of them hasn't the shape that is needed: `BadSpecial` for the scheduler, `BadProcess` for the process.
    Fault(Stop),
    /// No process is active: nil stands in its place.
    Idle,
    /// This process is active.
    Active(Oop),
}

/// What the scheduler and the active process are.
///
/// The scheduler must be there, with two slots, in special object 3, which has two slots too. The active process must
/// be nil, or have four slots and be neither the scheduler nor special object 3.
#[tactic(auto, unfolding(cs_model::specs::Step::shape_fault, cs_model::specs::Due::is_idle))]
pub fn shape_of<W: World>(w: &W) -> Shape
    requires { IsSound (W.stored w.now) (W.view w.now) }
    ensures fault { shape_fault (W.view w.now) ≡ fault_in result }
    ensures idle { fault_in result ≡ None → is_idle (W.view w.now) ≡ is_idle_in result }
    ensures process { IfSome (process_in result) (λ p. NamesOption (W.stored w.now) (Some p)
        (active_process (W.view w.now))) }
{
    let Some(found) = read_scheduling(w) else {
        return Shape::Fault(Stop::BadSpecial);
    };
    if same(w, found.process, nil(w)) {
        Shape::Idle
    } else if is_process(w, found) {
        Shape::Active(found.process)
    } else {
        Shape::Fault(Stop::BadProcess)
    }
}

/// What is read on the way to the active process.
#[derive(Clone, Copy)]
struct Scheduling {
    /// Special object 3.
    association: Oop,
    /// The scheduler.
    scheduler: Oop,
    /// The active process, or nil.
    process: Oop,
}

/// The active process, and what leads to it; None exactly where the scheduler is not there, with two slots.
#[tactic(auto, unfolding(cs_model::specs::State::active_process, cs_model::specs::State::scheduler_of))]
fn read_scheduling<W: World>(w: &W) -> Option<Scheduling>
    requires { IsSound (W.stored w.now) (W.view w.now) }
    ensures { IsScheduled (W.stored w.now) (W.view w.now) result }
{
    let Some(association) = special(w, 3) else {
        return None;
    };
    let Some(scheduler) = slot(w, association, ASSOCIATION_SLOTS, VALUE) else {
        return None;
    };
    match slot(w, scheduler, SCHEDULER_SLOTS, ACTIVE_PROCESS) {
        Some(process) => Some(Scheduling {
            association,
            scheduler,
            process,
        }),
        None => None,
    }
}

/// Whether the active process is a pointer object with four slots that is neither the scheduler nor special object 3.
fn is_process<W: World>(w: &W, found: Scheduling) -> bool
    requires sound { IsSound (W.stored w.now) (W.view w.now) }
    requires found { IsScheduled (W.stored w.now) (W.view w.now) (Some found) }
    ensures { result ≡ is_process (W.view w.now) (name_of (W.stored w.now) found.process) }
{
    has_slots(w, found.process, PROCESS_SLOTS)
        && !same(w, found.scheduler, found.process)
        && !same(w, found.association, found.process)
}
