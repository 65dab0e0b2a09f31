//! The loop of a run: step behind step.
ghost use Rattle.std.specs.Prelude.{◌≡◌, ◌≤◌, ℕ, false, Some};
ghost use Rattle.cs_model.specs.Due.{is_idle};
ghost use Rattle.cs_model.specs.Read.{IsRunning};
ghost use Rattle.cs_model.specs.Ref.{named_object};
ghost use Rattle.cs_model.specs.Report.{no_place, place_of};
ghost use Rattle.cs_model.specs.State.{Kept, active_process};
ghost use Rattle.cs_acts.specs.declared.run.Phase.TheVariants as phase;
ghost use Rattle.cs_acts.specs.Layout.{IsLaidOut};
ghost use Rattle.cs_acts.specs.Names.{IsNamed, NamesOption, name_of};
ghost use Rattle.cs_acts.specs.Ready.{IsSound};
ghost use Rattle.cs_core.specs.Running.{InPhase, RunCausedByFault, RunGives, StandsAt, UnlessBroken, ending_at_rest};
ghost use Rattle.cs_core.specs.Running.{ending_of, phase_behind, place_by};
ghost use Rattle.cs_core.specs.VmParts.{seen_at};

use crate::step::{BIRTH_LIMIT, StepEnd, step};
use cs_acts::read::{active_process, nil, same};
use cs_acts::{Place, RunEnd, World};
use cs_model::Stop;
use cs_send::Sender;
use cs_shelf::Sink;
use cs_word::{Kind, Oop};

/// How far a machine has come.
#[derive(Clone, Copy)]
pub(crate) struct Position {
    /// The bytecodes that are completed.
    pub(crate) steps: u64,
    /// Where the machine stands behind them.
    pub(crate) place: Place,
}

/// The birth of the object that a word names, if it names one.
fn birth_of<W: World>(w: &W, o: Oop) -> Option<u64>
    requires sound { IsSound (W.stored w.now) (W.view w.now) }
    requires named { IsNamed (W.stored w.now) o }
    ensures { result ≡ named_object (name_of (W.stored w.now) o) }
{
    match o.kind() {
        Kind::Object(_) => Some(w.heap().birth(o)),
        _ => None,
    }
}

/// Where the machine stands, whose active process this is.
pub(crate) fn place_of<W: World>(w: &W, process: Option<Oop>) -> Place
    requires sound { IsSound (W.stored w.now) (W.view w.now) }
    requires process { NamesOption (W.stored w.now) process (active_process (W.view w.now)) }
    requires running { is_idle (W.view w.now) ≡ false → IsRunning (W.view w.now) }
    ensures place { place_of (W.view w.now) ≡ place_by result }
    ensures laid { IsLaidOut (W.stored w.now) (W.view w.now) (W.layout w.now) }
{
    let active = w.active();
    let Some(process) = process else {
        return Place::NOWHERE;
    };
    if same(w, process, nil(w)) {
        return Place::NOWHERE;
    }
    Place {
        process: birth_of(w, process),
        context: Some(w.act_birth(active)),
        pc: Some(w.pc()),
    }
}

/// Whether no process is active: the scheduler names nil.
fn is_idle<W: World>(w: &W) -> bool
    requires { IsSound (W.stored w.now) (W.view w.now) }
    ensures { result ≡ is_idle (W.view w.now) }
{
    match active_process(w) {
        Some(process) => same(w, process, nil(w)),
        None => false,
    }
}

/// Goes on until `n` bytecodes are completed, or an earlier end.
///
/// The position is that before a step which isn't completed.
pub(crate) fn go_on<W: World, K: Sink>(
    w: &mut W,
    sender: &mut Sender,
    at: &mut Position,
    n: u64,
    out: &mut K,
) -> RunEnd
    requires ready { InPhase phase.Ready (W.stored w.old) (W.view w.old) }
    requires within { at.old.steps ≤ n }
    ensures gives { (k : Kept) (j : ℕ) →
        let before = seen_at (W.stored w.old) (W.view w.old) (W.layout w.old) at.old.steps at.old.place phase.Ready in
        let behind = seen_at (W.stored w.new) (W.view w.new) (W.layout w.new) at.new.steps at.new.place
        (phase_behind result) in
        StandsAt k j before → RunGives k j n (K.taken out.old) (K.taken out.new) before behind result }
    ensures follows { InPhase (phase_behind result) (W.stored w.new) (W.view w.new) }
    ensures sound { UnlessBroken result (IsSound (W.stored w.new) (W.view w.new)) }
    ensures limit { (W.stored w.new).memory.limit ≡ (W.stored w.old).memory.limit }
    ensures never_falls { K.fault_count out.old ≤ K.fault_count out.new }
    ensures cause { RunCausedByFault (K.fault_count out.old) (K.fault_count out.new) result }
{
    if is_idle(w) {
        return at_rest(w, at, n);
    }
    let mut process = active_process(w);
    for steps in at.steps..n {
        let place = place_of(w, process);
        *at = Position { place, steps };
        match step(w, sender, out) {
            StepEnd::Active(active) => process = Some(active),
            StepEnd::Idle => {
                at.steps = steps + 1;
                return at_rest(w, at, n);
            }
            StepEnd::Stopped(reason) => return RunEnd::Stopped(reason),
            StepEnd::Full(why) => return RunEnd::Full(why),
            StepEnd::WriteFault => return RunEnd::WriteFault,
        }
    }
    *at = Position {
        place: place_of(w, process),
        steps: n,
    };
    RunEnd::Steps
}

/// The end of a run to `n` in which no process is active, so that no further bytecode is done. A further step stops
/// where births are used up, which is looked at before the process is.
fn at_rest<W: World>(w: &W, at: &mut Position, n: u64) -> RunEnd
    requires { IsSound (W.stored w.now) (W.view w.now) }
    ensures steps { at.new.steps ≡ at.old.steps }
    ensures place { place_by at.new.place ≡ no_place }
    ensures ending { ending_of result ≡ Some (ending_at_rest (W.view w.now).rest.next at.old.steps n) }
{
    at.place = Place::NOWHERE;
    if at.steps == n {
        RunEnd::Steps
    } else if w.next_birth() > BIRTH_LIMIT {
        RunEnd::Stopped(Stop::BirthLimit)
    } else {
        RunEnd::Idle
    }
}
