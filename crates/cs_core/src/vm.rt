//! The machine.
ghost use Rattle.std.specs.Prelude.{◌≡◌, ◌≤◌, false, IfSome, ℕ};
ghost use Rattle.cs_model.specs.Due.{is_idle};
ghost use Rattle.cs_model.specs.Keeps.{Keeps};
ghost use Rattle.cs_model.specs.Read.{IsRunning};
ghost use Rattle.cs_model.specs.Report.{place_of};
ghost use Rattle.cs_model.specs.State.{Kept};
ghost use Rattle.cs_acts.specs.declared.run.Phase.TheVariants as phase;
ghost use Rattle.cs_acts.specs.Layout.{IsFresh};
ghost use Rattle.cs_acts.specs.Ready.{IsSound};
ghost use Rattle.cs_core.specs.Running.{CanRun, InPhase, IsStackOf, RunCausedByFault, RunGives, StandsAt, UnlessBroken};
ghost use Rattle.cs_core.specs.Running.{end_again, phase_behind, place_by};
ghost use Rattle.cs_core.specs.VmParts.{seen_through};

use crate::run::{Position, go_on, place_of};
use cs_acts::read::active_process;
use cs_acts::{Phase, Place, RunEnd, World};
use cs_send::Sender;
use cs_shelf::Sink;
use std::marker::Model;

/// A machine: a world, and how far it was run.
///
/// It is run to a number of bytecodes, and from there on to a greater one. What it writes goes to the sink that each
/// run is given, and isn't kept.
#[derive(Drop)]
pub struct Vm<W: World> {
    world: W,
    sender: Sender,
    at: Position,
    phase: Phase,
}

impl<W: World> Model for Vm<W> {
    ghost use Rattle.cs_core.specs.VmParts.{VmParts};
    ghost use Rattle.cs_core.specs.Running.{InPhase};

    ghost Value = { VmParts W };

    ghost view = { λ m. record {
      world = m.world;
      steps = m.at.steps;
      place = m.at.place;
      phase = m.phase;
      finds = m.sender.full;
    } };

    ghost invariant = { λ m. InPhase m.phase (W.stored m.world) (W.view m.world) };
}

impl<W: World> Vm<W> {
    /// A machine in this world that has completed no bytecode.
    ///
    /// Where a process is active, its context must be active too, and live.
    pub fn new(world: W, sender: Sender) -> Vm<W>
        requires sound { IsSound (W.stored world) (W.view world) }
        requires running { is_idle (W.view world) ≡ false → IsRunning (W.view world) }
        ensures world { result.world ≡ world }
        ensures steps { result.steps ≡ 0 }
        ensures place { place_of (W.view world) ≡ place_by result.place }
        ensures phase { result.phase ≡ phase.Ready }
        ensures finds { result.finds ≡ sender.full }
        ensures stands { (k : Kept) → Keeps (W.view world) k
            → StandsAt k 0 (seen_through W.stored W.view W.layout result) }
        ensures stack { (k : Kept) → Keeps (W.view world) k → IsFresh (W.view world) (W.layout world) →
            IsStackOf k 0 (seen_through W.stored W.view W.layout result) }
    {
        let process = active_process(&world);
        let place = place_of(&world, process);
        Vm {
            world,
            sender,
            at: Position { steps: 0, place },
            phase: Phase::Ready,
        }
    }

    /// Goes on until `n` bytecodes are completed, or an earlier end; `n` is at least [`steps`](Self::steps). The phase
    /// is Ready, Quit or Idle; in the last two that end is answered again, and nothing changes.
    ///
    /// Nothing that a primitive does ends a run with `Quit` or `Snapshot` yet.
    ///
    /// Behind `Stopped`, `Full` and `WriteFault` the machine has begun a step that isn't completed: its world stands
    /// within that step, `steps` and `place` are those before it. `Full` comes where there is no room for what a
    /// bytecode leads to, and the sink has taken all that the steps before wrote; with `WriteFault`, which comes only
    /// where the sink failed, also a first part of what the step writes.
    pub fn run<K: Sink>(&mut self, n: u64, out: &mut K) -> RunEnd
        requires phase { CanRun self.old.phase }
        requires within { self.old.steps ≤ n }
        ensures phase { self.new.phase ≡ phase_behind result }
        ensures again { IfSome (end_again self.old.phase) (λ end. (result ≡ end) × (self.new ≡ self.old)
            × (out.new ≡ out.old)) }
        ensures gives { (k : Kept) (j : ℕ) → self.old.phase ≡ phase.Ready →
            StandsAt k j (seen_through W.stored W.view W.layout self.old)
            → RunGives k j n (K.taken out.old) (K.taken out.new)
            (seen_through W.stored W.view W.layout self.old) (seen_through W.stored W.view W.layout self.new) result }
        ensures sound { UnlessBroken result (IsSound (W.stored self.new.world) (W.view self.new.world)) }
        ensures limit { (W.stored self.new.world).memory.limit ≡ (W.stored self.old.world).memory.limit }
        ensures never_falls { K.fault_count out.old ≤ K.fault_count out.new }
        ensures cause { self.old.phase ≡ phase.Ready → RunCausedByFault (K.fault_count out.old)
            (K.fault_count out.new) result }
    {
        if let Phase::Idle = self.phase {
            return RunEnd::Idle;
        }
        let end = go_on(&mut self.world, &mut self.sender, &mut self.at, n, out);
        self.phase = phase_behind(end);
        end
    }

    /// What may follow: Ready after `new` and behind the end Steps, Idle behind Idle, and Over behind Stopped, Full and
    /// WriteFault.
    pub fn phase(&self) -> Phase
        ensures value { result ≡ self.now.phase }
        ensures holds { InPhase result (W.stored self.now.world) (W.view self.now.world) }
    {
        self.phase
    }

    /// How many bytecodes are completed.
    pub fn steps(&self) -> u64
        ensures { result ≡ self.now.steps }
    {
        self.at.steps
    }

    /// Where it stands: behind the completed bytecodes, also where a further step was begun and isn't completed.
    pub fn place(&self) -> Place
        ensures { result ≡ self.now.place }
    {
        self.at.place
    }

    /// The world.
    pub fn world(&self) -> &W
        ensures world { result.now ≡ self.now.world }
        ensures holds { InPhase self.now.phase (W.stored result.now) (W.view result.now) }
    {
        &self.world
    }

    /// How many methods were looked up; the count stands still at its greatest number.
    pub fn finds(&self) -> u64
        ensures { result ≡ self.now.finds }
    {
        self.sender.full_finds()
    }
}

/// What may follow a run that ends so.
fn phase_behind(end: RunEnd) -> Phase
    ensures { result ≡ phase_behind end }
{
    match end {
        RunEnd::Steps => Phase::Ready,
        RunEnd::Quit => Phase::Quit,
        RunEnd::Idle => Phase::Idle,
        RunEnd::Snapshot => Phase::Snapped,
        RunEnd::Stopped(_) | RunEnd::Full(_) | RunEnd::WriteFault => Phase::Over,
    }
}
