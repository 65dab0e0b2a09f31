//! A law of runs. It is a function with an empty body: what it ensures is the law.
ghost use Rattle.std.specs.Prelude.{ℕ, List, Option};
ghost use Rattle.cs_model.specs.State.{Kept};
ghost use Rattle.cs_model.specs.Step.{Ending, Steps};
ghost use Rattle.cs_core.specs.Running.{RunReaches};
ghost use Rattle.cs_core.specs.VmParts.{Seen};

/// Running to `j`, and on from there to `n`, is running to `n`: it ends so, and both together write what that writes.
pub fn run_goes_on()
    ensures { (k : Kept) (i j n : ℕ) (old now new : Option (List ℕ)) (a b : Seen) (e : Ending) →
        RunReaches k i j old now a Steps → RunReaches k j n now new b e → RunReaches k i n old new b e }
{}
