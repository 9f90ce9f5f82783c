//! What is walked over: a run that goes on by itself, and that faults may befall.
ghost use Rattle.std.specs.Prelude.{◌≡◌, false, None, IfOk, IfErr};
ghost use Rattle.mr_explore_search.specs.Steps.{Befalls, GoesOn, IsNotFull, Steps};

use crate::fault::WalkFault;
use std::alloc::Global;
use std::collections::LinkedList;

/// A run that goes on by itself, and that faults may befall.
pub trait Run: Drop {
    /// What may befall it, or come later.
    type Fault: Copy + Drop;

    /// How it goes on, what may befall it where it is, what then comes of it, and what is put off.
    ghost steps: { Steps Self Self.Fault };

    /// A run of its own, as far as this one.
    fn fork(&self, alloc: Global) -> Result<Self, WalkFault>
        ensures is { IfOk result (λ run. run ≡ self.now) }
        ensures fault { IfErr result IsNotFull };

    /// One step further by itself; whether it was made. Where it was not, the run is at its end.
    fn go_on(&mut self, alloc: Global) -> Result<bool, WalkFault>
        ensures { GoesOn (steps.onward self.old) result self.new };

    /// What may befall it where it is, in the order in which it is tried.
    fn faults(&self, alloc: Global) -> Result<LinkedList<Self::Fault>, WalkFault>
        ensures is { IfOk result (λ faults. faults ≡ steps.faults self.now) }
        ensures fault { IfErr result IsNotFull };

    /// What the fault puts off, if it does: it may come at any place behind the next one, once, and is no fault then.
    fn later(&self, fault: &Self::Fault) -> Option<Self::Fault>
        ensures { result ≡ steps.later fault.now };

    /// Whether the fault may be tried where it is. Where not, it can't befall it there, so no run need be forked for it.
    fn may_befall(&self, _fault: &Self::Fault) -> Result<bool, WalkFault>
        ensures cannot { IfOk result (λ may. may ≡ false → steps.befallen _fault.now self.now ≡ None) }
        ensures fault { IfErr result IsNotFull }
    {
        Ok(true)
    }

    /// The fault befalls it; whether it can. Where it can't, nothing is said of the run.
    fn befall(&mut self, alloc: Global, fault: Self::Fault) -> Result<bool, WalkFault>
        ensures is { IfOk result (λ befell. Befalls (steps.befallen fault self.old) befell self.new) }
        ensures fault { IfErr result IsNotFull };
}
