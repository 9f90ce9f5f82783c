//! Whether two machines hold the same.
ghost use Rattle.std.specs.Prelude.{◌≡◌, ◌↔◌, IsTrue};
ghost use Rattle.mr_master_state.specs.Same.{SameMachines};
ghost use Rattle.mr_master_state.specs.inner.Comparing.{SameRunning, SameWriting, SameKnown};

use crate::machine::Machine;

impl Machine {
    /// Whether both keep the same, whatever their settings. Spare room is not compared, nor in which order the nodes were
    /// heard of, nor whether a flush is wanted: that follows from what was appended.
    pub fn keeps_same(&self, other: &Machine) -> bool
        ensures { IsTrue result ↔ SameMachines self.now other.now }
    {
        self.runs_same(other) && self.writes_same(other) && self.knows_same(other)
    }

    /// Whether both keep the same (`keeps_same`), and are for one setting.
    pub fn is_same(&self, other: &Machine) -> bool
        ensures { IsTrue result ↔ (SameMachines self.now other.now × (self.now.setting ≡ other.now.setting)) }
    {
        self.keeps_same(other) && self.has_setting_of(other)
    }

    // Whether both are at the same, with the same launches and tasks.
    fn runs_same(&self, other: &Machine) -> bool
        ensures { IsTrue result ↔ SameRunning self.now other.now }
    {
        self.work.is_same(&other.work)
            && self.launches.is_same(&other.launches)
            && self.tasks.is_same(&other.tasks)
    }

    // Whether both have the same to write down and to bar.
    fn writes_same(&self, other: &Machine) -> bool
        ensures { IsTrue result ↔ SameWriting self.now other.now }
    {
        self.writing.is_same(&other.writing) && self.bars.is_same(&other.bars)
    }

    // Whether both know the same of nodes and of earlier masters.
    fn knows_same(&self, other: &Machine) -> bool
        ensures { IsTrue result ↔ SameKnown self.now other.now }
    {
        self.nodes.is_same(&other.nodes) && self.earlier.is_same(&other.earlier)
    }

    // Whether both are for one setting.
    #[tactic(auto, using(crate::proofs::Comparing::setting_decides))]
    fn has_setting_of(&self, other: &Machine) -> bool
        ensures { IsTrue result ↔ (self.now.setting ≡ other.now.setting) }
    {
        self.setting == other.setting
    }
}
