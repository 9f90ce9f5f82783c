//! What is next after the answer of a look for a mark, of the creation of one, or of the abort after COMMIT_FAIL.
ghost use Rattle.std.specs.Prelude.{◌≡◌, true, false};
ghost use Rattle.mr_master_model.specs.Readings.{Seen, is_running};
ghost use Rattle.mr_master_phase.specs.WorkKinds.{is_look, looked_on, found_by, is_tell};
ghost use Rattle.mr_master_model.specs.Answered.{work_after};
ghost use Rattle.mr_master_model.specs.declared.setting.Setting.{Setting};

use crate::store::{Look, is_fine, is_superseded, looked};
use crate::work::{At, Work};
use mr_master_model::StoreAnswer;

impl Work {
    /// What is next after the answer of a look for a mark.
    #[tactic(auto, unfolding(mr_master_model::specs::Answered::work_after))]
    pub fn look(&self, answer: &StoreAnswer) -> Work
        requires { is_look self.now ≡ true }
        ensures quiet { is_running result ≡ false }
        ensures moved { (w : Setting) (s : Seen) → result ≡ work_after w s answer.now self.now }
    {
        match looked(answer) {
            Look::There => self.found(),
            Look::Absent => self.look_on(),
            Look::Unclear => Work::stopped(),
        }
    }

    // What is next where the mark is there.
    fn found(&self) -> Work
        requires { is_look self.now ≡ true }
        ensures { result ≡ found_by self.now }
    {
        match self.at {
            At::LooksForSuccess => Work::ends(true),
            At::LooksForFail | At::LooksForStarted => Work::ends(false),
            _ => unreachable!(),
        }
    }

    // The next look, and after the last the reading.
    fn look_on(&self) -> Work
        requires { is_look self.now ≡ true }
        ensures { result ≡ looked_on self.now }
    {
        match self.at {
            At::LooksForSuccess => Work {
                at: At::LooksForFail,
            },
            At::LooksForFail => Work {
                at: At::LooksForStarted,
            },
            At::LooksForStarted => Work { at: At::Reads },
            _ => unreachable!(),
        }
    }

    /// What is next after the answer of the creation of a mark, or of the abort after COMMIT_FAIL.
    #[tactic(auto, unfolding(mr_master_model::specs::Answered::work_after))]
    pub fn told(&self, answer: &StoreAnswer) -> Work
        ensures quiet { is_tell self.now ≡ true → is_running result ≡ false }
        ensures moved { (w : Setting) (s : Seen) → is_tell self.now ≡ true → result ≡ work_after w s answer.now self.now }
    {
        let fine = is_fine(answer);
        let superseded = is_superseded(answer);
        match self.at {
            At::TellsSuccess if fine => Work::ends(true),
            At::TellsFail if fine => Work {
                at: At::AbortsCommit,
            },
            At::AbortsCommit if !superseded => Work::ends(false),
            _ => Work::stopped(),
        }
    }
}
