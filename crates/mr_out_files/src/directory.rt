//! An output directory that is open: its lock is held, and calls are made on it.
ghost use Rattle.std.specs.Prelude.{◌≡◌, ◌⊎◌, ℕ, List, [], ◌∷◌, ◌++◌, codes, true, None, IfOk, IfErr};
ghost use Rattle.std.specs.String.{string_bytes};
ghost use Rattle.mr_ids.specs.Text.{attempt_text};
ghost use Rattle.mr_out_layout.specs.Jobs.{IsTold};
ghost use Rattle.mr_out_layout.specs.Faults.{IsFailure, IsRefusal, is_failure_of};
ghost use Rattle.mr_out_layout.specs.Layout.{path_of, boot_path, work_folder};
ghost use Rattle.mr_out_files.specs.Made.{calls_of, Keeps};
ghost use Rattle.mr_out_files.specs.inner.Syncing.{FailsSomewhere, IsSyncFault};
ghost use Rattle.mr_out_files.specs.Troubles.{trouble_of, FailsAt, IsMade, IsHistoryTrouble, IsAppendTrouble, IsBarred, IsListTrouble, IsPathTrouble, IsSyncTrouble, IsSweepTrouble, IsFolderTrouble, IsRemoveTrouble, IsTroubleOf, HasTrouble, IsOpeningFault};

use crate::beginning::write_synced;
use crate::boots::note_boot;
use crate::early::{Early, sync_early};
use crate::history::History;
use crate::lengths::{drop_lengths, note_length};
use crate::lock::{Lock, locked};
use crate::replies::{
    answered, attempt_at, done, folder_path, kept_attempt, put_kept, seen_at, sweep,
};
use crate::spares::take_folder;
use http_server::Log;
use mr_history::Record;
use mr_ids::AttemptId;
use mr_out_disk::{Answer, Call, Folder, Place, Reply};
use mr_out_layout::{
    Fault, GONE, HOME, JOB, Job, KEPT, Why, boot_path, enter, host_of, is_changed, is_one, look,
    look_file, open, path_of, stat, sync, sync_folder, told, work_folder,
};
use mr_out_removal::clear;
use std::alloc::Global;
use std::collections::LinkedList;
use std::fs::{File, Metadata};
use std::{fs, io};

// The file that tells the job, before it has its name.
const NEW_JOB: &str = "_mrout/job.new";

/// An output directory whose lock is held. The process stands in it: its paths are told from there.
#[derive(Drop)]
pub struct Directory {
    alloc: Global,
    /// Its job.
    pub job: Job,
    // The lock is held as long as this file is open.
    lock: File,
    history: History,
    // The file that is handed in, as it was synced before the lock was held.
    early: Option<Early>,
    // The attempt whose file was claimed since then, and the one that was found to be begun in this boot.
    claimed: Option<AttemptId>,
    checked: Option<AttemptId>,
    // The marker was made or found, and is not durable yet.
    is_marked: bool,
    trouble: Option<Fault>,
    // Each call with its answer, for contracts alone: it takes no memory.
    made: Log<Call, Answer>,
}

impl Directory {
    /// Goes into a directory, takes its lock, and reads its job. Where an attempt hands in, the file that it wrote is synced
    /// before the lock is held.
    #[tactic(auto, using(crate::proofs::Troubled::memory_opening, crate::proofs::Troubled::entered_opening, crate::proofs::Troubled::locked_opening))]
    pub fn open(
        rt: &HostRuntime,
        dir: &str,
        lock: Lock,
        handing: Option<AttemptId>,
    ) -> Result<Directory, Fault>
        ensures calls { IfOk result (λ directory. calls_of directory ≡ []) }
        ensures job { IfOk result (λ directory. IsTold directory.job) }
        ensures untroubled { IfOk result (λ directory. trouble_of directory ≡ None) }
        ensures failed { IfErr result (IsOpeningFault dir.now) }
    {
        enter(rt, dir)?;
        let history = History::new(rt, !lock.is_shared)?;
        let early = early_of(rt, handing)?;
        let (lock, job) = locked(rt, lock)?;
        Ok(Directory {
            alloc: rt.alloc(),
            job,
            lock,
            history,
            early,
            claimed: None,
            checked: None,
            is_marked: false,
            trouble: None,
            made: Log::new(),
        })
    }

    /// The directory is of this host from now on. The lock is lost by that: it is opened anew for more.
    #[tactic(auto, using(crate::proofs::Troubled::memory_moved, crate::proofs::Troubled::folder_moved))]
    pub fn move_here(&mut self, rt: &HostRuntime) -> Result<(), Fault>
        ensures calls { calls_of self.new ≡ calls_of self.old }
        ensures job { self.new.job ≡ record self.old.job { host = self.new.job.host } }
        ensures failed { IfErr result (λ fault. FailsAt (codes "_mrout") fault ⊎ IsFailure (codes "write") (codes "_mrout/job") fault) }
    {
        self.job.host = host_of(rt)?;
        let line = self.job.line(self.alloc)?;
        let _ = fs::remove_file(rt, NEW_JOB);
        match write_synced(rt, NEW_JOB, line.as_bytes()).and_then(|_| fs::rename(
            rt, NEW_JOB, JOB,
        )) {
            Ok(()) => sync_folder(rt, HOME),
            Err(error) => Err(Fault::of_call(self.alloc, "write", JOB, error)),
        }
    }

    /// Why the call that failed last did, if one did. It is told once.
    pub fn trouble(&mut self) -> Option<Fault>
        ensures same { Keeps self.old self.new }
        ensures told { result ≡ trouble_of self.old }
        ensures once { trouble_of self.new ≡ None }
    {
        self.trouble.take()
    }

    /// Makes a call, answers what came of it, and notes both. Of one that failed, `trouble` tells why. With the sync of the
    /// directory that makes the marker durable, what attempts wrote is removed; where that fails, so does the call.
    pub fn perform(&mut self, rt: &HostRuntime, call: Call) -> Answer
        ensures noted { calls_of self.new ≡ calls_of self.old ++ (call, result) ∷ [] }
        ensures job { self.new.job ≡ self.old.job }
        ensures failed { result ≡ Answer.Says Reply.Failed → HasTrouble self.new (string_bytes self.old.job.suffix) call }
    {
        let answer = self.answer(rt, call);
        self.made = self.made.and(&call, &answer);
        answer
    }

    #[tactic(auto, using(crate::proofs::Troubled::not_failed))]
    fn answer(&mut self, rt: &HostRuntime, call: Call) -> Answer
        ensures same { Keeps self.old self.new }
        ensures failed { result ≡ Answer.Says Reply.Failed → HasTrouble self.new (string_bytes self.old.job.suffix) call }
    {
        match self.make(rt, call) {
            Ok(answer) => answer,
            Err(fault) => {
                self.trouble = Some(fault);
                Answer::Says(Reply::Failed)
            }
        }
    }

    fn make(&mut self, rt: &HostRuntime, call: Call) -> Result<Answer, Fault>
        ensures same { Keeps self.old self.new }
        ensures made { IfOk result IsMade }
        ensures failed { IfErr result (λ fault. IsTroubleOf (string_bytes self.old.job.suffix) call fault) }
    {
        match call {
            Call::ReadHistory => self.read_history(rt),
            Call::AppendHistory(told) => self.append(rt, &told),
            Call::SyncHistory => self.sync_history(rt),
            Call::Look(place) => self.look(rt, &place),
            Call::ListKept => self.list_kept(rt),
            Call::SyncFile(place) => self.sync_file(rt, &place),
            Call::SyncFolder(folder) => self.sync_folder(rt, folder),
            Call::Rename { from, to } => self.rename(rt, &from, &to),
            Call::Link { from, to } => self.link(rt, &from, &to),
            Call::Create(place) => self.mark(rt, &place),
            Call::Remove(place) => self.remove(rt, &place),
            Call::MakeFolder(a) => self.make_folder(rt, a),
        }
    }

    // ---- the history

    fn read_history(&mut self, rt: &HostRuntime) -> Result<Answer, Fault>
        ensures same { Keeps self.old self.new }
        ensures made { IfOk result IsMade }
        ensures failed { IfErr result IsHistoryTrouble }
    {
        Ok(Answer::Told(self.history.read(rt)?))
    }

    fn append(&mut self, rt: &HostRuntime, told: &Record) -> Result<Answer, Fault>
        ensures same { Keeps self.old self.new }
        ensures made { IfOk result IsMade }
        ensures failed { IfErr result IsAppendTrouble }
    {
        self.history.append(rt, told)?;
        Ok(done())
    }

    fn sync_history(&mut self, rt: &HostRuntime) -> Result<Answer, Fault>
        ensures same { Keeps self.old self.new }
        ensures made { IfOk result IsMade }
        ensures failed { IfErr result IsHistoryTrouble }
    {
        self.history.sync(rt)?;
        Ok(done())
    }

    // The file of an attempt that was begun in an earlier boot may have lost bytes when the machine stopped.
    fn check_boot(&mut self, rt: &HostRuntime, place: &Place) -> Result<(), Fault>
        ensures keeps { Keeps self.old self.new }
        ensures barred { IfErr result (IsBarred place.now) }
    {
        let Some(a) = attempt_at(place) else {
            return Ok(());
        };
        if self.checked == Some(a) {
            return Ok(());
        }
        self.check_boot_of(rt, a)?;
        self.checked = Some(a);
        Ok(())
    }

    fn check_boot_of(&self, rt: &HostRuntime, a: AttemptId) -> Result<(), Fault>
        ensures { IfErr result (IsRefusal (attempt_text a) Why.EarlierBoot) }
    {
        let note = boot_path(self.alloc, a)?;
        match told(rt, &note)? {
            Some(boot) if self.history.is_boot(&boot) => Ok(()),
            _ => {
                let name = format!(in self.alloc; "{a}")?;
                Err(Fault::refused(self.alloc, &name, Why::EarlierBoot))
            }
        }
    }

    // ---- names

    fn path(&self, place: &Place) -> Result<String, Fault>
        ensures path { IfOk result (λ text. string_bytes text ≡ path_of (string_bytes self.now.job.suffix) place.now) }
        ensures failed { IfErr result (λ fault. fault ≡ Fault.NoMemory) }
    {
        let path = path_of(self.alloc, &self.job, place)?;
        Ok(path)
    }

    fn look(&self, rt: &HostRuntime, place: &Place) -> Result<Answer, Fault>
        ensures made { IfOk result IsMade }
        ensures failed { IfErr result (IsFailure (codes "look") (path_of (string_bytes self.now.job.suffix) place.now)) }
    {
        let path = self.path(place)?;
        Ok(seen_at(place, look(rt, &path)?))
    }

    fn list_kept(&self, rt: &HostRuntime) -> Result<Answer, Fault>
        ensures made { IfOk result IsMade }
        ensures failed { IfErr result IsListTrouble }
    {
        let mut attempts = LinkedList::new(self.alloc);
        let entries = match fs::read_dir(rt, KEPT) {
            Ok(entries) => entries,
            Err(error) => return Err(Fault::of_call(self.alloc, "list", KEPT, error)),
        };
        for entry in entries {
            match entry {
                Ok(entry) => put_kept(rt, &mut attempts, entry.file_name())?,
                Err(error) => return Err(Fault::of_call(self.alloc, "list", KEPT, error)),
            }
        }
        Ok(Answer::Listed(attempts))
    }

    // Syncs a file that was handed in.
    #[tactic(auto, using(crate::proofs::Troubled::failed_sync))]
    fn sync_file(&mut self, rt: &HostRuntime, place: &Place) -> Result<Answer, Fault>
        ensures same { Keeps self.old self.new }
        ensures made { IfOk result IsMade }
        ensures failed { IfErr result IsSyncTrouble }
    {
        match self.sync_right(rt, place) {
            Ok(answer) => Ok(answer),
            Err(fault) => self.not_synced(fault),
        }
    }

    // Where the sync fails, its attempt has failed (`Failed`). Of another fault `trouble` tells, and the attempt lives on.
    fn not_synced(&mut self, fault: Fault) -> Result<Answer, Fault>
        ensures same { Keeps self.old self.new }
        ensures made { IfOk result IsMade }
        ensures failed { IfErr result (λ told. (told ≡ fault) × (is_failure_of (codes "sync") fault ≡ true)) }
    {
        if fault.is_of("sync") {
            return Err(fault);
        }
        self.trouble = Some(fault);
        Ok(Answer::Says(Reply::Odd))
    }

    #[tactic(auto, using(crate::proofs::Troubled::barred_sync, crate::proofs::Troubled::looked_sync, crate::proofs::Troubled::some_sync, crate::proofs::Troubled::call_sync, crate::proofs::Troubled::memory_sync, crate::proofs::Troubled::last_sync))]
    fn sync_right(&mut self, rt: &HostRuntime, place: &Place) -> Result<Answer, Fault>
        ensures same { Keeps self.old self.new }
        ensures made { IfOk result IsMade }
        ensures failed { IfErr result (IsSyncFault (path_of (string_bytes self.old.job.suffix) place.now) place.now) }
    {
        self.check_boot(rt, place)?;
        let path = self.path(place)?;
        let Some(named) = look_file(rt, &path)? else {
            return Ok(Answer::Says(Reply::Missing));
        };
        if self.is_synced(&named)? {
            return self.measured(rt, place, &named);
        }
        let file = open(rt, &path)?;
        let before = stat(rt, &file, &path)?;
        if !is_one(&named, &before) {
            return Ok(Answer::Says(Reply::Odd));
        }
        self.sync_still(rt, place, &file, &path, &before)
    }

    // Notes how long the file is that was handed in. One that was claimed before may have another length noted.
    #[tactic(auto, using(crate::proofs::Troubled::dropped_somewhere, crate::proofs::Troubled::fails_somewhere))]
    fn measured(&self, rt: &HostRuntime, place: &Place, found: &Metadata) -> Result<Answer, Fault>
        ensures made { IfOk result IsMade }
        ensures failed { IfErr result FailsSomewhere }
    {
        if let Place::Kept(a) = *place {
            if self.claimed != Some(a) {
                drop_lengths(rt, a)?;
            }
            note_length(rt, a, found.len())?;
        }
        Ok(done())
    }

    // Whether the file was synced before the lock was held, and is what it was.
    fn is_synced(&mut self, named: &Metadata) -> Result<bool, Fault>
        ensures same { Keeps self.old self.new }
        ensures failed { IfErr result FailsSomewhere }
    {
        match self.early.take() {
            Some(early) => early.is_still(self.alloc, named),
            None => Ok(false),
        }
    }

    #[tactic(auto, using(crate::proofs::Troubled::fails_somewhere))]
    fn sync_still(
        &self,
        rt: &HostRuntime,
        place: &Place,
        file: &File,
        path: &str,
        before: &Metadata,
    ) -> Result<Answer, Fault>
        ensures made { IfOk result IsMade }
        ensures failed { IfErr result FailsSomewhere }
    {
        sync(rt, file, path)?;
        let behind = stat(rt, file, path)?;
        if is_changed(before, &behind) {
            return Ok(Answer::Says(Reply::Grew));
        }
        self.measured(rt, place, &behind)
    }

    // Claims the file of an attempt, where no power cut came since that was begun.
    #[tactic(auto, using(crate::proofs::Troubled::memory_renamed, crate::proofs::Troubled::renamed))]
    fn rename(&mut self, rt: &HostRuntime, from: &Place, to: &Place) -> Result<Answer, Fault>
        ensures same { Keeps self.old self.new }
        ensures made { IfOk result IsMade }
        ensures failed { IfErr result (λ fault. IsBarred from.now fault ⊎ IsFailure (codes "rename") (path_of (string_bytes self.old.job.suffix) to.now) fault) }
    {
        self.check_boot(rt, from)?;
        self.claimed = kept_attempt(to).or(self.claimed);
        let from = self.path(from)?;
        let to = self.path(to)?;
        answered(
            rt,
            "rename",
            &to,
            fs::rename(rt, from.as_str(), to.as_str()),
        )
    }

    #[tactic(auto, using(crate::proofs::Troubled::linked))]
    fn link(&self, rt: &HostRuntime, from: &Place, to: &Place) -> Result<Answer, Fault>
        ensures made { IfOk result IsMade }
        ensures failed { IfErr result (IsFailure (codes "link") (path_of (string_bytes self.now.job.suffix) to.now)) }
    {
        let from = self.path(from)?;
        let to = self.path(to)?;
        answered(
            rt,
            "link",
            &to,
            fs::hard_link(rt, from.as_str(), to.as_str()),
        )
    }

    // Syncs a folder. Once the marker is durable, what attempts wrote is removed: where that fails, the next command does it
    // again.
    #[tactic(auto, using(crate::proofs::Troubled::synced_folder, crate::proofs::Troubled::cleared_folder))]
    fn sync_folder(&mut self, rt: &HostRuntime, folder: Folder) -> Result<Answer, Fault>
        ensures same { Keeps self.old self.new }
        ensures made { IfOk result IsMade }
        ensures failed { IfErr result (IsFolderTrouble folder) }
    {
        sync_folder(rt, folder_path(folder))?;
        if self.is_marked && folder == Folder::Output {
            return self.clear_work(rt);
        }
        Ok(done())
    }

    fn clear_work(&mut self, rt: &HostRuntime) -> Result<Answer, Fault>
        ensures same { Keeps self.old self.new }
        ensures made { IfOk result IsMade }
        ensures failed { IfErr result IsSweepTrouble }
    {
        self.is_marked = false;
        sweep(rt)?;
        Ok(done())
    }

    // Makes an empty file, and notes that the marker is there.
    fn mark(&mut self, rt: &HostRuntime, place: &Place) -> Result<Answer, Fault>
        ensures same { Keeps self.old self.new }
        ensures made { IfOk result IsMade }
        ensures failed { IfErr result (IsPathTrouble (path_of (string_bytes self.old.job.suffix) place.now)) }
    {
        let answer = self.create(rt, place)?;
        self.is_marked = self.is_marked || *place == Place::Marker;
        Ok(answer)
    }

    // Makes an empty file. One that is there already is taken; anything else there is foreign.
    #[tactic(auto, using(crate::proofs::Troubled::looked_path, crate::proofs::Troubled::failed_path, crate::proofs::Troubled::memory_path))]
    fn create(&self, rt: &HostRuntime, place: &Place) -> Result<Answer, Fault>
        ensures made { IfOk result IsMade }
        ensures failed { IfErr result (IsPathTrouble (path_of (string_bytes self.now.job.suffix) place.now)) }
    {
        let path = self.path(place)?;
        match File::create_new(rt, path.as_str()) {
            Ok(_) => Ok(done()),
            Err(error) if error.kind() == io::ErrorKind::AlreadyExists => {
                look_file(rt, &path)?;
                Ok(Answer::Says(Reply::Taken))
            }
            Err(error) => Err(Fault::of_call(self.alloc, "create", &path, error)),
        }
    }

    #[tactic(auto, using(crate::proofs::Troubled::removed, crate::proofs::Troubled::memory_remove))]
    fn remove(&self, rt: &HostRuntime, place: &Place) -> Result<Answer, Fault>
        ensures made { IfOk result IsMade }
        ensures failed { IfErr result (IsRemoveTrouble (path_of (string_bytes self.now.job.suffix) place.now) place.now) }
    {
        match *place {
            Place::Work(a) => self.remove_work(rt, a),
            Place::Home => answered(rt, "rename", HOME, fs::rename(rt, HOME, GONE)),
            _ => {
                let path = self.path(place)?;
                answered(rt, "remove", &path, fs::remove_file(rt, path.as_str()))
            }
        }
    }

    // Removes the folder of an attempt, with whatever else is there. What a writer puts there meanwhile is the attempt's
    // too: it does not count any more, and goes with the work folder.
    #[tactic(auto, using(crate::proofs::Troubled::looked_remove, crate::proofs::Troubled::folder_remove, crate::proofs::Troubled::note_remove, crate::proofs::Troubled::memory_remove))]
    fn remove_work(&self, rt: &HostRuntime, a: AttemptId) -> Result<Answer, Fault>
        ensures made { IfOk result IsMade }
        ensures failed { IfErr result (IsRemoveTrouble (path_of (string_bytes self.now.job.suffix) (Place.Work a)) (Place.Work a)) }
    {
        let path = self.path(&Place::Work(a))?;
        let there = look(rt, &path)?.is_some();
        let folder = work_folder(self.alloc, a)?;
        let removed = answered(rt, "remove", &folder, clear(rt, &folder))?;
        let note = boot_path(self.alloc, a)?;
        answered(rt, "remove", &note, fs::remove_file(rt, note.as_str()))?;
        if there {
            Ok(removed)
        } else {
            Ok(Answer::Says(Reply::Missing))
        }
    }

    // Makes the folder in which an attempt writes, and notes the boot in which that was.
    #[tactic(auto, using(crate::proofs::Troubled::noted_folder, crate::proofs::Troubled::memory_folder, crate::proofs::Troubled::made_folder))]
    fn make_folder(&self, rt: &HostRuntime, a: AttemptId) -> Result<Answer, Fault>
        ensures made { IfOk result IsMade }
        ensures failed { IfErr result (λ fault. IsFailure (codes "write") (boot_path a) fault ⊎ IsFailure (codes "create") (work_folder a) fault) }
    {
        let note = boot_path(self.alloc, a)?;
        note_boot(rt, &self.history, &note)?;
        let path = work_folder(self.alloc, a)?;
        if take_folder(rt, &path)? {
            return Ok(done());
        }
        answered(rt, "create", &path, fs::create_dir(rt, path.as_str()))
    }
}

fn early_of(rt: &HostRuntime, handing: Option<AttemptId>) -> Result<Option<Early>, Fault>
    ensures { IfErr result (λ fault. fault ≡ Fault.NoMemory) }
{
    match handing {
        Some(a) => sync_early(rt, a),
        None => Ok(None),
    }
}
