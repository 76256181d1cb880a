ghost use Rattle.std.specs.Prelude.{◌≡◌, ◌≤◌, ◌↔◌, length, Some, None, IfOk, IfSome, OnOk, OnErr, IsErrOf, vec_len};
ghost use Rattle.std.specs.FinMap as map;
ghost use Rattle.std.specs.Option.{option_copied};
ghost use Rattle.ob_base.specs.Folder.{GivesFile, Loads, CountsLoad};
ghost use Rattle.ob_base.specs.Memory.{NextFails, LoadFails, no_calls, after_call, after_fault};

use crate::schedule::Schedule;
use crate::{FileAnswer, Folder, NoMemory, Text};
use std::alloc::Global;
use std::collections::VecDeque;
use std::marker::Model;

/// Files in memory. A load fails by a list of numbers, and for a name that no file has.
#[derive(Drop)]
pub struct MemFolder {
    // The newest first: a file that was replaced stands behind the one in its place.
    files: VecDeque<(Text, Text)>,
    schedule: Schedule,
}

impl Model for MemFolder {
    ghost use Rattle.ob_base.specs.Memory.{FolderState, folder_code};

    ghost Value = { FolderState };

    ghost coded = { folder_code };

    ghost use Rattle.std.specs.FinMap as map;

    ghost view = { λ f. record { files = map.from_entries f.files.items; calls = f.schedule } };
}

impl MemFolder {
    /// A folder without files. The load with number i, from 0, raises the count of faults and fails
    /// exactly where i is in `fail`; any other fails only where no file has its name.
    pub fn new(alloc: Global, fail: &[u64]) -> Result<MemFolder, NoMemory>
        ensures { IfOk result (λ f. f ≡ record { files = map.empty; calls = no_calls fail.now }) }
    {
        Ok(MemFolder {
            files: VecDeque::new(alloc),
            schedule: Schedule::new(alloc, fail)?,
        })
    }

    /// Puts a file of this name into the folder, in the place of one that has the name.
    pub fn add(&mut self, name: &str, bytes: &[u8]) -> Result<(), NoMemory>
        ensures ok { OnOk result (self.new ≡ record self.old { files = map.insert self.old.files name.now bytes.now }) }
        ensures err { OnErr result (self.new ≡ self.old) }
    {
        let alloc = *self.files.allocator();
        let name = Text::from_vec(Vec::from_slice(alloc, name.as_bytes())?);
        let bytes = Text::from_vec(Vec::from_slice(alloc, bytes)?);
        self.files.push_front((name, bytes))?;
        Ok(())
    }

    fn find(&self, name: &str) -> Option<&Text>
        ensures { option_copied result ≡ map.get self.now.files name.now }
    {
        for (known, bytes) in &self.files {
            if name.as_bytes() == known.bytes() {
                return Some(bytes);
            }
        }
        None
    }
}

impl Folder for MemFolder {
    ghost files = { λ f. Some f.files };

    ghost faults = { λ f. f.calls.faults };

    /// Every load counts as a call, also where the answer is `NoMemory`, which comes only for a
    /// file within the limit.
    fn load(&mut self, alloc: Global, name: &str, limit: usize) -> Result<Vec<u8>, FileAnswer>
        ensures within { IfOk result (λ bytes. vec_len bytes ≤ limit) }
        ensures bytes { Loads (Some self.old.files) name.now limit result }
        ensures kept { Some self.new.files ≡ Some self.old.files }
        ensures cause { CountsLoad (Some self.old.files) name.now result self.old.calls.faults self.new.calls.faults }
        ensures fails { IsErrOf result FileAnswer.Failed ↔ LoadFails self.old name.now }
        ensures memory { IsErrOf result FileAnswer.NoMemory → IfSome (map.get self.old.files name.now) (λ bytes. length bytes ≤ limit) }
        ensures failed { NextFails self.old.calls → self.new ≡ record self.old { calls = after_fault self.old.calls } }
        ensures passed { ¬ NextFails self.old.calls → self.new ≡ record self.old { calls = after_call self.old.calls } }
    {
        if self.schedule.begin() {
            self.schedule.raise();
            return Err(FileAnswer::Failed);
        }
        match self.find(name) {
            None => Err(FileAnswer::Failed),
            Some(bytes) => copy_within(alloc, bytes.bytes(), limit),
        }
    }
}

fn copy_within(alloc: Global, bytes: &[u8], limit: usize) -> Result<Vec<u8>, FileAnswer>
    ensures within { IfOk result (λ copy. vec_len copy ≤ limit) }
    ensures given { GivesFile bytes.now limit result }
    ensures found { ¬ IsErrOf result FileAnswer.Failed }
    ensures memory { IsErrOf result FileAnswer.NoMemory → length bytes.now ≤ limit }
{
    if limit < bytes.len() {
        return Err(FileAnswer::Long);
    }
    Ok(Vec::from_slice(alloc, bytes)?)
}
