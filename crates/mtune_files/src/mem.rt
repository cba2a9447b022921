ghost use Rattle.std.specs.Prelude.{◌≡◌, ◌∷◌, ◌↔◌, ◌≤◌, ◌<◌, OnOk, OnErr, IfOk, IsErrOf, IsNone, [], false, length, take, get_or};
ghost use Rattle.mtune_files.specs.Counts.{in_order};
ghost use Rattle.mtune_files.specs.Names.{content_at, stored, appended};
ghost use Rattle.mtune_files.specs.Outside.{IsHeld, IsLongerThan, IsWithin, MayFail, after_load, after_failed_load, after_store, AfterFailedStore, after_say, AfterFailedSay};

use crate::counts::Counts;
use crate::files::{Files, LoadFault, SayFailed, StoreFailed};
use crate::which::Which;
use mt_base::Memory;
use std::alloc::Global;
use std::collections::VecDeque;

/// A name and its content.
#[derive(Drop)]
pub struct Entry {
    pub name: Vec<u8>,
    pub content: Vec<u8>,
}

/// A call that is to fail, by its number, and after how many bytes.
#[derive(Clone, Copy, Debug)]
pub struct Failure {
    pub call: u32,
    pub bytes: u32,
}

/// Files in memory, which tell all that they hold and all that was said.
///
/// Calls of `load`, `store` and `say` are counted from 1 on; those that are set to fail do. A name
/// that isn't held, and want of memory in `store` or `say`, are failures of that call too.
#[derive(Drop)]
pub struct MemFiles {
    alloc: Global,
    // the newest first
    entries: VecDeque<Entry>,
    told: Vec<u8>,
    faults: Counts,
    calls: Counts,
    // the newest first
    failing: VecDeque<Failure>,
}

/// The first bytes, at most so many.
fn front(bytes: &[u8], most: u32) -> &[u8]
    ensures { result.now ≡ take most bytes.now }
{
    if bytes.len() > most as usize {
        &bytes[..most as usize]
    } else {
        bytes
    }
}

impl MemFiles {
    ghost use Rattle.mtune_files.specs.Counts.{no_calls};
    ghost use Rattle.mtune_files.specs.Mem.{names_of, outside_of, settings_of, next_failure};
    ghost use Rattle.mtune_files.specs.Names.{no_names};
    ghost use Rattle.std.specs.Option.{option_map};

    /// Nothing is held, nothing was said, no call was made, and none is set to fail.
    pub fn new(alloc: Global) -> MemFiles
        ensures held { (outside_of result).held ≡ Some no_names }
        ensures said { (outside_of result).said ≡ Some [] }
        ensures faults { (outside_of result).faults ≡ no_calls }
        ensures calls { (outside_of result).calls ≡ no_calls }
        ensures settings { settings_of result ≡ [] }
    {
        MemFiles {
            alloc,
            entries: VecDeque::new(alloc),
            told: Vec::new(alloc),
            faults: Counts::new(),
            calls: Counts::new(),
            failing: VecDeque::new(alloc),
        }
    }

    /// Holds a content under a name, in place of what was held there.
    pub fn add(&mut self, name: &str, content: &[u8]) -> Result<(), Memory>
        ensures added { OnOk result (outside_of self.new ≡ record (outside_of self.old)
            { held = stored (outside_of self.old).held name.now content.now }) }
        ensures unchanged { OnErr result (outside_of self.new ≡ outside_of self.old) }
        ensures settings { settings_of self.new ≡ settings_of self.old }
    {
        let name = name.as_bytes().to_vec(self.alloc)?;
        let content = content.to_vec(self.alloc)?;
        self.entries.push_front(Entry { name, content })?;
        Ok(())
    }

    /// Makes the call of this number fail after no byte: a load gives nothing then, a store leaves an
    /// empty content at the name, and a say says nothing.
    pub fn fail(&mut self, call: u32) -> Result<(), Memory>
        ensures set { OnOk result (settings_of self.new ≡ (call, 0) ∷ settings_of self.old) }
        ensures steady { OnOk result (outside_of self.new ≡ record (outside_of self.old)
            { steady = false }) }
        ensures unchanged { OnErr result (outside_of self.new ≡ outside_of self.old) }
        ensures settings { OnErr result (settings_of self.new ≡ settings_of self.old) }
    {
        self.fail_after(call, 0)
    }

    /// Makes the call of this number fail after so many bytes: a store then holds the first of the
    /// content, a say says the first of the text, and a load gives none. Of several settings for one
    /// call the last counts.
    pub fn fail_after(&mut self, call: u32, bytes: u32) -> Result<(), Memory>
        ensures set { OnOk result (settings_of self.new ≡ (call, bytes) ∷ settings_of self.old) }
        ensures steady { OnOk result (outside_of self.new ≡ record (outside_of self.old)
            { steady = false }) }
        ensures unchanged { OnErr result (outside_of self.new ≡ outside_of self.old) }
        ensures settings { OnErr result (settings_of self.new ≡ settings_of self.old) }
    {
        self.failing.push_front(Failure { call, bytes })?;
        Ok(())
    }

    /// What is held at the name.
    pub fn content(&self, name: &str) -> Option<&[u8]>
        ensures { option_map (λ c. c.now) result ≡ content_at (names_of self.now) name.now }
    {
        for entry in &self.entries {
            if name.as_bytes().cmp(entry.name.as_slice()).is_eq() {
                return Some(entry.content.as_slice());
            }
        }
        None
    }

    /// What was said.
    pub fn text(&self) -> &[u8]
        ensures { Some result.now ≡ (outside_of self.now).said }
    {
        self.told.as_slice()
    }

    /// How often calls of a kind failed: 0 to 2 are loads of the scale, of the mapping and of the
    /// input, 3 are stores, 4 are says.
    pub fn count(&self, kind: usize) -> u64
        requires { kind < 5 }
        ensures { result ≡ get_or (in_order (outside_of self.now).faults) kind 0 }
    {
        self.faults.at(kind)
    }

    /// After how many bytes the next call fails, where it is set to fail.
    fn next_failure(&self) -> Option<u32>
        ensures { result ≡ next_failure self.now }
    {
        let call = self.calls.next_call();
        for failure in &self.failing {
            if u128::from(failure.call) == call {
                return Some(failure.bytes);
            }
        }
        None
    }
}

impl Files for MemFiles {
    ghost use Rattle.mtune_files.specs.Mem.{names_of, outside_of, next_failure, FailsToLoad, Leaves};

    ghost outside = { outside_of };

    fn load(
        &mut self,
        alloc: Global,
        which: Which,
        name: &str,
        limit: u32,
    ) -> Result<Vec<u8>, LoadFault>
        ensures content { IfOk result (λ v. IsHeld (outside_of self.old) name.now v.items) }
        ensures short { IfOk result (λ v. length v.items ≤ limit) }
        ensures too_long { IsErrOf result LoadFault.TooLong
            → IsLongerThan (outside_of self.old) name.now limit }
        ensures memory { IsErrOf result LoadFault.Memory
            → IsWithin (outside_of self.old) name.now limit }
        ensures may_fail { IsErrOf result LoadFault.Failed
            → MayFail (outside_of self.old) name.now }
        ensures failed { IsErrOf result LoadFault.Failed
            → outside_of self.new ≡ after_failed_load which (outside_of self.old) }
        ensures loaded { ¬ IsErrOf result LoadFault.Failed
            → outside_of self.new ≡ after_load which (outside_of self.old) }
        // A load fails exactly where it is set to, or the name isn't held.
        ensures fails { IsErrOf result LoadFault.Failed ↔ FailsToLoad self.old name.now }
    {
        let failure = self.next_failure();
        self.calls.add_load(which);
        if failure.is_some() {
            self.faults.add_load(which);
            return Err(LoadFault::Failed);
        }
        let Some(content) = self.content(name) else {
            self.faults.add_load(which);
            return Err(LoadFault::Failed);
        };
        if content.len() > limit as usize {
            return Err(LoadFault::TooLong);
        }
        content.to_vec(alloc).map_err(|_| LoadFault::Memory)
    }

    fn store(&mut self, name: &str, content: &[u8]) -> Result<(), StoreFailed>
        ensures stored { OnOk result
            (outside_of self.new ≡ after_store name.now content.now (outside_of self.old)) }
        ensures failed { OnErr result
            (AfterFailedStore name.now (outside_of self.old) (outside_of self.new)) }
        ensures set { OnOk result (IsNone (next_failure self.old)) }
        ensures left { OnErr result (Leaves (next_failure self.old)
            (λ bytes. stored (outside_of self.old).held name.now (take bytes content.now))
            (outside_of self.old).held (outside_of self.new).held) }
    {
        let failure = self.next_failure();
        self.calls.add_store();
        if let Some(bytes) = failure {
            self.faults.add_store();
            let _ = self.add(name, front(content, bytes));
            return Err(StoreFailed);
        }
        if self.add(name, content).is_err() {
            self.faults.add_store();
            return Err(StoreFailed);
        }
        Ok(())
    }

    fn say(&mut self, text: &[u8]) -> Result<(), SayFailed>
        ensures said { OnOk result
            (outside_of self.new ≡ after_say text.now (outside_of self.old)) }
        ensures failed { OnErr result
            (AfterFailedSay text.now (outside_of self.old) (outside_of self.new)) }
        ensures set { OnOk result (IsNone (next_failure self.old)) }
        ensures left { OnErr result (Leaves (next_failure self.old)
            (λ bytes. appended (outside_of self.old).said (take bytes text.now))
            (outside_of self.old).said (outside_of self.new).said) }
    {
        let failure = self.next_failure();
        self.calls.add_say();
        if let Some(bytes) = failure {
            self.faults.add_say();
            let _ = self.told.extend_from_slice(front(text, bytes));
            return Err(SayFailed);
        }
        if self.told.extend_from_slice(text).is_err() {
            self.faults.add_say();
            return Err(SayFailed);
        }
        Ok(())
    }
}
