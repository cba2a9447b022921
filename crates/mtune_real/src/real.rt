use crate::reading::read_whole;
use crate::storing::store;
use crate::writing::say_all;
use mtune_files::{Counts, Files, LoadFault, SayFailed, StoreFailed, Which};
use std::alloc::Global;
use std::fs;

/// The files of the system, and its standard output: nothing is told of what they hold.
#[derive(Drop)]
pub struct RealFiles {
    rt: HostRuntime,
    faults: Counts,
    calls: Counts,
}

impl RealFiles {
    ghost use Rattle.std.specs.Prelude.{◌≡◌};
    ghost use Rattle.mtune_real.specs.Real.{outside_of, nothing_told};

    /// No call was made yet.
    pub fn new(rt: HostRuntime) -> RealFiles
        ensures { outside_of result ≡ nothing_told }
    {
        RealFiles {
            rt,
            faults: Counts::new(),
            calls: Counts::new(),
        }
    }
}

impl Files for RealFiles {
    ghost use Rattle.mtune_real.specs.Real.{outside_of};

    ghost outside = { outside_of };

    fn load(
        &mut self,
        alloc: Global,
        which: Which,
        name: &str,
        limit: u32,
    ) -> Result<Vec<u8>, LoadFault> {
        self.calls.add_load(which);
        let loaded = match fs::open(&self.rt, name) {
            Ok(mut file) => read_whole(alloc, &mut file, limit),
            Err(_) => Err(LoadFault::Failed),
        };
        if matches!(loaded, Err(LoadFault::Failed)) {
            self.faults.add_load(which);
        }
        loaded
    }

    fn store(&mut self, name: &str, content: &[u8]) -> Result<(), StoreFailed> {
        self.calls.add_store();
        if store(&self.rt, name, content).unwrap_or(false) {
            return Ok(());
        }
        self.faults.add_store();
        Err(StoreFailed)
    }

    fn say(&mut self, text: &[u8]) -> Result<(), SayFailed> {
        self.calls.add_say();
        if say_all(&mut self.rt.stdout(), text) {
            return Ok(());
        }
        self.faults.add_say();
        Err(SayFailed)
    }
}
