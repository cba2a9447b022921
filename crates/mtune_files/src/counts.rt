ghost use Rattle.std.specs.Prelude.{◌≡◌, ◌<◌, get_or};
ghost use Rattle.mtune_files.specs.Counts.{no_calls, one_load, one_store, one_say, in_order, next_call};

use crate::which::Which;

/// How many calls of each kind there were. A count stays at its last value.
#[derive(Clone, Copy, Debug, PartialEq, Eq)]
pub struct Counts {
    pub scale: u64,
    pub map: u64,
    pub input: u64,
    pub stores: u64,
    pub says: u64,
}

impl Counts {
    /// Of no calls.
    pub fn new() -> Counts
        ensures { result ≡ no_calls }
    {
        Counts {
            scale: 0,
            map: 0,
            input: 0,
            stores: 0,
            says: 0,
        }
    }

    /// Counts a load.
    pub fn add_load(&mut self, which: Which)
        ensures { self.new ≡ one_load which self.old }
    {
        match which {
            Which::Scale => self.scale = self.scale.saturating_add(1),
            Which::Map => self.map = self.map.saturating_add(1),
            Which::Input => self.input = self.input.saturating_add(1),
        }
    }

    /// Counts a store.
    pub fn add_store(&mut self)
        ensures { self.new ≡ one_store self.old }
    {
        self.stores = self.stores.saturating_add(1);
    }

    /// Counts a say.
    pub fn add_say(&mut self)
        ensures { self.new ≡ one_say self.old }
    {
        self.says = self.says.saturating_add(1);
    }

    /// The count of a kind: 0 to 2 are loads of the scale, of the mapping and of the input, 3 are
    /// stores, 4 are says.
    pub fn at(&self, kind: usize) -> u64
        requires { kind < 5 }
        ensures { result ≡ get_or (in_order self.now) kind 0 }
    {
        match kind {
            0 => self.scale,
            1 => self.map,
            2 => self.input,
            3 => self.stores,
            _ => self.says,
        }
    }

    /// The number of the next call, counted from 1 over calls of all kinds.
    pub fn next_call(&self) -> u128
        ensures { result ≡ next_call self.now }
    {
        u128::from(self.scale)
            + u128::from(self.map)
            + u128::from(self.input)
            + u128::from(self.stores)
            + u128::from(self.says)
            + 1
    }
}
