ghost use Rattle.std.specs.Prelude.{◌≡◌, ◌<◌, ◌≤◌, ℕ, None, replicate, false, nat_eq, ◌&&◌, if◌then◌else◌};

use mt_base::What;
use mts_msg::{Tuning, is_reset, read_tuning};

/// The tuning programs: by 128 * program + key the value of the key, in steps of 1/16384 semitone
/// above key 0.
#[derive(Drop)]
pub(crate) struct Tunings {
    values: [Option<u32>; 16384],
    /// Whether some value was set since all were cleared.
    is_set: bool,
    pub ghost cleared: { is_set ≡ false → values ≡ replicate 16384 None },
}

impl Tunings {
    ghost use Rattle.std.specs.List.{AllByRecursion};
    ghost use Rattle.mt_base.specs.Midi.{SysexOf, view_what};
    ghost use Rattle.midi_model.specs.Sysex.{doing};
    ghost use Rattle.midi_model.specs.Tuning.{renew};
    ghost use Rattle.midi_model.specs.TuningBytes.{numbered};
    ghost use Rattle.mts_msg.specs.Readings.{retune_of, IsInRange};
    ghost use Rattle.receiver.specs.Tunings.{value_in, Retunes, HearsBy};

    /// No program holds a value.
    pub fn new() -> Tunings
        ensures { (p k : ℕ) → value_in result p k ≡ None }
    {
        Tunings {
            values: [None; 16384],
            is_set: false,
        }
    }

    /// The value of a key in a program.
    pub fn value(&self, program: u8, key: u8) -> Option<u32>
        requires program { program < 128 }
        requires key { key < 128 }
        ensures { result ≡ value_in self.now program key }
    {
        self.values[128 * program as usize + key as usize]
    }

    /// A key gets a value; where there is none it stays as it was.
    fn set(&mut self, program: u8, key: u8, value: Option<u32>)
        requires program { program < 128 }
        requires key { key < 128 }
        ensures { (p k : ℕ) → p < 128 → k < 128 → value_in self.new p k
            ≡ (if nat_eq p program && nat_eq k key then renew value (value_in self.old p k)
            else value_in self.old p k) }
    {
        if value.is_some() {
            self.is_set = true;
            self.values[128 * program as usize + key as usize] = value;
        }
    }

    /// The values of all keys of a program, from key 0 on.
    fn fill(&mut self, program: u8, values: &[Option<u32>; 128])
        requires { program < 128 }
        ensures { Retunes program (numbered 0 values.now) self.old self.new }
    {
        for key in 0..128u8 {
            self.set(program, key, values[key as usize]);
        }
    }

    /// Some keys of a program with their values, in this order.
    fn change(&mut self, program: u8, list: &[(u8, Option<u32>)])
        requires program { program < 128 }
        requires keys { AllByRecursion (λ x. x.0 ≤ 127) list.now }
        ensures { Retunes program list.now self.old self.new }
    {
        for change in list {
            self.set(program, change.0, change.1);
        }
    }

    /// A tuning message.
    fn take(&mut self, tuning: &Tuning)
        requires { IsInRange (retune_of tuning.now) }
        ensures { Retunes (retune_of tuning.now).program (retune_of tuning.now).keys
            self.old self.new }
    {
        match tuning {
            Tuning::Dump { program, values } => self.fill(*program, values),
            Tuning::Changes { program, list } => self.change(*program, list.as_slice()),
        }
    }

    /// No program holds a value any more.
    fn clear(&mut self)
        ensures { (p k : ℕ) → value_in self.new p k ≡ None }
    {
        if self.is_set {
            self.values = [None; 16384];
            self.is_set = false;
        }
    }

    /// A system exclusive message by its bytes after F0: a reset, a tuning, or nothing.
    fn system(&mut self, bytes: &[u8])
        ensures { HearsBy (doing (SysexOf 240 bytes.now)) self.old self.new }
    {
        if is_reset(bytes) {
            self.clear();
        } else if let Some(tuning) = read_tuning(bytes) {
            self.take(&tuning);
        }
    }

    /// What an event does.
    pub fn hear(&mut self, what: &What<'_>)
        ensures { HearsBy (doing (view_what what.now)) self.old self.new }
    {
        match *what {
            What::Sysex { lead, bytes } => {
                if lead == 0xf0 {
                    self.system(bytes);
                }
            }
            What::Message(_) | What::Meta { .. } => {}
        }
    }
}
