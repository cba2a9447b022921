ghost use Rattle.std.specs.Prelude.{◌≡◌, ◌≤◌, ◌<◌, ℕ, Some, None, length, true, replicate, slice_index, slice_set, if◌then◌else◌};
ghost use Rattle.midi_model.specs.Channel.{default_controls};
ghost use Rattle.receiver.specs.Params.{entries_of};
ghost use Rattle.receiver.specs.Kept.{is_canonical, are_others, are_low, are_low_pairs, only_stored};

use crate::param::Param;
use arrayvec::ArrayVec;
use midi_model::parameter_laws;
use tab::Tab;

/// The sound that a program message chose: both bytes of the bank, and the program.
#[derive(Clone, Copy, Debug, Default, PartialEq, Eq)]
pub struct Voice {
    pub bank_high: u8,
    pub bank_low: u8,
    pub program: u8,
}

/// The state of one channel. Its tables are over the same defaults in all states: those of the
/// controllers, and 0 for each key. Bytes are at most 127 and the bend at most 16,383.
#[derive(Drop)]
pub struct ChannelState {
    /// The controllers by number. Those that a channel keeps no value of (6, 38, 96 to 101) stay 0.
    pub controls: Tab<120>,
    /// The pressures of the keys.
    pub keys: Tab<128>,
    /// The registered parameters 0, 1, 2 and 5.
    pub fixed: [(u8, u8); 4],
    /// All other parameters that aren't at their defaults: the registered ones first, then by MSB
    /// and LSB.
    pub others: ArrayVec<Param, 16>,
    pub rpn: (u8, u8),
    pub nrpn: (u8, u8),
    /// Whether a registered parameter was selected last.
    pub registered: bool,
    pub tuning: Option<u8>,
    pub voice: Voice,
    pub bend: u16,
    pub pressure: u8,
    pub ghost controls_over: { controls.defaults ≡ default_controls },
    pub ghost keys_over: { keys.defaults ≡ replicate 128 0 },
    pub ghost ordered: { is_canonical (entries_of others.items) ≡ true },
    pub ghost others_fit: { are_others (entries_of others.items) ≡ true },
    pub ghost rpn_fits: { (rpn.0 ≤ 127) × (rpn.1 ≤ 127) },
    pub ghost nrpn_fits: { (nrpn.0 ≤ 127) × (nrpn.1 ≤ 127) },
    pub ghost only_stored: { only_stored 0 controls.items ≡ true },
    pub ghost controls_fit: { are_low controls.items ≡ true },
    pub ghost keys_fit: { are_low keys.items ≡ true },
    pub ghost fixed_fit: { are_low_pairs fixed ≡ true },
    pub ghost tuning_fits: { (v : ℕ) → tuning ≡ Some v → v ≤ 127 },
    pub ghost voice_fits: { (voice.bank_high ≤ 127) × (voice.bank_low ≤ 127) × (voice.program ≤ 127) },
    pub ghost bend_fits: { bend ≤ 16383 },
    pub ghost pressure_fits: { pressure ≤ 127 },
}

/// The defaults of the controllers.
const CONTROLS: [u8; 120] = [
    0, 0, 0, 0, 0, 0, 0, 100, 64, 0, 64, 127, 0, 0, 0, 0, 0, 0, 0, 0, 0, 0, 0, 0, 0, 0, 0, 0, 0, 0,
    0, 0, 0, 0, 0, 0, 0, 0, 0, 0, 0, 0, 0, 0, 0, 0, 0, 0, 0, 0, 0, 0, 0, 0, 0, 0, 0, 0, 0, 0, 0, 0,
    0, 0, 0, 0, 0, 0, 0, 0, 64, 64, 64, 64, 64, 64, 64, 64, 64, 64, 0, 0, 0, 0, 0, 0, 0, 0, 0, 0,
    0, 40, 0, 0, 0, 0, 0, 0, 0, 0, 0, 0, 0, 0, 0, 0, 0, 0, 0, 0, 0, 0, 0, 0, 0, 0, 0, 0, 0, 0,
];

impl ChannelState {
    ghost use Rattle.midi_model.specs.Channel.{default_channel, counted};
    ghost use Rattle.midi_model.specs.WellFormed.{IsWellFormed};
    ghost use Rattle.receiver.specs.Notes.{has};
    ghost use Rattle.receiver.specs.State.{own_of, state_of};

    /// A channel as it is at the start.
    pub fn new() -> ChannelState
        ensures own { own_of result ≡ default_channel }
        ensures keys { result.keys.items ≡ replicate 128 0 }
        ensures tuning { result.tuning ≡ None }
    {
        ChannelState {
            controls: Tab::new(CONTROLS),
            keys: Tab::new([0; 128]),
            fixed: [(2, 0), (64, 0), (64, 0), (0, 64)],
            others: ArrayVec::new(),
            rpn: (127, 127),
            nrpn: (127, 127),
            registered: true,
            tuning: None,
            voice: Voice::default(),
            bend: 8192,
            pressure: 0,
        }
    }

    /// The parameters in `others` once more.
    fn copied_others(&self) -> ArrayVec<Param, 16>
        ensures { result.items ≡ self.now.others.items }
    {
        let mut others = ArrayVec::new();
        for param in self.others.as_slice() {
            others.push(*param);
        }
        others
    }

    /// An equal state.
    pub fn copy(&self) -> ChannelState
        ensures state { state_of result ≡ state_of self.now }
        ensures own { own_of result ≡ own_of self.now }
        ensures controls { result.controls ≡ self.now.controls }
        ensures keys { result.keys ≡ self.now.keys }
        ensures fixed { result.fixed ≡ self.now.fixed }
        ensures others { result.others.items ≡ self.now.others.items }
        ensures tuning { result.tuning ≡ self.now.tuning }
    {
        ChannelState {
            controls: self.controls.copy(),
            keys: self.keys.copy(),
            fixed: self.fixed,
            others: self.copied_others(),
            rpn: self.rpn,
            nrpn: self.nrpn,
            registered: self.registered,
            tuning: self.tuning,
            voice: self.voice,
            bend: self.bend,
            pressure: self.pressure,
        }
    }

    /// Takes over all of another state but the pressures of the keys and the tuning program.
    pub fn take_over(&mut self, other: &ChannelState)
        ensures own { own_of self.new ≡ own_of other.now }
        ensures keys { self.new.keys ≡ self.old.keys }
        ensures tuning { self.new.tuning ≡ self.old.tuning }
    {
        self.controls.apply(&other.controls);
        self.fixed = other.fixed;
        self.others = other.copied_others();
        self.rpn = other.rpn;
        self.nrpn = other.nrpn;
        self.registered = other.registered;
        self.voice = other.voice;
        self.bend = other.bend;
        self.pressure = other.pressure;
    }

    /// Each state is one that a channel can be in, and at most 16 of its parameters count. The
    /// function does nothing: its contract is what is stated.
    pub fn well_formed(&self)
        ensures formed { IsWellFormed (state_of self.now) }
        ensures few { counted (own_of self.now) ≤ 16 }
    {
        parameter_laws();
        let _controls = self.controls.len();
        let _keys = self.keys.len();
        let _others = self.others.len();
    }

    /// The pressure of a key.
    pub fn press(&mut self, key: u8, value: u8)
        requires key { key < 128 }
        requires value { value ≤ 127 }
        ensures own { own_of self.new ≡ own_of self.old }
        ensures keys { self.new.keys.items ≡ slice_set self.old.keys.items key value }
        ensures length { length self.new.keys.items ≡ 128 }
        ensures tuning { self.new.tuning ≡ self.old.tuning }
    {
        self.keys.set(key as usize, value);
    }

    /// The pressures of these keys are 0. Bit k of the mask stands for key k.
    pub fn relax(&mut self, which: u128)
        ensures own { own_of self.new ≡ own_of self.old }
        ensures keys { (k : ℕ) → k < 128 → slice_index self.new.keys.items k
            ≡ (if has which k then 0 else slice_index self.old.keys.items k) }
        ensures tuning { self.new.tuning ≡ self.old.tuning }
    {
        self.keys.reset(which);
    }

    /// The bend of the channel, 0 to 16,383.
    pub fn set_bend(&mut self, value: u16)
        requires { value ≤ 16383 }
        ensures own { own_of self.new ≡ record (own_of self.old) { bend = value } }
        ensures keys { self.new.keys ≡ self.old.keys }
        ensures tuning { self.new.tuning ≡ self.old.tuning }
    {
        self.bend = value;
    }

    /// No tuning program is selected.
    pub fn untune(&mut self)
        ensures own { own_of self.new ≡ own_of self.old }
        ensures keys { self.new.keys ≡ self.old.keys }
        ensures tuning { self.new.tuning ≡ None }
    {
        self.tuning = None;
    }
}
