ghost use Rattle.std.specs.Prelude.{◌≡◌, ◌<◌, ℕ, None, Some, is_some, nat_eq, if◌then◌else◌};
ghost use Rattle.std.specs.Int.{bit_at};
ghost use Rattle.std.specs.Option.{option_map};

use crate::note::{Note, Struck};

/// The notes that sound on the keys of one channel. Bit k of each mask stands for key k.
#[derive(Drop)]
pub(crate) struct Keys {
    /// The keys on which a note sounds. The other masks count for these alone.
    sounding: u128,
    /// The keys that are down.
    down: u128,
    /// The keys whose note the sostenuto pedal holds.
    captured: u128,
    /// What was struck last on each key.
    struck: [Struck; 128],
}

impl Keys {
    ghost use Rattle.receiver.specs.Notes.{note_of, new_note, let_up, caught, freed, is_loose};

    /// Keys on which nothing sounds.
    pub fn new() -> Keys
        ensures { (k : ℕ) → note_of result k ≡ None }
    {
        Keys {
            sounding: 0,
            down: 0,
            captured: 0,
            struck: [Struck::default(); 128],
        }
    }

    /// The note that sounds on a key.
    pub fn note(&self, key: u8) -> Option<Note>
        requires { key < 128 }
        ensures { result ≡ note_of self.now key }
    {
        if self.sounding >> key & 1 == 0 {
            return None;
        }
        let struck = self.struck[key as usize];
        Some(Note {
            number: struck.number,
            onset: struck.onset,
            velocity: struck.velocity,
            voice: struck.voice,
            released: if self.down >> key & 1 == 0 {
                Some(struck.release)
            } else {
                None
            },
            captured: self.captured >> key & 1 == 1,
        })
    }

    /// Whether a note sounds on a key.
    pub fn is_sounding(&self, key: u8) -> bool
        requires { key < 128 }
        ensures { result ≡ is_some (note_of self.now key) }
    {
        self.sounding >> key & 1 == 1
    }

    /// The keys on which a note sounds.
    pub fn sounding(&self) -> u128
        ensures { (k : ℕ) → k < 128 → nat_eq (bit_at result k) 1 ≡ is_some (note_of self.now k) }
    {
        self.sounding
    }

    /// The keys whose note nothing but the hold pedal can hold: they are up, and not captured.
    pub fn loose(&self) -> u128
        ensures { (k : ℕ) → k < 128 → nat_eq (bit_at result k) 1 ≡ is_loose (note_of self.now k) }
    {
        self.sounding & !self.down & !self.captured
    }

    /// A key is struck.
    pub fn strike(&mut self, key: u8, struck: Struck)
        requires { key < 128 }
        ensures { (k : ℕ) → k < 128 → note_of self.new k
            ≡ (if nat_eq k key then Some (new_note struck) else note_of self.old k) }
    {
        let bit = 1u128 << key;
        self.struck[key as usize] = struck;
        self.sounding |= bit;
        self.down |= bit;
        self.captured &= !bit;
    }

    /// A key goes up, where it is down.
    pub fn release(&mut self, key: u8, tick: u32, velocity: u8)
        requires { key < 128 }
        ensures { (k : ℕ) → k < 128 → note_of self.new k
            ≡ (if nat_eq k key then option_map (let_up tick velocity) (note_of self.old k)
            else note_of self.old k) }
    {
        let bit = 1u128 << key;
        if self.down & bit != 0 {
            self.struck[key as usize].release = (tick, velocity);
            self.down &= !bit;
        }
    }

    /// All keys that are down go up.
    pub fn release_all(&mut self, tick: u32, velocity: u8)
        ensures { (k : ℕ) → k < 128 → note_of self.new k
            ≡ option_map (let_up tick velocity) (note_of self.old k) }
    {
        let mut rest = self.down;
        while rest != 0 {
            let key = rest.trailing_zeros();
            self.release(key as u8, tick, velocity);
            rest &= !(1u128 << key);
        }
    }

    /// The sostenuto pedal takes the notes whose keys are down.
    pub fn capture(&mut self)
        ensures { (k : ℕ) → k < 128 → note_of self.new k ≡ option_map caught (note_of self.old k) }
    {
        self.captured |= self.down;
    }

    /// The sostenuto pedal holds no note any more.
    pub fn free(&mut self)
        ensures { (k : ℕ) → k < 128 → note_of self.new k ≡ option_map freed (note_of self.old k) }
    {
        self.captured = 0;
    }

    /// The notes of these keys end.
    pub fn end(&mut self, which: u128)
        ensures { (k : ℕ) → k < 128 → note_of self.new k
            ≡ (if nat_eq (bit_at which k) 1 then None else note_of self.old k) }
    {
        self.sounding &= !which;
    }
}
