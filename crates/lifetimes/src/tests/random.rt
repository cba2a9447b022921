use super::cases::table;
use super::slow::{Saved, Slow, SlowNote, steps_of};
use super::*;
use mt_base::Memory;

/// Two keys of each octave share a pitch, and one has none.
const SCALE: &[u8] =
    b"uneven\n12\n90.0\n204.0\n204.0\n386.3\n470.0\n590.0\n702.0\n814.0\n884.0\n1018.0\n1088.0\n2/1\n";

const MAPPING: &[u8] = b"12\n0\n127\n60\n69\n440.0\n12\n0\n1\n2\n3\n4\n5\n6\n7\n8\n9\n10\nx\n";

const KEYS: [u8; 6] = [60, 61, 62, 63, 65, 71];

const RESET: &[u8] = b"\x7e\x7f\x09\x01\xf7";

#[derive(Drop)]
struct Dice {
    state: u64,
}

impl Dice {
    fn roll(&mut self, sides: u16) -> u16 {
        self.state = self
            .state
            .wrapping_mul(6_364_136_223_846_793_005)
            .wrapping_add(1_442_695_040_888_963_407);
        let rolled = (self.state >> 33).checked_rem(sides as u64);
        u16::try_from(rolled.unwrap_or(0)).unwrap_or(0)
    }

    fn pick(&mut self, values: &[u8]) -> u8 {
        let sides = u16::try_from(values.len()).unwrap_or(0);
        let place = self.roll(sides) as usize;
        values.get(place).copied().unwrap_or(0)
    }

    /// For how many ticks nothing comes: half of the time for none.
    fn wait(&mut self) -> u32 {
        let ticks = self.roll(40) as u32;
        if self.roll(2) == 0 { 0 } else { ticks }
    }

    fn said(&mut self) -> Said {
        let channel = self.pick(&[0, 0, 0, 0, 1, 1, 9]);
        let key = self.pick(&KEYS);
        let value = self.pick(&[0, 0, 1, 2, 24, 63, 64, 127]);
        match self.roll(20) {
            0..=6 => Said::On(channel, key),
            7..=10 => Said::Off(channel, key),
            11 => Said::Turn(channel, 64, value),
            12 => Said::Turn(channel, 66, value),
            13 => {
                let number = self.pick(&[120, 121, 122, 123, 124, 127, 125, 96, 121, 1]);
                Said::Turn(channel, number, value)
            }
            14 => Said::Turn(
                channel,
                self.pick(&[101, 100]),
                self.pick(&[0, 0, 0, 0, 3, 6]),
            ),
            15 => Said::Turn(channel, self.pick(&[6, 6, 38]), value),
            16 | 17 => {
                let bend = self.roll(16384);
                Said::Wheel(channel, self.wheel(bend))
            }
            18 => Said::Press(channel, key, value),
            _ => {
                if self.roll(6) == 0 {
                    Said::Sysex(RESET)
                } else {
                    Said::Program(channel, value)
                }
            }
        }
    }

    fn wheel(&mut self, bend: u16) -> u16 {
        match self.roll(4) {
            0 => 0,
            1 => 16383,
            2 => 8192,
            _ => bend,
        }
    }
}

/// The fault that the definitions give for an event, once the slow parts have taken it.
fn fault_of(before: Option<SourceKind>, after: &Slow, port: u8, said: Said) -> Option<SourceKind> {
    let channel = match said {
        Said::On(channel, _) | Said::Turn(channel, ..) | Said::Wheel(channel, _) => channel,
        _ => return before,
    };
    let is_first = match before {
        Some(SourceKind::UnmappedKey | SourceKind::KeyOutOfDevice | SourceKind::Unison) => true,
        _ => false,
    };
    if is_first || after.options.route != Route::Bend || !after.retunes(channel) {
        return before;
    }
    match after.beyond(port, channel, after.tick) {
        Some((steps, moved)) => Some(SourceKind::BendTooFar {
            steps,
            moved: i32::try_from(moved).unwrap_or(0),
        }),
        None => before,
    }
}

/// The same by the event alone and what was before it.
fn fault_before(slow: &Slow, port: u8, tick: u32, said: Said) -> Option<SourceKind> {
    match said {
        Said::On(channel, key) if slow.retunes(channel) => {
            slow.strike_fault(port, tick, channel, key)
        }
        Said::Turn(channel, number, _) if slow.retunes(channel) => {
            slow.turn_fault(port, channel, number)
        }
        Said::Press(channel, ..) if slow.retunes(channel) && slow.options.route == Route::Mpe => {
            Some(SourceKind::PolyInMpe)
        }
        _ => None,
    }
}

/// The note that sounds on a key.
fn note_on(slow: &Slow, port: u8, channel: u8, key: u8) -> Option<SlowNote> {
    for note in slow.notes.iter() {
        if note.port == port && note.channel == channel && note.key == key && note.ended.is_none() {
            return Some(*note);
        }
    }
    None
}

/// A pair, where there is such a channel.
fn pair_of(port: u8, channel: u8, steps: i32) -> Option<Pair> {
    let channel = Channel::new(channel)?;
    Some(Pair {
        part: Part { port, channel },
        steps,
    })
}

/// Whether what sounds on a key is told as it is.
fn is_told<T: Aims>(parts: &Parts<T>, slow: &Slow, port: u8, channel: u8, key: u8) -> bool {
    let Some(pair) = pair_of(port, channel, 0) else {
        return false;
    };
    if key > 127 {
        return false;
    }
    let found = parts.sounding(pair.part, key);
    match (found, note_on(slow, port, channel, key)) {
        (Some((begun, is_down)), Some(note)) => {
            begun.note == note.number
                && begun.target == note.aim
                && begun.pair.steps == steps_of(note.aim)
                && is_down != note.released
        }
        (None, None) => true,
        _ => false,
    }
}

/// Whether a pair sounds, and whether it holds.
fn does_sound(slow: &Slow, port: u8, channel: u8, steps: i32) -> (bool, bool) {
    let mut sounds = false;
    let mut holds = false;
    for note in slow.notes.iter() {
        if note.port == port && note.channel == channel && steps_of(note.aim) == steps {
            sounds |= note.ended.is_none();
            holds |= slow.does_hold(note, slow.tick);
        }
    }
    (sounds, holds)
}

/// The pressures of the target keys of a pair's notes that sound.
fn pressures(slow: &Slow, port: u8, channel: u8, wanted: i32) -> [u8; 128] {
    let mut keys = [0u8; 128];
    for note in slow.notes.iter() {
        if note.port == port && note.channel == channel && note.ended.is_none() {
            if let Aim::Bend { key, steps } = note.aim {
                if steps == wanted {
                    if let Some(place) = keys.get_mut(key as usize) {
                        *place = note.pressure;
                    }
                }
            }
        }
    }
    keys
}

/// Whether the wanted state of a pair is the one of the definitions, as far as it is looked at.
fn is_wanted<T: Aims>(parts: &Parts<T>, slow: &Slow, port: u8, channel: u8, steps: i32) -> bool {
    let options = parts.options();
    let Some(own) = Channel::new(channel) else {
        return false;
    };
    if !options.route.bends() || !options.retunes(own) {
        return false;
    }
    let part = Part { port, channel: own };
    let state = parts.wanted(&Pair { part, steps });
    let keys = pressures(slow, port, channel, steps);
    let mut are_same = true;
    for key in 0..128usize {
        are_same &= keys.get(key).copied() == Some(state.keys.get(key));
    }
    let bend = (8192 + steps as i64)
        .saturating_add(slow.moved(port, channel))
        .clamp(0, 16383);
    are_same
        && state.bend as i64 == bend
        && state.fixed.first() == Some(&(slow.options.range, 0))
        && state.tuning.is_none()
        && state.controls.get(64) == slow.channel(port, channel).hold
}

/// Whether all questions about a pair are answered as by the slow parts.
fn is_pair_told<T: Aims>(parts: &Parts<T>, slow: &Slow, port: u8, channel: u8, steps: i32) -> bool {
    let Some(pair) = pair_of(port, channel, steps) else {
        return false;
    };
    let told = (parts.sounds(&pair), parts.holds(&pair));
    if told != does_sound(slow, port, channel, steps) {
        return false;
    }
    slow.options.route != Route::Bend
        || !slow.retunes(channel)
        || is_wanted(parts, slow, port, channel, steps)
}

/// Whether all questions about a part are answered as by the slow parts.
fn is_part_told<T: Aims>(parts: &Parts<T>, slow: &Slow, port: u8, channel: u8) -> bool {
    for key in KEYS {
        let steps = steps_of(slow.aim(key, slow.tick));
        if !is_told(parts, slow, port, channel, key)
            || !is_pair_told(parts, slow, port, channel, steps)
        {
            return false;
        }
    }
    true
}

/// How often each kind came, and how many events were taken.
#[derive(Clone, Copy, Debug)]
struct Tally {
    kinds: [u32; 13],
    taken: u32,
}

/// Whether a change is the one from the notes before to those after it.
fn is_change(change: &Change, before: &Saved, after: &Slow, port: u8) -> bool {
    change.begun.is_some() == (after.begun != before.begun)
        && change.port == port
        && are_told_ends(change, before.notes.as_slice(), after)
}

/// Takes one event by both, and tells whether they agree in what it does.
fn turn<T: Aims>(
    alloc: Global,
    parts: &mut Parts<T>,
    slow: &mut Slow,
    dice: &mut Dice,
    tally: &mut Tally,
) -> Result<bool, Memory> {
    let said = dice.said();
    let tick = slow.tick.saturating_add(dice.wait());
    let port = dice.pick(&[0, 1]);
    let saved = slow.saved(alloc)?;
    let before = fault_before(slow, port, tick, said);
    slow.take(port, tick, &said)?;
    let wanted = fault_of(before, slow, port, said);
    match take(parts, tick, port as u16, &said) {
        Some(Ok(change)) => {
            tally.taken = tally.taken.saturating_add(1);
            Ok(wanted.is_none() && is_change(&change, &saved, slow, port))
        }
        Some(Err(fault)) => {
            count_kind(tally, fault.kind);
            slow.restore(saved);
            Ok(wanted == Some(fault.kind))
        }
        None => Ok(false),
    }
}

const NAMED: [Turn; 2] = [
    (0, 0, Said::Meta(0x21, b"\x00"), Answer::Ends(&[])),
    (0, 1, Said::Meta(0x21, b"\x01"), Answer::Ends(&[])),
];

/// Takes so many events by both, and asks both about a part after each; whether they agree.
fn turns<T: Aims>(
    alloc: Global,
    parts: &mut Parts<T>,
    slow: &mut Slow,
    seed: u64,
    count: u32,
    tally: &mut Tally,
) -> Result<bool, Memory> {
    let mut dice = Dice { state: seed };
    if first_other(parts, &NAMED) != 0 {
        return Ok(false);
    }
    for _ in 0..count {
        if !turn(alloc, parts, slow, &mut dice, tally)? {
            return Ok(false);
        }
        let port = dice.pick(&[0, 1]);
        let channel = dice.pick(&[0, 0, 1, 9]);
        if !is_part_told(parts, slow, port, channel) {
            return Ok(false);
        }
    }
    Ok(true)
}

/// Whether the parts and the slow ones agree over so many events.
fn agree(
    alloc: Global,
    seed: u64,
    options: Options,
    count: u32,
    tally: &mut Tally,
) -> Result<bool, Memory> {
    let Some(keys) = table(alloc, SCALE, MAPPING) else {
        return Ok(false);
    };
    if !may_ask(options) {
        return Ok(false);
    }
    let mut slow = Slow::new(alloc, keys, options);
    let mut parts = Parts::new(alloc, keys, options);
    turns(alloc, &mut parts, &mut slow, seed, count, tally)
}

/// Whether the notes that are told to have ended are those that did.
fn are_told_ends(change: &Change, before: &[SlowNote], slow: &Slow) -> bool {
    let mut keys = [0u128; 16];
    for (place, note) in before.iter().enumerate() {
        let ended = match slow.notes.as_slice().get(place) {
            Some(now) => note.ended.is_none() && now.ended.is_some(),
            None => false,
        };
        if ended {
            if let Some(mask) = keys.get_mut(note.channel as usize) {
                *mask |= 1u128.wrapping_shl(note.key as u32);
            }
        }
    }
    change.ended.keys == keys
}

fn count_kind(tally: &mut Tally, kind: SourceKind) {
    let number = match kind {
        SourceKind::UnmappedKey => 1,
        SourceKind::Unison => 3,
        SourceKind::BendTooFar { .. } => 4,
        SourceKind::ModeMessage => 5,
        SourceKind::DataStep => 6,
        SourceKind::TuningInSource => 7,
        SourceKind::MpeSource => 8,
        SourceKind::PolyInMpe => 11,
        _ => 0,
    };
    if let Some(place) = tally.kinds.get_mut(number) {
        *place = place.saturating_add(1);
    }
}

const BEND: Options = Options {
    route: Route::Bend,
    range: 2,
    keep_drums: true,
    program: 0,
    tail: 0,
};

const ASKED: [Options; 7] = [
    BEND,
    Options { tail: 30, ..BEND },
    Options {
        tail: 200,
        range: 1,
        ..BEND
    },
    Options {
        tail: 1,
        range: 12,
        ..BEND
    },
    Options {
        route: Route::Mpe,
        ..BEND
    },
    Options {
        route: Route::Live,
        ..BEND
    },
    Options {
        keep_drums: false,
        tail: 50,
        ..BEND
    },
];

#[test]
fn agrees_with_a_slow_copy(rt: HostRuntime) -> Result<(), Fail> {
    let mut tally = Tally {
        kinds: [0; 13],
        taken: 0,
    };
    for (place, options) in ASKED.iter().enumerate() {
        let before = tally.taken;
        let is_alike = agree(rt.alloc(), place as u64, *options, 1200, &mut tally);
        assert!(rt; is_alike == Ok(true), "{place}");
        // many events are taken
        assert!(rt; tally.taken.saturating_sub(before) > 500, "{place}");
    }
    // each kind came that these lists may have
    for kind in [1, 3, 4, 5, 6, 7, 8, 11usize] {
        assert!(rt; tally.kinds.get(kind).copied().unwrap_or(0) > 0, "{kind}");
    }
    Ok(())
}
