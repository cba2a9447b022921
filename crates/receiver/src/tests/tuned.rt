ghost use Rattle.std.specs.Prelude.{◌≤◌};

use super::listener::{Listener, Said, what_of};
use mt_base::{Channel, Grain, What};
use mts_msg::{dump, note_change};

/// Takes events at tick 0, and tells whether each could be taken.
fn take_all(listener: &mut Listener, list: &[Said]) -> bool {
    for said in list {
        let is_taken = match what_of(*said) {
            Some(what) => listener.take(0, &what).is_some(),
            None => false,
        };
        if !is_taken {
            return false;
        }
    }
    true
}

/// Takes a system exclusive event.
fn take_system(listener: &mut Listener, bytes: &[u8]) -> bool {
    listener
        .take(0, &What::Sysex { lead: 0xf0, bytes })
        .is_some()
}

/// The pitch of a key, in grains.
fn pitch(listener: &Listener, channel: u8, key: u8) -> Option<i128> {
    let channel = Channel::new(channel)?;
    if key > 127 {
        return None;
    }
    match listener.receiver.played(channel, key) {
        Some(Grain(grains)) => Some(grains),
        None => None,
    }
}

/// Key 69, 81 or 60 of equal temperament, a semitone, and what a step of the wheel is at a range of
/// one semitone.
const A: i128 = 220_800_000_000_000;

const HIGH_A: i128 = 259_200_000_000_000;

const C: i128 = 192_000_000_000_000;

const SEMITONE: i128 = 3_200_000_000_000;

const STEP: i128 = 390_625_000;

/// Selects program 5 on the first channel.
const SELECT: [Said; 3] = [
    Said::Control(0, 101, 0),
    Said::Control(0, 100, 3),
    Said::Control(0, 6, 5),
];

const RESET: &[u8] = &[0x7e, 0x7f, 0x09, 0x01, 0xf7];

/// A note on key 69 of the first channel, by program 5, of which a change tunes the key a semitone
/// high.
fn tune(listener: &mut Listener) -> bool {
    let bytes = note_change(5, 69, 70 * 16384);
    take_all(listener, &[Said::On(0, 69, 64)])
        && take_all(listener, &SELECT)
        && take_system(listener, bytes.as_slice())
}

#[test]
fn a_note_plays_the_tuning_of_its_program(rt: HostRuntime) {
    use Said::On;
    let mut listener = Listener::new();
    assert_eq!(rt; pitch(&listener, 0, 69), None);
    assert!(rt;
        take_all(
            &mut listener,
            &[On(0, 69, 64), On(0, 81, 64), On(1, 60, 64)]
        )
    );
    assert_eq!(rt; pitch(&listener, 0, 69), Some(A));
    assert_eq!(rt; pitch(&listener, 0, 81), Some(HIGH_A));
    assert_eq!(rt; pitch(&listener, 0, 70), None);
    // a dump of key 69 alone, a quarter of a semitone high, to program 5, and a change of key 60 in
    // it
    let mut values = [None; 128];
    values[69] = Some(69 * 16384 + 4096);
    let bytes = dump(5, &values);
    assert!(rt; take_system(&mut listener, bytes.as_slice()));
    assert_eq!(rt; pitch(&listener, 0, 69), Some(A));
    assert!(rt; take_all(&mut listener, &SELECT));
    assert_eq!(rt; pitch(&listener, 0, 69), Some(A + SEMITONE / 4));
    assert_eq!(rt; pitch(&listener, 0, 81), Some(HIGH_A));
    assert_eq!(rt; pitch(&listener, 1, 60), Some(C));
    let bytes = note_change(5, 69, 70 * 16384);
    assert!(rt; take_system(&mut listener, bytes.as_slice()));
    assert_eq!(rt; pitch(&listener, 0, 69), Some(A + SEMITONE));
    let bytes = note_change(4, 69, 0);
    assert!(rt; take_system(&mut listener, bytes.as_slice()));
    assert_eq!(rt; pitch(&listener, 0, 69), Some(A + SEMITONE));
}

#[test]
fn a_note_plays_its_channels_tuning_and_bend(rt: HostRuntime) {
    use Said::{Bend, Control, On};
    let mut listener = Listener::new();
    assert!(rt; tune(&mut listener));
    assert!(rt; take_all(&mut listener, &[On(1, 60, 64)]));
    // fine tuning 65, 1: 129 steps up; coarse tuning 63: a semitone down
    assert!(rt;
        take_all(
            &mut listener,
            &[Control(0, 100, 1), Control(0, 6, 65), Control(0, 38, 1)]
        )
    );
    assert_eq!(rt; pitch(&listener, 0, 69), Some(A + SEMITONE + 129 * STEP));
    assert!(rt; take_all(&mut listener, &[Control(0, 100, 2), Control(0, 6, 63)]));
    assert_eq!(rt; pitch(&listener, 0, 69), Some(A + 129 * STEP));
    // the wheel down by half at a range of 2 semitones, then of 1.5
    assert!(rt; take_all(&mut listener, &[Bend(0, 4096)]));
    assert_eq!(rt; pitch(&listener, 0, 69), Some(A + 129 * STEP - SEMITONE));
    assert!(rt;
        take_all(
            &mut listener,
            &[Control(0, 100, 0), Control(0, 6, 1), Control(0, 38, 50)]
        )
    );
    assert_eq!(rt;
        pitch(&listener, 0, 69),
        Some(A + 129 * STEP - SEMITONE * 3 / 4)
    );
    assert_eq!(rt; pitch(&listener, 1, 60), Some(C));
}

#[test]
fn a_reset_forgets_the_tunings(rt: HostRuntime) {
    use Said::{Off, On, System};
    let mut listener = Listener::new();
    assert!(rt; tune(&mut listener));
    assert_eq!(rt; pitch(&listener, 0, 69), Some(A + SEMITONE));
    assert!(rt; take_system(&mut listener, RESET));
    assert_eq!(rt; pitch(&listener, 0, 69), None);
    assert!(rt; take_all(&mut listener, &[On(0, 69, 64)]));
    assert!(rt; take_all(&mut listener, &SELECT));
    assert_eq!(rt; pitch(&listener, 0, 69), Some(A));
    assert!(rt; take_all(&mut listener, &[Off(0, 69, 64), System(0xf0, &[0x00])]));
    assert_eq!(rt; pitch(&listener, 0, 69), None);
}

/// A zone of three members, with 2 semitones on the master and 48 on a member; the master's fine
/// tuning is a step up, and the member's tuning and program have no effect. Then a note on each.
const ZONE: [Said; 14] = [
    Said::Control(0, 101, 0),
    Said::Control(0, 100, 6),
    Said::Control(0, 6, 3),
    Said::Control(0, 100, 1),
    Said::Control(0, 38, 1),
    Said::Control(1, 101, 0),
    Said::Control(1, 100, 2),
    Said::Control(1, 6, 65),
    Said::Control(1, 100, 3),
    Said::Control(1, 6, 9),
    Said::Control(0, 100, 3),
    Said::Control(0, 6, 7),
    Said::On(1, 69, 64),
    Said::On(0, 69, 64),
];

#[test]
fn a_member_has_its_masters_tuning_and_both_bends(rt: HostRuntime) {
    use Said::{Bend, Control};
    let mut listener = Listener::new();
    assert!(rt; take_all(&mut listener, &ZONE));
    assert_eq!(rt; pitch(&listener, 1, 69), Some(A + STEP));
    let bytes = note_change(9, 69, 0);
    assert!(rt; take_system(&mut listener, bytes.as_slice()));
    assert_eq!(rt; pitch(&listener, 1, 69), Some(A + STEP));
    let bytes = note_change(7, 69, 70 * 16384);
    assert!(rt; take_system(&mut listener, bytes.as_slice()));
    assert_eq!(rt; pitch(&listener, 1, 69), Some(A + SEMITONE + STEP));
    // ten steps of the member's wheel are 480 steps of a semitone each, a hundred of the master's
    // 200
    assert!(rt; take_all(&mut listener, &[Bend(1, 8202), Bend(0, 8292)]));
    assert_eq!(rt;
        pitch(&listener, 1, 69),
        Some(A + SEMITONE + STEP + 480 * STEP + 200 * STEP)
    );
    assert_eq!(rt;
        pitch(&listener, 0, 69),
        Some(A + SEMITONE + STEP + 200 * STEP)
    );
    // without the zone the member has what is its own
    assert!(rt; take_all(&mut listener, &[Control(0, 100, 6), Control(0, 6, 0)]));
    assert_eq!(rt; pitch(&listener, 1, 69), Some(SEMITONE + 480 * STEP));
}

/// Whether there is room for an event.
fn has_room(listener: &Listener, said: Said) -> bool {
    match what_of(said) {
        Some(what) => listener.may_take(&what),
        None => false,
    }
}

/// Gives sixteen parameters of the first channel, 1/0 to 1/15, a value.
fn fill(listener: &mut Listener) -> bool {
    let mut is_taken = take_all(listener, &[Said::Control(0, 99, 1)]);
    for low in 0..16u8 {
        is_taken = take_all(
            listener,
            &[Said::Control(0, 98, low), Said::Control(0, 6, 1)],
        ) && is_taken;
    }
    is_taken
}

#[test]
fn a_seventeenth_parameter_has_no_room(rt: HostRuntime) {
    use Said::{Control, On, System};
    let mut listener = Listener::new();
    assert!(rt; fill(&mut listener));
    assert!(rt; take_all(&mut listener, &[Control(0, 98, 16)]));
    assert!(rt; !has_room(&listener, Control(0, 6, 1)));
    assert!(rt; !has_room(&listener, Control(0, 38, 1)));
    // its default, another channel, and what isn't data entry
    let others = [
        Control(0, 6, 64),
        Control(0, 38, 0),
        Control(1, 6, 1),
        Control(0, 7, 1),
        Control(0, 121, 0),
        On(0, 60, 64),
        System(0xf0, RESET),
    ];
    for said in others {
        assert!(rt; has_room(&listener, said), "{said:?}");
    }
}

#[test]
fn a_parameter_that_was_given_a_value_has_room(rt: HostRuntime) {
    use Said::Control;
    let mut listener = Listener::new();
    assert!(rt; fill(&mut listener));
    // one that is there already, and those that don't count
    assert!(rt; take_all(&mut listener, &[Control(0, 98, 3)]));
    assert!(rt; has_room(&listener, Control(0, 6, 2)));
    assert!(rt; has_room(&listener, Control(0, 38, 2)));
    assert!(rt; take_all(&mut listener, &[Control(0, 101, 0)]));
    for low in [0, 1, 2, 3, 5, 6] {
        assert!(rt;
            take_all(
                &mut listener,
                &[Control(0, 100, low), Control(0, 6, 1), Control(0, 38, 1)]
            )
        );
    }
    assert!(rt; take_all(&mut listener, &[Control(0, 100, 4)]));
    assert!(rt; !has_room(&listener, Control(0, 6, 1)));
    // one goes back to its default, and there is room again
    assert!(rt;
        take_all(
            &mut listener,
            &[Control(0, 99, 1), Control(0, 98, 3), Control(0, 6, 64)]
        )
    );
    assert!(rt; take_all(&mut listener, &[Control(0, 98, 16), Control(0, 6, 1)]));
}
