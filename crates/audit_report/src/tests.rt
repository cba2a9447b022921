use crate::{Audit, push_audit};
use kbm_text::Mapping;
use key_pitch::{Aim, KeyTable};
use key_report::push_whole;
use lifetimes::{Begun, Change};
use mt_base::{Channel, Event, Msg, Pair, Part, What};
use receiver::Ends;
use scl_text::read_scl;
use std::alloc::Global;
use std::test::Fail;

/// What happens to a key of a part at a tick: it is struck, or the note that sounds there ends, or both.
#[derive(Clone, Copy, Debug)]
enum Turn {
    On(u32, u8, u8, u8),
    End(u32, u8, u8, u8),
    Again(u32, u8, u8, u8),
}

/// A key of a channel, as a bit.
fn ends_on(channel: u8, key: u8) -> Ends {
    let mut keys = [0u128; 16];
    if let Some(mask) = keys.get_mut(usize::from(channel)) {
        if key < 128 {
            *mask = 1 << key;
        }
    }
    Ends { keys }
}

/// Takes the event at a tick that begins a note, if a number is told, or ends one on a key of a part, or both.
fn take(audit: &mut Audit, number: Option<u32>, ends: bool, at: (u32, u8, u8, u8)) -> Option<()> {
    let (tick, port, number_of_channel, key) = at;
    if key > 127 {
        return None;
    }
    let channel = Channel::new(number_of_channel)?;
    let part = Part { port, channel };
    let begun = match number {
        None => None,
        Some(note) => Some(Begun {
            note,
            pair: Pair { part, steps: 0 },
            key,
            target: Aim::OutOfDevice,
        }),
    };
    let ended = if ends {
        ends_on(number_of_channel, key)
    } else {
        Ends { keys: [0; 16] }
    };
    let what = What::Message(Msg::NoteOn {
        channel,
        key,
        velocity: 64,
    });
    let event = Event {
        tick,
        track: 0,
        what,
    };
    let change = Change { begun, ended, port };
    audit.take(&event, &change).ok()
}

/// The lines of some notes, and the error of the whole.
fn told(alloc: Global, scale: &[u8], range: Option<u8>, turns: &[Turn]) -> Option<Vec<u8>> {
    if scale.len() > 262_144 {
        return None;
    }
    if let Some(range) = range {
        if range < 1 || range > 96 {
            return None;
        }
    }
    let scale = read_scl(alloc, scale).ok()?;
    let table = KeyTable::new(&scale, &Mapping::standard(alloc)).ok()?;
    let mut audit = Audit::new(alloc).ok()?;
    let mut number = 0u32;
    for turn in turns {
        match *turn {
            Turn::End(tick, port, channel, key) => {
                take(&mut audit, None, true, (tick, port, channel, key))?;
            }
            Turn::On(tick, port, channel, key) => {
                number = number.checked_add(1)?;
                take(&mut audit, Some(number), false, (tick, port, channel, key))?;
            }
            Turn::Again(tick, port, channel, key) => {
                number = number.checked_add(1)?;
                take(&mut audit, Some(number), true, (tick, port, channel, key))?;
            }
        }
    }
    let mut text = Vec::new(alloc);
    let notes = audit.notes();
    if notes.len() > 1_000_000 {
        return None;
    }
    let whole = push_audit(notes, &table, range, None, &mut text).ok()?;
    push_whole(&mut text, whole).ok()?;
    Some(text)
}

/// Whether these are the lines.
fn is_told(alloc: Global, scale: &[u8], range: Option<u8>, turns: &[Turn], wanted: &[u8]) -> bool {
    match told(alloc, scale, range, turns) {
        Some(text) => text.as_slice() == wanted,
        None => false,
    }
}

const JUST: &[u8] = b"just\n12\n16/15\n9/8\n6/5\n5/4\n4/3\n45/32\n3/2\n8/5\n5/3\n9/5\n15/8\n2/1\n";

#[test]
fn each_note_has_a_line(rt: HostRuntime) -> Result<(), Fail> {
    // a just third is 13.686 cents below key 64: by bends at 12 semitones it is 0.063 too high; the pedal holds
    // the first note until it is struck again; the last one never ends
    let turns = [
        Turn::On(0, 0, 0, 64),
        Turn::Again(600, 0, 0, 64),
        Turn::On(600, 0, 15, 64),
        Turn::End(1200, 0, 0, 64),
    ];
    let bent =
        b"note 1 part 1 key 64 channel 1 tick 0 to 600 velocity 64 error 0.063 to 0.064\nnote 2 part 1 key 64 channel 1 tick 600 to 1200 velocity 64 error 0.063 to 0.064\nnote 3 part 16 key 64 channel 16 tick 600 to none velocity 64 error 0.063 to 0.064\nerror 0.063 to 0.064\n";
    assert!(rt; is_told(rt.alloc(), JUST, Some(12), turns.as_slice(), bent));
    let tuned =
        b"note 1 part 1 key 64 channel 1 tick 0 to 600 velocity 64 error 0.002 to 0.003\nnote 2 part 1 key 64 channel 1 tick 600 to 1200 velocity 64 error 0.002 to 0.003\nnote 3 part 16 key 64 channel 16 tick 600 to none velocity 64 error 0.002 to 0.003\nerror 0.002 to 0.003\n";
    assert!(rt; is_told(rt.alloc(), JUST, None, turns.as_slice(), tuned));
    assert!(rt; is_told(rt.alloc(), JUST, None, [].as_slice(), b"error none\n"));
    Ok(())
}

#[test]
fn ports_are_named_where_one_is_not_0(rt: HostRuntime) -> Result<(), Fail> {
    let turns = [
        Turn::On(0, 0, 0, 64),
        Turn::On(0, 1, 0, 64),
        Turn::On(0, 1, 0, 67),
        Turn::End(480, 0, 0, 64),
        Turn::End(960, 1, 0, 64),
    ];
    let wanted =
        b"note 1 part 1 port 0 key 64 channel 1 tick 0 to 480 velocity 64 error 0.063 to 0.064\nnote 2 part 1 port 1 key 64 channel 1 tick 0 to 960 velocity 64 error 0.063 to 0.064\nnote 3 part 1 port 1 key 67 channel 1 tick 0 to none velocity 64 error -0.051 to -0.050\nerror -0.051 to 0.064\n";
    assert!(rt; is_told(rt.alloc(), JUST, Some(12), turns.as_slice(), wanted));
    Ok(())
}
