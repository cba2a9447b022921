ghost use Rattle.std.specs.Prelude.{◌≡◌, ◌≤◌};
ghost use Rattle.mt_base.specs.declared.event.Msg.TheVariants.{Control};

mod cases;
mod listener;
mod note_cases;
mod random;
mod slow;
mod tuned;
mod zone_cases;

use crate::ChannelState;
use mt_base::{Channel, Msg};

fn controller(number: u8, value: u8) -> Msg
    ensures { result ≡ Control 0 number value }
{
    Msg::Control {
        channel: Channel::default(),
        number,
        value,
    }
}

/// Takes a controller where it has room.
fn control(state: &mut ChannelState, number: u8, value: u8) -> bool
    requires number { number ≤ 127 }
    requires value { value ≤ 127 }
{
    if state.room(controller(number, value)) {
        state.apply(controller(number, value));
        true
    } else {
        false
    }
}

#[test]
fn a_channel_takes_messages(rt: HostRuntime) {
    let mut state = ChannelState::new();
    assert_eq!(rt; state.controls.get(7), 100);
    assert_eq!(rt; state.controls.get(91), 40);
    assert_eq!(rt; state.bend, 8192);
    // bend sensitivity, RPN 0: first the semitones, then the hundredths
    assert!(rt; control(&mut state, 101, 0) && control(&mut state, 100, 0));
    assert!(rt; control(&mut state, 6, 12) && control(&mut state, 38, 50));
    let range = state.fixed[0];
    assert!(rt; range.0 == 12 && range.1 == 50);
    // the tuning program, RPN 3
    assert!(rt; control(&mut state, 100, 3) && control(&mut state, 6, 5));
    assert_eq!(rt; state.tuning, Some(5));
    // NRPN 1, 0 to NRPN 1, 15 fill the list
    assert!(rt; control(&mut state, 99, 1));
    for low in 0..16 {
        assert!(rt; control(&mut state, 98, low) && control(&mut state, 6, 65));
    }
    assert!(rt; control(&mut state, 98, 16) && !control(&mut state, 6, 65));
    assert!(rt; control(&mut state, 6, 64));
    assert!(rt; control(&mut state, 98, 3) && control(&mut state, 6, 70));
    assert!(rt; control(&mut state, 1, 90) && control(&mut state, 64, 127));
    let before = state.copy();
    assert!(rt; control(&mut state, 121, 0));
    assert!(rt; state.rpn.0 == 127 && state.rpn.1 == 127);
    assert_eq!(rt; state.controls.get(1), 0);
    assert_eq!(rt; state.controls.get(64), 0);
    let kept = state.fixed[0];
    assert!(rt; kept.0 == 12 && kept.1 == 50);
    assert_eq!(rt; state.others.len(), 16);
    assert_eq!(rt; before.controls.get(64), 127);
    assert_eq!(rt; before.tuning, Some(5));
}
