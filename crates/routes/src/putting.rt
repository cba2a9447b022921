ghost use Rattle.std.specs.Prelude.{◌≡◌, [], ◌∷◌, OnOk, OnErr};
ghost use Rattle.mt_base.specs.Midi.{view};
ghost use Rattle.routes.specs.Putting.{AllMayPut, put_all, IsFront, said_at, sent_at};

use event_stream::TrackSet;
use mt_base::{Event, Memory, Msg, What};

/// Puts messages at an event's tick into its track. On `Memory` a front of them was put.
pub fn put_messages(out: &mut TrackSet, at: &Event<'_>, messages: &[Msg]) -> Result<(), Memory>
    requires { AllMayPut out.old (said_at (view at.now) messages.now) }
    ensures put { OnOk result (out.new ≡ put_all out.old (said_at (view at.now) messages.now)) }
    ensures front { OnErr result
        (IsFront out.old (said_at (view at.now) messages.now) out.new) }
{
    for message in messages {
        out.put(&Event {
            tick: at.tick,
            track: at.track,
            what: What::Message(*message),
        })?;
    }
    Ok(())
}

/// Puts a system exclusive message at an event's tick into its track. On `Memory` nothing was put.
#[tactic(auto, unfolding(crate::specs::Putting::AllMayPut, crate::specs::Putting::put_all))]
pub fn put_sysex(out: &mut TrackSet, at: &Event<'_>, bytes: &[u8]) -> Result<(), Memory>
    requires { AllMayPut out.old (sent_at (view at.now) (bytes.now ∷ [])) }
    ensures put { OnOk result
        (out.new ≡ put_all out.old (sent_at (view at.now) (bytes.now ∷ []))) }
    ensures unchanged { OnErr result (out.new ≡ out.old) }
{
    out.put(&Event {
        tick: at.tick,
        track: at.track,
        what: What::Sysex { lead: 0xf0, bytes },
    })
}
