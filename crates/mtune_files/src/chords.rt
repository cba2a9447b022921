ghost use Rattle.std.specs.Prelude.{◌≡◌, ◌+◌, ◌*◌, ◌%◌, ◌<◌, ◌≤◌, ◌^◌, List, ◌∷◌, [], ◌++◌, length, map, true, false, All, OnOk, IfOk};
ghost use Rattle.mt_base.specs.Midi.{Timed};
ghost use Rattle.mt_base.specs.Valid.{IsValidMsg};
ghost use Rattle.mt_base.specs.declared.event.Msg.TheVariants.{NoteOn, NoteOff};
ghost use Rattle.midi_model.specs.Spelling.{Spells};
ghost use Rattle.midi_model.specs.Writing.{written};
ghost use Rattle.mtune_files.specs.Sample.{chord_channel, chord_start, chord_end, at_tick, events_at, sample_events, sample_file, sample_bytes};

use midi_model::{END_OF_TRACK, MOST_BYTES};
use mt_base::{Channel, Memory, Msg, What};
use smf_write::{TrackText, finish};
use std::alloc::Global;

/// The most chords that a sample may have.
pub const MOST_CHORDS: u32 = 100_000;

/// The ticks of a quarter note.
const DIVISION: u16 = 480;

/// How many ticks after a chord the next one begins. Each sounds for two such steps.
const STEP: u32 = 240;

/// The controller of a channel's volume.
const VOLUME: u8 = 7;

/// The velocity of all notes.
const VELOCITY: u8 = 64;

/// The channel of a chord.
fn channel_of(chord: u32) -> Channel
    ensures { result ≡ chord_channel chord }
{
    Channel::at((chord % 8) as u8)
}

/// The lowest key of a chord.
fn lowest_key(chord: u32) -> u8
    requires { chord < MOST_CHORDS }
    ensures { result ≡ 48 + (7 * chord) % 24 }
{
    48 + (7 * chord % 24) as u8
}

fn note_on(channel: Channel, key: u8) -> Msg
    ensures { result ≡ NoteOn channel key 64 }
{
    Msg::NoteOn {
        channel,
        key,
        velocity: VELOCITY,
    }
}

fn note_off(channel: Channel, key: u8) -> Msg
    ensures { result ≡ NoteOff channel key 64 }
{
    Msg::NoteOff {
        channel,
        key,
        velocity: VELOCITY,
    }
}

/// What a chord begins with: its channel's program and volume, and three note ons.
fn start_of(chord: u32) -> [Msg; 5]
    requires { chord < MOST_CHORDS }
    ensures messages { result ≡ chord_start chord }
    ensures valid { All (λ m. IsValidMsg m) result }
{
    let channel = channel_of(chord);
    let key = lowest_key(chord);
    [
        Msg::Program {
            channel,
            program: (chord % 128) as u8,
        },
        Msg::Control {
            channel,
            number: VOLUME,
            value: 40 + (chord % 80) as u8,
        },
        note_on(channel, key),
        note_on(channel, key + 4),
        note_on(channel, key + 7),
    ]
}

/// What a chord ends with: three note offs.
fn end_of(chord: u32) -> [Msg; 3]
    requires { chord < MOST_CHORDS }
    ensures messages { result ≡ chord_end chord }
    ensures valid { All (λ m. IsValidMsg m) result }
{
    let channel = channel_of(chord);
    let key = lowest_key(chord);
    [
        note_off(channel, key),
        note_off(channel, key + 4),
        note_off(channel, key + 7),
    ]
}

/// Puts a message at a tick so near that it takes at most five bytes.
fn put(track: &mut TrackText, tick: u32, message: Msg) -> Result<(), Memory>
    requires order { track.old.tick ≤ tick }
    requires near { tick < track.old.tick + 16384 }
    requires range { tick < 2 ^ 28 }
    requires valid { IsValidMsg message }
    requires open { track.old.ended ≡ false }
    ensures stands { (es : List Timed) → track.old ≡ written es
        → OnOk result (track.new ≡ written (es ++ at_tick tick message ∷ [])) }
    ensures last { OnOk result (track.new.tick ≡ tick) }
    ensures open { OnOk result (track.new.ended ≡ false) }
    ensures grows { OnOk result (length track.new.bytes ≤ length track.old.bytes + 5) }
{
    track.put(tick, &What::Message(message))
}

/// Puts messages at a tick.
fn put_all(track: &mut TrackText, tick: u32, messages: &[Msg]) -> Result<(), Memory>
    requires order { track.old.tick ≤ tick }
    requires near { tick < track.old.tick + 16384 }
    requires range { tick < 2 ^ 28 }
    requires valid { All (λ m. IsValidMsg m) messages.now }
    requires some { 0 < length messages.now }
    requires open { track.old.ended ≡ false }
    ensures stands { (es : List Timed) → track.old ≡ written es
        → OnOk result (track.new ≡ written (es ++ map (at_tick tick) messages.now)) }
    ensures last { OnOk result (track.new.tick ≡ tick) }
    ensures open { OnOk result (track.new.ended ≡ false) }
    ensures grows { OnOk result (length track.new.bytes
        ≤ length track.old.bytes + 5 * length messages.now) }
{
    for message in messages {
        put(track, tick, *message)?;
    }
    Ok(())
}

/// Puts what is said at a step of a sample.
fn put_step(track: &mut TrackText, chords: u32, step: u32) -> Result<(), Memory>
    requires some { 1 ≤ chords }
    requires few { chords ≤ MOST_CHORDS }
    requires within { step < chords + 2 }
    requires order { track.old.tick ≤ 240 * step }
    requires near { 240 * step ≤ track.old.tick + 480 }
    requires open { track.old.ended ≡ false }
    ensures stands { (es : List Timed) → track.old ≡ written es
        → OnOk result (track.new ≡ written (es ++ events_at chords step)) }
    ensures order { OnOk result (track.new.tick ≤ 240 * step) }
    ensures near { OnOk result (240 * (step + 1) ≤ track.new.tick + 480) }
    ensures open { OnOk result (track.new.ended ≡ false) }
    ensures grows { OnOk result (length track.new.bytes ≤ length track.old.bytes + 40) }
{
    let tick = STEP * step;
    if step >= 2 {
        put_all(track, tick, &end_of(step - 2))?;
    }
    if step < chords {
        put_all(track, tick, &start_of(step))?;
    }
    Ok(())
}

/// The track of a sample of so many chords.
fn track_of(alloc: Global, chords: u32) -> Result<TrackText, Memory>
    requires some { 1 ≤ chords }
    requires few { chords ≤ MOST_CHORDS }
    ensures stands { IfOk result (λ t. t ≡ written (sample_events chords)) }
    ensures ended { IfOk result (λ t. t.ended ≡ true) }
    ensures short { IfOk result (λ t. length t.bytes ≤ 4000090) }
{
    let mut track = TrackText::new(alloc);
    for step in 0..chords + 2 {
        put_step(&mut track, chords, step)?;
    }
    let end = What::Meta {
        kind: END_OF_TRACK,
        bytes: &[],
    };
    track.put(STEP * (chords + 1), &end)?;
    Ok(track)
}

/// A large valid file from a number: so many chords, 1 to `MOST_CHORDS`. One begins every 240 ticks
/// and sounds for 480; each has three notes, and they take turns on the first eight channels. The
/// bytes are those of a Standard MIDI File of format 0 with 480 ticks a quarter note.
pub fn sample(alloc: Global, chords: u32) -> Result<Vec<u8>, Memory>
    requires some { 1 ≤ chords }
    requires few { chords ≤ MOST_CHORDS }
    ensures bytes { IfOk result (λ v. v.items ≡ sample_bytes chords) }
    ensures spells { IfOk result (λ v. Spells v.items (sample_file chords)) }
    ensures short { IfOk result (λ v. length v.items < MOST_BYTES) }
{
    let track = track_of(alloc, chords)?;
    let mut tracks = Vec::new(alloc);
    tracks.push(track)?;
    finish(alloc, 0, DIVISION, tracks)
}
