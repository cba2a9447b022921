ghost use Rattle.std.specs.Prelude.{◌≡◌, ◌<◌, ◌++◌, ◌∷◌, [], List, get_or, map, set, IfOk, IfSome, OnOk};
ghost use Rattle.mt_base.specs.Midi.{MidiEvent, view, view_what};
ghost use Rattle.retune_model.specs.Options.{Options};
ghost use Rattle.retune_model.specs.Faults.{Targets};
ghost use Rattle.receiver.specs.Notes.{has};
ghost use Rattle.lifetimes.specs.Told.{TellsChange};
ghost use Rattle.audit_report.specs.Played.{played_notes};
ghost use Rattle.audit_report.specs.Audit.{IsAudit, IsIndexed, IsLow, place_of, is_at, is_key, keys_below, channels_below, marked, velocity_in};

use crate::played::Played;
use lifetimes::Change;
use midi_model::{music_laws, receiver_laws};
use mt_base::{Event, Memory, Msg, What};
use receiver::Ends;
use retune_model::next_laws;
use std::alloc::Global;

/// All keys of all channels of all ports.
const PLACES: usize = 524_288;

/// The retuned notes of a source, as they are played by the events so far.
#[derive(Debug, Drop)]
pub struct Audit {
    /// In the order of their note ons.
    notes: Vec<Played>,
    /// For each key of each part, the number of the note that began there last, from 1. 0 before any.
    last: Vec<u32>,
}

/// The place of a key of a part.
fn place_of(port: u8, channel: u8, key: u8) -> usize
    ensures place { result ≡ place_of port channel key }
    ensures port { port < 256 }
{
    (usize::from(port) * 16 + usize::from(channel)) * 128 + usize::from(key)
}

/// The velocity of a note on.
fn velocity_in(what: &What<'_>) -> u8
    ensures { result ≡ velocity_in (view_what what.now) }
{
    match what {
        What::Message(Msg::NoteOn { velocity, .. }) => *velocity,
        _ => 0,
    }
}

/// Whether a note sounds on a key of a part.
fn is_at(note: &Played, port: u8, channel: u8, key: u8) -> bool
    ensures { result ≡ is_at port (is_key channel key) note.now }
{
    note.part.port == port
        && note.part.channel.number() == channel
        && note.key == key
        && note.ended.is_none()
}

/// The number that is kept at a place, and 0 where there is no such place.
fn number_at(last: &Vec<u32>, place: usize) -> u32
    ensures { result ≡ get_or last.now.items place 0 }
{
    if place < last.len() { last[place] } else { 0 }
}

/// Keeps the number of the note that began last at a place, if there is such a place.
fn put_number(last: &mut Vec<u32>, place: usize, number: u32)
    ensures { last.new.items ≡ set last.old.items place number }
{
    if place < last.len() {
        last[place] = number;
    }
}

impl Audit {
    /// Of no events.
    pub fn new(alloc: Global) -> Result<Audit, Memory>
        ensures { IfOk result (λ a. (o : Options) → IsAudit o [] a) }
    {
        Ok(Audit {
            notes: Vec::new(alloc),
            last: vec![in alloc; 0u32; PLACES]?,
        })
    }

    /// The note on a key of a part ends, where one sounds there.
    fn end_at(&mut self, port: u8, channel: u8, key: u8, tick: u32)
        requires channel { channel < 16 }
        requires key { key < 128 }
        ensures indexed { IsIndexed self.old.last.items self.old.notes.items
            → IsIndexed self.new.last.items self.new.notes.items }
        ensures last { self.new.last ≡ self.old.last }
        ensures notes { IsIndexed self.old.last.items self.old.notes.items
            → self.new.notes.items ≡ map (marked port (is_key channel key) tick) self.old.notes.items }
    {
        let number = number_at(&self.last, place_of(port, channel, key)) as usize;
        if number == 0 {
            return;
        }
        if number > self.notes.len() {
            return;
        }
        if is_at(&self.notes[number - 1], port, channel, key) {
            self.notes[number - 1].ended = Some(tick);
        }
    }

    /// The notes on keys of a part end, those that bits of a mask stand for: of most parts none.
    fn end_keys(&mut self, port: u8, channel: u8, keys: u128, tick: u32)
        requires channel { channel < 16 }
        ensures indexed { IsIndexed self.old.last.items self.old.notes.items
            → IsIndexed self.new.last.items self.new.notes.items }
        ensures last { self.new.last ≡ self.old.last }
        ensures notes { IsIndexed self.old.last.items self.old.notes.items → self.new.notes.items
            ≡ map (marked port (keys_below (has keys) channel 128) tick) self.old.notes.items }
    {
        let mut rest = keys;
        while rest != 0 {
            let key = rest.trailing_zeros();
            self.end_at(port, channel, key as u8, tick);
            rest &= !(1u128 << key);
        }
    }

    /// The same on all channels of a port.
    fn end_all(&mut self, port: u8, ended: &Ends, tick: u32)
        ensures indexed { IsIndexed self.old.last.items self.old.notes.items
            → IsIndexed self.new.last.items self.new.notes.items }
        ensures last { self.new.last ≡ self.old.last }
        ensures notes { IsIndexed self.old.last.items self.old.notes.items → self.new.notes.items
            ≡ map (marked port (channels_below ended.now.keys 16) tick) self.old.notes.items }
    {
        for channel in 0..16u8 {
            self.end_keys(port, channel, ended.keys[usize::from(channel)], tick);
        }
    }

    /// A note begins, of this number.
    fn begin(&mut self, note: &Played, number: u32) -> Result<(), Memory>
        requires key { note.now.key < 128 }
        ensures low { IsLow note.now }
        ensures notes { OnOk result (self.new.notes.items ≡ self.old.notes.items ++ note.now ∷ []) }
        ensures last { OnOk result (self.new.last.items
            ≡ set self.old.last.items (place_of note.now.part.port note.now.part.channel note.now.key) number) }
    {
        let place = place_of(note.part.port, note.part.channel.number(), note.key);
        put_number(&mut self.last, place, number);
        self.notes.push(*note)?;
        Ok(())
    }

    /// With one event more, of which the parts tell what it changes.
    pub fn take(&mut self, event: &Event<'_>, change: &Change) -> Result<(), Memory>
        requires key { IfSome change.now.begun (λ b. b.key < 128) }
        ensures { (o : Options) (table : Targets) (es : List MidiEvent)
            → TellsChange o table es (view event.now) change.now → IsAudit o es self.old
            → OnOk result (IsAudit o (es ++ view event.now ∷ []) self.new) }
    {
        music_laws();
        receiver_laws();
        next_laws();
        self.end_all(change.port, &change.ended, event.tick);
        let Some(begun) = &change.begun else {
            return Ok(());
        };
        let note = Played {
            part: begun.pair.part,
            key: begun.key,
            onset: event.tick,
            velocity: velocity_in(&event.what),
            ended: None,
        };
        self.begin(&note, begun.note)
    }

    /// The notes, in the order of their note ons.
    pub fn notes(&self) -> &[Played]
        ensures { (o : Options) (es : List MidiEvent) → IsAudit o es self.now
            → result.now ≡ played_notes o es }
    {
        self.notes.as_slice()
    }
}
