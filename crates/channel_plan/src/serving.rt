ghost use Rattle.std.specs.Prelude.{◌≡◌, ◌<◌, ◌++◌, ℕ, suc, List, [], ◌∷◌, Bool, true, false, ◌&&◌, nat_eq, length, map, take, IfSome, IfNone};
ghost use Rattle.std.specs.List.{AllByRecursion};
ghost use Rattle.mt_base.specs.Midi.{MidiEvent};
ghost use Rattle.midi_model.specs.Order.{AreInOrder};
ghost use Rattle.midi_model.specs.Sysex.{doing};
ghost use Rattle.retune_model.specs.Options.{bends_notes};
ghost use Rattle.retune_model.specs.Ports.{port_of, ports_from, all_zero, resets};
ghost use Rattle.retune_model.specs.Faults.{is_part};
ghost use Rattle.lifetimes.specs.Views.{pair_of};
ghost use Rattle.lifetimes.specs.Told.{TellsEnds};
ghost use Rattle.lifetimes.specs.Stands.{Stands, asked, table_in};
ghost use Rattle.plan_laws.specs.Counting.{ComesAt};
ghost use Rattle.channel_plan.specs.Planned.{notes_to, runs_on};
ghost use Rattle.channel_plan.specs.Serving.{head, heads, serves, some_serves, AreApart, IsServedAt, RowStands, RowKept, RowFreed, BeginsNote, IsGiven, given_as};
ghost use Rattle.channel_plan.specs.declared.plan.Given.{Given as GivenOf};

use crate::rowing::Used;
use key_pitch::Aims;
use lifetimes::Parts;
use mt_base::{Channel, Pair, Part};
use plan_laws::{event_laws, run_counts};
use receiver::Ends;

/// What a note that begins is given: its channel, and the number of its run, which may begin with
/// it.
#[derive(Clone, Copy, Debug)]
pub(crate) struct Chosen {
    pub channel: Channel,
    pub run: u32,
    pub is_new: bool,
}

/// Whether a row serves the notes of a part.
fn serves(row: &Used, part: &Part) -> bool
    ensures { result ≡ serves (head row.now) part.now.port part.now.channel }
{
    row.port == part.port
        && match row.part {
            Some(channel) => channel == part.channel,
            None => true,
        }
}

/// The row that serves the notes of a part, by its place. None exactly where there is none.
fn find_row(rows: &[Used], part: &Part) -> Option<usize>
    ensures some { IfSome result (IsServedAt rows.now part.now.port part.now.channel) }
    ensures none { IfNone result (AllByRecursion
        (λ u. serves (head u) part.now.port part.now.channel ≡ false) rows.now) }
{
    let mut place = 0;
    while place < rows.len() {
        if serves(&rows[place], part) {
            return Some(place);
        }
        place += 1;
    }
    None
}

/// Whether an event of a port resets a row.
fn is_here(row: &Used, port: u8, is_reset: bool) -> bool
    ensures { result ≡ (nat_eq port row.now.port && is_reset) }
{
    port == row.port && is_reset
}

/// Before an event, on all rows: the states of places whose pairs only rest are kept.
pub(crate) fn keep_rows<T: Aims>(rows: &mut [Used], parts: &Parts<T>)
    requires bends { 0 < length rows.old → bends_notes (asked parts.now).route ≡ true }
    ensures rows { (es : List MidiEvent) (gs : List GivenOf) (k : ℕ)
        → Stands (T.table (table_in parts.now)) parts.now (take k es)
        → AllByRecursion (RowStands (asked parts.now)
        (T.table (table_in parts.now)) es gs k) rows.old
        → AllByRecursion (RowKept (asked parts.now)
        (T.table (table_in parts.now)) es gs k) rows.new }
    ensures heads { heads rows.new ≡ heads rows.old }
{
    let mut row = 0;
    while row < rows.len() {
        rows[row].keep(parts);
        row += 1;
    }
}

/// After an event of a port, by which these notes ended, on all rows: the places of pairs that are
/// gone are freed, or all of the port at its reset.
pub(crate) fn free_rows<T: Aims>(
    rows: &mut [Used],
    parts: &Parts<T>,
    port: u8,
    ended: &Ends,
    is_reset: bool,
    position: u32,
)
    requires bends { 0 < length rows.old → bends_notes (asked parts.now).route ≡ true }
    ensures rows { (es : List MidiEvent) (gs : List GivenOf) (k : ℕ) (e : MidiEvent)
        → position ≡ suc k
        → ComesAt es k e → Stands (T.table (table_in parts.now)) parts.now (take (suc k) es)
        → TellsEnds (asked parts.now) (take k es) e ended.now
        → port ≡ port_of (ports_from all_zero (take k es)) e → is_reset ≡ resets (doing e.what)
        → AllByRecursion (RowKept (asked parts.now) (T.table (table_in parts.now)) es gs k) rows.old
        → AllByRecursion (RowFreed (asked parts.now)
        (T.table (table_in parts.now)) es gs k) rows.new }
    ensures heads { heads rows.new ≡ heads rows.old }
{
    event_laws();
    let mut row = 0;
    while row < rows.len() {
        let here = is_here(&rows[row], port, is_reset);
        rows[row].free(parts, ended, here, position);
        row += 1;
    }
}

/// Gives a note of a pair a channel of the row that serves it. None only where the row is shorter
/// than is needed.
fn give_on<T: Aims>(row: &mut Used, parts: &Parts<T>, pair: &Pair, next: u32) -> Option<Chosen>
    requires bends { bends_notes (asked parts.now).route ≡ true }
    requires part { is_part (asked parts.now) (pair.now.part.channel) ≡ true }
    ensures some { IfSome result (λ x. (es : List MidiEvent) (gs : List GivenOf) (k : ℕ)
        (e : MidiEvent)
        → AreInOrder 0 es
        → Stands (T.table (table_in parts.now)) parts.now (take (suc k) es)
        → BeginsNote (asked parts.now) (T.table (table_in parts.now)) es k e (pair_of pair.now)
        → length gs ≡ notes_to (asked parts.now) es k
        → next ≡ runs_on (asked parts.now) (T.table (table_in parts.now)) es pair.now.part.port k
        → serves (head row.old) pair.now.part.port pair.now.part.channel ≡ true
        → RowFreed (asked parts.now) (T.table (table_in parts.now)) es gs k row.old
        → RowStands (asked parts.now) (T.table (table_in parts.now)) es
        (gs ++ given_as (pair_of pair.now) x ∷ []) (suc k) row.new
        × IsGiven (asked parts.now) (T.table (table_in parts.now)) es k (pair_of pair.now) x) }
    ensures none { IfNone result ((es : List MidiEvent) (gs : List GivenOf) (k : ℕ) (e : MidiEvent)
        → Stands (T.table (table_in parts.now)) parts.now (take (suc k) es)
        → BeginsNote (asked parts.now) (T.table (table_in parts.now)) es k e (pair_of pair.now)
        → length gs ≡ notes_to (asked parts.now) es k
        → serves (head row.old) pair.now.part.port pair.now.part.channel ≡ true
        → RowFreed (asked parts.now) (T.table (table_in parts.now)) es gs k row.old → ⊥) }
    ensures head { head row.new ≡ head row.old }
{
    run_counts();
    let placed = row.give(parts, pair, next)?;
    match row.channels.as_slice().get(placed.place) {
        Some(channel) => Some(Chosen {
            channel: *channel,
            run: placed.run,
            is_new: placed.is_new,
        }),
        None => None,
    }
}

/// Gives a note of a pair that begins its channel and its run: those of the row that serves it. On
/// dump and live, where there are no rows, a note keeps its own channel, and is a run of its own.
pub(crate) fn give_note<T: Aims>(
    rows: &mut [Used],
    parts: &Parts<T>,
    pair: &Pair,
    next: u32,
) -> Chosen
    requires bends { 0 < length rows.old → bends_notes (asked parts.now).route ≡ true }
    requires part { is_part (asked parts.now) (pair.now.part.channel) ≡ true }
    ensures given { (es : List MidiEvent) (gs : List GivenOf) (k : ℕ) (e : MidiEvent)
        → AreInOrder 0 es
        → Stands (T.table (table_in parts.now)) parts.now (take (suc k) es)
        → BeginsNote (asked parts.now) (T.table (table_in parts.now)) es k e (pair_of pair.now)
        → length gs ≡ notes_to (asked parts.now) es k
        → next ≡ runs_on (asked parts.now) (T.table (table_in parts.now)) es pair.now.part.port k
        → AreApart (heads rows.old)
        → (bends_notes (asked parts.now).route ≡ true
        → some_serves (heads rows.old) pair.now.part.port pair.now.part.channel ≡ true)
        → AllByRecursion (RowFreed (asked parts.now)
        (T.table (table_in parts.now)) es gs k) rows.old
        → AllByRecursion (RowStands (asked parts.now) (T.table (table_in parts.now)) es
        (gs ++ given_as (pair_of pair.now) result ∷ []) (suc k)) rows.new
        × IsGiven (asked parts.now) (T.table (table_in parts.now)) es k (pair_of pair.now) result }
    ensures heads { heads rows.new ≡ heads rows.old }
{
    if let Some(row) = find_row(rows, &pair.part) {
        if let Some(chosen) = give_on(&mut rows[row], parts, pair, next) {
            return chosen;
        }
    }
    Chosen {
        channel: pair.part.channel,
        run: next,
        is_new: true,
    }
}
