//! Which channels runs get, and what is written, by example. The functions do nothing: their contracts are the examples.

ghost use Rattle.std.specs.Prelude.{◌≡◌, ◌++◌, ℕ, true, false, List, [], ◌∷◌, map, pos};
ghost use Rattle.mt_base.specs.declared.event.Msg.TheVariants.{NoteOn, NoteOff, Control, Program, Bend};
ghost use Rattle.midi_model.specs.Examples.{at, all_at, sysex, general_midi_on};
ghost use Rattle.midi_model.specs.Bring.{registered};
ghost use Rattle.retune_model.specs.Examples.{equal_table, just_table, resting, bend_options, needed, counts, end_at, one_note, chord, taken_over, reset_between, wheel, one_after_other, port_event, in_track, two_ports, ends_in, two_parts, mpe_options};
ghost use Rattle.retune_model.specs.Ports.{port_at};
ghost use Rattle.channel_model.specs.Choice.{TakesShortest};
ghost use Rattle.channel_model.specs.Rows.{used_row, zones_on};
ghost use Rattle.channel_model.specs.Refusals.{Refuses, TooManyChannels, TooManyParts};
ghost use Rattle.channel_model.specs.MpeOutput.{zones_for, lower_allowed, members_from};
ghost use Rattle.channel_model.specs.Examples.{on_first, on_three, each_own, again, changed_after, second_again, first_again, all_first, setup, free_from, program_on, priced, bent, rested, ready, zoned, zoned_twice, two_zones, first_two, one_too_many, three_parts};

use crate::choice::tested_choice;
use retune_model::fewest_channels;

/// The run of a part that begins again costs one message on the channel of the other part, and none on its own, which has been free
/// for less long: so it gets its own. While a note rests its channel is told of its part's program, and no more once the rest has run out.
pub fn choice_examples()
    ensures need { needed bend_options again 0 ≡ (2, 3) }
    ensures counted { counts bend_options equal_table again 0 ≡ 0 ∷ 0 ∷ 1 ∷ 2 ∷ 1 ∷ 0 ∷ 1 ∷ 0 ∷ [] }
    ensures row { used_row bend_options (λ c. true) 10
        ≡ 0 ∷ 1 ∷ 2 ∷ 3 ∷ 4 ∷ 5 ∷ 6 ∷ 7 ∷ 8 ∷ 10 ∷ [] }
    ensures other { setup 0 again second_again 1 0 5 ≡ 1 }
    ensures own { setup 0 again second_again 1 1 5 ≡ 0 }
    ensures other_since { free_from again second_again 0 5 ≡ 4 }
    ensures own_since { free_from again second_again 1 5 ≡ 5 }
    ensures chosen { TakesShortest (resting 0) equal_table (port_at again 0) 7 2 second_again }
    ensures not_chosen { TakesShortest (resting 0) equal_table (port_at again 0) 7 2 first_again → ⊥ }
    ensures price_own { priced again second_again 7 ≡ 11 }
    ensures price_other { priced again first_again 7 ≡ 12 }
    ensures told { program_on 100 changed_after all_first 0 4 ≡ 5 }
    ensures long_told { program_on 200 changed_after all_first 0 4 ≡ 7 }
    ensures not_told { program_on 0 changed_after all_first 0 4 ≡ 0 }
    ensures brought { setup 100 changed_after all_first 1 0 4 ≡ 1 }
{
    tested_choice();
}

/// Outputs of the bend route, by example.
pub fn bent_examples()
    ensures bend { bent equal_table on_first one_note ≡ all_at 0 (ready 0) ++ one_note }
    ensures bend_chord { bent just_table on_three chord
        ≡ all_at 0 (ready 0 ++ (NoteOn 0 60 64 ∷ ready 1 ++ (Bend 1 8099 ∷ NoteOn 1 64 64
        ∷ ready 2 ++ (Bend 2 8205 ∷ NoteOn 2 67 64 ∷ [])))) ++ all_at 480 (NoteOff 0 60 64
        ∷ NoteOff 1 64 64 ∷ NoteOff 2 67 64 ∷ []) }
    ensures taken_over { bent equal_table on_first taken_over
        ≡ all_at 0 (Program 0 5 ∷ Control 0 7 80 ∷ ready 0 ++ NoteOn 0 69 64 ∷ [])
        ++ (all_at 480 (NoteOff 0 69 64 ∷ Program 0 0 ∷ Control 0 7 100 ∷ NoteOn 0 69 64 ∷ [])
        ++ at 960 (NoteOff 0 69 64) ∷ []) }
    ensures chosen { bent equal_table each_own again
        ≡ all_at 0 (Program 0 5 ∷ ready 0 ++ (NoteOn 0 69 64 ∷ ready 1 ++ NoteOn 1 69 64 ∷ []))
        ++ (all_at 480 (NoteOff 0 69 64 ∷ NoteOff 1 69 64 ∷ NoteOn 1 71 64 ∷ [])
        ++ at 960 (NoteOff 1 71 64) ∷ []) }
    ensures reset { bent equal_table on_first reset_between
        ≡ all_at 0 (ready 0 ++ NoteOn 0 69 64 ∷ []) ++ (sysex 480 general_midi_on
        ∷ all_at 960 (ready 0 ++ NoteOn 0 69 64 ∷ []) ++ at 1440 (NoteOff 0 69 64) ∷ []) }
    ensures wheel { bent equal_table on_first wheel
        ≡ all_at 0 (ready 0 ++ NoteOn 0 69 64 ∷ []) ++ (at 240 (Control 0 1 100)
        ∷ at 480 (Control 0 1 0) ∷ at 960 (NoteOff 0 69 64) ∷ []) }
    ensures bent_source { bent equal_table on_first (all_at 0 (Bend 0 16383 ∷ NoteOn 0 69 64 ∷ []))
        ≡ all_at 0 (ready 0 ++ (Bend 0 9557 ∷ NoteOn 0 69 64 ∷ [])) }
    ensures fine_source { bent equal_table on_first (all_at 0 (Control 0 101 0 ∷ Control 0 100 1
        ∷ Control 0 6 65 ∷ NoteOn 0 69 64 ∷ []))
        ≡ all_at 0 (Control 0 101 0 ∷ Control 0 100 0 ∷ Control 0 6 12 ∷ registered 0 1 65
        ++ NoteOn 0 69 64 ∷ []) }
{}

/// With a tail the second part has a channel of its own; a channel is told of its part's program while a note rests, and brought to the
/// next part's once it is given to it; and each port has its own channels.
pub fn port_examples()
    ensures no_tail { rested 0 on_first (one_after_other 480)
        ≡ all_at 0 (ready 0 ++ NoteOn 0 69 64 ∷ []) ++ (at 480 (NoteOff 0 69 64)
        ∷ at 480 (NoteOn 0 69 64) ∷ at 960 (NoteOff 0 69 64) ∷ []) }
    ensures tail { rested 1 each_own (one_after_other 480)
        ≡ all_at 0 (ready 0 ++ NoteOn 0 69 64 ∷ []) ++ (at 480 (NoteOff 0 69 64)
        ∷ all_at 480 (ready 1 ++ NoteOn 1 69 64 ∷ []) ++ at 960 (NoteOff 1 69 64) ∷ []) }
    ensures told { rested 100 on_first changed_after
        ≡ all_at 0 (ready 0 ++ NoteOn 0 69 64 ∷ []) ++ (at 480 (NoteOff 0 69 64)
        ∷ at 500 (Program 0 5) ∷ at 700 (Program 0 0) ∷ at 700 (NoteOn 0 69 64) ∷ []) }
    ensures ports { rested 0 on_first two_ports
        ≡ port_event 0 0 ∷ (map (in_track 0) (all_at 0 (ready 0 ++ NoteOn 0 69 64 ∷ []))
        ++ (port_event 1 1 ∷ map (in_track 1) (all_at 0 (ready 0 ++ NoteOn 0 69 64 ∷ []))
        ++ (ends_in 0 ++ ends_in 1))) }
{}

/// Outputs of the MPE route, by example: of one part, of two, and with a reset, behind which the zone is set again.
pub fn mpe_examples()
    ensures one { zoned one_note
        ≡ all_at 0 (registered 0 6 1) ++ (at 0 (NoteOn 1 69 64) ∷ at 480 (NoteOff 1 69 64)
        ∷ end_at 480 ∷ []) }
    ensures two { zoned_twice two_parts
        ≡ all_at 0 (registered 0 6 1 ++ (registered 15 6 1 ++ (NoteOn 1 69 64 ∷ NoteOn 14 69 64 ∷ []))) }
    ensures reset { zoned reset_between
        ≡ all_at 0 (registered 0 6 1 ++ NoteOn 1 69 64 ∷ []) ++ (sysex 480 general_midi_on
        ∷ all_at 480 (registered 0 6 1) ++ (at 960 (NoteOn 1 69 64) ∷ at 1440 (NoteOff 1 69 64) ∷ [])) }
{}

/// The zones of two parts with needs 9 and 5, and of one part where drums are kept, by example.
pub fn zone_examples()
    ensures two_parts { zones_for ((0, 9) ∷ (1, 5) ∷ [])
        ≡ record { part = 0; upper = false; members = 9 }
        ∷ record { part = 1; upper = true; members = 5 } ∷ [] }
    ensures greater_need { zones_for ((0, 5) ∷ (1, 9) ∷ [])
        ≡ record { part = 1; upper = false; members = 9 }
        ∷ record { part = 0; upper = true; members = 5 } ∷ [] }
    ensures lower_allowed { lower_allowed false (zones_for ((0, 9) ∷ (1, 5) ∷ [])) ≡ 9 }
    ensures alone { lower_allowed false (zones_for ((0, 9) ∷ [])) ≡ 15 }
    ensures with_drums { lower_allowed true (zones_for ((0, 9) ∷ [])) ≡ 8 }
    ensures found { zones_on mpe_options equal_table two_parts 0 ≡ two_zones 0 }
    ensures upper_members { members_from (record { part = 1; upper = true; members = 5 }) 0 5
        ≡ 14 ∷ 13 ∷ 12 ∷ 11 ∷ 10 ∷ [] }
    ensures lower_members { members_from (record { part = 0; upper = false; members = 2 }) 0 2
        ≡ 1 ∷ 2 ∷ [] }
{}

/// A chord of three pairs where two channels are allowed, and three parts on MPE, are refused; by example.
pub fn refusal_examples()
    ensures chord { Refuses bend_options first_two just_table chord (TooManyChannels one_too_many) }
    ensures parts { Refuses mpe_options first_two equal_table three_parts (TooManyParts 0 3) }
{
    fewest_channels();
}
