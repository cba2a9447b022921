ghost use Rattle.std.specs.Prelude.{◌≡◌, [], ◌∷◌, Ok, Err};
ghost use Rattle.mt_base.specs.declared.event.Msg.TheVariants.{NoteOn, NoteOff};
ghost use Rattle.mt_base.specs.Midi.{Says, end_of_track};
ghost use Rattle.midi_model.specs.declared.fault.SmfKind.TheVariants.{NotMidi, BadHeader, Format2, Truncated, MissingTrack, BadDelta, NoStatus, BadStatus, BadData, MissingEnd, TrackTooLong, TooManyTracks};
ghost use Rattle.midi_model.specs.FileText.{file_at};
ghost use Rattle.midi_model.specs.FileExamples.{one_track, header_of, at};

/// Worked files: what their bytes spell, or the offset and kind of their first fault.
pub fn file_examples()
    // A note of 480 ticks, in a file with division 480.
    ensures one_note { file_at (0x4d ∷ 0x54 ∷ 0x68 ∷ 0x64 ∷ 0x00 ∷ 0x00 ∷ 0x00 ∷ 0x06 ∷ 0x00
        ∷ 0x00 ∷ 0x00 ∷ 0x01 ∷ 0x01 ∷ 0xe0 ∷ 0x4d ∷ 0x54 ∷ 0x72 ∷ 0x6b ∷ 0x00 ∷ 0x00 ∷ 0x00 ∷ 0x0d
        ∷ 0x00 ∷ 0x90 ∷ 0x45 ∷ 0x40 ∷ 0x83 ∷ 0x60 ∷ 0x80 ∷ 0x45 ∷ 0x40 ∷ 0x00 ∷ 0xff ∷ 0x2f ∷ 0x00
        ∷ [])
        ≡ Ok (record {
          format = 0;
          division = 480;
          tracks = (at 0 (Says (NoteOn 0 69 64))
              ∷ at 480 (Says (NoteOff 0 69 64)) ∷ at 480 end_of_track ∷ []) ∷ [];
        }) }
    // Data bytes with no status before them take that of the channel message before.
    ensures running_status { file_at (one_track (0x00 ∷ 0x99 ∷ 0x24 ∷ 0x40 ∷ 0x00 ∷ 0x24 ∷ 0x40
        ∷ 0x60 ∷ 0x24 ∷ 0x00 ∷ 0x00 ∷ 0x24 ∷ 0x00 ∷ 0x00 ∷ 0xff ∷ 0x2f ∷ 0x00 ∷ []))
        ≡ Ok (record {
          format = 0;
          division = 96;
          tracks = (at 0 (Says (NoteOn 9 36 64))
              ∷ at 0 (Says (NoteOn 9 36 64)) ∷ at 96 (Says (NoteOn 9 36 0))
              ∷ at 96 (Says (NoteOn 9 36 0)) ∷ at 96 end_of_track ∷ []) ∷ [];
        }) }
    // A meta event takes the running status away.
    ensures cut_status { file_at (one_track (0x00 ∷ 0x90 ∷ 0x45 ∷ 0x40 ∷ 0x00 ∷ 0xff ∷ 0x01 ∷ 0x00
        ∷ 0x00 ∷ 0x45 ∷ 0x00 ∷ 0x00 ∷ 0xff ∷ 0x2f ∷ 0x00 ∷ []))
        ≡ Err (31, NoStatus) }
    // Two tracks: the header has two bytes more, chunks of another type stand before each track, and
    // bytes follow the last.
    ensures skipped_chunks { file_at (0x4d ∷ 0x54 ∷ 0x68 ∷ 0x64 ∷ 0x00 ∷ 0x00 ∷ 0x00 ∷ 0x08 ∷ 0x00
        ∷ 0x01 ∷ 0x00 ∷ 0x02 ∷ 0x00 ∷ 0x60 ∷ 0x09 ∷ 0x09 ∷ 0x58 ∷ 0x46 ∷ 0x49 ∷ 0x48 ∷ 0x00 ∷ 0x00
        ∷ 0x00 ∷ 0x01 ∷ 0xff ∷ 0x4d ∷ 0x54 ∷ 0x72 ∷ 0x6b ∷ 0x00 ∷ 0x00 ∷ 0x00 ∷ 0x04 ∷ 0x00 ∷ 0xff
        ∷ 0x2f ∷ 0x00 ∷ 0x58 ∷ 0x46 ∷ 0x49 ∷ 0x48 ∷ 0x00 ∷ 0x00 ∷ 0x00 ∷ 0x00 ∷ 0x4d ∷ 0x54 ∷ 0x72
        ∷ 0x6b ∷ 0x00 ∷ 0x00 ∷ 0x00 ∷ 0x04 ∷ 0x10 ∷ 0xff ∷ 0x2f ∷ 0x00 ∷ 0x58 ∷ 0x46 ∷ 0x49 ∷ [])
        ≡ Ok (record {
          format = 1;
          division = 96;
          tracks = (at 0 end_of_track ∷ [])
              ∷ (at 16 end_of_track ∷ []) ∷ [];
        }) }
    // A system exclusive event takes the running status away too.
    ensures cut_by_sysex { file_at (one_track (0x00 ∷ 0x90 ∷ 0x45 ∷ 0x40 ∷ 0x00 ∷ 0xf7 ∷ 0x01
        ∷ 0xf7 ∷ 0x00 ∷ 0x45 ∷ 0x00 ∷ 0x00 ∷ 0xff ∷ 0x2f ∷ 0x00 ∷ []))
        ≡ Err (31, NoStatus) }
    // A quantity may have zeros in front, within four bytes.
    ensures long_delta { file_at (one_track (0x80 ∷ 0x80 ∷ 0x00 ∷ 0xff ∷ 0x2f ∷ 0x00 ∷ []))
        ≡ Ok (record { format = 0; division = 96; tracks = (at 0 end_of_track ∷ []) ∷ [] }) }
    ensures bad_delta { file_at (one_track (0x81 ∷ 0x82 ∷ 0x83 ∷ 0x84 ∷ 0x05 ∷ []))
        ≡ Err (25, BadDelta) }
    ensures past_the_chunk { file_at (one_track (0x00 ∷ 0xf0 ∷ 0x05 ∷ 0x7e ∷ 0x7f ∷ []))
        ≡ Err (27, Truncated) }
    ensures last_tick { file_at (one_track (0xff ∷ 0xff ∷ 0xff ∷ 0x7f ∷ 0xff ∷ 0x2f ∷ 0x00 ∷ []))
        ≡ Ok (record {
          format = 0;
          division = 96;
          tracks = (at 268435455 end_of_track ∷ [])
              ∷ [];
        }) }
    ensures too_long { file_at (one_track (0x01 ∷ 0xff ∷ 0x01 ∷ 0x00 ∷ 0xff ∷ 0xff ∷ 0xff ∷ 0x7f
        ∷ 0xff ∷ 0x2f ∷ 0x00 ∷ []))
        ≡ Err (26, TrackTooLong) }
    ensures no_bytes { file_at [] ≡ Err (0, NotMidi) }
    ensures format_2 { file_at (header_of 2 0 1) ≡ Err (8, Format2) }
    ensures no_tracks { file_at (header_of 1 0 0) ≡ Err (10, BadHeader) }
    // 1,025 tracks.
    ensures many_tracks { file_at (header_of 1 4 1) ≡ Err (10, TooManyTracks) }
    ensures missing_track { file_at (header_of 0 0 1) ≡ Err (14, MissingTrack) }
    ensures bad_length { file_at (one_track (0x00 ∷ 0xf0 ∷ 0xff ∷ 0xff ∷ 0xff ∷ 0xff ∷ []))
        ≡ Err (27, BadDelta) }
    ensures bad_status { file_at (one_track (0x00 ∷ 0xf8 ∷ [])) ≡ Err (23, BadStatus) }
    ensures bad_data { file_at (one_track (0x00 ∷ 0x90 ∷ 0x80 ∷ 0x40 ∷ 0x00 ∷ 0xff ∷ 0x2f ∷ 0x00
        ∷ []))
        ≡ Err (24, BadData) }
    ensures long_end { file_at (one_track (0x00 ∷ 0xff ∷ 0x2f ∷ 0x01 ∷ 0x00 ∷ []))
        ≡ Err (25, BadData) }
    ensures no_content { file_at (one_track []) ≡ Err (22, MissingEnd) }
    ensures no_end { file_at (one_track (0x00 ∷ 0x90 ∷ 0x45 ∷ 0x40 ∷ [])) ≡ Err (26, MissingEnd) }
{}
