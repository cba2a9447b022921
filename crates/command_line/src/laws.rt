//! What some words say. The function does nothing: its contract is what is stated.

ghost use Rattle.std.specs.Prelude.{◌≡◌, [], codes, None, Some};
ghost use Rattle.command_line.specs.Words.{reading_of, Wrong, Read};
ghost use Rattle.command_line.specs.Channels.{channels_of};
ghost use Rattle.command_line.specs.Examples.{line, least, many};
ghost use Rattle.command_line.specs.NumberLaws.{NumbersAreRead};

/// Words by example; and the number of a text that `clap` takes as one within some bounds is what
/// its digits say.
pub fn words_by_example()
    ensures none { reading_of [] ≡ Wrong 1 }
    ensures help { reading_of (line (codes "--help")) ≡ Wrong 1 }
    ensures least { reading_of (line (codes "--scale s --out o i")) ≡ Read least }
    ensures many { reading_of (line (codes
        "i --out=o --route=live --program 7 --drums retune --map m --audit --scale s"))
        ≡ Read many }
    ensures range { reading_of (line (codes "--scale s --range 97 --out o i")) ≡ Wrong 1 }
    ensures listed { reading_of (line (codes
        "--scale s --drums mute --tail 1 --route mpe --out o i")) ≡ Wrong 2 }
    ensures fits { reading_of (line (codes "--scale s --tail 1 --route mpe --out o i"))
        ≡ Wrong 3 }
    ensures channels { channels_of (codes "1-9,11,16") ≡ Some 34303 }
    ensures no_channels { channels_of (codes "0") ≡ None }
    ensures zero { channels_of (codes "01") ≡ None }
    ensures turned { channels_of (codes "3-2") ≡ None }
    ensures open { channels_of (codes "3-") ≡ None }
    ensures beyond { channels_of (codes "17") ≡ None }
    ensures numbers { NumbersAreRead }
{}
