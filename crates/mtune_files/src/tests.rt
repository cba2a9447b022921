ghost use Rattle.std.specs.Prelude.{◌≤◌};

use super::*;
use mt_base::Memory;
use std::alloc::Global;
use std::test::Fail;

fn counts(files: &MemFiles) -> [u64; 5] {
    [
        files.count(0),
        files.count(1),
        files.count(2),
        files.count(3),
        files.count(4),
    ]
}

#[test]
fn holds_what_was_added(rt: HostRuntime) -> Result<(), Fail> {
    let alloc = rt.alloc();
    let mut files = MemFiles::new(alloc);
    files.add("a.scl", b"one")?;
    files.add("b.mid", b"four")?;
    files.add("a.scl", b"two")?;
    assert!(rt; files.content("a.scl") == Some(b"two"));
    assert!(rt; files.content("b.mid") == Some(b"four"));
    assert!(rt; files.content("a").is_none());
    assert!(rt; files.text().is_empty());
    assert_eq!(rt; counts(&files), [0, 0, 0, 0, 0]);
    Ok(())
}

#[test]
fn loads_up_to_the_limit(rt: HostRuntime) -> Result<(), Fail> {
    let alloc = rt.alloc();
    let mut files = MemFiles::new(alloc);
    files.add("b.mid", b"four")?;
    match files.load(alloc, Which::Input, "b.mid", 4) {
        Ok(content) => assert!(rt; content.as_slice() == b"four".as_slice()),
        Err(_) => assert!(rt; false),
    }
    let long = files.load(alloc, Which::Input, "b.mid", 3);
    assert!(rt; matches!(long, Err(LoadFault::TooLong)));
    assert_eq!(rt; counts(&files), [0, 0, 0, 0, 0]);
    let missing = files.load(alloc, Which::Map, "c.kbm", 4);
    assert!(rt; matches!(missing, Err(LoadFault::Failed)));
    assert_eq!(rt; counts(&files), [0, 1, 0, 0, 0]);
    Ok(())
}

#[test]
fn stores_and_says(rt: HostRuntime) -> Result<(), Fail> {
    let mut files = MemFiles::new(rt.alloc());
    files.add("out.mid", b"old")?;
    assert!(rt; files.store("out.mid", b"newer").is_ok());
    assert!(rt; files.say(b"notes 1\n").is_ok());
    assert!(rt; files.say(b"channels 1\n").is_ok());
    assert!(rt; files.content("out.mid") == Some(b"newer"));
    assert!(rt; files.text() == b"notes 1\nchannels 1\n".as_slice());
    assert_eq!(rt; counts(&files), [0, 0, 0, 0, 0]);
    Ok(())
}

#[test]
fn fails_the_calls_that_are_set(rt: HostRuntime) -> Result<(), Fail> {
    let alloc = rt.alloc();
    let mut files = MemFiles::new(alloc);
    files.add("a.scl", b"one")?;
    files.fail(1)?;
    files.fail_after(3, 7)?;
    files.fail_after(3, 2)?;
    files.fail_after(5, 1)?;
    files.fail_after(6, 9)?;
    let first = files.load(alloc, Which::Scale, "a.scl", 3);
    assert!(rt; matches!(first, Err(LoadFault::Failed)));
    assert!(rt; files.load(alloc, Which::Scale, "a.scl", 3).is_ok());
    assert!(rt; files.store("a.scl", b"two").is_err());
    assert!(rt; files.content("a.scl") == Some(b"tw"));
    assert!(rt; files.say(b"x").is_ok());
    assert!(rt; files.say(b"yes").is_err());
    assert!(rt; files.say(b"z").is_err());
    assert!(rt; files.text() == b"xyz".as_slice());
    assert_eq!(rt; counts(&files), [1, 0, 0, 1, 2]);
    Ok(())
}

/// A sum over all bytes in which their order counts.
fn sum_of(bytes: &[u8]) -> u32 {
    let mut sum = 0u32;
    for byte in bytes {
        sum = sum.wrapping_mul(31).wrapping_add(u32::from(*byte));
    }
    sum
}

/// How many bytes a sample of so many chords has, and their sum.
fn sample_sum(alloc: Global, chords: u32) -> Result<(usize, u32), Memory>
    requires some { 1 ≤ chords }
    requires few { chords ≤ MOST_CHORDS }
{
    let bytes = sample(alloc, chords)?;
    Ok((bytes.len(), sum_of(&bytes)))
}

// The lengths and sums are those of bytes that were made by another program.
#[test]
fn samples(rt: HostRuntime) -> Result<(), Fail> {
    let alloc = rt.alloc();
    let bytes = sample(alloc, 1).ok().ok_or("memory")?;
    assert!(rt;
        bytes.as_slice()
            == b"MThd\x00\x00\x00\x06\x00\x00\x00\x01\x01\xe0MTrk\x00\x00\x00\x20\x00\xc0\x00\x00\xb0\x07\x28\x00\x90\x30\x40\x00\x34\x40\x00\x37\x40\x83\x60\x80\x30\x40\x00\x34\x40\x00\x37\x40\x00\xff\x2f\x00".as_slice()
    );
    assert!(rt; sample_sum(alloc, 1) == Ok((54, 105_482_363)));
    assert!(rt; sample_sum(alloc, 2) == Ok((83, 2_324_320_939)));
    assert!(rt; sample_sum(alloc, 3) == Ok((111, 3_055_633_079)));
    assert!(rt; sample_sum(alloc, 1000) == Ok((28_027, 135_528_590)));
    assert!(rt; sample_sum(alloc, 99_999) == Ok((2_799_999, 1_848_382_146)));
    assert!(rt; sample_sum(alloc, MOST_CHORDS) == Ok((2_800_027, 1_238_914_136)));
    sample_examples();
    Ok(())
}
