use super::*;
use std::alloc::Global;
use std::test::Fail;

/// What a text is read as: the fields in their order with the entries, or line and kind.
#[derive(Clone, Copy)]
enum Wanted<'a> {
    Map([u64; 6], &'a [Option<u16>]),
    At(u32, u8),
}

fn agrees(answer: &Result<Mapping, KbmFault>, wanted: &Wanted<'_>) -> bool {
    match (answer, wanted) {
        (Ok(m), Wanted::Map(fields, entries)) => {
            m.first as u64 == fields[0]
                && m.last as u64 == fields[1]
                && m.middle as u64 == fields[2]
                && m.reference as u64 == fields[3]
                && m.nanohertz == fields[4]
                && m.octave as u64 == fields[5]
                && m.entries.as_slice() == *entries
        }
        (Err(KbmFault::At { line, kind }), Wanted::At(at, number)) => {
            *line == *at && kind.number() == *number
        }
        _ => false,
    }
}

/// The answer to a text that isn't too long.
fn read(alloc: Global, text: &[u8]) -> Result<Mapping, KbmFault> {
    if text.len() > 262_144 {
        return Err(KbmFault::Memory);
    }
    read_kbm(alloc, text)
}

/// 440 hertz, in nanohertz.
const A440: u64 = 440_000_000_000;

const TWELVE: [Option<u16>; 12] = [
    Some(0),
    None,
    Some(2),
    Some(3),
    Some(4),
    Some(5),
    Some(6),
    Some(7),
    Some(8),
    Some(9),
    Some(10),
    Some(11),
];

/// Texts, with what they are read as.
const CASES: [(&[u8], Wanted<'_>); 44] = [
    // twelve entries, one of them unmapped; six fields; one entry with the standard frequency
    (
        b"12\n0\n127\n60\n69\n440.0\n12\n0\nx\n2\n3\n4\n5\n6\n7\n8\n9\n10\n11\n",
        Wanted::Map([0, 127, 60, 69, A440, 12], &TWELVE),
    ),
    (b"12\n0\n127\n60\n69\n440.0\n", Wanted::At(7, 1)),
    (
        b"1\n0\n127\n60\n60\n261.6255653\n100\n0",
        Wanted::Map([0, 127, 60, 60, 261_625_565_300, 100], &[Some(0)]),
    ),
    // blank lines and comments among entries, CR LF, x and X, text behind values, further lines
    (
        b"! map\r\n3 size\r\n0\r\n127\r\n60\r\n69\r\n440.0\r\n12\r\n\r\n! one\r\n \t\r\n 5 five\r\nX\r\n\r\nx y\r\nmore\r\n",
        Wanted::Map([0, 127, 60, 69, A440, 12], &[Some(5), None, None]),
    ),
    // fewer entries than the size
    (
        b"3\n0\n127\n60\n69\n440.0\n12\n7\n",
        Wanted::Map([0, 127, 60, 69, A440, 12], &[Some(7), None, None]),
    ),
    (
        b"2\n0\n127\n60\n69\n440.0\n12",
        Wanted::Map([0, 127, 60, 69, A440, 12], &[None, None]),
    ),
    // the size
    (b"", Wanted::At(1, 1)),
    (b"! a text that ends within a comment", Wanted::At(2, 1)),
    (b"x", Wanted::At(1, 2)),
    (b"\n0", Wanted::At(1, 2)),
    (b"4097", Wanted::At(1, 3)),
    (
        b"0\n0\n127\n60\n69\n440.0\n12\nno entry",
        Wanted::Map([0, 127, 60, 69, A440, 12], &[]),
    ),
    // the keys
    (b"12\n128\n", Wanted::At(2, 4)),
    (b"12\nx\n", Wanted::At(2, 2)),
    (b"0\n5\n4\n", Wanted::At(3, 4)),
    (b"0\n0\n128\n", Wanted::At(3, 4)),
    (b"0\n0\n127\n128\n", Wanted::At(4, 4)),
    (b"0\n0\n127\n60\n128\n", Wanted::At(5, 4)),
    (
        b"0\n127\n127\n127\n127\n440\n0",
        Wanted::Map([127, 127, 127, 127, A440, 0], &[]),
    ),
    (
        b"0\n0\n0\n0\n0\n440\n0",
        Wanted::Map([0, 0, 0, 0, A440, 0], &[]),
    ),
    (b"! x\n0\n! x\n0\n127\n60\n-1\n", Wanted::At(7, 2)),
    // the frequency
    (b"0\n0\n127\n60\n69\n0.0\n", Wanted::At(6, 5)),
    (b"0\n0\n127\n60\n69\n.\n", Wanted::At(6, 5)),
    (b"0\n0\n127\n60\n69\n-440.0\n", Wanted::At(6, 5)),
    (b"0\n0\n127\n60\n69\nx\n", Wanted::At(6, 5)),
    (b"0\n0\n127\n60\n69\n0.0000000009\n", Wanted::At(6, 5)),
    (
        b"0\n0\n127\n60\n69\n440.1234567899\n0",
        Wanted::Map([0, 127, 60, 69, 440_123_456_789, 0], &[]),
    ),
    (
        b"0\n0\n127\n60\n69\n.5\n0",
        Wanted::Map([0, 127, 60, 69, 500_000_000, 0], &[]),
    ),
    (
        b"0\n0\n127\n60\n69\n440\n0",
        Wanted::Map([0, 127, 60, 69, A440, 0], &[]),
    ),
    (
        b"0\n0\n127\n60\n69\n440.\n0",
        Wanted::Map([0, 127, 60, 69, A440, 0], &[]),
    ),
    (
        b"0\n0\n127\n60\n69\n440.0.0\n0",
        Wanted::Map([0, 127, 60, 69, A440, 0], &[]),
    ),
    (
        b"0\n0\n127\n60\n69\n0.000000001\n0",
        Wanted::Map([0, 127, 60, 69, 1, 0], &[]),
    ),
    (
        b"0\n0\n127\n60\n69\n1000000\n0",
        Wanted::Map([0, 127, 60, 69, 1_000_000_000_000_000, 0], &[]),
    ),
    (
        b"0\n0\n127\n60\n69\n1000000.0000000009\n0",
        Wanted::Map([0, 127, 60, 69, 1_000_000_000_000_000, 0], &[]),
    ),
    (b"0\n0\n127\n60\n69\n1000000.000000001\n0", Wanted::At(6, 5)),
    (b"0\n0\n127\n60\n69\n1000001\n0", Wanted::At(6, 5)),
    // the octave and the entries
    (b"0\n0\n127\n60\n69\n440.0\n16384", Wanted::At(7, 7)),
    (b"0\n0\n127\n60\n69\n440.0\n", Wanted::At(7, 1)),
    (b"0\n0\n127\n60\n69\n440.0\nx", Wanted::At(7, 2)),
    (
        b"1\n0\n127\n60\n69\n440.0\n16383\n16383",
        Wanted::Map([0, 127, 60, 69, A440, 16383], &[Some(16383)]),
    ),
    (b"1\n0\n127\n60\n69\n440.0\n12\n16384", Wanted::At(8, 7)),
    (b"1\n0\n127\n60\n69\n440.0\n12\n\n-", Wanted::At(9, 6)),
    (
        b"1\n0\n127\n60\n69\n440.0\n12\n99999999999999999999",
        Wanted::At(8, 7),
    ),
    (b"2\n0\n127\n60\n69\n440.0\n12\n0\nyes", Wanted::At(9, 6)),
];

#[test]
fn reads_each_text(rt: HostRuntime) -> Result<(), Fail> {
    for (text, wanted) in CASES.iter() {
        assert!(rt; agrees(&read(rt.alloc(), text), wanted));
    }
    Ok(())
}

#[test]
fn makes_the_linear_mappings(rt: HostRuntime) -> Result<(), Fail> {
    let standard = Wanted::Map([0, 127, 60, 60, 261_625_565_300, 0], &[]);
    assert!(rt; agrees(&Ok(Mapping::standard(rt.alloc())), &standard));
    let a440 = Wanted::Map([0, 127, 69, 69, 440_000_000_000, 0], &[]);
    assert!(rt; agrees(&Ok(Mapping::a440(rt.alloc())), &a440));
    Ok(())
}

#[test]
fn reads_as_many_entries_as_the_size(rt: HostRuntime) -> Result<(), Fail> {
    match read(rt.alloc(), b"4096\n0\n127\n60\n69\n440.0\n12\n") {
        Ok(mapping) => assert_eq!(rt; mapping.entries.len(), 4096),
        Err(_) => assert!(rt; false),
    }
    Ok(())
}
