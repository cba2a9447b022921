use super::*;
use std::alloc::Global;
use std::test::Fail;

/// What a text is read as.
#[derive(Clone, Copy)]
enum Wanted<'a> {
    Entries(&'a [Entry]),
    Cents(i64),
    Ratio(u64, u64),
    At(u32, u8),
}

fn agrees(answer: &Result<Scale, SclFault>, wanted: &Wanted<'_>) -> bool {
    match (answer, wanted) {
        (Ok(scale), Wanted::Entries(entries)) => scale.entries.as_slice() == *entries,
        (Ok(scale), Wanted::Cents(nanocents)) => {
            let nanocents = *nanocents;
            scale.entries.as_slice() == [Entry::Cents { nanocents }].as_slice()
        }
        (Ok(scale), Wanted::Ratio(num, den)) => {
            let (num, den) = (*num, *den);
            scale.entries.as_slice() == [Entry::Ratio { num, den }].as_slice()
        }
        (Err(SclFault::At { line, kind }), Wanted::At(at, number)) => {
            *line == *at && kind.number() == *number
        }
        _ => false,
    }
}

/// The answer to a text that isn't too long.
fn read(alloc: Global, text: &[u8]) -> Result<Scale, SclFault> {
    if text.len() > 262_144 {
        return Err(SclFault::Memory);
    }
    read_scl(alloc, text)
}

/// The greatest number of a ratio.
const GREATEST: u64 = 9_223_372_036_854_775_807;

const FOUR: [Entry; 4] = [
    Entry::Cents {
        nanocents: 100_000_000_000,
    },
    Entry::Ratio { num: 5, den: 4 },
    Entry::Cents {
        nanocents: 408_000_000_000,
    },
    Entry::Cents {
        nanocents: -5_000_000_000,
    },
];

/// Texts, with what they are read as.
const CASES: [(&[u8], Wanted<'_>); 40] = [
    // four entries, with a comment, text behind values, and no LF at the end
    (
        b"! x\ntest\n 4\n100.0 cents\n5/4   E\\\n408.\n-5.0",
        Wanted::Entries(&FOUR),
    ),
    (
        b"! x\r\ntest\r\n 4\r\n100.0 cents\r\n5/4   E\\\r\n408.\r\n-5.0\r\n",
        Wanted::Entries(&FOUR),
    ),
    (
        b"! x\ntest\n 4\n100.0 cents\n5/4   E\\\n408.\n-5",
        Wanted::At(7, 6),
    ),
    (
        b"! x\ntest\n 4\n100.0 cents\n5/4   E\\\n408.\n",
        Wanted::At(7, 9),
    ),
    // each kind
    (b"", Wanted::At(1, 1)),
    (b"! a text that ends within a comment", Wanted::At(2, 1)),
    (b"test\n! one\n", Wanted::At(3, 2)),
    (b"test\n x 1\n", Wanted::At(2, 3)),
    (b"test\n0", Wanted::At(2, 4)),
    (b"test\n4097", Wanted::At(2, 4)),
    (b"test\n99999999999999999999999999", Wanted::At(2, 4)),
    (b"test\n1\n1/", Wanted::At(3, 5)),
    (b"test\n1\n", Wanted::At(3, 9)),
    (b"test\n1\n-1/2", Wanted::At(3, 6)),
    (b"test\n1\n0/5", Wanted::At(3, 7)),
    (b"test\n1\n1000001.0", Wanted::At(3, 8)),
    (b"test\n1\n! end", Wanted::At(4, 9)),
    // bad pitches
    (b"test\n1\n.", Wanted::At(3, 5)),
    (b"test\n1\n-", Wanted::At(3, 5)),
    (b"test\n1\n/4", Wanted::At(3, 5)),
    (b"test\n1\n-5/x", Wanted::At(3, 5)),
    (b"test\n1\n\n5/4", Wanted::At(3, 5)),
    // several kinds on one line
    (b"test\n1\n0/9223372036854775808", Wanted::At(3, 8)),
    (b"test\n1\n-0/9223372036854775808", Wanted::At(3, 6)),
    // any bytes in the description, which may be empty; blanks; further lines
    (b"\xff\xfe\n1\n2/1\n", Wanted::Ratio(2, 1)),
    (b"\n\t 1 note\n \t2/1\nmore\n", Wanted::Ratio(2, 1)),
    (b"test\n1\n2\n", Wanted::Ratio(2, 1)),
    (b"test\n01\n0002/01\n", Wanted::Ratio(2, 1)),
    (b"test\n! x\n1\n!\n1\n", Wanted::Ratio(1, 1)),
    (b"test\n1\n! no comment \n !\n", Wanted::At(4, 5)),
    // the least and the GREATEST of each range, and one beyond
    (
        b"test\n1\n9223372036854775807/9223372036854775807",
        Wanted::Ratio(GREATEST, GREATEST),
    ),
    (b"test\n1\n9223372036854775808", Wanted::At(3, 8)),
    (b"test\n1\n1/9223372036854775808", Wanted::At(3, 8)),
    (b"test\n1\n0", Wanted::At(3, 7)),
    (
        b"test\n1\n1000000.9999999999",
        Wanted::Cents(1_000_000_999_999_999),
    ),
    (
        b"test\n1\n-1000000.999999999",
        Wanted::Cents(-1_000_000_999_999_999),
    ),
    (b"test\n1\n-1000001.", Wanted::At(3, 8)),
    // decimals: the first nine count
    (b"test\n1\n.0000000019", Wanted::Cents(1)),
    (b"test\n1\n701.955", Wanted::Cents(701_955_000_000)),
    (b"test\n1\n-.5.5", Wanted::Cents(-500_000_000)),
];

#[test]
fn reads_each_text(rt: HostRuntime) -> Result<(), Fail> {
    for (text, wanted) in CASES.iter() {
        assert!(rt; agrees(&read(rt.alloc(), text), wanted));
    }
    Ok(())
}

#[test]
fn reads_as_many_entries_as_the_count(rt: HostRuntime) -> Result<(), Fail> {
    let mut text = Vec::from_slice(rt.alloc(), b"test\n4096\n")?;
    for _ in 0..4096 {
        text.extend_from_slice(b"3/2\n")?;
    }
    match read(rt.alloc(), text.as_slice()) {
        Ok(scale) => assert_eq!(rt; scale.entries.len(), 4096),
        Err(_) => assert!(rt; false),
    }
    Ok(())
}
