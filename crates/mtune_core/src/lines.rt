ghost use Rattle.std.specs.Prelude.{◌≡◌, ◌≤◌, ◌++◌, ◌+◌, length, codes, decimal};
ghost use Rattle.mtune_core.specs.Lines.{fault_line, which_name, source_kind_number, bend_text, source_line};

use crate::outcome::Fault;
use itoa::Buffer;
use lifetimes::{SourceFault, SourceKind};
use mtune_files::Which;
use plan_report::{Line, push_number, too_many_line, too_many_parts_line};

/// A line of a text and a number.
pub fn one(text: &str, number: u32) -> Line
    requires { length text.now ≤ 40 }
    ensures { result.bytes ≡ text.now ++ decimal number ++ codes "\n" }
{
    let mut line = Line::new();
    push_number(&mut line, text, number);
    line.push_str("\n");
    line
}

/// A line of a text and a number, and of a kind.
fn of_kind(text: &str, number: u32, kind: u8) -> Line
    requires { length text.now ≤ 40 }
    ensures { result.bytes ≡ text.now ++ decimal number ++ codes " kind " ++ decimal kind ++ codes "\n" }
{
    let mut line = Line::new();
    push_number(&mut line, text, number);
    push_number(&mut line, " kind ", u32::from(kind));
    line.push_str("\n");
    line
}

/// A line about a content.
fn about(text: &str, which: Which) -> Line
    requires { length text.now ≤ 40 }
    ensures { result.bytes ≡ text.now ++ which_name which ++ codes "\n" }
{
    let mut line = Line::new();
    line.push_str(text);
    line.push_str(match which {
        Which::Scale => "scale",
        Which::Map => "map",
        Which::Input => "input",
    });
    line.push_str("\n");
    line
}

/// A line of a text, a number and the rest of the line.
fn around(text: &str, number: u32, rest: &str) -> Line
    requires text { length text.now ≤ 40 }
    requires rest { length rest.now ≤ 40 }
    ensures { result.bytes ≡ text.now ++ decimal number ++ rest.now }
{
    let mut line = Line::new();
    push_number(&mut line, text, number);
    line.push_str(rest);
    line
}

/// A line of a text alone.
fn plain(text: &str) -> Line
    requires { length text.now ≤ 40 }
    ensures { result.bytes ≡ text.now }
{
    let mut line = Line::new();
    line.push_str(text);
    line
}

/// The number of what a source may not hold.
fn kind_number(kind: SourceKind) -> u32
    ensures number { result ≡ source_kind_number kind }
    ensures low { result ≤ 12 }
{
    match kind {
        SourceKind::UnmappedKey => 1,
        SourceKind::KeyOutOfDevice => 2,
        SourceKind::Unison => 3,
        SourceKind::BendTooFar { .. } => 4,
        SourceKind::ModeMessage => 5,
        SourceKind::DataStep => 6,
        SourceKind::TuningInSource => 7,
        SourceKind::MpeSource => 8,
        SourceKind::Port => 9,
        SourceKind::TooManyParameters => 10,
        SourceKind::PolyInMpe => 11,
        SourceKind::Restrike => 12,
    }
}

/// Appends the steps of a bend that goes too far.
fn push_bend(line: &mut Line, kind: SourceKind)
    requires { length line.old.bytes ≤ 90 }
    ensures text { line.new.bytes ≡ line.old.bytes ++ bend_text kind }
    ensures short { length line.new.bytes ≤ length line.old.bytes + 28 }
{
    if let SourceKind::BendTooFar { steps, moved } = kind {
        line.push_str(" q ");
        line.push_str(Buffer::new().format(steps));
        line.push_str(" r ");
        line.push_str(Buffer::new().format(moved));
    }
}

/// A line about an event of a source.
fn about_event(fault: &SourceFault) -> Line
    ensures { result.bytes ≡ source_line fault.now }
{
    let mut line = Line::new();
    push_number(&mut line, "mtune: input event ", fault.position);
    push_number(&mut line, " tick ", fault.tick);
    push_number(&mut line, " track ", u32::from(fault.track));
    push_number(&mut line, " kind ", kind_number(fault.kind));
    push_bend(&mut line, fault.kind);
    line.push_str("\n");
    line
}

/// The line of a fault, with its line feed; `Say` has none. It takes no memory.
pub fn line_of(fault: &Fault) -> Line
    ensures { result.bytes ≡ fault_line fault.now }
{
    match fault {
        Fault::Usage { kind } => one("mtune: usage ", u32::from(*kind)),
        Fault::Load { which } => about("mtune: cannot load ", *which),
        Fault::TooLong { which } => about("mtune: too long ", *which),
        Fault::Scl { line, kind } => of_kind("mtune: scale line ", *line, kind.number()),
        Fault::Kbm { line, kind } => of_kind("mtune: map line ", *line, kind.number()),
        Fault::ReferenceUnmapped { key } => around(
            "mtune: reference key ",
            u32::from(*key),
            " is not mapped\n",
        ),
        Fault::TooManyPeriods { key } => around(
            "mtune: key ",
            u32::from(*key),
            " has more than 1700 ratio terms\n",
        ),
        Fault::Smf { offset, kind } => of_kind("mtune: input byte ", *offset, kind.number()),
        Fault::Source(fault) => about_event(fault),
        Fault::TooManyParts { port, parts } => too_many_parts_line(*port, *parts),
        Fault::TooManyChannels(fault) => too_many_line(fault),
        Fault::Store => plain("mtune: cannot store\n"),
        Fault::Say => Line::new(),
        Fault::Memory => plain("mtune: out of memory\n"),
    }
}
