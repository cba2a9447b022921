ghost use Rattle.std.specs.Prelude.{◌≡◌};
ghost use Rattle.scala_lines.specs.Characters.{is_blank, is_digit, after_blanks, digits_of, after_digits, Are};

fn is_blank(byte: u8) -> bool
    ensures { result ≡ is_blank byte }
{
    byte == b' ' || byte == b'\t'
}

fn is_digit(byte: u8) -> bool
    ensures { result ≡ is_digit byte }
{
    b'0' <= byte && byte <= b'9'
}

/// The bytes behind the spaces and tabs at the start.
pub fn after_blanks(bytes: &[u8]) -> &[u8]
    ensures { result.now ≡ after_blanks bytes.entry.now }
{
    let mut rest = bytes;
    'blanks: while let [byte, after @ ..] = rest {
        if !is_blank(*byte) {
            return rest;
        }
        rest = after;
    }
    rest
}

/// The bytes behind the digits at the start.
fn after_digits(bytes: &[u8]) -> &[u8]
    ensures { result.now ≡ after_digits bytes.entry.now }
{
    let mut rest = bytes;
    'digits: while let [byte, after @ ..] = rest {
        if !is_digit(*byte) {
            return rest;
        }
        rest = after;
    }
    rest
}

#[tactic(auto, using(crate::proofs::Prefixes::take_prefix, crate::proofs::Prefixes::prefix_are, crate::proofs::Prefixes::behind_short))]
/// The digits at the start, and the bytes behind them.
pub fn split_digits(bytes: &[u8]) -> (&[u8], &[u8])
    ensures digits { result.0.now ≡ digits_of bytes.entry.now }
    ensures rest { result.1.now ≡ after_digits bytes.entry.now }
    ensures each { Are is_digit result.0.now }
{
    let rest = after_digits(bytes);
    (&bytes[..bytes.len() - rest.len()], rest)
}
