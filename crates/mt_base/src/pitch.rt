/// A pitch, or a distance of pitches, in grains: 32,000,000,000 grains are a cent.
#[derive(Clone, Copy, Debug, PartialEq, Eq, PartialOrd, Ord)]
pub struct Grain(pub i128);

/// Two whole numbers of grains between which a pitch lies.
#[derive(Clone, Copy, Debug, PartialEq, Eq)]
pub struct Bracket {
    pub lo: Grain,
    pub hi: Grain,
}
