/// Which content a load is for.
#[derive(Clone, Copy, Debug, PartialEq, Eq)]
pub enum Which {
    Scale,
    Map,
    Input,
}
