/// What is stored, and what is said of it.
#[derive(Drop)]
pub struct Made {
    /// The bytes of the output file.
    pub output: Vec<u8>,
    /// The text of the report.
    pub report: Vec<u8>,
}
