/// The notes that ended in one step: bit k of channel c stands for a note on key k of that channel.
#[derive(Clone, Copy, Debug)]
pub struct Ends {
    pub keys: [u128; 16],
}
