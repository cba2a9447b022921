ghost use Rattle.std.specs.Prelude.{◌≡◌, ◌<◌, ◌≤◌, ◌↔◌, ℕ, length, map, slice_index, IsTrue, IfOk, IfErr};
ghost use Rattle.midi_model.specs.Params.{put, value_of, IsCanonical, default_value};
ghost use Rattle.receiver.specs.Params.{IsAt, AreLower, IsHigher, parameter_of, numbered, entries_of};

use crate::param::{Param, default_of, rank_of};
use arrayvec::ArrayVec;

/// The place of the parameter of this rank in a list; where there is none, the place at which it
/// belongs.
fn place(others: &[Param], rank: u16) -> Result<usize, usize>
    ensures found { IfOk result (IsAt rank others.now) }
    ensures before { IfOk result (AreLower rank others.now) }
    ensures bound { IfErr result (λ at. at ≤ length others.now) }
    ensures above { IfErr result (IsHigher rank others.now) }
    ensures below { IfErr result (AreLower rank others.now) }
{
    for at in 0..others.len() {
        let here = others[at].rank();
        if here == rank {
            return Ok(at);
        }
        if here > rank {
            return Err(at);
        }
    }
    Err(others.len())
}

/// Gives a parameter its value in a list in the order of ranks, which holds no default.
pub(crate) fn put_in<const N: usize>(others: &mut ArrayVec<Param, N>, param: Param)
    requires { length (put (parameter_of param) param.value (entries_of others.old.items)) ≤ N }
    ensures { entries_of others.new.items
        ≡ put (parameter_of param) param.value (entries_of others.old.items) }
{
    match place(others.as_slice(), param.rank()) {
        Ok(at) => {
            others.remove(at);
            if !param.is_default() {
                others.insert(at, param);
            }
        }
        Err(at) => {
            if !param.is_default() {
                others.insert(at, param);
            }
        }
    }
}

/// The value of a parameter in such a list.
pub(crate) fn value_in(others: &[Param], registered: bool, high: u8, low: u8) -> (u8, u8)
    requires { IsCanonical (entries_of others.now) }
    ensures { result ≡ value_of (entries_of others.now) (numbered registered high low) }
{
    match place(others, rank_of(registered, high, low)) {
        Ok(at) => others[at].value,
        Err(_) => default_of(registered, high, low),
    }
}

/// Whether the list has room for this value of a parameter.
pub(crate) fn has_room(others: &ArrayVec<Param, 16>, param: Param) -> bool
    ensures { IsTrue result
        ↔ (length (put (parameter_of param) param.value (entries_of others.now.items)) ≤ 16) }
{
    match place(others.as_slice(), param.rank()) {
        Ok(_) => true,
        Err(_) => others.len() < 16 || param.is_default(),
    }
}
