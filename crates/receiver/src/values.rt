ghost use Rattle.std.specs.Prelude.{◌≡◌, ◌≤◌, ◌↔◌, ℕ, IsTrue, true};
ghost use Rattle.midi_model.specs.Params.{rank, value_of};
ghost use Rattle.midi_model.specs.Channel.{counted};
ghost use Rattle.midi_model.specs.WellFormed.{IsEntered};
ghost use Rattle.midi_model.specs.Zones.{bend_range};
ghost use Rattle.receiver.specs.Kept.{is_apart};
ghost use Rattle.receiver.specs.Params.{numbered, parameter_of, entry_of, entries_of};
ghost use Rattle.receiver.specs.Roles.{given};
ghost use Rattle.receiver.specs.State.{own_of};

use crate::others::{has_room, put_in, value_in};
use crate::param::{Param, is_kept_apart, rank_of};
use crate::state::ChannelState;
use arrayvec::ArrayVec;
use midi_model::parameter_laws;

// The parameters of a channel: what their values are, and what gives them a value.
impl ChannelState {
    /// The value of a parameter.
    fn value_at(&self, registered: bool, high: u8, low: u8) -> (u8, u8)
        ensures { result ≡ value_of (own_of self.now).params (numbered registered high low) }
    {
        parameter_laws();
        let rank = rank_of(registered, high, low);
        if !is_kept_apart(rank) {
            return value_in(self.others.as_slice(), registered, high, low);
        }
        if rank == 0 {
            self.fixed[0]
        } else if rank == 1 {
            self.fixed[1]
        } else if rank == 2 {
            self.fixed[2]
        } else {
            self.fixed[3]
        }
    }

    /// The value of a parameter, in bytes of seven bits.
    pub fn value(&self, registered: bool, high: u8, low: u8) -> (u8, u8)
        ensures value { result ≡ value_of (own_of self.now).params (numbered registered high low) }
        ensures high { result.0 ≤ 127 }
        ensures low { result.1 ≤ 127 }
    {
        self.value_at(registered, high, low)
    }

    /// Gives a value to one of the parameters that are kept apart.
    fn set_apart(&mut self, param: Param)
        requires entered { IsEntered (entry_of param) }
        requires apart { is_apart (rank (parameter_of param)) ≡ true }
        ensures own { own_of self.new ≡ given (own_of self.old) param }
        ensures keys { self.new.keys ≡ self.old.keys }
        ensures tuning { self.new.tuning ≡ self.old.tuning }
    {
        parameter_laws();
        let rank = param.rank();
        if rank == 0 {
            self.fixed[0] = param.value;
        } else if rank == 1 {
            self.fixed[1] = param.value;
        } else if rank == 2 {
            self.fixed[2] = param.value;
        } else {
            self.fixed[3] = param.value;
        }
    }

    /// Gives a parameter a value.
    pub(crate) fn set_value(&mut self, param: Param)
        requires entered { IsEntered (entry_of param) }
        requires room { counted (given (own_of self.old) param) ≤ 16 }
        ensures own { own_of self.new ≡ given (own_of self.old) param }
        ensures keys { self.new.keys ≡ self.old.keys }
        ensures tuning { self.new.tuning ≡ self.old.tuning }
    {
        parameter_laws();
        if is_kept_apart(param.rank()) {
            self.set_apart(param);
        } else {
            put_in(&mut self.others, param);
        }
    }

    /// Whether at most 16 parameters count now.
    pub(crate) fn is_within_limit(&self) -> bool
        ensures { IsTrue result ↔ (counted (own_of self.now) ≤ 16) }
    {
        self.others.len() <= 16
    }

    /// Whether a parameter can be given this value.
    pub(crate) fn has_room(&self, param: Param) -> bool
        requires entered { IsEntered (entry_of param) }
        ensures { IsTrue result ↔ (counted (given (own_of self.now) param) ≤ 16) }
    {
        parameter_laws();
        if is_kept_apart(param.rank()) {
            self.others.len() <= 16
        } else {
            has_room(&self.others, param)
        }
    }

    /// The bend sensitivity in semitones, RPN 0.
    pub fn bend_range(&mut self, semitones: u8)
        requires { semitones ≤ 127 }
        ensures own { own_of self.new ≡ bend_range semitones (own_of self.old) }
        ensures keys { self.new.keys ≡ self.old.keys }
        ensures tuning { self.new.tuning ≡ self.old.tuning }
    {
        self.set_apart(Param {
            registered: true,
            high: 0,
            low: 0,
            value: (semitones, 0),
        });
    }

    /// The parameters that aren't at their defaults: the registered ones first, then by MSB and
    /// LSB.
    pub fn params(&self) -> ArrayVec<Param, 20>
        ensures { entries_of result.items ≡ (own_of self.now).params }
    {
        let mut params = ArrayVec::new();
        for param in self.others.as_slice() {
            params.push(*param);
        }
        put_in(&mut params, Param::registered(5, self.fixed[3]));
        put_in(&mut params, Param::registered(2, self.fixed[2]));
        put_in(&mut params, Param::registered(1, self.fixed[1]));
        put_in(&mut params, Param::registered(0, self.fixed[0]));
        params
    }
}
