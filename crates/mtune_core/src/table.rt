ghost use Rattle.std.specs.Prelude.{◌≢◌, None, IfOk, IfErr, OnOk};
ghost use Rattle.retune_model.specs.Scale.{above_middle};
ghost use Rattle.retune_model.specs.Table.{AreFewTerms, one_scale};
ghost use Rattle.key_pitch.specs.Aims.{by_onset};
ghost use Rattle.mtune_core.specs.Table.{IsOneTable, IsTuneFault};

use crate::outcome::Fault;
use kbm_text::Mapping;
use key_pitch::KeyTable;
use scl_text::Scale;

/// The table of a scale and a mapping. It takes no memory.
pub fn key_table(scale: &Scale, mapping: &Mapping) -> Result<KeyTable, Fault>
    ensures table { IfOk result
        (λ t. IsOneTable (one_scale scale.now mapping.now) (by_onset t)) }
    ensures mapped { OnOk result
        (above_middle scale.now mapping.now mapping.now.reference ≢ None) }
    ensures few { OnOk result (AreFewTerms (one_scale scale.now mapping.now)) }
    ensures cause { IfErr result (λ e. IsTuneFault scale.now mapping.now e) }
{
    let table = KeyTable::new(scale, mapping)?;
    Ok(table)
}
