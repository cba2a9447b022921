ghost use Rattle.std.specs.Prelude.{◌≡◌, ℕ, List};
ghost use Rattle.mtune_files.specs.Outside.{Outside};
ghost use Rattle.mtune_core.specs.Accepted.{IsAccepted, NoneRose};
ghost use Rattle.mtune_core.specs.Call.{IsRefused};
ghost use Rattle.mtune_core.specs.declared.outcome.Fault.{Fault};

use channel_model::refusal_laws;
use kbm_text::one_answer as one_mapping;
use midi_model::file_laws;
use mt_base::laws::ends;
use retune_model::fault_laws;
use scl_text::one_answer;

/// Where the words and the contents are accepted and no count rose, no fault but want of memory has
/// its cause: a name holds one content, a text is one scale or one mapping and has no fault, and bytes
/// spell one file and have no fault. Keys whose scale pitches are in a device's reach have targets. What
/// fits isn't refused.
pub fn accepted_has_no_fault()
    ensures { (before now : Outside) (words : List (List ℕ)) (fault : Fault)
        → IsAccepted before words → NoneRose before.faults now.faults
        → IsRefused before now words fault → fault ≡ Fault.Memory }
{
    ends();
    fault_laws();
    refusal_laws();
    file_laws();
    one_answer();
    one_mapping();
}
