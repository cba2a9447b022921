ghost use Rattle.std.specs.Prelude.{◌≡◌, ◌≤◌, OnOk, OnErr, length, IfOk, IsErrOf};
ghost use Rattle.mtune_files.specs.Outside.{Outside, IsHeld, IsLongerThan, IsWithin, MayFail, after_load, after_failed_load, after_store, AfterFailedStore, after_say, AfterFailedSay};

use crate::which::Which;
use std::alloc::Global;

/// Why a content could not be loaded.
#[derive(Debug, Drop)]
pub enum LoadFault {
    /// Nothing is held at the name, or it could not be read.
    Failed,
    /// What is held has more bytes than the limit.
    TooLong,
    /// It is within the limit, but there was no memory for it.
    Memory,
}

/// A content could not be stored.
#[derive(Debug, Drop)]
pub struct StoreFailed;

/// A text could not be said.
#[derive(Debug, Drop)]
pub struct SayFailed;

/// The files and the terminal around the program.
///
/// `outside` is what an implementation tells of them: what names hold and what was said, each where
/// it is told; how many calls of each kind failed, and how many were made; and whether a name that
/// is held is always loaded.
pub trait Files {
    ghost outside: { Self → Outside };

    /// The content at a name, of at most `limit` bytes.
    fn load(
        &mut self,
        alloc: Global,
        which: Which,
        name: &str,
        limit: u32,
    ) -> Result<Vec<u8>, LoadFault>
        ensures content { IfOk result (λ v. IsHeld (outside self.old) name.now v.items) }
        ensures short { IfOk result (λ v. length v.items ≤ limit) }
        ensures too_long { IsErrOf result LoadFault.TooLong
            → IsLongerThan (outside self.old) name.now limit }
        ensures memory { IsErrOf result LoadFault.Memory
            → IsWithin (outside self.old) name.now limit }
        ensures may_fail { IsErrOf result LoadFault.Failed
            → MayFail (outside self.old) name.now }
        ensures failed { IsErrOf result LoadFault.Failed
            → outside self.new ≡ after_failed_load which (outside self.old) }
        ensures loaded { ¬ IsErrOf result LoadFault.Failed
            → outside self.new ≡ after_load which (outside self.old) };

    /// Gives a name a content. After a failure it isn't known what is held at the name.
    fn store(&mut self, name: &str, content: &[u8]) -> Result<(), StoreFailed>
        ensures stored { OnOk result
            (outside self.new ≡ after_store name.now content.now (outside self.old)) }
        ensures failed { OnErr result
            (AfterFailedStore name.now (outside self.old) (outside self.new)) };

    /// Says a text. After a failure a part of it, from its start on, was said.
    fn say(&mut self, text: &[u8]) -> Result<(), SayFailed>
        ensures said { OnOk result (outside self.new ≡ after_say text.now (outside self.old)) }
        ensures failed { OnErr result
            (AfterFailedSay text.now (outside self.old) (outside self.new)) };
}
