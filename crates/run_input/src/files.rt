// The bytes of files, one after another.
ghost use Rattle.std.specs.Prelude.{◌≡◌, ◌≤◌, [], length, map, All, IfOk, IfErr, IfSome};
ghost use Rattle.std.proofs.Common.{inr};
ghost use Rattle.run_status.specs.Answer.{Leaves};
ghost use Rattle.run_input.specs.Input.{all_read, Stops};

use run_status::file_name;
use std::alloc::Global;
use vs_base::Text;
use vs_base::limits::FILE_BYTES;
use vs_world::{ReadFault, World, read_all};

/// Why not all files were read: the first that was not, by its number from 0, and why.
#[derive(Clone, Copy, Debug, PartialEq, Eq)]
pub struct Stop {
    pub at: usize,
    pub fault: ReadFault,
}

/// The bytes of the files of these names, in order, of at most 4,194,304 bytes each.
///
/// `World`: faults rose, or there is no such file and the count of absent files rose. `TooLong`: the file has more bytes.
pub fn read_files<W: World>(
    alloc: Global,
    world: &mut W,
    names: &[Text],
) -> Result<Vec<Vec<u8>>, Stop>
    ensures found { IfOk result (λ v. IfSome (W.told world.old).files (λ files. all_read files names.now ≡ inr (map (λ b. b.items) v.items))) }
    ensures few { IfOk result (λ v. All (λ bytes. length bytes.items ≤ 4194304) v.items) }
    ensures count { IfOk result (λ v. length v.items ≡ length names.now) }
    ensures stop { IfErr result (λ s. Stops s names.now (W.told world.old) (W.told world.new)) }
    ensures rest { Leaves [] (W.told world.old) (W.told world.new) }
{
    let mut files = Vec::new(alloc);
    let mut at = 0;
    while at < names.len() {
        let bytes = match read_all(alloc, world, file_name(names, at), FILE_BYTES) {
            Ok(bytes) => bytes,
            Err(fault) => return Err(Stop { at, fault }),
        };
        let Ok(()) = files.push(bytes) else {
            let fault = ReadFault::NoMemory;
            return Err(Stop { at, fault });
        };
        at += 1;
    }
    Ok(files)
}
