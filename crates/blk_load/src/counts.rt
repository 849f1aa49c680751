//! What is counted once the threads of a load have ended.

ghost use Rattle.std.specs.Prelude.{◌≡◌, IfSome, length};
ghost use Rattle.blk_layer.specs.Closing.{all_accepted};

use blk_layer::{Named, Submitter};

/// How many bios the submitters' accounts have together, where that is a number of 64 bits.
#[tactic(auto, using(crate::proofs::Counted::accepted_more, crate::proofs::Counted::none_accepted))]
pub(crate) fn accepted<L: Named>(submitters: &[Submitter<L>]) -> Option<u64>
    ensures { IfSome result (λ n. n ≡ length (all_accepted submitters.now)) }
{
    let mut count = 0u64;
    for submitter in submitters {
        count = count.checked_add(submitter.accepted().len() as u64)?;
    }
    Some(count)
}
