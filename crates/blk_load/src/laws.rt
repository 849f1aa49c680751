//! What a load is made of, by its numbers.

ghost use Rattle.std.specs.Prelude.{◌≡◌};
ghost use Rattle.blk_queues.specs.declared.plug.TheConstants.{MAX_STAGED};
ghost use Rattle.blk_load.specs.declared.running.TheConstants.{LOAD_SOFT_DEPTH};
ghost use Rattle.blk_load.specs.declared.submitting.TheConstants.{SECTORS, STRIDE};

/// The room of a submitter's plug and of its software queue, in requests, and the sectors of a bio and from one bio to the next, by their
/// numbers.
pub fn law_of_limits()
    ensures room_of_a_plug { MAX_STAGED ≡ 32 }
    ensures room_of_a_software_queue { LOAD_SOFT_DEPTH ≡ 64 }
    ensures sectors { SECTORS ≡ 8 }
    ensures stride { STRIDE ≡ 16 }
{}
