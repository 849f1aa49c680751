//! The schedulers' policies leave nothing open: under each, requests have one replay.

ghost use Rattle.blk_deadline.specs.Choice.{deadline_policy};
ghost use Rattle.blk_earliest.specs.Choice.{earliest_policy};
ghost use Rattle.blk_kyber.specs.State.{kyber_policy};
ghost use Rattle.blk_none.specs.Choice.{none_policy};
ghost use Rattle.blk_replay.specs.Replay.{IsDetermined};

/// A theorem: it does nothing at run time, and a caller has its clauses. Deadline's is whatever its settings, with either rule for positions.
pub fn law_of_determined()
    ensures none { IsDetermined none_policy }
    ensures deadline { IsDetermined deadline_policy }
    ensures kyber { IsDetermined kyber_policy }
    ensures earliest { IsDetermined earliest_policy }
{}
