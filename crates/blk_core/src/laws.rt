//! What a core says of its open picks, in the words of legal lists of events; each law is the contract of a function that
//! does nothing.

ghost use Rattle.std.specs.Prelude.{ℕ, ◌≡◌, ◌+◌, ◌↔◌, List, length};
ghost use Rattle.blk_bio.specs.declared.bio.Dir.TheVariants.{Read, Write};
ghost use Rattle.blk_trace.specs.Happened.{Happened};
ghost use Rattle.blk_trace.specs.Events.{IsOpen, open_count};
ghost use Rattle.blk_core.specs.State.{PicksAreOpenIssues};
ghost use Rattle.blk_core.specs.Opens.{IsListed, InEachLegalTrace, open_issues, open_issues_of};

/// An id and a tag are listed as an open Issue exactly where the tag has an Issue of the id with no Done and no Back after it.
pub fn listed_issues_are_open()
    ensures { (es : List Happened) → (id tag : ℕ) → (IsListed es id tag ↔ ((is : IsOpen es tag) × (is.id ≡ id))) }
{}

/// The open picks are the open Issues: in a legal list of events those of both directions are as many as all open Issues,
/// which are the Issues less the Dones and the Backs. So the picks that a scheduler holds open are those that a tick waits for.
pub fn open_picks_are_open_issues()
    ensures both { InEachLegalTrace (λ setup es. open_issues_of es Read + open_issues_of es Write ≡ open_count es) }
    ensures all { InEachLegalTrace (λ setup es. length (open_issues es) ≡ open_count es) }
    ensures picks { InEachLegalTrace PicksAreOpenIssues }
{}
