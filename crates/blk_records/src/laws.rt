//! Laws of the text forms, each the contract of a function that does nothing.

ghost use Rattle.std.specs.Prelude.{◌≡◌, ◌∷◌, ℕ, List, [], codes};
ghost use Rattle.edd_commands.specs.declared.Command.{Command};
ghost use Rattle.blk_records.specs.Sources.{Row};
ghost use Rattle.blk_records.specs.Laws.{OneValue, ReadsBack, ValueOrFault, NeverBoth, OneFault};
ghost use Rattle.blk_records.specs.Commands.{CommandsFault, OneList, ListReadsBack, ListOrFault, NeverListAndFault};
ghost use Rattle.blk_records.specs.Certificate.{Claim, IsClaim, SpellsClaim, ClaimFault, claim_rows};
ghost use Rattle.blk_records.specs.OnTime.{OnTimeClaim, IsOnTimeClaim, SpellsOnTime, OnTimeClaimFault, on_time_rows};
ghost use Rattle.blk_records.specs.Proof.{OfLateness, OfOnTime, SpellsProof, ProofFault, FaultsAs, StartsAs};
ghost use Rattle.blk_records.specs.Schedule.{IsScheduleView, SpellsSchedule, ScheduleFault, schedule_rows};
ghost use Rattle.blk_records.specs.Words.{NextStarts};
ghost use Rattle.blk_records.specs.declared.certificate.TheConstants.{BOUND, CERTIFICATE, SERVED, SERVED_ROW};
ghost use Rattle.blk_records.specs.declared.commands.TheConstants.{COMMAND, COMMAND_ROW, COMMANDS};
ghost use Rattle.blk_records.specs.declared.fault.TextReason.TheVariants as why;
ghost use Rattle.blk_records.specs.declared.names.FieldName.TheVariants as name;
ghost use Rattle.blk_records.specs.declared.on_time.TheConstants.{NUMBERS, ON_TIME, WINDOW};
ghost use Rattle.blk_records.specs.declared.proof.ProofKind.TheVariants as kind;
ghost use Rattle.blk_records.specs.declared.schedule.TheConstants.{SCHEDULE};

/// Command lists: records spell one at most, and its text reads back as its records, which spell it. Records either spell one
/// or have a fault as one, and not both; and they have one first fault at most.
pub fn commands()
    ensures once { (rows : List Row) → OneList rows }
    ensures back { (depth : ℕ) → (commands : List Command) → ListReadsBack depth commands }
    ensures decided { (rows : List Row) → ListOrFault rows }
    ensures apart { (rows : List Row) → NeverListAndFault rows }
    ensures first { OneFault CommandsFault }
{}

/// Certificates: records spell one at most, and its text reads back as its records, which spell it. Records either spell one
/// or have a fault as one, and not both; and they have one first fault at most.
pub fn certificates()
    ensures once { OneValue SpellsClaim }
    ensures back { ReadsBack IsClaim claim_rows SpellsClaim }
    ensures decided { ValueOrFault SpellsClaim ClaimFault }
    ensures apart { NeverBoth SpellsClaim ClaimFault }
    ensures first { OneFault ClaimFault }
{}

/// The word of the row of a certificate, and the first version that has it.
pub fn words_of_certificates()
    ensures bound { BOUND.word ≡ codes "bound" }
    ensures version { BOUND.since ≡ 1 }
{}

/// Certificates of the greatest number on time: records spell one at most, and its text reads back as its records, which spell it.
/// Records either spell one or have a fault as one, and not both; and they have one first fault at most.
pub fn on_time_certificates()
    ensures once { OneValue SpellsOnTime }
    ensures back { ReadsBack IsOnTimeClaim on_time_rows SpellsOnTime }
    ensures decided { ValueOrFault SpellsOnTime OnTimeClaimFault }
    ensures apart { NeverBoth SpellsOnTime OnTimeClaimFault }
    ensures first { OneFault OnTimeClaimFault }
{}

/// The word of each row of a certificate of the greatest number on time, and the first version that has it.
pub fn words_of_on_time_certificates()
    ensures numbers { NUMBERS.word ≡ codes "met" }
    ensures windows { WINDOW.word ≡ codes "window" }
    ensures versions { (NUMBERS.since ≡ 1) × (WINDOW.since ≡ 1) }
{}

/// Certificates of either form: one is that of the name that its title begins with, and so are its faults; a text that begins
/// with neither name has another title. Records spell one at most; they either spell one or have a fault as one, and not both;
/// and they have one first fault at most.
pub fn certificates_of_both_forms()
    ensures lateness { FaultsAs (codes "blk-certificate") ClaimFault }
    ensures on_time { FaultsAs (codes "blk-met") OnTimeClaimFault }
    ensures neither { (rows : List Row) → ¬ StartsAs kind.Lateness rows → ¬ StartsAs kind.OnTime rows → ProofFault rows 1 why.Title }
    ensures spelled_lateness { (rows : List Row) → (c : Claim) → SpellsProof rows (OfLateness c) → NextStarts (codes "blk-certificate") rows }
    ensures spelled_on_time { (rows : List Row) → (c : OnTimeClaim) → SpellsProof rows (OfOnTime c) → NextStarts (codes "blk-met") rows }
    ensures once { OneValue SpellsProof }
    ensures decided { ValueOrFault SpellsProof ProofFault }
    ensures apart { NeverBoth SpellsProof ProofFault }
    ensures first { OneFault ProofFault }
{}

/// Schedules: records spell one at most, and its text reads back as its records, which spell it. Records either spell one
/// or have a fault as one, and not both; and they have one first fault at most.
pub fn schedules()
    ensures once { OneValue SpellsSchedule }
    ensures back { ReadsBack IsScheduleView schedule_rows SpellsSchedule }
    ensures decided { ValueOrFault SpellsSchedule ScheduleFault }
    ensures apart { NeverBoth SpellsSchedule ScheduleFault }
    ensures first { OneFault ScheduleFault }
{}

/// The rows of records without a word: their word is empty, they stand in the first version, and their fields are those that the reader goes by.
pub fn wordless_rows()
    ensures command { (COMMAND_ROW.word ≡ []) × (COMMAND_ROW.since ≡ 1) × (COMMAND_ROW.slots ≡ COMMAND) }
    ensures served { (SERVED_ROW.word ≡ []) × (SERVED_ROW.since ≡ 1) × (SERVED_ROW.slots ≡ SERVED) }
{}

/// What the fields of each row of a list are called.
pub fn names_of_lists()
    ensures commands { COMMANDS.names ≡ name.Title ∷ name.Version ∷ name.Room ∷ [] }
    ensures command { COMMAND_ROW.names ≡ name.Id ∷ name.Release ∷ name.Due ∷ [] }
    ensures certificate { CERTIFICATE.names ≡ name.Title ∷ name.Version ∷ name.Room ∷ name.Commands ∷ [] }
    ensures on_time { ON_TIME.names ≡ name.Title ∷ name.Version ∷ name.Room ∷ name.Commands ∷ [] }
    ensures schedule { SCHEDULE.names ≡ name.Title ∷ name.Version ∷ name.Room ∷ name.Commands ∷ [] }
    ensures served { SERVED_ROW.names ≡ name.Id ∷ name.Release ∷ name.Due ∷ name.Round ∷ [] }
    ensures bound { BOUND.names ≡ name.Bound ∷ name.Lateness ∷ name.BoundFrom ∷ name.BoundUntil ∷ [] }
    ensures numbers { NUMBERS.names ≡ name.OnTime ∷ name.CommandsOnTime ∷ name.Windows ∷ name.Unused ∷ [] }
    ensures windows { WINDOW.names ≡ name.Word ∷ name.From ∷ name.Until ∷ name.Unused ∷ [] }
{}
