//! Laws of the text forms, each the contract of a function that does nothing.

ghost use Rattle.std.specs.Prelude.{◌≡◌, ◌∷◌, ◌-◌, ◌^◌, ℕ, List, [], codes, map};
ghost use Rattle.csv.specs.Reading.{default_config, records, strip_bom};
ghost use Rattle.blk_records.specs.Sources.{Row};
ghost use Rattle.blk_records.specs.Texts.{rows_text};
ghost use Rattle.blk_trace.specs.Traces.{Traced};
ghost use Rattle.blk_records.specs.Laws.{ValueOrFault, NeverBoth, OneFault};
ghost use Rattle.blk_text.specs.Script.{Scripted, SpellsScript, ScriptFault, OneScript, ScriptReadsBack};
ghost use Rattle.blk_text.specs.TraceRecords.{IsTrace};
ghost use Rattle.blk_text.specs.TraceForm.{trace_rows, SpellsTraceIn, SpellsTrace, TraceTextFault, OneTrace, TraceReadsBack};
ghost use Rattle.blk_text.specs.EventKinds.{event_table};
ghost use Rattle.blk_text.specs.StepKinds.{step_kinds};
ghost use Rattle.blk_text.specs.declared.bios.TheConstants.{BIO};
ghost use Rattle.blk_text.specs.declared.heads.TheConstants.{TICK, RELEASE, JOIN, ISSUE, DONE, BACK, DEPTH, TRACE};
ghost use Rattle.blk_text.specs.declared.script.TheConstants.{FLUSH, DRAIN, STEP_ISSUE, RUN, MAX_RUN, MAX_STEPS, SCRIPT};
ghost use Rattle.blk_text.specs.declared.setup.TheConstants.{DEPTHS, LATEST, MAX_DEPTH_1, QUEUES, SETUP, WIDTH};
ghost use Rattle.edd_commands.specs.declared.TheConstants.{MAX_COMMANDS, MAX_RELEASES, MAX_ROUNDS};
ghost use Rattle.edd_commands.specs.declared.steps.TheConstants.{MAX_DEPTH};
ghost use Rattle.blk_bio.specs.declared.bio.TheConstants.{MAX_END};
ghost use Rattle.blk_bio.specs.declared.limits.TheConstants.{MAX_QUEUES, MAX_SECTORS, MAX_SEGMENTS, MAX_SOFT_DEPTH, MAX_SOFT_QUEUES};
ghost use Rattle.blk_trace.specs.declared.event.TheConstants.{MAX_TAGS};
ghost use Rattle.blk_trace.specs.declared.setup.TheConstants.{MAX_EXPIRIES};
ghost use Rattle.blk_trace.specs.declared.trace.TheConstants.{MAX_EVENTS};
ghost use Rattle.blk_records.specs.declared.fields.TheConstants.{ANY_SLOT};
ghost use Rattle.blk_records.specs.declared.fields.Slot.TheVariants as slot;
ghost use Rattle.blk_records.specs.declared.names.FieldName.TheVariants as name;

/// Scripts: records spell one at most, and in one version. The text of one in a version that has its tags and its steps reads
/// back as its records, which spell it. Records either spell one or have a fault as one, and not both; and they have one first
/// fault at most.
pub fn scripts()
    ensures once { (rows : List Row) → OneScript rows }
    ensures back { (version : ℕ) → (s : Scripted) → ScriptReadsBack version s }
    ensures decided { ValueOrFault SpellsScript ScriptFault }
    ensures apart { NeverBoth SpellsScript ScriptFault }
    ensures first { OneFault ScriptFault }
{}

/// Traces: records spell one at most, one setup and one list of events, and in one version; it is legal, and its numbers lie
/// in their ranges. The text of a trace reads back as its records, which spell it where it is legal: that which is written, in
/// the latest version, and that in a version that has its tags and its events. Records either spell one, in one of the
/// versions, or have a fault as one, and not both; and they have one first fault at most.
pub fn traces()
    ensures once { (rows : List Row) → OneTrace rows }
    ensures rows { (t : Traced) → records default_config (strip_bom (rows_text (trace_rows t))) ≡ trace_rows t }
    ensures spell { (t : Traced) → IsTrace t → SpellsTraceIn LATEST (trace_rows t) t }
    ensures versions { (version : ℕ) → (t : Traced) → TraceReadsBack version t }
    ensures legal { (rows : List Row) → (t : Traced) → SpellsTrace rows t → IsTrace t }
    ensures decided { ValueOrFault SpellsTrace TraceTextFault }
    ensures apart { NeverBoth SpellsTrace TraceTextFault }
    ensures first { OneFault TraceTextFault }
{}

/// The word of each row that scripts and traces have alike, and of the rows of an issue, of which each has its own; and how many fields a
/// record of theirs has.
pub fn words_of_scripts_and_traces()
    ensures width { WIDTH ≡ 6 }
    ensures setup { SETUP.word ≡ codes "setup" }
    ensures bio { BIO.word ≡ codes "bio" }
    ensures issue { ISSUE.word ≡ codes "issue" }
    ensures step_issue { STEP_ISSUE.word ≡ codes "issue" }
    ensures done { DONE.word ≡ codes "done" }
    ensures back { BACK.word ≡ codes "back" }
    ensures depth { DEPTH.word ≡ codes "depth" }
    ensures tick { TICK.word ≡ codes "tick" }
{}

/// The word of each other row of a script.
pub fn words_of_scripts()
    ensures flush { FLUSH.word ≡ codes "flush" }
    ensures drain { DRAIN.word ≡ codes "drain" }
    ensures run { RUN.word ≡ codes "run" }
{}

/// And of each other row of a trace.
pub fn words_of_traces()
    ensures release { RELEASE.word ≡ codes "release" }
    ensures join { JOIN.word ≡ codes "join" }
{}

/// The first version that has each row, in the order of the lists: the second has a depth, and the first all others.
pub fn versions_of_rows()
    ensures setup { SETUP.since ≡ 1 }
    ensures bio { BIO.since ≡ 1 }
    ensures depth { DEPTH.since ≡ 2 }
    ensures events { map (λ k. k.since) event_table ≡ 1 ∷ 1 ∷ 1 ∷ 1 ∷ 1 ∷ 1 ∷ 2 ∷ [] }
    ensures steps { map (λ k. k.since) step_kinds ≡ 1 ∷ 1 ∷ 1 ∷ 1 ∷ 1 ∷ 1 ∷ 1 ∷ 1 ∷ 2 ∷ [] }
{}

/// The fields of each row of a script that a trace hasn't, in their order: what each tells, or that it is empty.
pub fn fields_of_scripts()
    ensures flush { FLUSH.slots ≡ slot.Given ∷ ANY_SLOT ∷ slot.Blank ∷ slot.Blank ∷ slot.Blank ∷ slot.Blank ∷ [] }
    ensures drain { DRAIN.slots ≡ slot.Given ∷ ANY_SLOT ∷ slot.Blank ∷ slot.Blank ∷ slot.Blank ∷ slot.Blank ∷ [] }
    ensures issue { STEP_ISSUE.slots ≡ slot.Given ∷ ANY_SLOT ∷ slot.Number 0 (MAX_TAGS - 1) ∷ slot.Blank ∷ slot.Blank ∷ slot.Blank ∷ [] }
    ensures run { RUN.slots ≡ slot.Given ∷ slot.Number 1 MAX_RUN ∷ slot.Blank ∷ slot.Blank ∷ slot.Blank ∷ slot.Blank ∷ [] }
{}

/// And of each row of a trace, those that a script has too among them.
pub fn fields_of_traces()
    ensures title { TRACE.slots ≡ slot.Given ∷ slot.Given ∷ DEPTHS ∷ QUEUES ∷ slot.Number 0 MAX_EVENTS ∷ slot.Blank ∷ [] }
    ensures tick { TICK.slots ≡ slot.Given ∷ slot.Blank ∷ slot.Blank ∷ slot.Blank ∷ slot.Blank ∷ slot.Blank ∷ [] }
    ensures release { RELEASE.slots ≡ slot.Given ∷ ANY_SLOT ∷ slot.Number 1 MAX_SEGMENTS ∷ slot.Blank ∷ slot.Blank ∷ slot.Blank ∷ [] }
    ensures join { JOIN.slots ≡ slot.Given ∷ ANY_SLOT ∷ slot.Number 1 MAX_SEGMENTS ∷ slot.Blank ∷ slot.Blank ∷ slot.Blank ∷ [] }
    ensures issue { ISSUE.slots ≡ slot.Given ∷ ANY_SLOT ∷ slot.Number 0 (MAX_TAGS - 1) ∷ slot.Blank ∷ slot.Blank ∷ slot.Blank ∷ [] }
    ensures done { DONE.slots ≡ slot.Given ∷ slot.Number 0 (MAX_TAGS - 1) ∷ slot.Blank ∷ slot.Blank ∷ slot.Blank ∷ slot.Blank ∷ [] }
    ensures back { BACK.slots ≡ slot.Given ∷ slot.Number 0 (MAX_TAGS - 1) ∷ slot.Blank ∷ slot.Blank ∷ slot.Blank ∷ slot.Blank ∷ [] }
    ensures depth { DEPTH.slots ≡ slot.Given ∷ ANY_SLOT ∷ slot.Blank ∷ slot.Blank ∷ slot.Blank ∷ slot.Blank ∷ [] }
    ensures bio { BIO.slots ≡ slot.Given ∷ ANY_SLOT ∷ ANY_SLOT ∷ slot.Direction ∷ ANY_SLOT ∷ ANY_SLOT ∷ [] }
{}

/// What the fields of each row are called that scripts and traces have alike.
pub fn names_of_both()
    ensures setup { SETUP.names ≡ name.Setup ∷ name.ReadExpire ∷ name.WriteExpire ∷ name.MaxSectors ∷ name.MaxSegments ∷ name.Unused ∷ [] }
    ensures bio { BIO.names ≡ name.Word ∷ name.Submitter ∷ name.Serial ∷ name.Direction ∷ name.First ∷ name.Sectors ∷ [] }
    ensures done { DONE.names ≡ name.Word ∷ name.Tag ∷ name.Unused ∷ name.Unused ∷ name.Unused ∷ name.Unused ∷ [] }
    ensures back { BACK.names ≡ name.Word ∷ name.Tag ∷ name.Unused ∷ name.Unused ∷ name.Unused ∷ name.Unused ∷ [] }
    ensures depth { DEPTH.names ≡ name.Word ∷ name.Depth ∷ name.Unused ∷ name.Unused ∷ name.Unused ∷ name.Unused ∷ [] }
    ensures tick { TICK.names ≡ name.Word ∷ name.Unused ∷ name.Unused ∷ name.Unused ∷ name.Unused ∷ name.Unused ∷ [] }
{}

/// Those of each other row of a script.
pub fn names_of_scripts()
    ensures title { SCRIPT.names ≡ name.Title ∷ name.Version ∷ name.Tags ∷ name.Queues ∷ name.SoftDepth ∷ name.Submitters ∷ [] }
    ensures flush { FLUSH.names ≡ name.Word ∷ name.Submitter ∷ name.Unused ∷ name.Unused ∷ name.Unused ∷ name.Unused ∷ [] }
    ensures drain { DRAIN.names ≡ name.Word ∷ name.Queue ∷ name.Unused ∷ name.Unused ∷ name.Unused ∷ name.Unused ∷ [] }
    ensures issue { STEP_ISSUE.names ≡ name.Word ∷ name.Queue ∷ name.Tag ∷ name.Unused ∷ name.Unused ∷ name.Unused ∷ [] }
    ensures run { RUN.names ≡ name.Word ∷ name.Rounds ∷ name.Unused ∷ name.Unused ∷ name.Unused ∷ name.Unused ∷ [] }
{}

/// And those of each other row of a trace.
pub fn names_of_traces()
    ensures title { TRACE.names ≡ name.Title ∷ name.Version ∷ name.Tags ∷ name.Queues ∷ name.Events ∷ name.Unused ∷ [] }
    ensures release { RELEASE.names ≡ name.Word ∷ name.Id ∷ name.Bios ∷ name.Unused ∷ name.Unused ∷ name.Unused ∷ [] }
    ensures join { JOIN.names ≡ name.Word ∷ name.Id ∷ name.Bios ∷ name.Unused ∷ name.Unused ∷ name.Unused ∷ [] }
    ensures issue { ISSUE.names ≡ name.Word ∷ name.Id ∷ name.Tag ∷ name.Unused ∷ name.Unused ∷ name.Unused ∷ [] }
{}

/// The limits of scripts and traces, and of the command lists of traces, by their numbers.
pub fn law_of_limits()
    ensures latest { LATEST ≡ 2 }
    ensures tags_of_version_1 { MAX_DEPTH_1 ≡ 64 }
    ensures tags { MAX_DEPTH ≡ 256 }
    ensures tag_numbers { MAX_TAGS ≡ 2 ^ 16 }
    ensures steps { MAX_STEPS ≡ 1_000_000 - 2 }
    ensures rounds_of_a_run { MAX_RUN ≡ 1_000_000 }
    ensures events { MAX_EVENTS ≡ 1_000_000 }
    ensures expiries { MAX_EXPIRIES ≡ 2 ^ 40 }
    ensures hardware_queues { MAX_QUEUES ≡ 16 }
    ensures software_queues { MAX_SOFT_QUEUES ≡ 64 }
    ensures room_of_a_software_queue { MAX_SOFT_DEPTH ≡ 1024 }
    ensures sectors { MAX_SECTORS ≡ 65_535 }
    ensures segments { MAX_SEGMENTS ≡ 128 }
    ensures sector_numbers { MAX_END ≡ 2 ^ 48 }
    ensures commands { MAX_COMMANDS ≡ 1_000_000 }
    ensures releases { MAX_RELEASES ≡ 2 ^ 40 }
    ensures rounds { MAX_ROUNDS ≡ 2 ^ 41 }
{}
