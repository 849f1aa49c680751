//! Laws of the form, each the contract of a function that does nothing.

ghost use Rattle.std.specs.Prelude.{◌≡◌, ◌^◌, ◌∷◌, [], take, drop, replicate};
ghost use Rattle.blk_capture.specs.declared.summary.TheConstants.{MAX_STREAMED};
ghost use Rattle.blk_records.specs.Laws.{OneValue, ReadsBack, ValueOrFault, NeverBoth, OneFault};
ghost use Rattle.blk_capture_text.specs.Captures.{MakeCapture, TellsRecords, SpellsCapture, CaptureTextFault, capture_rows};
ghost use Rattle.blk_capture_text.specs.declared.reading.TheConstants.{CAPTURE, MAX_RECORDS};
ghost use Rattle.blk_capture_text.specs.declared.record.TheConstants.{RECORD, RECORD_ROW};
ghost use Rattle.blk_records.specs.declared.names.FieldName.TheVariants as name;

/// A list of rows spells the records of one capture at most.
pub fn captures_are_spelled_once()
    ensures { OneValue SpellsCapture }
{}

/// The text of the rows of a capture reads back as the records that they tell.
pub fn captures_read_back()
    ensures { ReadsBack MakeCapture capture_rows TellsRecords }
{}

/// Rows either spell a capture or have a fault as one.
pub fn a_capture_is_spelled_or_has_a_fault()
    ensures { ValueOrFault SpellsCapture CaptureTextFault }
{}

/// Rows that spell a capture have no fault.
pub fn spelled_captures_have_no_fault()
    ensures { NeverBoth SpellsCapture CaptureTextFault }
{}

/// Rows have one first fault as a capture at most.
pub fn a_capture_has_one_fault()
    ensures { OneFault CaptureTextFault }
{}

/// The row of a record, which begins with no word: its word is empty, it stands in the first version, and its fields are those that the reader goes by.
pub fn wordless_row()
    ensures { (RECORD_ROW.word ≡ []) × (RECORD_ROW.since ≡ 1) × (RECORD_ROW.slots ≡ RECORD) }
{}

/// What the fields of a title and of a record are called.
pub fn names_of_captures()
    ensures title { take 2 CAPTURE.names ≡ name.Title ∷ name.Version ∷ [] }
    ensures rest { drop 2 CAPTURE.names ≡ replicate 6 name.Unused }
    ensures time { take 3 RECORD_ROW.names ≡ name.Seconds ∷ name.Nanoseconds ∷ name.Processor ∷ [] }
    ensures others { drop 3 RECORD_ROW.names ≡ name.Action ∷ name.Process ∷ name.Rwbs ∷ name.First ∷ name.Sectors ∷ [] }
{}

/// How many records a capture has at most, and how many one that is put in numbers as it is read, by the numbers.
pub fn law_of_limits()
    ensures kept { MAX_RECORDS ≡ 16_000_000 }
    ensures streamed { MAX_STREAMED ≡ 2 ^ 40 }
{}
