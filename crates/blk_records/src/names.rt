//! What the fields of records are called.

/// What a field of a record is called.
#[derive(Clone, Copy)]
pub enum FieldName {
    /// One that the record doesn't use.
    Unused,
    /// The word that the record begins with. Of a record that begins with another, the field has the name that its form's other records have.
    Word,
    /// The field `title`.
    Title,
    /// The field `version`.
    Version,
    /// The field `depth` of the title of a list, a certificate or a schedule.
    Room,
    /// The field `commands`.
    Commands,
    /// The field `id`.
    Id,
    /// The field `release`.
    Release,
    /// The field `due`.
    Due,
    /// The field `round`.
    Round,
    /// The field `bound`.
    Bound,
    /// The field `lateness`, a number or `none`.
    Lateness,
    /// The field `from`.
    From,
    /// The field `until`.
    Until,
    /// The field `from` of a bound, a number or `none`.
    BoundFrom,
    /// The field `until` of a bound, a number or `none`.
    BoundUntil,
    /// The field `met`.
    OnTime,
    /// The field `commands met`.
    CommandsOnTime,
    /// The field `windows`.
    Windows,
    /// The field `seconds`.
    Seconds,
    /// The field `nanoseconds`.
    Nanoseconds,
    /// The field `processor`.
    Processor,
    /// The field `action`.
    Action,
    /// The field `process`.
    Process,
    /// The field `rwbs`.
    Rwbs,
    /// The field `first sector`.
    First,
    /// The field `sectors`.
    Sectors,
    /// The field `depth` of the title of a script or a trace, which may be greater from a later version on.
    Tags,
    /// The field `hardware queues`.
    Queues,
    /// The field `software queue depth`.
    SoftDepth,
    /// The field `submitters`.
    Submitters,
    /// The field `events`.
    Events,
    /// The field `setup`.
    Setup,
    /// The field `read expiry`.
    ReadExpire,
    /// The field `write expiry`.
    WriteExpire,
    /// The field `sectors of a request`.
    MaxSectors,
    /// The field `segments of a request`.
    MaxSegments,
    /// The field `step`.
    Step,
    /// The field `event`.
    Event,
    /// The field `submitter`.
    Submitter,
    /// The field `serial`.
    Serial,
    /// The field `direction`.
    Direction,
    /// The field `hardware queue`.
    Queue,
    /// The field `tag`.
    Tag,
    /// The field `depth` of the record of a depth.
    Depth,
    /// The field `rounds`.
    Rounds,
    /// The field `bios`.
    Bios,
}
