//! The boxes, the columns and the strip of a picture as text.

ghost use Rattle.std.specs.Prelude.{◌≡◌, IfOk, slice_index_or};
ghost use Rattle.blk_picture.specs.Columns.{no_column, drawn_columns};

use crate::columns::{Column, is_late};
use crate::scale::{LEFT, Scale, TOP, place};
use crate::template::push_template;
use crate::words::{
    BOX_BACK, BOX_EARLY, BOX_LATE, BOX_PLACE, FRAME, NO_ROOM, STACK, WAIT_SCALE, WAITING,
};
use blk_bio::Dir;
use blk_report::Service;
use std::alloc::{AllocError, Global};
use text_output::Draft;

/// A column in which nothing is.
const NO_COLUMN: Column = Column {
    reads: 0,
    writes: 0,
    lates: 0,
    backs: 0,
    room: 0,
    read_waits: 0,
    write_waits: 0,
};

/// How many pixels a tag is high at least where a number is written inside a box.
const MIN_LABEL_TALL: u32 = 12;

/// How a box begins, by its class.
fn class_words(issued: &Service) -> &'static [u8] {
    match (issued.dir, issued.back, is_late(issued)) {
        (Dir::Read, true, _) => b"<rect class='hr'",
        (Dir::Write, true, _) => b"<rect class='hw'",
        (Dir::Read, false, true) => b"<rect class='r l'",
        (Dir::Write, false, true) => b"<rect class='w l'",
        (Dir::Read, false, false) => b"<rect class='r'",
        (Dir::Write, false, false) => b"<rect class='w'",
    }
}

/// The name of a direction.
fn dir_words(dir: Dir) -> &'static [u8] {
    match dir {
        Dir::Read => b"read",
        Dir::Write => b"write",
    }
}

/// How the title of a box ends.
fn tail_words(issued: &Service) -> &'static [u8] {
    match (issued.back, issued.issue < issued.due) {
        (true, _) => { BOX_BACK.as_bytes() }
        (false, true) => { BOX_EARLY.as_bytes() }
        (false, false) => { BOX_LATE.as_bytes() }
    }
}

/// The round of an Issue, which fits as all rounds do.
fn round_of(issued: &Service) -> u32 {
    issued.issue.min(u64::from(u32::MAX)) as u32
}

/// How far the round of an Issue and its due round are apart.
fn apart(issued: &Service) -> u64 {
    if issued.issue < issued.due {
        issued.due - issued.issue
    } else {
        issued.issue - issued.due
    }
}

/// Whether a number of rounds can be written inside a box.
fn fits(scale: &Scale, rounds: u64) -> bool {
    let most = match scale.wide {
        0..10 => 0,
        10..16 => 10,
        16..22 => 100,
        22..28 => 1000,
        _ => 10_000,
    };
    MIN_LABEL_TALL <= scale.tall && rounds < most
}

/// Adds how many rounds late it was, inside its box, where it was late and the number fits.
fn push_label(draft: &mut Draft, scale: &Scale, issued: &Service) -> Result<(), AllocError> {
    let rounds = apart(issued);
    if issued.back || !is_late(issued) || !fits(scale, rounds) {
        return Ok(());
    }
    let x = place(
        scale.place_of(round_of(issued)),
        scale.wide,
        LEFT + scale.wide / 2,
    );
    let y = place(u32::from(issued.tag), scale.tall, TOP + scale.tall / 2 + 3);
    let words: &[u8] = match issued.dir {
        Dir::Read => b"<text class='n o' x='$' y='$'>$</text>\n",
        Dir::Write => b"<text class='n' x='$' y='$'>$</text>\n",
    };
    push_template(draft, words, &[x, y, rounds])
}

/// Adds where a box lies and how its title begins.
fn push_place(draft: &mut Draft, scale: &Scale, issued: &Service) -> Result<(), AllocError> {
    let x = place(scale.place_of(round_of(issued)), scale.wide, LEFT);
    let y = place(u32::from(issued.tag), scale.tall, TOP);
    let wide = u64::from(scale.wide.saturating_sub(1));
    let tall = u64::from(scale.tall.saturating_sub(1));
    push_template(draft, BOX_PLACE.as_bytes(), &[x, y, wide, tall, issued.id])
}

/// Adds how the title of a box ends.
fn push_tail(draft: &mut Draft, issued: &Service) -> Result<(), AllocError> {
    let end = issued.first.saturating_add(issued.sectors);
    let apart = apart(issued);
    push_template(
        draft,
        tail_words(issued),
        &[
            issued.first,
            end,
            issued.release,
            issued.due,
            issued.issue,
            apart,
        ],
    )
}

/// Adds a box.
fn push_whole_box(draft: &mut Draft, scale: &Scale, issued: &Service) -> Result<(), AllocError> {
    let class = class_words(issued);
    draft.text(class)?;
    push_place(draft, scale, issued)?;
    let dir = dir_words(issued.dir);
    draft.text(dir)?;
    push_tail(draft, issued)?;
    push_label(draft, scale, issued)?;
    Ok(())
}

/// Adds a box, where the column of its round is drawn.
fn push_box(draft: &mut Draft, scale: &Scale, issued: &Service) -> Result<(), AllocError> {
    if scale.shows(issued.issue) {
        push_whole_box(draft, scale, issued)
    } else {
        Ok(())
    }
}

/// Adds the boxes, where each column is a round.
fn push_boxes(draft: &mut Draft, scale: &Scale, boxes: &[Service]) -> Result<(), AllocError> {
    if scale.per == 1 {
        push_each(draft, scale, boxes)
    } else {
        Ok(())
    }
}

/// Adds the boxes.
fn push_each(draft: &mut Draft, scale: &Scale, boxes: &[Service]) -> Result<(), AllocError> {
    for issued in boxes {
        push_box(draft, scale, issued)?;
    }
    Ok(())
}

/// Adds the stack of a column: reads and writes on time, late ones, those that were requeued, and what its rounds do not carry.
fn push_stack(
    draft: &mut Draft,
    scale: &Scale,
    number: u64,
    column: Column,
) -> Result<(), AllocError> {
    let reads = u64::from(column.reads);
    let writes = u64::from(column.writes);
    let lates = u64::from(column.lates);
    let backs = u64::from(column.backs);
    let whole = place(scale.per, scale.deep, 0);
    let served = reads + writes + lates;
    let idle = column.room.saturating_sub(served + backs);
    let away = whole.saturating_sub(column.room);
    let name = scale.shown_at(number);
    push_template(
        draft,
        STACK.as_bytes(),
        &[
            name,
            reads,
            writes,
            lates,
            backs,
            idle,
            number,
            reads,
            number,
            reads,
            writes,
            number,
            reads + writes,
            lates,
            number,
            served,
            backs,
            number,
            column.room,
            away,
        ],
    )
}

/// Adds what the round of a column does not carry.
fn push_grey(
    draft: &mut Draft,
    scale: &Scale,
    number: u64,
    column: Column,
) -> Result<(), AllocError> {
    let away = u64::from(scale.deep).saturating_sub(column.room);
    if away == 0 {
        return Ok(());
    }
    push_template(draft, NO_ROOM.as_bytes(), &[number, column.room, away])
}

/// Adds a column: a stack where it stands for several rounds, and else what its round does not carry.
fn push_column(
    draft: &mut Draft,
    scale: &Scale,
    number: u64,
    column: Column,
) -> Result<(), AllocError> {
    if scale.per == 1 {
        push_grey(draft, scale, number, column)
    } else {
        push_stack(draft, scale, number, column)
    }
}

/// A column, or one in which nothing is.
fn column_or(columns: &[Column], number: u64) -> Column
    ensures { result ≡ slice_index_or columns.now number no_column }
{
    match columns.get(number as usize) {
        Some(column) => *column,
        None => NO_COLUMN,
    }
}

/// Those of all columns that are drawn, in their order.
pub(crate) fn drawn_columns(
    alloc: Global,
    scale: &Scale,
    columns: &[Column],
) -> Result<Vec<Column>, AllocError>
    ensures { IfOk result (λ v. v.items ≡ drawn_columns scale.now columns.now) }
{
    let mut drawn = Vec::new(alloc);
    for number in 0..scale.drawn {
        let column = scale.shown_at(u64::from(number));
        drawn.push(column_or(columns, column))?;
    }
    Ok(drawn)
}

/// Adds the columns.
fn push_columns(draft: &mut Draft, scale: &Scale, columns: &[Column]) -> Result<(), AllocError> {
    for number in 0..columns.len() {
        push_column(draft, scale, number as u64, columns[number])?;
    }
    Ok(())
}

/// Adds how the frame begins.
fn push_border(draft: &mut Draft, scale: &Scale) -> Result<(), AllocError> {
    let wide = place(scale.drawn, scale.wide, 0);
    let tall = place(scale.deep, scale.tall, 0);
    let columns = u64::from(scale.drawn);
    let whole = place(scale.per, scale.deep, 0);
    push_template(
        draft,
        FRAME.as_bytes(),
        &[wide, tall, columns, whole, columns, whole],
    )
}

/// Adds the frame with what stands in it.
pub(crate) fn push_frame(
    draft: &mut Draft,
    scale: &Scale,
    boxes: &[Service],
    columns: &[Column],
) -> Result<(), AllocError> {
    push_border(draft, scale)?;
    push_columns(draft, scale, columns)?;
    draft.text(b"</svg>\n")?;
    push_boxes(draft, scale, boxes)?;
    Ok(())
}

/// Adds the waiting requests of a column.
fn push_waiting(draft: &mut Draft, number: u64, column: Column) -> Result<(), AllocError> {
    let reads = u64::from(column.read_waits);
    let writes = u64::from(column.write_waits);
    push_template(
        draft,
        WAITING.as_bytes(),
        &[reads, writes, number, reads, number, reads, writes],
    )
}

/// The most requests that wait in a column, at least 1.
fn most_waiting(columns: &[Column]) -> u64 {
    let mut most = 1;
    for column in columns {
        most = (u64::from(column.read_waits) + u64::from(column.write_waits)).max(most);
    }
    most
}

/// Adds how the strip begins, by the most that wait.
fn push_scale(draft: &mut Draft, scale: &Scale, most: u64) -> Result<(), AllocError> {
    let wide = place(scale.drawn, scale.wide, 0);
    let columns = u64::from(scale.drawn);
    push_template(
        draft,
        WAIT_SCALE.as_bytes(),
        &[most, wide, columns, most, columns, most, most],
    )
}

/// Adds the waiting requests of the columns.
fn push_waits(draft: &mut Draft, columns: &[Column]) -> Result<(), AllocError> {
    for number in 0..columns.len() {
        push_waiting(draft, number as u64, columns[number])?;
    }
    Ok(())
}

/// Adds the requests that wait at the end of each round.
pub(crate) fn push_strip(
    draft: &mut Draft,
    scale: &Scale,
    columns: &[Column],
) -> Result<(), AllocError> {
    let most = most_waiting(columns);
    push_scale(draft, scale, most)?;
    push_waits(draft, columns)?;
    draft.text(b"</g></svg>\n")?;
    Ok(())
}
