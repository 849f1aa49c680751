//! How a picture is laid out: which rounds a column stands for, and where things lie, in pixels.

ghost use Rattle.std.specs.Prelude.{◌≡◌, ◌≤◌, ◌<◌, ◌+◌, ◌*◌, ◌^◌, ◌==◌, false, length};
ghost use Rattle.std.specs.List.{list_any};
ghost use Rattle.blk_picture.specs.declared.scale.TheConstants.{MAX_COLUMNS, MAX_SHOWN, MAX_TAG_TALL};
ghost use Rattle.blk_picture.specs.Scales.{per_of, columns_by, tall_of, wide_of, shown_before, drawn_place, shown_at, shows, IsScaled};

/// The most columns of a picture.
pub const MAX_COLUMNS: u32 = 400;

/// How many pixels all columns take at most.
pub const MAX_WIDE: u32 = 1200;

/// How many pixels a column is wide at most.
const MAX_COLUMN_WIDE: u32 = 40;

/// How many pixels all tags take at most, unless each already has the least height.
const MAX_TALL: u32 = 384;

/// How many pixels a tag is high at least.
const MIN_TAG_TALL: u32 = 3;

/// How many pixels a tag is high at most.
pub(crate) const MAX_TAG_TALL: u32 = 24;

/// The most steps of the axis, each from a number to the next.
pub(crate) const MAX_AXIS_STEPS: u32 = 24;

/// How many rounds a step of the axis may stand for, and a column where others are cut, the fewest first: 1, 2 or 5 times a power of ten.
pub(crate) const STEPS: [u32; 15] = [
    1, 2, 5, 10, 20, 50, 100, 200, 500, 1000, 2000, 5000, 10_000, 20_000, 50_000,
];

/// How many rounds a step stands for where none of these fits.
const MAX_STEP: u32 = 100_000;

/// How many columns are drawn at most where others are cut.
pub(crate) const MAX_SHOWN: usize = 400;

/// Where the columns begin, from the left.
pub const LEFT: u32 = 64;

/// Where the tags begin, from the top of a part.
pub const TOP: u32 = 182;

/// The scale of a picture.
#[derive(Clone, Copy)]
pub struct Scale {
    /// How many rounds there are.
    pub rounds: u32,
    /// How many rounds a column stands for.
    pub per: u32,
    /// How many columns there are.
    pub columns: u32,
    /// Whether only some of them are drawn.
    pub cut: bool,
    /// How many are drawn.
    pub drawn: u32,
    /// Which, where only some are, by rising numbers; the rest of the places has a number that no column has.
    pub shown: [u32; MAX_SHOWN],
    /// How many pixels a column is wide.
    pub wide: u32,
    /// How many tags are shown.
    pub deep: u32,
    /// How many pixels a tag is high.
    pub tall: u32,
}

/// How many columns stand for all rounds.
#[tactic(auto, unfolding(crate::specs::Scales::columns_by))]
fn columns_by(rounds: u32, per: u32) -> u32
    requires few { rounds ≤ 2 ^ 30 }
    requires some { 0 < per }
    requires small { per ≤ 2 ^ 30 }
    ensures { result ≡ columns_by rounds per }
{
    ((rounds + (per - 1)) / per).max(1)
}

/// How many rounds a column stands for where none is cut.
#[tactic(auto, unfolding(crate::specs::Scales::per_of))]
pub(crate) fn per_of(rounds: u32) -> u32
    requires { rounds ≤ 2 ^ 30 }
    ensures value { result ≡ per_of rounds }
    ensures some { 0 < result }
    ensures small { result ≤ 2 ^ 30 }
{
    ((rounds + (MAX_COLUMNS - 1)) / MAX_COLUMNS).max(1)
}

/// How many pixels a column is wide where so many are drawn.
#[tactic(auto, unfolding(crate::specs::Scales::wide_of))]
fn wide_of(drawn: u32) -> u32
    ensures { result ≡ wide_of drawn }
{
    (MAX_WIDE / drawn.max(1)).min(MAX_COLUMN_WIDE)
}

/// How many pixels a tag is high.
#[tactic(auto, unfolding(crate::specs::Scales::tall_of))]
fn tall_of(deep: u32) -> u32
    ensures value { result ≡ tall_of deep }
    ensures low { result ≤ MAX_TAG_TALL }
{
    (MAX_TALL / deep.max(1)).max(MIN_TAG_TALL).min(MAX_TAG_TALL)
}

/// Whether a column is one of these.
fn is_among(shown: &[u32], column: u64) -> bool
    ensures { result ≡ list_any (λ k. k == column) shown.now }
{
    shown.iter().any(|c| u64::from(*c) == column)
}

impl Scale {
    /// The scale of a number of rounds and tags that shows all of them.
    pub(crate) fn of(rounds: u32, deep: u32) -> Scale
        requires { rounds ≤ 2 ^ 30 }
        ensures scaled { IsScaled rounds deep result }
        ensures whole { result.cut ≡ false }
        ensures low { result.tall ≤ MAX_TAG_TALL }
    {
        let per = per_of(rounds);
        let columns = columns_by(rounds, per);
        Scale {
            rounds,
            per,
            columns,
            cut: false,
            drawn: columns,
            shown: [u32::MAX; MAX_SHOWN],
            wide: wide_of(columns),
            deep,
            tall: tall_of(deep),
        }
    }

    /// The same with so many rounds in a column, of which these alone are drawn, by rising numbers.
    pub(crate) fn cut(rounds: u32, deep: u32, per: u32, kept: &[u32]) -> Scale
        requires many { MAX_COLUMNS < rounds }
        requires few { rounds ≤ 2 ^ 30 }
        requires some { 0 < per }
        requires small { per ≤ 2 ^ 30 }
        requires kept { length kept.now ≤ MAX_SHOWN }
        ensures scaled { IsScaled rounds deep result }
        ensures low { result.tall ≤ MAX_TAG_TALL }
    {
        let mut shown = [u32::MAX; MAX_SHOWN];
        for place in 0..kept.len() {
            shown[place] = kept[place];
        }
        let drawn = kept.len() as u32;
        Scale {
            rounds,
            per,
            columns: columns_by(rounds, per),
            cut: true,
            drawn,
            shown,
            wide: wide_of(drawn),
            deep,
            tall: tall_of(deep),
        }
    }

    /// How many of the columns that are drawn come before one.
    #[tactic(auto, unfolding(crate::specs::Scales::shown_before))]
    fn shown_before(&self, column: u32) -> u32
        ensures { result ≡ shown_before self.now column }
    {
        let shown = &self.shown[..];
        shown.iter().filter(|c| **c < column).count() as u32
    }

    /// Where a column is drawn, or would be.
    #[tactic(auto, unfolding(crate::specs::Scales::drawn_place))]
    pub(crate) fn place_of(&self, column: u32) -> u32
        ensures { result ≡ drawn_place self.now column }
    {
        if self.cut {
            self.shown_before(column)
        } else {
            column
        }
    }

    /// Whether a column is drawn.
    #[tactic(auto, unfolding(crate::specs::Scales::shows))]
    pub(crate) fn shows(&self, column: u64) -> bool
        ensures { result ≡ shows self.now column }
    {
        if self.cut {
            is_among(&self.shown, column)
        } else {
            true
        }
    }

    /// The column that is drawn at a place.
    #[tactic(auto, unfolding(crate::specs::Scales::shown_at))]
    pub(crate) fn shown_at(&self, place: u64) -> u64
        ensures { result ≡ shown_at self.now place }
    {
        if !self.cut {
            return place;
        }
        let shown = &self.shown[..];
        match shown.get(place as usize) {
            Some(column) => u64::from(*column),
            None => 0,
        }
    }
}

/// The rounds between two numbers of the axis: the first of [`STEPS`] by which there are at most [`MAX_AXIS_STEPS`], or the greatest step.
pub(crate) fn step_of(rounds: u32) -> u32 {
    for step in &STEPS {
        if u64::from(rounds) <= u64::from(MAX_AXIS_STEPS) * u64::from(*step) {
            return *step;
        }
    }
    MAX_STEP
}

/// Where a thing lies: a number of lengths from a place.
pub(crate) fn place(number: u32, each: u32, from: u32) -> u64
    ensures { result ≡ number * each + from }
{
    u64::from(number) * u64::from(each) + u64::from(from)
}
