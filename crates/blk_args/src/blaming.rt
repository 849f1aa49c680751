//! The arguments of `blame`.

ghost use Rattle.std.specs.Prelude.{◌≡◌};
ghost use Rattle.blk_args.specs.Asked.{most_shown, up_to_all, share_of, share_by, share_given, writes_named, writes_given, tightest_with, tightest_given, shown_blame, shown_in, blame_by_named, blame_by_given, blaming_in, blaming_with, blaming_of, asks_lines, drawn_blame, drawn_unless, blame_asked, blame_job};
ghost use Rattle.blk_args.specs.Inside.Options.{given};

use crate::option_names;
use crate::replaying::is_given;
use crate::times::in_unit;
use crate::words::{Job, Kept, Refusal, Written, form_asked, import_with, is_flagged, number_of};
use blk_schedulers::Form;
use clap::ArgMatches;

/// What is written of what late requests are blamed on.
#[derive(Clone, Copy, Debug, PartialEq, Eq)]
pub enum ShownBlame {
    /// The capture as a whole.
    Whole,
    /// Each late request.
    Each,
    /// The certificate of how many requests can be on time.
    Certificate,
    /// The least deadline of a direction's requests, at which so many of them can be on time.
    Tightest(TightestAsked),
    /// Its requests, as a picture.
    Picture,
}

/// How many requests of which direction are to be on time.
#[derive(Clone, Copy, Debug, PartialEq, Eq)]
pub struct TightestAsked {
    /// Whether it is of writes, in place of reads.
    pub writes: bool,
    /// How many thousandths of them, 0 to 1,000.
    pub share: u64,
}

/// Of whom a table is written that tells whose requests were late.
#[derive(Clone, Copy, Debug, PartialEq, Eq)]
pub enum BlameBy {
    /// Of the processes that opened them.
    Process,
    /// Of the processors on which they were opened.
    Processor,
    /// Of nobody.
    Nobody,
}

/// How it is written what late requests are blamed on.
#[derive(Clone, Copy, Debug, PartialEq, Eq)]
pub struct Blaming {
    /// What is written.
    pub shown: ShownBlame,
    /// Of whom.
    pub by: BlameBy,
    /// How many of these, of stalls and of windows are written at most, the greatest ones.
    pub most: u64,
    /// In which form.
    pub form: Form,
}

/// How many processes or processors, stalls and windows are written at most, where nobody says so.
const USUAL_TOP: u64 = 10;

/// How many are, where all are asked for, or only so many.
fn most_shown(all: bool, top: Option<u64>) -> u64
    ensures { result ≡ most_shown all top }
{
    if all {
        u64::MAX
    } else {
        top.unwrap_or(USUAL_TOP)
    }
}

/// A share up to all.
fn up_to_all(share: u64) -> Option<u64>
    ensures { result ≡ up_to_all share }
{
    if share <= 1_000 { Some(share) } else { None }
}

/// The thousandths of a share of hundreds, a number with a percent sign.
fn share_of(text: &str) -> Option<u64>
    ensures { result ≡ share_of text.now }
{
    match in_unit(text, "%", 10) {
        Some(share) => up_to_all(share),
        None => None,
    }
}

/// The same, or that the text is none.
fn share_by(text: &str) -> Result<Option<u64>, Refusal>
    ensures { result ≡ share_by text.now }
{
    match share_of(text) {
        Some(share) => Ok(Some(share)),
        None => Err(Refusal::Tightest),
    }
}

/// The same by the options, where it is given.
fn share_given(options: &ArgMatches<'_>) -> Result<Option<u64>, Refusal>
    ensures { result ≡ share_given (given options.now) }
{
    match options.get_str(option_names::TIGHTEST) {
        Some(text) => share_by(text),
        None => Ok(None),
    }
}

/// Whether it is of writes, from the text of `--for`.
fn writes_named(text: &str) -> Option<bool>
    ensures { result ≡ writes_named text.now }
{
    if text == "reads" {
        Some(false)
    } else if text == "writes" {
        Some(true)
    } else {
        None
    }
}

/// The same by the options, of reads where none says so.
fn writes_given(options: &ArgMatches<'_>) -> Option<bool>
    ensures { result ≡ writes_given (given options.now) }
{
    match options.get_str(option_names::FOR) {
        Some(text) => writes_named(text),
        None => Some(false),
    }
}

/// The tightest that is asked for by whether a direction is given, which it is, and the share; a direction is given with a share alone.
fn tightest_with(
    given: bool,
    writes: Option<bool>,
    share: Result<Option<u64>, Refusal>,
) -> Result<Option<TightestAsked>, Refusal>
    ensures { result ≡ tightest_with given writes share }
{
    match share {
        Err(refusal) => Err(refusal),
        Ok(share) => match writes {
            None => Err(Refusal::For),
            Some(writes) => match share {
                Some(share) => Ok(Some(TightestAsked { writes, share })),
                None => if given {
                    Err(Refusal::NoTightest)
                } else {
                    Ok(None)
                },
            },
        },
    }
}

/// The same by the options.
fn tightest_given(options: &ArgMatches<'_>) -> Result<Option<TightestAsked>, Refusal>
    ensures { result ≡ tightest_given (given options.now) }
{
    tightest_with(
        is_given(options, option_names::FOR),
        writes_given(options),
        share_given(options),
    )
}

/// What is written by the flags, which exclude one another, and by the tightest that is asked for.
fn shown_blame(each: bool, certificate: bool, asked: Option<TightestAsked>) -> Option<ShownBlame>
    ensures { result ≡ shown_blame each certificate asked }
{
    match asked {
        Some(asked) => if each || certificate {
            None
        } else {
            Some(ShownBlame::Tightest(asked))
        },
        None => match (each, certificate) {
            (true, true) => None,
            (true, false) => Some(ShownBlame::Each),
            (false, true) => Some(ShownBlame::Certificate),
            (false, false) => Some(ShownBlame::Whole),
        },
    }
}

/// The same in a form: a certificate is no JSON.
fn shown_in(form: Form, shown: Option<ShownBlame>) -> Result<ShownBlame, Refusal>
    ensures { result ≡ shown_in form shown }
{
    match shown {
        None => Err(Refusal::OneBlame),
        Some(ShownBlame::Whole) => Ok(ShownBlame::Whole),
        Some(ShownBlame::Each) => Ok(ShownBlame::Each),
        Some(ShownBlame::Certificate) => match form {
            Form::Lines => Ok(ShownBlame::Certificate),
            Form::Json => Err(Refusal::CertificateJson),
        },
        Some(ShownBlame::Tightest(asked)) => Ok(ShownBlame::Tightest(asked)),
        Some(ShownBlame::Picture) => Ok(ShownBlame::Picture),
    }
}

/// Of whom a table is written, from the text of `--by`.
fn blame_by_named(text: &str) -> Option<BlameBy>
    ensures { result ≡ blame_by_named text.now }
{
    if text == "pid" {
        Some(BlameBy::Process)
    } else if text == "cpu" {
        Some(BlameBy::Processor)
    } else if text == "none" {
        Some(BlameBy::Nobody)
    } else {
        None
    }
}

/// The same by the options of `blame`, of processes where none says so.
fn blame_by_given(options: &ArgMatches<'_>) -> Option<BlameBy>
    ensures { result ≡ blame_by_given (given options.now) }
{
    match options.get_str(option_names::BY) {
        Some(text) => blame_by_named(text),
        None => Some(BlameBy::Process),
    }
}

/// The blame in which that is written, of whom, and at most so much of it.
fn blaming_in(
    by: Option<BlameBy>,
    most: u64,
    form: Form,
    shown: Result<ShownBlame, Refusal>,
) -> Result<Written, Refusal>
    ensures { result ≡ blaming_in by most form shown }
{
    match shown {
        Ok(shown) => match by {
            Some(by) => Ok(Written::Kept(Kept::Blame(Blaming {
                shown,
                by,
                most,
                form,
            }))),
            None => Err(Refusal::BlameBy),
        },
        Err(refusal) => Err(refusal),
    }
}

/// The same by the flags, and by the tightest that is asked for.
fn blaming_with(
    each: bool,
    certificate: bool,
    by: Option<BlameBy>,
    most: u64,
    form: Form,
    asked: Result<Option<TightestAsked>, Refusal>,
) -> Result<Written, Refusal>
    ensures { result ≡ blaming_with each certificate by most form asked }
{
    match asked {
        Ok(asked) => blaming_in(
            by,
            most,
            form,
            shown_in(form, shown_blame(each, certificate, asked)),
        ),
        Err(refusal) => Err(refusal),
    }
}

/// What the options of `blame` ask to be written in lines.
fn blaming_of(options: &ArgMatches<'_>) -> Result<Written, Refusal>
    ensures { result ≡ blaming_of (given options.now) }
{
    let all = is_flagged(options, option_names::ALL);
    let top = number_of(options, option_names::TOP);
    if all && top.is_some() {
        return Err(Refusal::AllAndTop);
    }
    blaming_with(
        is_flagged(options, option_names::EACH),
        is_flagged(options, option_names::CERTIFICATE),
        blame_by_given(options),
        most_shown(all, top),
        form_asked(options),
        tightest_given(options),
    )
}

/// Whether options are given that say what is written in lines, of which a picture has none.
fn asks_lines(options: &ArgMatches<'_>) -> bool
    ensures { result ≡ asks_lines (given options.now) }
{
    is_flagged(options, option_names::EACH)
        || is_flagged(options, option_names::CERTIFICATE)
        || is_given(options, option_names::TIGHTEST)
        || is_given(options, option_names::FOR)
        || is_given(options, option_names::BY)
        || is_given(options, option_names::TOP)
        || is_flagged(options, option_names::ALL)
        || is_flagged(options, option_names::JSON)
}

/// The picture, as it is written.
fn drawn_blame() -> Written
    ensures { result ≡ drawn_blame }
{
    Written::Kept(Kept::Blame(Blaming {
        shown: ShownBlame::Picture,
        most: USUAL_TOP,
        by: BlameBy::Process,
        form: Form::Lines,
    }))
}

/// The same, unless lines are asked for.
fn drawn_unless(lines: bool) -> Result<Written, Refusal>
    ensures { result ≡ drawn_unless lines }
{
    if lines {
        Err(Refusal::PictureAlone)
    } else {
        Ok(drawn_blame())
    }
}

/// What the options of `blame` ask to be written: the picture, or what is written in lines.
fn blame_asked(options: &ArgMatches<'_>) -> Result<Written, Refusal>
    ensures { result ≡ blame_asked (given options.now) }
{
    if is_flagged(options, option_names::PICTURE) {
        drawn_unless(asks_lines(options))
    } else {
        blaming_of(options)
    }
}

/// The blame that the options of `blame` ask for.
pub(crate) fn blame_job(options: &ArgMatches<'_>) -> Job
    ensures { result ≡ blame_job (given options.now) }
{
    import_with(options, blame_asked(options))
}
