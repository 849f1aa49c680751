//! Where a capture comes from, by the options of `import`.

ghost use Rattle.std.specs.Prelude.{◌≡◌};
ghost use Rattle.blk_args.specs.Asked.{as_named, as_by, as_given, device_by, device_given, source_given};
ghost use Rattle.blk_args.specs.Inside.Options.{given};

use crate::option_names;
use crate::words::{CaptureSource, Refusal, number_of};
use blk_recorders::{CaptureForm, Device, Recorder};
use clap::ArgMatches;

/// Who printed a capture, by the text of `--as`.
fn as_named(text: &str) -> Option<CaptureForm>
    ensures { result ≡ as_named text.now }
{
    if text == "capture" {
        Some(CaptureForm::Records)
    } else if text == "blkparse" {
        Some(CaptureForm::Printed(Recorder::Blkparse))
    } else if text == "ftrace" {
        Some(CaptureForm::Printed(Recorder::Ftrace))
    } else if text == "perf" {
        Some(CaptureForm::Printed(Recorder::Perf))
    } else if text == "bpftrace" {
        Some(CaptureForm::Printed(Recorder::Bpftrace))
    } else {
        None
    }
}

/// The form of a capture by the text of `--as`.
fn as_by(text: &str) -> Result<Option<CaptureForm>, Refusal>
    ensures { result ≡ as_by text.now }
{
    match as_named(text) {
        Some(form) => Ok(Some(form)),
        None => Err(Refusal::As),
    }
}

/// The same by the options, where it is given.
fn as_given(options: &ArgMatches<'_>) -> Result<Option<CaptureForm>, Refusal>
    ensures { result ≡ as_given (given options.now) }
{
    match options.get_str(option_names::AS) {
        Some(text) => as_by(text),
        None => Ok(None),
    }
}

/// The device by the text of `--device`.
fn device_by(text: &str) -> Result<Option<Device>, Refusal>
    ensures { result ≡ device_by text.now }
{
    match Device::of_text(text.as_bytes()) {
        Some(device) => Ok(Some(device)),
        None => Err(Refusal::Device),
    }
}

/// The same by the options, where it is given.
fn device_given(options: &ArgMatches<'_>) -> Result<Option<Device>, Refusal>
    ensures { result ≡ device_given (given options.now) }
{
    match options.get_str(option_names::DEVICE) {
        Some(text) => device_by(text),
        None => Ok(None),
    }
}

/// Where a capture comes from by the options, or the refusal of the first of them that can't be.
pub fn source_given(options: &ArgMatches<'_>) -> Result<CaptureSource, Refusal>
    ensures { result ≡ source_given (given options.now) }
{
    let form = match as_given(options) {
        Ok(form) => form,
        Err(refusal) => return Err(refusal),
    };
    let device = match device_given(options) {
        Ok(device) => device,
        Err(refusal) => return Err(refusal),
    };
    Ok(CaptureSource {
        form,
        device,
        tags: number_of(options, option_names::TAGS),
    })
}
