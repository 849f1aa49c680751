//! A block device, by its numbers.

ghost use Rattle.std.specs.Prelude.{◌≡◌, option_map};
ghost use Rattle.blk_recorders.specs.Layouts.{device_of, is_device};

use crate::words::{number, parted};

/// A block device by its major and minor number, as `lsblk` shows them.
#[derive(Clone, Copy, Debug, PartialEq, Eq)]
pub struct Device {
    /// The major number, of its driver.
    pub major: u64,
    /// The minor number.
    pub minor: u64,
}

impl Device {
    /// The device of two numbers with a comma between: `8,0`. A number may have zeros before it.
    pub fn of_text(text: &[u8]) -> Option<Device>
        ensures { result ≡ device_of text.now }
    {
        let (major, minor) = parted(text, b',');
        match (number(major), number(minor)) {
            (Some(major), Some(minor)) => Some(Device { major, minor }),
            _ => None,
        }
    }

    /// Whether it is this one.
    pub(crate) fn is(self, other: Device) -> bool
        ensures { result ≡ is_device self other }
    {
        self.major == other.major && self.minor == other.minor
    }
}
