//! What a text is called that is taken for another, by what it begins with.

use crate::forms::{TextForm, form_named};

/// How files begin that are no texts, and what they are.
const FILES: [(&[u8], &str); 8] = [
    (b"\x1f\x8b", "compressed by gzip"),
    (b"BZh", "compressed by bzip2"),
    (b"\xfd7zXZ\0", "compressed by xz"),
    (b"\x28\xb5\x2f\xfd", "compressed by zstd"),
    (b"\x07tae", "a file of blktrace, which blkparse prints"),
    (b"eat\x07", "a file of blktrace, which blkparse prints"),
    (
        b"PERFILE",
        "a file of perf record, which perf script prints",
    ),
    (
        b"\x17\x08\x44tracing",
        "a file of trace-cmd, which trace-cmd report prints",
    ),
];

/// Whether a byte stands in no text: a control character but for a tab.
fn is_control(byte: u8) -> bool {
    (byte < 32 && byte != b'\t') || byte == 127
}

/// Whether this has a byte that stands in no text.
fn has_control(bytes: &[u8]) -> bool {
    for i in 0..bytes.len() {
        if is_control(bytes[i]) {
            return true;
        }
    }
    false
}

/// What a file is that begins with this, where it is no text.
pub fn file_of(found: &[u8]) -> Option<&'static str> {
    for i in 0..FILES.len() {
        if found.starts_with(FILES[i].0) {
            return Some(FILES[i].1);
        }
    }
    if has_control(found) {
        return Some("no text");
    }
    None
}

/// Whether this is nothing, or no text.
pub fn is_strange(found: &[u8]) -> bool {
    found.is_empty() || file_of(found).is_some()
}

impl TextForm {
    /// What a text of this form is called.
    pub fn called(self) -> &'static str {
        match self {
            TextForm::Commands => "a command list",
            TextForm::Certificate | TextForm::OnTime => "a certificate",
            TextForm::Schedule => "a schedule",
            TextForm::Capture => "a capture",
            TextForm::Script => "a script",
            TextForm::Trace => "a trace",
        }
    }
}

/// What a text is called whose first record begins with this field.
pub fn called(found: &[u8]) -> &'static str {
    if found.is_empty() {
        return "empty";
    }
    if let Some(form) = form_named(found) {
        return form.called();
    }
    match file_of(found) {
        Some(file) => file,
        None => "no text of blk",
    }
}
