//! The line on which a record begins.

ghost use Rattle.std.specs.Prelude.{◌≡◌, ◌<◌, ◌+◌, ◌-◌, ◌^◌, if◌then◌else◌, ◌&&◌, ◌==◌};
ghost use Rattle.csv.specs.Machine.{ends_at_end};
ghost use Rattle.csv.specs.Reading.{is_bom, strip_bom};
ghost use Rattle.blk_explain.specs.Lines.{state_after, begins, ends_line, line_at};
ghost use Rattle.blk_explain.specs.Inside.Ends.{line_state};

/// Where the reading of records stands between two bytes.
#[derive(Clone, Copy, Debug, PartialEq, Eq)]
enum ReadState {
    /// Between two records.
    Between,
    /// Between two records, after a carriage return.
    Returned,
    /// Before a field's first byte.
    Start,
    /// In a field without quotes.
    Inside,
    /// Within quotes.
    Quoted,
    /// After a quote within quotes.
    Quote,
}

/// The same after one more byte of a field without quotes, or of what follows quotes.
fn in_field(byte: u8) -> ReadState
    ensures { line_state result ≡ state_after (line_state ReadState.Inside) byte }
{
    match byte {
        b',' => ReadState::Start,
        b'\r' => ReadState::Returned,
        b'\n' => ReadState::Between,
        _ => ReadState::Inside,
    }
}

/// The same after one more byte.
fn state_after(state: ReadState, byte: u8) -> ReadState
    ensures { line_state result ≡ state_after (line_state state) byte }
{
    match state {
        ReadState::Returned if byte == b'\n' => ReadState::Between,
        ReadState::Between | ReadState::Returned => {
            if byte == b'\n' || byte == b'\r' {
                ReadState::Between
            } else if byte == b'"' {
                ReadState::Quoted
            } else {
                in_field(byte)
            }
        }
        ReadState::Start => {
            if byte == b'"' {
                ReadState::Quoted
            } else {
                in_field(byte)
            }
        }
        ReadState::Inside => in_field(byte),
        ReadState::Quoted => {
            if byte == b'"' {
                ReadState::Quote
            } else {
                ReadState::Quoted
            }
        }
        ReadState::Quote => {
            if byte == b'"' {
                ReadState::Quoted
            } else {
                in_field(byte)
            }
        }
    }
}

/// Whether this is within a record.
fn is_within(state: ReadState) -> bool
    ensures { result ≡ ends_at_end (line_state state) }
{
    match state {
        ReadState::Between | ReadState::Returned => false,
        ReadState::Start | ReadState::Inside | ReadState::Quoted | ReadState::Quote => true,
    }
}

/// Whether three bytes are the byte order mark.
fn is_mark(a: u8, b: u8, c: u8) -> bool
    ensures { result ≡ is_bom a b c }
{
    a == 0xEF && b == 0xBB && c == 0xBF
}

/// A text without the byte order mark at its beginning.
#[tactic(auto, using(crate::proofs::Walks::strip_short, crate::proofs::Walks::strip_marked, crate::proofs::Walks::strip_unmarked))]
fn unmarked(bytes: &[u8]) -> &[u8]
    ensures { result.now ≡ strip_bom bytes.now }
{
    if bytes.len() < 3 {
        return bytes;
    }
    if is_mark(bytes[0], bytes[1], bytes[2]) {
        &bytes[3..]
    } else {
        bytes
    }
}

/// Whether a record begins with a byte.
fn begins(state: ReadState, byte: u8) -> bool
    ensures { result ≡ begins (line_state state) byte }
{
    !is_within(state) && is_within(state_after(state, byte))
}

/// The line after a byte, which may end one.
fn line_after(line: u64, returned: bool, byte: u8) -> u64
    requires { line < 2 ^ 64 - 1 }
    ensures { result ≡ (if ends_line returned byte then line + 1 else line) }
{
    if byte == b'\r' || (byte == b'\n' && !returned) {
        line + 1
    } else {
        line
    }
}

/// How many records are yet to begin, after one or none has.
fn left_after(left: u64, begun: bool) -> u64
    ensures { result ≡ (if begun then left - 1 else left) }
{
    if begun { left.saturating_sub(1) } else { left }
}

/// Whether the record that is looked for begins.
fn is_it(begun: bool, left: u64) -> bool
    ensures { result ≡ (begun && (left == 1)) }
{
    begun && left == 1
}

/// The line on which the n-th record of a text begins, both from 1 on; where there is none, the text's last line. A line is ended by a
/// line feed, a carriage return, or the second with the first after it.
pub fn line_at(bytes: &[u8], n: u64) -> u64
    ensures { result ≡ line_at bytes.now n }
{
    let text = unmarked(bytes);
    let mut state = ReadState::Between;
    let mut returned = false;
    let mut line: u64 = 1;
    let mut left = n;
    for i in 0..text.len() {
        let byte = text[i];
        let begun = begins(state, byte);
        if is_it(begun, left) {
            return line;
        }
        left = left_after(left, begun);
        line = line_after(line, returned, byte);
        returned = byte == b'\r';
        state = state_after(state, byte);
    }
    line
}
