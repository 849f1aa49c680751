//! The fixed words of a picture, with a dollar sign for each number.

/// How a picture of some height begins, with its colours, light and dark.
pub(crate) const HEAD: &str =
    "<svg xmlns='http://www.w3.org/2000/svg' version='1.1' width='1280' height='$' viewBox='0 0 1280 $'>\n<style>text{font-family:sans-serif;font-size:13px;fill:#222}.t{font-size:18px;font-weight:bold}.b{font-size:14px;font-weight:bold}.s{font-size:11px}.e{text-anchor:end}.c{text-anchor:middle}.p{fill:#fff}.f{fill:#f2f2f2}.r{fill:#7fb8d9}.w{fill:#f2cc80}.u{fill:#b4b4c8}.x{fill:#009e73}.o{fill:#222}.h{fill:#d55e00}.a{fill:#cc79a7}.st{fill:#d55e00;fill-opacity:.18}.k{fill:none;stroke:#222}.d{fill:none;stroke:#222;stroke-width:1.5}.g{fill:none;stroke:#fff}@media(prefers-color-scheme:dark){text{fill:#ddd}.p{fill:#161616}.f{fill:#262626}.o{fill:#fff}.k,.d{stroke:#ddd}.g{stroke:#161616}.r{fill:#2a6f97}.w{fill:#94701f}.u{fill:#66667a}}</style>\n<rect class='p' width='1280' height='$'/>\n";

/// The title of the picture of a capture.
pub(crate) const BLAME: &str = "<text class='t' x='24' y='28'>late requests, in ms</text>\n";

/// The title of the picture of a schedule.
pub(crate) const SCHEDULE: &str = "<text class='t' x='24' y='28'>schedule, in rounds</text>\n";

/// What stands before the heading, and after it.
pub(crate) const BEFORE_HEAD: &str = "<text x='24' y='50' xml:space='preserve'>";

pub(crate) const AFTER_HEAD: &str = "</text>\n";

/// The colours and what they mean: of requests whose ways are known, and of commands.
pub(crate) const WAYS: &str =
    "<g transform='translate(24,62)'><rect class='r' width='14' height='14'/><text x='19' y='12'>read waits</text><rect class='w' x='103' width='14' height='14'/><text x='122' y='12'>write waits</text><text x='209' y='12'>after its deadline, and why late:</text><rect class='x' x='433' width='14' height='14'/><text x='452' y='12'>spare: need not have been</text><rect class='o' x='644' width='14' height='14'/><text x='663' y='12'>full</text><rect class='h' x='700' width='14' height='14'/><text x='719' y='12'>stall</text><rect class='a' x='763' width='14' height='14'/><text x='782' y='12'>arrival</text><rect class='st' x='840' width='14' height='14'/><text x='859' y='12'>device took nothing</text><path class='k' d='M1005 4v6H1029v-6'/><text x='1035' y='12'>crowded</text></g>\n";

pub(crate) const COMMANDS: &str =
    "<g transform='translate(24,62)'><rect class='u' width='14' height='14'/><text x='19' y='12'>command waits</text><path class='d' d='M141 0v14'/><text x='149' y='12'>due</text><text x='190' y='12'>after its due round, and why late:</text><rect class='x' x='424' width='14' height='14'/><text x='443' y='12'>spare: need not have been</text><rect class='o' x='635' width='14' height='14'/><text x='654' y='12'>full</text><rect class='a' x='691' width='14' height='14'/><text x='710' y='12'>gap</text><path class='k' d='M751 4v6H775v-6'/><text x='781' y='12'>crowded</text></g>\n";

/// How many intervals are drawn, and how many there are, and that none is.
pub(crate) const SHOWN: &str =
    "<text x='24' y='98'>Intervals in which late requests wait: the worst $ of $, with $ of the $ late.</text>\n";

pub(crate) const NONE_LATE: &str = "<text x='24' y='98'>None was late.</text>\n";

pub(crate) const ALL: &str = "<text x='24' y='98'>All are drawn, $ of them late.</text>\n";

/// How a panel begins, so far from the top, and its title.
pub(crate) const PANEL: &str = "<g transform='translate(0,$)'>\n<text class='b' x='24' y='14'>";

/// How the frame of a panel begins.
pub(crate) const FRAME: &str = "<rect class='f' x='64' y='24' width='1200' height='$'/>\n";

/// A part of a bar.
pub(crate) const PART: &str = "' x='$' y='$' width='$' height='$'/>";

/// A deadline.
pub(crate) const DUE: &str = "<path class='d' d='M$ $v$'/>";

/// The number of a request beside its row.
pub(crate) const ROW: &str = "<text class='s e' x='58' y='$'>$</text>";

/// How a bar, a stall and a window begin, and how they end.
pub(crate) const BAR: &str = "<g><title>";

pub(crate) const AFTER_TITLE: &str = "</title>";

pub(crate) const AFTER_BAR: &str = "</g>\n";

/// The ends of a window below the panel.
pub(crate) const BRACKET: &str = "<path class='k' d='M$ $v6H$v-6'/>";

/// Its numbers.
pub(crate) const LABEL: &str = "<text class='s' x='$' y='$'>$ wanted, room for $</text>";

/// A number of the axis.
pub(crate) const TICK: &str = "<path class='k' d='M$ $v5'/><text class='s c' x='$' y='$'>";
