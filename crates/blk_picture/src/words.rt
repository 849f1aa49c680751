//! The fixed words of a picture, with a dollar sign for each number.

/// What was late, and how many rounds stand in a column.
pub const NUMBERS: &str =
    "</text>\n<text x='24' y='68'>late $ unavoidable $ avoidable $ spare $; rounds in a column: $</text>\n";

/// How many columns are not drawn, and that nothing late is in them.
pub const CUT: &str =
    "<text class='e' x='1264' y='68'>cut at broken lines: $ of $ columns, with $ late</text>\n";

/// The colours, and what they mean.
pub const LEGEND: &str =
    "<g transform='translate(24,78)'><rect class='r' width='14' height='14'/><text class='s' x='19' y='12'>read</text><rect class='w' x='61' width='14' height='14'/><text class='s' x='80' y='12'>write</text><rect class='r l' x='124' y='1' width='12' height='12'/><rect class='w l' x='142' y='1' width='12' height='12'/><text class='s' x='160' y='12'>late, by how many rounds</text><rect class='m' x='320' width='14' height='14'/><text class='s' x='339' y='12'>late in columns</text><rect class='hr' x='440' width='14' height='14'/><rect class='hw' x='459' width='14' height='14'/><text class='s' x='478' y='12'>handed back</text><rect class='b' x='566' width='14' height='14'/><text class='s' x='585' y='12'>back in columns</text><rect class='f' x='691' width='14' height='14'/><text class='s' x='710' y='12'>idle</text><rect class='g' x='746' width='14' height='14'/><text class='s' x='765' y='12'>not carried</text><path class='q' d='M842 4v6H866v-6'/><text class='s' x='872' y='12'>crowded window, below it those of misses</text></g>\n";

/// What stands between the name and the report.
pub const AFTER_NAME: &str = "</text>\n<text x='24' y='50' xml:space='preserve'>";

/// Where columns are cut, through the strip and the frame, and that in words.
pub const BREAK: &str = "<path class='z' d='M$ 5v-$'><title>rounds $ to $ are cut</title></path>\n";

/// A number of the axis.
pub const TICK: &str = "<path class='k' d='M$ 0v5'/><text class='s c' x='$' y='17'>$</text>\n";

/// The bracket of a window, with its two numbers in its title.
pub const BRACKET: &str =
    " d='M$ $v6H$v-6'><title>rounds $ to $: $ commands, room for $</title></path>\n";

/// The two numbers of a window, below its bracket.
pub const LABEL: &str = "<text class='s' x='$' y='$'>$ commands, room for $</text>\n";

/// The style sheet.
pub const STYLE: &str =
    "<style>text{font-family:sans-serif;font-size:13px;fill:#222}.t{font-size:18px;font-weight:bold}.s{font-size:11px}.e{text-anchor:end}.c,.n{text-anchor:middle}.n{font-size:10px;fill:#000}.o{fill:#fff}.p{fill:#fff}.f{fill:#f0f0f0}.g{fill:#a8a8a8}.r{fill:#0072b2}.w{fill:#e69f00}.m{fill:#000}.b{fill:#cc79a7}.l{stroke:#000;stroke-width:2}.hr{fill:url(#hr);stroke:#0072b2}.hw{fill:url(#hw);stroke:#e69f00}.k,.q{fill:none;stroke:#222}.q{stroke-width:2.5}.z{fill:none;stroke:#d55e00;stroke-width:1.5;stroke-dasharray:4 3}.dr{stroke:#0072b2;stroke-width:2}.dw{stroke:#e69f00;stroke-width:2}@media(prefers-color-scheme:dark){text{fill:#ddd}.n{fill:#000}.o{fill:#fff}.p{fill:#161616}.f{fill:#262626}.g{fill:#5c5c5c}.m{fill:#fff}.l{stroke:#fff}.k,.q{stroke:#ddd}.r{fill:#2a92d0}}</style><defs><pattern id='hr' width='5' height='5' patternUnits='userSpaceOnUse' patternTransform='rotate(45)'><path class='dr' d='M0 0V5'/></pattern><pattern id='hw' width='5' height='5' patternUnits='userSpaceOnUse' patternTransform='rotate(45)'><path class='dw' d='M0 0V5'/></pattern></defs>\n";

/// How a picture of some height begins.
pub const HEAD: &str =
    "<svg xmlns='http://www.w3.org/2000/svg' version='1.1' width='1280' height='$' viewBox='0 0 1280 $'>\n";

/// The end of the box of a request that was requeued.
pub const BOX_BACK: &str =
    ", sectors $ to $, released in round $, due $, issued $ and handed back</title></rect>\n";

/// The end of the box of one that was early.
pub const BOX_EARLY: &str =
    ", sectors $ to $, released in round $, due $, issued $, lateness -$</title></rect>\n";

/// The end of the box of any other.
pub const BOX_LATE: &str =
    ", sectors $ to $, released in round $, due $, issued $, lateness $</title></rect>\n";

/// The place of a box, and the id of its request.
pub const BOX_PLACE: &str = " x='$' y='$' width='$' height='$'><title>request $, ";

/// The stack of a column.
pub const STACK: &str =
    "<g><title>column $: $ reads and $ writes on time, $ late, $ handed back, $ idle places</title><rect class='r' x='$' y='0' width='1' height='$'/><rect class='w' x='$' y='$' width='1' height='$'/><rect class='m' x='$' y='$' width='1' height='$'/><rect class='b' x='$' y='$' width='1' height='$'/><rect class='g' x='$' y='$' width='1' height='$'/></g>\n";

/// What the rounds of a column do not carry.
pub const NO_ROOM: &str = "<rect class='g' x='$' y='$' width='1' height='$'/>\n";

/// The frame of the boxes.
pub const FRAME: &str =
    "<svg x='64' y='182' width='$' height='$' viewBox='0 0 $ $' preserveAspectRatio='none'><rect class='f' width='$' height='$'/>\n";

/// What waits in a column.
pub const WAITING: &str =
    "<g><title>$ reads and $ writes wait</title><rect class='r' x='$' y='0' width='1' height='$'/><rect class='w' x='$' y='$' width='1' height='$'/></g>\n";

/// The scale of what waits.
pub const WAIT_SCALE: &str =
    "<text class='s e' x='58' y='120'>$</text><text class='s e' x='58' y='168'>waiting</text><text class='s e' x='58' y='194'>tag 0</text><svg x='64' y='110' width='$' height='60' viewBox='0 0 $ $' preserveAspectRatio='none'><rect class='f' width='$' height='$'/><g transform='matrix(1 0 0 -1 0 $)'>\n";
