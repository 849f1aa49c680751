//! Which of several reports is the best.

use crate::given::{served, unserved};
use blk_report::compare;

#[test]
fn smallest_greatest(rt: HostRuntime) {
    let late = |greatest: i64| served((2, 0, 1), greatest, -3, greatest + 3, (0, 0), 1);
    assert_eq!(rt; compare([].as_slice()), None);
    assert_eq!(rt; compare([unserved(2, 1), unserved(0, 64)].as_slice()), None);
    assert_eq!(rt; compare([late(1), late(0), late(0)].as_slice()), Some(1));
    assert_eq!(rt;
        compare([unserved(2, 1), late(5), late(-2)].as_slice()),
        Some(2)
    );
    assert_eq!(rt;
        compare([late(-2), unserved(2, 1), late(-1)].as_slice()),
        Some(0)
    );
}
