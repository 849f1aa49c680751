//! What a load is asked for.

use crate::program::given::{Noting, status_over};

/// The words of a load beside its name, and its numbers.
type Asked<'a> = (&'a [&'a str], [u64; 6]);

/// A load as it is where nothing is asked for, and one of which all is.
fn loads<'a>() -> [Asked<'a>; 2] {
    [
        (&["load"], [2, 2, 1000, 8, 0, 0]),
        (
            &[
                "load",
                "--submitters",
                "3",
                "--workers",
                "5",
                "--bios",
                "7",
                "--depth",
                "11",
                "--busy",
                "13",
                "--service",
                "17",
            ],
            [3, 5, 7, 11, 13, 17],
        ),
    ]
}

// One load is run, of the numbers that the words say; memory runs out at it.
#[test]
fn a_load_is_that_of_its_words(rt: HostRuntime) {
    for (words, numbers) in loads() {
        let noting = Noting::new();
        assert_eq!(rt; status_over(&rt, rt.alloc(), &noting, words), 3);
        assert!(rt; noting.is_one_of(&numbers));
    }
}
