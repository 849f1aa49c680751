//! What the program tells of its own simulations under `earliest`.

use crate::program::given::NoMemory;
use blk_online_cli::{misses_of_late_last, report_of_earliest};
use blk_records::Records;
use text_output::Output;

/// At depth 1 two reads, due in the round in which they come, and a write, due one round on.
const SCRIPT: &str =
    "blk-script,2,1,1,3,1\nsetup,0,1,256,128,\nbio,0,0,R,0,8\nbio,0,1,R,100,8\nbio,0,2,W,200,8\nflush,0,,,,\nrun,3,,,,\n";

/// They go out as they came: the second read and the write are a round late, as the latest of three has to be.
const REPORT: &str =
    "commands 3\nwaiting 0\ndepth 1\ngreatest 1\nleast 1\nshortfall 0\nwindow 0 0\nload 2\n";

/// The second read goes last, and is the one that has to be late.
const MISSES: &str = "commands 3\nlate 1\nunavoidable 1\navoidable 0\n";

#[test]
fn reports_no_shortfall(rt: HostRuntime) {
    let mut told: Vec<u8> = Vec::new(rt.alloc());
    let mut faults: Vec<u8> = Vec::new(rt.alloc());
    let ended = report_of_earliest(
        &NoMemory,
        &rt,
        rt.alloc(),
        &mut Records::new(rt.alloc(), SCRIPT.as_bytes()),
        &mut Output::new(&mut told),
        &mut Output::new(&mut faults),
    )
    .expect(&rt, "memory");
    assert!(rt; ended.status == 0);
    assert!(rt; told.as_slice() == REPORT.as_bytes());
}

#[test]
fn counts_none_avoidable(rt: HostRuntime) {
    let mut told: Vec<u8> = Vec::new(rt.alloc());
    let mut faults: Vec<u8> = Vec::new(rt.alloc());
    let ended = misses_of_late_last(
        &NoMemory,
        &rt,
        rt.alloc(),
        &mut Records::new(rt.alloc(), SCRIPT.as_bytes()),
        &mut Output::new(&mut told),
        &mut Output::new(&mut faults),
    )
    .expect(&rt, "memory");
    assert!(rt; ended.status == 0);
    assert!(rt; told.as_slice().starts_with(MISSES.as_bytes()));
}
