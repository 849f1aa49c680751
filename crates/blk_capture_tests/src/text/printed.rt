//! A capture as a recorder prints it.

use blk_capture::Action;
use blk_capture_text::{Printed, read_source};
use blk_recorders::{Device, Recorder};

/// A read of the device 7,5, beside a step of another one and a remark.
const TEXT: &str = "# tracer: blk\n\
    8,0    1     0.000000001     7  Q   R 64 + 8 [fio]\n\
    7,5    1     0.000000002     7  Q   R 64 + 8 [fio]\n\
    7,5    1     0.000000003     7  G   R 64 + 8 [fio]\n\
    7,5    1     0.000000004     7  D   R 64 + 8 [fio]\n";

#[test]
fn what_ftrace_prints_is_read(rt: HostRuntime) {
    let device = Device::of_text(b"7,5");
    let read = read_source(rt.alloc(), None, device, TEXT.as_bytes()).expect(&rt, "a capture");
    assert_eq!(rt; read.records.len(), 3);
    assert_eq!(rt; read.records[2].action, Action::Issue);
    let printed = Printed {
        recorder: Recorder::Ftrace,
        device: Some(Device { major: 7, minor: 5 }),
        others: 1,
        remarks: 1,
        losses: 0,
    };
    assert_eq!(rt; read.printed, Some(printed));
}
