//! Boxes, columns and strips worked by hand.

use crate::pictures::given::Happening::{Bare, Read, Ticks, Write};
use crate::pictures::given::{count_of, trace_of};
use blk_picture::laws::law_of_limits;
use blk_picture::{picture, pictures};
use blk_trace::Event;

#[test]
fn limits_hold() {
    law_of_limits();
}

/// A read goes out under tag 1 in round 0, on time: 40 pixels a round, 24 a tag.
#[test]
fn a_read_on_time(rt: HostRuntime) {
    let steps = [
        Read(0),
        Bare(Event::Issue { id: 0, tag: 1 }),
        Bare(Event::Done { tag: 1 }),
    ];
    let trace = trace_of(&rt, rt.alloc(), 2, &steps);
    let text = picture(rt.alloc(), &trace).expect(&rt, "memory");
    let told =
        b"<rect class='r' x='64' y='206' width='39' height='23'><title>request 0, read, sectors 0 to 8, released in round 0, due 0, issued 0, lateness 0</title></rect>\n";
    assert_eq!(rt; count_of(text.as_slice(), told), 1);
    assert_eq!(rt; count_of(text.as_slice(), b"<title>request "), 1);
}

/// A read is requeued in round 0 and goes out a round late. A write waits with it, and stays.
#[test]
fn handed_back_and_late(rt: HostRuntime) {
    let steps = [
        Read(0),
        Write(1),
        Bare(Event::Issue { id: 0, tag: 0 }),
        Bare(Event::Back { tag: 0 }),
        Bare(Event::Tick),
        Bare(Event::Issue { id: 0, tag: 0 }),
        Bare(Event::Done { tag: 0 }),
    ];
    let trace = trace_of(&rt, rt.alloc(), 1, &steps);
    let text = picture(rt.alloc(), &trace).expect(&rt, "memory");
    let back =
        b"<rect class='hr' x='64' y='182' width='39' height='23'><title>request 0, read, sectors 0 to 8, released in round 0, due 0, issued 0 and handed back</title></rect>\n";
    let late =
        b"<rect class='r l' x='104' y='182' width='39' height='23'><title>request 0, read, sectors 0 to 8, released in round 0, due 0, issued 1, lateness 1</title></rect>\n<text class='n o' x='124' y='197'>1</text>\n";
    assert_eq!(rt; count_of(text.as_slice(), back), 1);
    assert_eq!(rt; count_of(text.as_slice(), late), 1);
    assert_eq!(rt;
        count_of(text.as_slice(), b"<title>1 reads and 1 writes wait</title>"),
        1
    );
    assert_eq!(rt;
        count_of(text.as_slice(), b"<title>0 reads and 1 writes wait</title>"),
        1
    );
}

/// 402 rounds are 201 columns of two. The first has a read on time and, of its four places, three idle ones; the last has one that its
/// rounds do not carry, after the depth fell.
#[test]
fn columns_of_two_rounds(rt: HostRuntime) {
    let steps = [
        Read(0),
        Bare(Event::Issue { id: 0, tag: 0 }),
        Bare(Event::Done { tag: 0 }),
        Ticks(400),
        Bare(Event::Depth { depth: 1 }),
        Bare(Event::Tick),
    ];
    let trace = trace_of(&rt, rt.alloc(), 2, &steps);
    let text = picture(rt.alloc(), &trace).expect(&rt, "memory");
    let first =
        b"<title>column 0: 1 reads and 0 writes on time, 0 late, 0 handed back, 3 idle places</title>";
    let last = b"<rect class='g' x='200' y='3' width='1' height='1'/>";
    assert_eq!(rt; count_of(text.as_slice(), first), 1);
    assert_eq!(rt; count_of(text.as_slice(), last), 1);
    assert_eq!(rt; count_of(text.as_slice(), b"<title>column "), 201);
    assert_eq!(rt; count_of(text.as_slice(), b"<title>request "), 0);
}

/// Two traces stand one below another, on the scale of the longer one: 2 rounds of 40 pixels.
#[test]
fn two_on_one_scale(rt: HostRuntime) {
    let short = [
        Read(0),
        Bare(Event::Issue { id: 0, tag: 0 }),
        Bare(Event::Done { tag: 0 }),
    ];
    let long = [
        Write(0),
        Bare(Event::Tick),
        Bare(Event::Issue { id: 0, tag: 0 }),
    ];
    let traces = [
        trace_of(&rt, rt.alloc(), 1, &short),
        trace_of(&rt, rt.alloc(), 1, &long),
    ];
    let names = [b"none".as_slice(), b"deadline".as_slice()];
    let text = pictures(rt.alloc(), &names, &traces).expect(&rt, "memory");
    assert_eq!(rt;
        count_of(
            text.as_slice(),
            b"<svg x='64' y='182' width='80' height='24'"
        ),
        2
    );
    assert_eq!(rt;
        count_of(
            text.as_slice(),
            b"<g transform='translate(0,396)'>\n<text class='t' x='24' y='28'>deadline</text>"
        ),
        1
    );
}
