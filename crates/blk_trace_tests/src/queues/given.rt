//! What the tests are given: an allocator that refuses one allocation, and calls that are made once more where it did.

use blk_bio::{Bio, BioId, Dir, JoinFault, Limits, Request, Side};
use refusing::Refusing;
use std::alloc::Global;
use std::process::Abort;

/// The allocator of all these tests. A refusal counts from the call that arms it.
pub type Heap<'a> = &'a Refusing<Global>;

/// A name of submitter 3.
pub fn id_of(serial: u64) -> BioId {
    BioId {
        submitter: 3,
        serial,
    }
}

/// A bio whose serial number is its first sector.
pub fn bio(rt: &impl Abort, dir: Dir, first: u64, sectors: u64) -> Bio {
    Bio::new(id_of(first), dir, first, sectors).expect(rt, "a bio")
}

/// Limits that there are.
pub fn limits(rt: &impl Abort, max_sectors: u64, max_segments: u64) -> Limits {
    Limits::new(max_sectors, max_segments).expect(rt, "limits")
}

/// A request of one bio.
pub fn request<'a>(rt: &impl Abort, heap: Heap<'a>, bio: Bio) -> Request<Heap<'a>> {
    let armed = heap.is_armed();
    match Request::of(heap, bio) {
        Ok(request) => request,
        Err((back, _)) => {
            assert!(rt; armed && !heap.is_armed());
            Request::of(heap, back).expect(rt, "out of memory")
        }
    }
}

/// Joins a bio to a request that it fits, and says where.
pub fn joined<'a>(
    rt: &impl Abort,
    heap: Heap<'a>,
    whole: &mut Request<Heap<'a>>,
    newcomer: Bio,
    limits: &Limits,
) -> Side {
    let newcomer = request(rt, heap, newcomer);
    let armed = heap.is_armed();
    match whole.join(newcomer, limits) {
        Ok(side) => side,
        Err((newcomer, why)) => {
            assert_eq!(rt; why, JoinFault::Memory);
            assert!(rt; armed && !heap.is_armed());
            let Ok(side) = whole.join(newcomer, limits) else {
                panic!(rt; "out of memory");
            };
            side
        }
    }
}
