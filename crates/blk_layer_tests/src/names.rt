//! What the faults of a layer print: the names of their variants.

use blk_bio::BioId;
use blk_core::IssueFault;
use blk_layer::{CloseFault, FlushReason, LayerFault, LayerIssueFault, WorkFault};
use blk_tags::TagFault;
use std::alloc::Global;
use std::fmt::{Debug, Display};

/// Whether a fault prints this.
fn prints<F: Display>(alloc: Global, fault: &F, name: &str) -> bool {
    match format!(in alloc; "{fault}") {
        Ok(text) => text.as_str() == name,
        Err(_) => false,
    }
}

/// Whether each of the faults, which have no payload, prints its variant.
fn print_variants<F: Debug + Display>(alloc: Global, faults: &[F]) -> bool {
    faults.iter().all(|fault| match format!(in alloc; "{fault:?}") {
        Ok(variant) => prints(alloc, fault, variant.as_str()),
        Err(_) => false,
    })
}

#[test]
fn of_a_layer(rt: HostRuntime) {
    let heap = rt.alloc();
    let bio = BioId {
        submitter: 0,
        serial: 1,
    };
    let made = [
        LayerFault::Queues,
        LayerFault::SoftDepth,
        LayerFault::Workers,
        LayerFault::Memory,
    ];
    assert!(rt; print_variants(heap, &made));
    assert!(rt; prints(heap, &LayerFault::WorkerQueue(1), "WorkerQueue"));
    assert!(rt; prints(heap, &LayerIssueFault::NoTag, "NoTag"));
    assert!(rt;
        prints(
            heap,
            &LayerIssueFault::Issue(IssueFault::SlotUsed),
            "SlotUsed"
        )
    );
    assert!(rt; print_variants(heap, &[WorkFault::TraceFull, WorkFault::Memory]));
    assert!(rt; prints(heap, &WorkFault::Repeated(bio), "Repeated"));
    assert!(rt; print_variants(heap, &[FlushReason::SoftFull, FlushReason::Memory]));
    assert!(rt; prints(heap, &FlushReason::Foreign(bio), "Foreign"));
    assert!(rt; prints(heap, &FlushReason::Repeated(bio), "Repeated"));
    assert!(rt; print_variants(heap, &[CloseFault::SeatMissing, CloseFault::Memory]));
    assert!(rt; print_variants(heap, &[TagFault::Depth, TagFault::Memory]));
}
