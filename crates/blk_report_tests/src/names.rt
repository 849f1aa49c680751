//! What faults print: their names.

use blk_args::Refusal;
use blk_arrivals::ArrivalsFault;
use blk_bio::{BioFault, BioId, JoinFault, LimitsFault, TraceRule};
use blk_capture::CaptureFault;
use blk_capture_text::{ImportFault, UnreadCapture, Unstreamed};
use blk_cli::Failure;
use blk_core::{BackFault, CoreFault, DepthFault, IssueFault, TickFault};
use blk_deadline::DeadlineFault;
use blk_kyber::KyberFault;
use blk_layer::{CloseFault, FlushReason, WorkFault};
use blk_load::LoadFault;
use blk_queues::{MapFault, PlugFault};
use blk_recorders::{LineFault, LineReason};
use blk_records::{TextFault, TextReason};
use blk_runs::RunFault;
use blk_sched::JoinRefusal;
use blk_schedulers::{ListFault, SchedFault, SchedKind, Unsettled};
use blk_sim::{Overflow, SimFault, SimReason};
use blk_trace::{PushFault, SetupFault, TraceFault};
use edd_check::{CheckFault, OnTimeFault};
use edd_commands::{CapacityFault, Fault};
use edd_oracle::OracleFault;
use std::alloc::Global;
use std::fmt::{Debug, Display};

/// Whether a fault prints this.
fn prints<F: Display>(alloc: Global, fault: &F, name: &str) -> bool {
    match format!(in alloc; "{fault}") {
        Ok(text) => text.as_str() == name,
        Err(_) => false,
    }
}

/// Whether each of the faults prints its name.
fn print_names<F: Fault + Display>(alloc: Global, faults: &[F]) -> bool {
    faults
        .iter()
        .all(|fault| prints(alloc, fault, fault.name()))
}

/// Whether each of the faults, which have no payload, prints its variant.
fn print_variants<F: Debug + Display>(alloc: Global, faults: &[F]) -> bool {
    faults.iter().all(|fault| match format!(in alloc; "{fault:?}") {
        Ok(variant) => prints(alloc, fault, variant.as_str()),
        Err(_) => false,
    })
}

/// A bio's id.
fn bio() -> BioId {
    BioId {
        submitter: 0,
        serial: 1,
    }
}

#[test]
fn of_commands(rt: HostRuntime) {
    let heap = rt.alloc();
    let checks = [
        CheckFault::Length,
        CheckFault::BeforeRelease(1),
        CheckFault::Memory,
        CheckFault::OverDepth(2),
        CheckFault::WrongLateness(-3),
        CheckFault::NotCrowded(4),
    ];
    assert!(rt; print_names(heap, &checks));
    let on_time = [
        OnTimeFault::Length,
        OnTimeFault::BeforeRelease(1),
        OnTimeFault::Memory,
        OnTimeFault::OverDepth(2),
        OnTimeFault::WrongMet(3),
        OnTimeFault::Windows(4),
        OnTimeFault::Loose(5),
    ];
    assert!(rt; print_names(heap, &on_time));
    let solved = [
        OracleFault::TooMany,
        OracleFault::RoundRange(1),
        OracleFault::RepeatedId(2),
        OracleFault::Memory,
    ];
    assert!(rt; print_names(heap, &solved));
    assert!(rt; print_variants(heap, &[CapacityFault::Start]));
    assert!(rt; prints(heap, &CapacityFault::Rising(1), "Rising"));
    assert!(rt; prints(heap, &CapacityFault::Depth(2), "Depth"));
    assert!(rt; prints(heap, &CapacityFault::Round(3), "Round"));
}

#[test]
fn of_records(rt: HostRuntime) {
    let heap = rt.alloc();
    let records = [
        TextReason::Title,
        TextReason::Fields,
        TextReason::Word,
        TextReason::Number,
        TextReason::Range,
        TextReason::Bio(BioFault::Empty),
        TextReason::Bio(BioFault::Range),
        TextReason::Tile,
        TextReason::Rule(TraceRule::ReleasedTwice),
        TextReason::Rule(TraceRule::Unknown),
        TextReason::Rule(TraceRule::AlreadyIssued),
        TextReason::Rule(TraceRule::BioTwice),
        TextReason::Rule(TraceRule::Fit),
        TextReason::Rule(TraceRule::TagRange),
        TextReason::Rule(TraceRule::TagUsed),
        TextReason::Rule(TraceRule::NotIssued),
        TextReason::Rule(TraceRule::InFlight),
        TextReason::Rule(TraceRule::TooLong),
        TextReason::Rule(TraceRule::DepthRange),
        TextReason::RepeatedId,
        TextReason::Order,
        TextReason::Count,
        TextReason::TooLong,
        TextReason::Read,
        TextReason::Memory,
    ];
    for why in &records {
        let fault = TextFault { at: 1, why: *why };
        assert!(rt; prints(heap, why, why.name()));
        assert!(rt; prints(heap, &fault, why.name()));
        assert!(rt; prints(heap, &Failure::Text(fault), why.name()));
        assert!(rt; prints(heap, &UnreadCapture::Text(fault), why.name()));
        match why {
            TextReason::Bio(fault) => assert!(rt; prints(heap, fault, fault.name())),
            TextReason::Rule(rule) => {
                assert!(rt; prints(heap, rule, rule.name()));
                assert!(rt; prints(heap, &PushFault::Rule(*rule), rule.name()));
                assert!(rt; prints(heap, &TraceFault::Rule { at: 1, rule: *rule }, rule.name()));
            }
            _ => {}
        }
    }
}

#[test]
fn of_captures(rt: HostRuntime) {
    let heap = rt.alloc();
    let lines = [
        LineReason::Fields,
        LineReason::Number,
        LineReason::Range,
        LineReason::Devices,
        LineReason::Order,
        LineReason::TooLong,
        LineReason::Memory,
    ];
    for why in &lines {
        let fault = LineFault { at: 1, why: *why };
        assert!(rt; prints(heap, why, why.name()));
        assert!(rt; prints(heap, &fault, why.name()));
        let unread = UnreadCapture::Line(fault);
        let unstreamed = Unstreamed {
            fault: unread,
            bytes: Vec::new(heap),
        };
        assert!(rt; prints(heap, &unread, why.name()));
        assert!(rt; prints(heap, &unstreamed, why.name()));
        assert!(rt; prints(heap, &Failure::Unread(unread), why.name()));
    }
    assert!(rt; print_names(heap, &[UnreadCapture::Memory]));
    assert!(rt; print_names(heap, &[ImportFault::TooMany(1), ImportFault::Memory]));
    let arrivals = [
        ArrivalsFault::Round,
        ArrivalsFault::Setup(SetupFault::Depth),
        ArrivalsFault::Setup(SetupFault::Expire),
        ArrivalsFault::TooMany,
        ArrivalsFault::TraceFull,
        ArrivalsFault::TooLong,
        ArrivalsFault::Memory,
    ];
    assert!(rt; print_names(heap, &arrivals));
    assert!(rt; print_variants(heap, &[CaptureFault::Memory]));
    assert!(rt; prints(heap, &CaptureFault::Order(1), "Order"));
}

#[test]
fn of_runs(rt: HostRuntime) {
    let heap = rt.alloc();
    let overflow = Overflow {
        holds: 1,
        brings: 2,
        room: 3,
    };
    let steps = [
        (SimReason::Plug(PlugFault::Full), "Full"),
        (SimReason::SoftFull(overflow), "SoftFull"),
        (SimReason::Release(CoreFault::Repeated(bio())), "Repeated"),
        (SimReason::Release(CoreFault::TraceFull), "TraceFull"),
        (SimReason::Issue(IssueFault::TagRange), "TagRange"),
        (SimReason::Issue(IssueFault::SlotUsed), "SlotUsed"),
        (SimReason::NotIssued, "NotIssued"),
        (SimReason::Back(BackFault::NotIssued), "NotIssued"),
        (SimReason::Tick(TickFault::InFlight(1)), "InFlight"),
        (SimReason::Depth(DepthFault::DepthRange), "DepthRange"),
        (SimReason::Memory, "Memory"),
    ];
    for (why, name) in &steps {
        let fault = SimFault { at: 1, why: *why };
        assert!(rt; prints(heap, why, name));
        assert!(rt; prints(heap, &RunFault::Step(fault), name));
        assert!(rt; prints(heap, &Failure::Run(RunFault::Step(fault)), name));
    }
    let made = [
        (SchedFault::Deadline(DeadlineFault::ZeroBatch), "ZeroBatch"),
        (SchedFault::Kyber(KyberFault::ZeroTarget), "ZeroTarget"),
        (SchedFault::Deadline(DeadlineFault::Memory), "Memory"),
        (SchedFault::Kyber(KyberFault::Memory), "Memory"),
        (SchedFault::Memory, "Memory"),
    ];
    for (fault, name) in &made {
        assert!(rt; prints(heap, fault, name));
        assert!(rt; prints(heap, &RunFault::Sched(*fault), name));
        assert!(rt; prints(heap, &Unsettled::Sched(*fault), name));
    }
    assert!(rt; print_names(heap, &[RunFault::Memory]));
}

#[test]
fn of_the_program(rt: HostRuntime) {
    let heap = rt.alloc();
    let loads = [
        LoadFault::Memory,
        LoadFault::Work(WorkFault::TraceFull),
        LoadFault::Flush(FlushReason::SoftFull),
        LoadFault::Stalled,
        LoadFault::Close(CloseFault::SeatMissing),
        LoadFault::Differs,
        LoadFault::Unserved,
    ];
    assert!(rt; print_names(heap, &loads));
    let flushes = [
        FlushReason::Foreign(bio()),
        FlushReason::Repeated(bio()),
        FlushReason::SoftFull,
        FlushReason::Memory,
    ];
    assert!(rt; print_names(heap, &flushes));
    let failures = [
        Failure::Sched(SchedFault::Memory),
        Failure::Run(RunFault::Memory),
        Failure::Solve(OracleFault::TooMany),
        Failure::Check(CheckFault::Length),
        Failure::OnTime(OnTimeFault::Loose(1)),
        Failure::NotFixed,
        Failure::Load(Unsettled::Range),
        Failure::Load(Unsettled::Load(LoadFault::Stalled.told())),
        Failure::Import(ImportFault::TooMany(1)),
        Failure::Arrivals(ArrivalsFault::Round),
        Failure::Words(Refusal::By),
        Failure::Write,
        Failure::Memory,
    ];
    assert!(rt; print_names(heap, &failures));
}

#[test]
fn of_calls(rt: HostRuntime) {
    let heap = rt.alloc();
    assert!(rt; print_variants(heap, &[LimitsFault::Sectors, LimitsFault::Segments]));
    let joins = [
        JoinFault::Direction,
        JoinFault::Apart,
        JoinFault::Sectors,
        JoinFault::Segments,
        JoinFault::Memory,
    ];
    assert!(rt; print_variants(heap, &joins));
    let setups = [SetupFault::Depth, SetupFault::Queues, SetupFault::Expire];
    assert!(rt; print_names(heap, &setups));
    assert!(rt; print_variants(heap, &setups));
    assert!(rt; print_variants(heap, &[PushFault::Memory]));
    assert!(rt; print_variants(heap, &[TraceFault::Memory]));
    assert!(rt; print_variants(heap, &[JoinRefusal::NoFit, JoinRefusal::Memory]));
    assert!(rt; print_variants(heap, &[DeadlineFault::ZeroBatch, DeadlineFault::Memory]));
    assert!(rt; print_variants(heap, &[KyberFault::ZeroTarget, KyberFault::Memory]));
    assert!(rt; print_variants(heap, &[PlugFault::Full, PlugFault::Memory]));
    assert!(rt; print_variants(heap, &[MapFault::Empty, MapFault::TooMany]));
    assert!(rt; prints(heap, &MapFault::Unserved(1), "Unserved"));
}

#[test]
fn of_a_core(rt: HostRuntime) {
    let heap = rt.alloc();
    let released = [CoreFault::NoQueue, CoreFault::TraceFull, CoreFault::Memory];
    assert!(rt; print_variants(heap, &released));
    assert!(rt; prints(heap, &CoreFault::Repeated(bio()), "Repeated"));
    let issued = [
        IssueFault::NoQueue,
        IssueFault::TagRange,
        IssueFault::SlotUsed,
        IssueFault::TraceFull,
        IssueFault::Memory,
    ];
    assert!(rt; print_variants(heap, &issued));
    assert!(rt; print_variants(heap, &[BackFault::NotIssued, BackFault::Memory]));
    assert!(rt; print_variants(heap, &[TickFault::TraceFull, TickFault::Memory]));
    assert!(rt; prints(heap, &TickFault::InFlight(1), "InFlight"));
    let depths = [
        DepthFault::TraceFull,
        DepthFault::DepthRange,
        DepthFault::Memory,
    ];
    assert!(rt; print_variants(heap, &depths));
}

#[test]
fn of_arguments(rt: HostRuntime) {
    let heap = rt.alloc();
    let numbers = ListFault::Numbers(SchedKind::Kyber, 0);
    assert!(rt; print_variants(heap, &[ListFault::Scheds]));
    assert!(rt; prints(heap, &numbers, "Numbers"));
    assert!(rt; prints(heap, &Refusal::Lists(numbers), "Numbers"));
    assert!(rt; print_variants(heap, &REFUSALS));
}

/// Every refusal without a payload.
const REFUSALS: [Refusal; 33] = [
    Refusal::ReadExpire,
    Refusal::WriteExpire,
    Refusal::From,
    Refusal::As,
    Refusal::Device,
    Refusal::Skip,
    Refusal::Round,
    Refusal::TableAndSummary,
    Refusal::ScriptAlone,
    Refusal::NoRound,
    Refusal::NoScript,
    Refusal::OfRequests,
    Refusal::JsonAlone,
    Refusal::TraceAndJson,
    Refusal::NoScriptDrawn,
    Refusal::ScriptAndSchedule,
    Refusal::By,
    Refusal::AllAndTop,
    Refusal::OneBlame,
    Refusal::CertificateJson,
    Refusal::Tightest,
    Refusal::For,
    Refusal::NoTightest,
    Refusal::BlameBy,
    Refusal::PictureAlone,
    Refusal::FifoReadExpire,
    Refusal::FifoWriteExpire,
    Refusal::ReplayBy,
    Refusal::ListAlone,
    Refusal::TableAlone,
    Refusal::GridTable,
    Refusal::NoGridThreads,
    Refusal::OneReplay,
];
