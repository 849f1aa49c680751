//! Laws of the command line: which jobs plain lines ask for, whatever the program's name.

ghost use Rattle.std.specs.Prelude.{◌∷◌, [], true, false, None, Some, codes};
ghost use Rattle.clap.specs.Words.{Text};
ghost use Rattle.blk_schedulers.specs.Defaults.{default_sched, default_deadline, default_kyber, default_earliest, deadline_in, deadline_each, kyber_within, earliest_by, default_lineup, with_earliest, in_batches, whole};
ghost use Rattle.blk_args.specs.Asked.{Asks, of_script, of_trace, of_list};
ghost use Rattle.blk_args.specs.Plain.{AsksFor, AsksForGrid, AsksForNothing, default_trial, five_by_lateness, whole_import, by_perf, default_load, own_grid, both_positions};

use crate::inputs::{Running, ShownLoad, Solving, TextJob, TraceOutput};
use crate::table::FiguresAsked;
use crate::words::{Job, Kept, Refusal, Written};
use blk_schedulers::{Form, ListFault, SchedKind};

/// Each of these lines asks for its job and, all but `--version`, for no other; `oracle --trace --met` asks for none. `tune` asks for the
/// whole grid, or for that of its lists, and for no other.
pub fn plain_lines()
    ensures sim { AsksFor "sim" (of_script (Running.One default_sched)) }
    ensures none { AsksFor "sim --sched none" (of_script (Running.One default_sched)) }
    ensures deadline { AsksFor "sim --sched deadline" (of_script (Running.One default_deadline)) }
    ensures kyber { AsksFor "sim --sched kyber" (of_script (Running.One default_kyber)) }
    ensures earliest { AsksFor "sim --sched earliest" (of_script (Running.One default_earliest)) }
    ensures late_last { AsksFor "sim --sched earliest --late-last" (of_script (Running.One (earliest_by true))) }
    ensures each { AsksFor "sim --sched deadline --positions each" (of_script (Running.One deadline_each)) }
    ensures batch { AsksFor "sim --sched deadline --fifo-batch 1" (of_script (Running.One (deadline_in 1))) }
    ensures target { AsksFor "sim --sched kyber --read-target 1000000" (of_script (Running.One (kyber_within 1_000_000))) }
    ensures compare { AsksFor "compare" (of_script (Running.Each default_lineup Form.Lines)) }
    ensures compare_earliest { AsksFor "compare --earliest" (of_script (Running.Each (with_earliest false) Form.Lines)) }
    ensures compare_late_last { AsksFor "compare --earliest --late-last" (of_script (Running.Each (with_earliest true) Form.Lines)) }
    ensures compare_json { AsksFor "compare --json" (of_script (Running.Each default_lineup Form.Json)) }
    ensures tune { AsksFor "tune" (default_trial Form.Lines) }
    ensures tune_so { AsksFor "tune --sched deadline,none --fifo-batch 16,1 --by lateness --top 5 --threads 4" five_by_lateness }
    ensures tune_json { AsksFor "tune --json" (default_trial Form.Json) }
    ensures tune_unknown { AsksFor "tune --sched none,cfq" (Job.Refuse (Refusal.Lists ListFault.Scheds)) }
    ensures tune_no_list { AsksFor "tune --fifo-batch 1,x" (Job.Refuse (Refusal.Lists (ListFault.Numbers SchedKind.Deadline 0))) }
    ensures tune_twice { AsksFor "tune --read-target 2,5,2" (Job.Refuse (Refusal.Lists (ListFault.Numbers SchedKind.Kyber 0))) }
    ensures tune_by_what { AsksFor "tune --by wait" (Job.Refuse Refusal.By) }
    ensures whole_grid { AsksForGrid "tune" whole }
    ensures own_positions { AsksForGrid "tune --sched deadline --fifo-batch 1 --writes-starved 0 --positions each,one" both_positions }
    ensures own_grid { AsksForGrid "tune --sched deadline,none --fifo-batch 16,1 --writes-starved 3 --write-target 7,0" own_grid }
    ensures migrate { AsksFor "migrate" (of_trace TraceOutput.Whole) }
    ensures commands { AsksFor "commands" (of_trace TraceOutput.Commands) }
    ensures late { AsksFor "late" (of_trace (TraceOutput.Figures FiguresAsked.Late Form.Lines)) }
    ensures late_json { AsksFor "late --json" (of_trace (TraceOutput.Figures FiguresAsked.Late Form.Json)) }
    ensures misses { AsksFor "misses" (of_trace (TraceOutput.Figures FiguresAsked.Misses Form.Lines)) }
    ensures misses_json { AsksFor "misses --json" (of_trace (TraceOutput.Figures FiguresAsked.Misses Form.Json)) }
    ensures spread { AsksFor "spread" (of_trace (TraceOutput.Figures FiguresAsked.Spread Form.Lines)) }
    ensures spread_json { AsksFor "spread --json" (of_trace (TraceOutput.Figures FiguresAsked.Spread Form.Json)) }
    ensures picture { AsksFor "picture" (of_trace TraceOutput.Picture) }
    ensures drawn { AsksFor "picture --script --earliest --fifo-batch 1" (of_script (Running.Drawn (in_batches 1))) }
    ensures scheduled { AsksFor "picture --schedule" (Job.OfText TextJob.Draw) }
    ensures oracle { AsksFor "oracle" (of_list Solving.Least) }
    ensures report { AsksFor "oracle --trace" (of_trace (TraceOutput.Figures FiguresAsked.Report Form.Lines)) }
    ensures report_json { AsksFor "oracle --trace --json" (of_trace (TraceOutput.Figures FiguresAsked.Report Form.Json)) }
    ensures met { AsksFor "oracle --met" (of_list Solving.Most) }
    ensures report_and_on_time { AsksForNothing "oracle --trace --met" }
    ensures certificate_json { AsksFor "oracle --met --json" (Job.Refuse Refusal.JsonAlone) }
    ensures check { AsksFor "check" (Job.OfText (TextJob.Check Form.Lines)) }
    ensures check_json { AsksFor "check --json" (Job.OfText (TextJob.Check Form.Json)) }
    ensures imported { AsksFor "import" (Job.Import (whole_import (Written.Kept Kept.Schedule))) }
    ensures imported_so { AsksFor "import --read-expire 8us --from queue --as perf --device 8,0 --skip 1s --first 9 --table" (Job.Import by_perf) }
    ensures summary { AsksFor "import --write-expire 8ns --summary" (Job.Import (record (whole_import Written.Summary) { write_expire = 8 })) }
    ensures no_time { AsksFor "import --skip 2" (Job.Refuse Refusal.Skip) }
    ensures no_entry { AsksFor "import --from issue" (Job.Refuse Refusal.From) }
    ensures no_recorder { AsksFor "import --as iostat" (Job.Refuse Refusal.As) }
    ensures no_device { AsksFor "import --device sda" (Job.Refuse Refusal.Device) }
    ensures table_and_summary { AsksFor "import --table --summary" (Job.Refuse Refusal.TableAndSummary) }
    ensures script { AsksFor "import --script --round 1ms" (Job.Import (whole_import (Written.Kept (Kept.Script 1_000_000 None)))) }
    ensures script_alone { AsksFor "import --script" (Job.Refuse Refusal.NoRound) }
    ensures depth_alone { AsksFor "import --depth 8" (Job.Refuse Refusal.NoScript) }
    ensures judge { AsksFor "judge" (Job.OfText (TextJob.Judge false)) }
    ensures judge_each { AsksFor "judge --each" (Job.OfText (TextJob.Judge true)) }
    ensures explain { AsksFor "explain" Job.Explain }
    ensures load { AsksFor "load" (Job.Load default_sched default_load (ShownLoad.Account Form.Lines) false) }
    ensures load_json { AsksFor "load --json" (Job.Load default_sched default_load (ShownLoad.Account Form.Json) false) }
    ensures busy { AsksFor "load --busy 3" (Job.Load default_sched (record default_load { busy = Some 3 }) (ShownLoad.Account Form.Lines) false) }
    ensures traced { AsksFor "load --trace --service 100" (Job.Load default_sched (record default_load { service = 100 }) ShownLoad.Trace false) }
    ensures timed { AsksFor "load --times" (Job.Load default_sched default_load (ShownLoad.Account Form.Lines) true) }
    ensures traced_json { AsksFor "load --trace --json" (Job.Refuse Refusal.TraceAndJson) }
    ensures version { (name : Text) → Asks (name ∷ codes "--version" ∷ []) Job.Version }
{}
