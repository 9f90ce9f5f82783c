//! Jobs that threads run: gates, and works at once. Runs with faults of a plan are rows of tools/hostile.
use crate::fixtures::plan;
use mr_drive::{DriveFault, PairGate, Report, Unreported, drive};
use mr_ids::TaskKind;
use mr_jobs::WordCount;
use mr_user::{Gate, GateFault, OpenGate};
use mr_world_events::Event;
use std::sync::atomic::{AtomicU64, Ordering};
use std::thread;

const TURNS: u64 = 100_000;

// The one file of each job of `a`, `a`, `b` here.
const TEXT: &[u8] = b"a\t2\nb\t1\n";

// The report of a run, or why there is none.
fn told(driven: Result<Report, Unreported>) -> Result<Report, DriveFault> {
    match driven {
        Ok(report) => Ok(report),
        Err(unreported) => Err(unreported.fault),
    }
}

// The run's world is there, and had no end.
fn is_handed_back(unreported: &Unreported) -> bool {
    match &unreported.world {
        Some(world) => world.outcome().is_none(),
        None => false,
    }
}

fn is_counted(report: &Report) -> bool {
    report.succeeded && report.files.len() == 1 && report.files[0].bytes.as_slice() == TEXT
}

// Holds each work of a kind until four have entered; counts the works of both.
#[derive(Drop)]
struct Meeting {
    held: TaskKind,
    maps: AtomicU64,
    reduces: AtomicU64,
}

impl Meeting {
    fn of(held: TaskKind) -> Meeting {
        Meeting {
            held,
            maps: AtomicU64::new(0),
            reduces: AtomicU64::new(0),
        }
    }

    // How many works of a kind have entered.
    fn entered(&self, kind: TaskKind) -> &AtomicU64 {
        match kind {
            TaskKind::Map => &self.maps,
            TaskKind::Reduce => &self.reduces,
        }
    }
}

impl Gate for Meeting {
    fn enter(&self, kind: TaskKind) -> Result<(), GateFault> {
        self.entered(kind).fetch_add(1, Ordering::SeqCst);
        if kind != self.held {
            return Ok(());
        }
        for _ in 0..TURNS {
            if self.entered(kind).load(Ordering::SeqCst) >= 4 {
                return Ok(());
            }
            thread::yield_now();
        }
        Err(GateFault::Spent)
    }
}

#[test]
fn four_map_works_at_once(rt: HostRuntime) {
    let gate = Meeting::of(TaskKind::Map);
    let four = plan(
        &rt,
        rt.alloc(),
        r#""job":"wordcount","splits":["a","b","a",""],"nodes":4"#,
    );
    let report = told(drive(&rt, rt.alloc(), &WordCount, &gate, &four, TURNS)).expect(
        &rt, "a fault",
    );
    confirm!(rt; is_counted(&report));
    confirm!(rt; gate.maps.load(Ordering::SeqCst) == 4);
    confirm!(rt; gate.reduces.load(Ordering::SeqCst) == 1);
    let gate = Meeting::of(TaskKind::Map);
    let three = plan(
        &rt,
        rt.alloc(),
        r#""job":"wordcount","splits":["a","b","a",""],"nodes":3"#,
    );
    let fault = told(drive(&rt, rt.alloc(), &WordCount, &gate, &three, TURNS)).err();
    confirm!(rt; fault == Some(DriveFault::TurnsSpent), &fault);
}

// While a reduce still fetches, no node computes: a node that computes answers no fetch.
#[test]
fn four_reduce_works_at_once(rt: HostRuntime) {
    let gate = Meeting::of(TaskKind::Reduce);
    let four = plan(
        &rt,
        rt.alloc(),
        r#""job":"wordcount","splits":["a","b","a",""],"nodes":4,"reduces":4"#,
    );
    let report = told(drive(&rt, rt.alloc(), &WordCount, &gate, &four, TURNS)).expect(
        &rt, "a fault",
    );
    confirm!(rt; report.succeeded);
    confirm!(rt; report.files.len() == 4);
    confirm!(rt; gate.maps.load(Ordering::SeqCst) == 4);
    confirm!(rt; gate.reduces.load(Ordering::SeqCst) == 4);
}

// Lets no work pass.
#[derive(Drop)]
struct ShutGate;

impl Gate for ShutGate {
    fn enter(&self, _kind: TaskKind) -> Result<(), GateFault> {
        Err(GateFault::Spent)
    }
}

#[test]
fn a_gate_that_refuses_ends_the_run(rt: HostRuntime) {
    let plan = plan(&rt, rt.alloc(), r#""job":"wordcount","splits":["a b a"]"#);
    let driven = drive(&rt, rt.alloc(), &WordCount, &ShutGate, &plan, TURNS);
    let unreported = driven.err().expect(&rt, "a report");
    confirm!(rt; unreported.fault == DriveFault::TurnsSpent, &unreported.fault);
    confirm!(rt; is_handed_back(&unreported));
}

// Alone, the first map work is held until the looks are spent, those between which the gate sleeps too. A reduce is no second map work; the
// second one passes, and each behind it.
#[test]
fn a_pair_gate_holds_the_first_map_work(rt: HostRuntime) {
    for looks in [0, 3, 1_003] {
        let gate = PairGate::new(&rt, looks);
        confirm!(rt; gate.enter(TaskKind::Reduce).is_ok());
        confirm!(rt; gate.enter(TaskKind::Map).is_err());
        confirm!(rt; gate.enter(TaskKind::Reduce).is_ok());
        confirm!(rt; gate.enter(TaskKind::Map).is_ok());
        confirm!(rt; gate.enter(TaskKind::Map).is_ok());
    }
}

#[test]
fn a_pair_gate_lets_two_map_works_pass(rt: HostRuntime) {
    let two = plan(
        &rt,
        rt.alloc(),
        r#""job":"wordcount","splits":["a b","a"],"nodes":2"#,
    );
    let gate = PairGate::new(&rt, TURNS);
    let report = told(drive(&rt, rt.alloc(), &WordCount, &gate, &two, TURNS)).expect(
        &rt, "a fault",
    );
    confirm!(rt; is_counted(&report));
}

// No second map work can begin on one node.
#[test]
fn a_pair_gate_ends_the_run_of_one_node(rt: HostRuntime) {
    let one = plan(
        &rt,
        rt.alloc(),
        r#""job":"wordcount","splits":["a b","a"],"nodes":1"#,
    );
    let gate = PairGate::new(&rt, 50);
    let driven = drive(&rt, rt.alloc(), &WordCount, &gate, &one, TURNS);
    let unreported = driven.err().expect(&rt, "a report");
    confirm!(rt; unreported.fault == DriveFault::TurnsSpent, &unreported.fault);
    confirm!(rt; is_handed_back(&unreported));
}

// The fault of the plan is the second event, and the report tells its seat: the one behind that of the only node.
#[test]
fn a_report_tells_who_made_each_event(rt: HostRuntime) {
    let plan = plan(
        &rt,
        rt.alloc(),
        r#""job":"wordcount","splits":["a b a"],"faults":[{"after":1,"node":0}]"#,
    );
    let report = told(drive(&rt, rt.alloc(), &WordCount, &OpenGate, &plan, TURNS)).expect(
        &rt, "a fault",
    );
    confirm!(rt; is_counted(&report));
    confirm!(rt; report.by.len() == report.world.journal().len());
    confirm!(rt; report.world.journal().get(1) == Some(&Event::NodeRestart { node: 0 }));
    confirm!(rt; report.by.get(1) == Some(&1));
}
