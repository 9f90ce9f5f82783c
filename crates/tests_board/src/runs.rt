//! Runs of a plan, call by call: what is due comes, and nothing passes it.

use crate::fixtures::{Table, container, opened, plan};
use mr_board::{Board, Finished, Seat};
use mr_board_report::{DriveFault, Plan, Run};
use mr_jobs::WordCount;
use mr_world::World;
use mr_world_events::{Event, Weather};
use std::alloc::Global;
use std::process::Abort;

// A run of a plan in which nothing has happened, and its one seat.
fn begun(rt: &impl Abort, alloc: Global, plan: &Plan) -> (Run<WordCount>, Seat) {
    let config = plan.config.copy().expect(rt, "no memory");
    let faults = plan.faults.copy().expect(rt, "no memory");
    let world = World::new(alloc, config).expect(rt, "no memory");
    let (board, mut seats) = Board::new(alloc, &WordCount, 1, world, 1).expect(rt, "no memory");
    let seat = seats.pop().expect(rt, "no seat");
    (Run::new(board, faults), seat)
}

// The next store call of the first master.
fn duty() -> Event {
    Event::Duty {
        generation: 1,
        weather: Weather::Calm,
    }
}

// What is due comes. The journal has this many events then.
fn comes(rt: &impl Abort, run: &mut Run<WordCount>, seat: &mut Seat, events: usize) {
    let answer = run.make_due(seat);
    confirm!(*rt; answer == Ok(true), &answer);
    confirm!(*rt; run.world().journal().len() == events);
}

// An event is not planned now, and is not made.
fn refuses(rt: &impl Abort, run: &mut Run<WordCount>, seat: &mut Seat, event: Event) {
    let events = run.world().journal().len();
    let answer = run.make(seat, event);
    confirm!(*rt; answer == Err(DriveFault::JournalMismatch), &answer);
    confirm!(*rt; run.world().journal().len() == events);
}

// The run makes what happened on the table, whose first event is due.
fn follows(rt: &impl Abort, run: &mut Run<WordCount>, seat: &mut Seat, table: &Table) {
    comes(rt, run, seat, 1);
    let journal = table.board.world().journal();
    for place in 1..journal.len() {
        let event = journal[place].copy().expect(rt, "no memory");
        let answer = run.make(seat, event);
        confirm!(*rt; answer == Ok(true), &answer);
    }
}

// While something is due, what a work gave is not taken.
fn takes_nothing(
    rt: &impl Abort,
    run: &mut Run<WordCount>,
    seat: &mut Seat,
    done: Finished<WordCount>,
) {
    confirm!(*rt; run.is_held());
    let events = run.world().journal().len();
    let made = seat.made().len();
    let answer = run.hand_in(seat, done);
    confirm!(*rt; answer == Err(DriveFault::JournalMismatch), &answer);
    confirm!(*rt; run.world().journal().len() == events);
    confirm!(*rt; seat.made().len() == made);
}

// There is no master yet when the first fault is due, and none that runs at the second: the world refuses both, and what is behind them comes.
#[test]
fn faults_come_as_soon_as_they_are_due(rt: HostRuntime) {
    let rt = &rt;
    let plan = plan(
        rt,
        rt.alloc(),
        r#""job":"wordcount","splits":["a b a"],"faults":[{"after":0,"master":0},{"after":1,"expire":0},{"after":1,"node":0},{"after":2,"master":7}]"#,
    );
    let (mut run, mut seat) = begun(rt, rt.alloc(), &plan);
    for events in &[0, 1, 1, 2, 3, 4] {
        comes(rt, &mut run, &mut seat, *events);
    }
    let answer = run.make_due(&mut seat);
    confirm!(*rt; answer == Ok(false), &answer);
    let journal = run.world().journal();
    confirm!(*rt; journal.get(1) == Some(&Event::NodeRestart { node: 0 }));
    confirm!(*rt; journal.get(2) == Some(&Event::Crash { generation: 1, kept: 7 }));
    confirm!(*rt; journal.get(3) == Some(&Event::Start { generation: 2, kept: 0 }));
}

// While a restart is due, the master makes no store call.
#[test]
fn nothing_passes_a_due_fault(rt: HostRuntime) {
    let rt = &rt;
    let plan = plan(
        rt,
        rt.alloc(),
        r#""job":"wordcount","splits":["a b a"],"faults":[{"after":1,"node":0}]"#,
    );
    let (mut run, mut seat) = begun(rt, rt.alloc(), &plan);
    comes(rt, &mut run, &mut seat, 1);
    confirm!(*rt; run.is_held());
    refuses(rt, &mut run, &mut seat, duty());
    comes(rt, &mut run, &mut seat, 2);
    confirm!(*rt; !run.is_held());
    let answer = run.make(&mut seat, duty());
    confirm!(*rt; answer == Ok(true), &answer);
    confirm!(*rt; run.board().world().journal().len() == 3);
    confirm!(*rt; seat.made().len() == 3);
}

// The plan has no fault.
#[test]
fn what_is_not_planned_does_not_happen(rt: HostRuntime) {
    let rt = &rt;
    let plan = plan(rt, rt.alloc(), r#""job":"wordcount","splits":["a b a"]"#);
    let (mut run, mut seat) = begun(rt, rt.alloc(), &plan);
    comes(rt, &mut run, &mut seat, 1);
    refuses(
        rt,
        &mut run,
        &mut seat,
        Event::Crash {
            generation: 1,
            kept: 0,
        },
    );
    refuses(rt, &mut run, &mut seat, Event::NodeRestart { node: 0 });
    refuses(
        rt,
        &mut run,
        &mut seat,
        Event::Expire {
            generation: 1,
            node: 0,
        },
    );
    refuses(
        rt,
        &mut run,
        &mut seat,
        Event::Start {
            generation: 2,
            kept: 0,
        },
    );
    let unanswered = Event::Duty {
        generation: 1,
        weather: Weather::Unanswered,
    };
    refuses(rt, &mut run, &mut seat, unanswered);
    let answer = run.make(
        &mut seat,
        Event::Start {
            generation: 1,
            kept: 0,
        },
    );
    confirm!(*rt; answer == Ok(false), &answer);
}

// A crash is due while a map computes, and then the start behind it: what the map made is taken behind both, and once.
#[test]
fn a_work_waits_for_what_is_due(rt: HostRuntime) {
    let rt = &rt;
    let mut table = opened(rt, rt.alloc(), b"a b a");
    table.launches_the_map(rt);
    let c = container(rt, 0);
    let events = table.board.world().journal().len();
    let parts = format!(in rt.alloc();
        "\"job\":\"wordcount\",\"splits\":[\"a b a\"],\"faults\":[{{\"after\":{events},\"master\":0}}]"
    ).expect(rt, "no memory");
    let plan = plan(rt, rt.alloc(), &parts);
    let (mut run, mut seat) = begun(rt, rt.alloc(), &plan);
    follows(rt, &mut run, &mut seat, &table);
    takes_nothing(rt, &mut run, &mut seat, table.done_at(rt, rt.alloc(), &c));
    comes(rt, &mut run, &mut seat, events + 1);
    takes_nothing(rt, &mut run, &mut seat, table.done_at(rt, rt.alloc(), &c));
    comes(rt, &mut run, &mut seat, events + 2);
    let answer = run.hand_in(&mut seat, table.done_at(rt, rt.alloc(), &c));
    confirm!(*rt; answer == Ok(true), &answer);
    confirm!(*rt; run.world().journal().len() == events + 3);
    let answer = run.hand_in(&mut seat, table.done_at(rt, rt.alloc(), &c));
    confirm!(*rt; answer == Ok(false), &answer);
}
