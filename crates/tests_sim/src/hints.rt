//! What is told of lines that are no commands: whether something is told of just these lines.
use mr_sim::{Command, SimFault, answer};
use mr_sim_hints::{Script, Trouble, hint_of};
use std::alloc::Global;
use std::process::Abort;

const ONE: &[u8] =
    b"{\"id\":\"job_200707121733_0003\",\"job\":\"wordcount\",\"reduces\":1,\"splits\":[]}\n";

// Whether the line is refused as a command of a script.
fn is_bad(rt: &impl Abort, alloc: Global, script: Script, line: &[u8]) -> bool {
    let mut input = Vec::new(alloc);
    let command = match script {
        Script::Committer => Command::Committer,
        Script::Play => {
            input.extend_from_slice(ONE).expect(rt, "no memory");
            Command::Play
        }
    };
    input.extend_from_slice(line).expect(rt, "no memory");
    matches!(answer(alloc, command, &input), Err(SimFault::BadCommand(_)))
}

// Nothing is told of the line, which is a command. The line with each byte in turn taken out or replaced, and with a byte before it, is
// refused exactly where there is a hint.
fn agrees(rt: &(impl Abort + AllocGlobal), script: Script, line: &[u8]) {
    let alloc = rt.alloc();
    assert!(rt; hint_of(script, line).is_none());
    for place in 0..line.len() {
        let front = line.get(..place).unwrap_or(b"");
        let behind = line.get(place..).unwrap_or(b"");
        let rest = behind.get(1..).unwrap_or(b"");
        for (new, rest) in [
            (&b""[..], rest),
            (b" ", rest),
            (b"0", rest),
            (b"\xff", rest),
            (b" ", behind),
            (b"0", behind),
            (b"\r", b""),
        ] {
            let mut changed = Vec::from_slice(alloc, front).expect(rt, "no memory");
            changed.extend_from_slice(new).expect(rt, "no memory");
            changed.extend_from_slice(rest).expect(rt, "no memory");
            let says = !changed.is_empty() && !changed.starts_with(b"#");
            let is_hinted = hint_of(script, &changed).is_some();
            assert!(rt; !says || is_hinted == is_bad(rt, alloc, script, &changed));
        }
    }
}

#[test]
fn hints_agree_with_runs(rt: HostRuntime) {
    for line in [
        &b"start 1 1"[..],
        b"duty 1",
        b"duty 1 unanswered",
        b"launch 10 m 0 1",
        b"launch 1 r 4294967295 63",
        b"start 1000 18446744073709551615",
        b"deliver 12",
        b"step 1.10 unavailable",
        b"restart 3",
        b"crash 10 7",
        b"compute 1.0",
        b"die 2.10",
        b"expire 1 63",
        b"calm 1 before mkdirs",
        b"calm 1",
        b"calm 1 all",
        b"drop 7",
        b"expect r 0 none",
        b"expect r 0 attempt_200707121733_0003_r_000000_1000",
        b"expect marker yes",
        b"expect outcome failed",
    ] {
        agrees(&rt, Script::Play, line);
    }
}

#[test]
fn hints_agree_with_committer_calls(rt: HostRuntime) {
    for line in [
        &b"as 1000"[..],
        b"check",
        b"commitjob",
        b"write attempt_200707121733_0003_r_000000_0 ",
        b"write attempt_200707121733_0003_r_000000_0 two  words ",
        b"commit attempt_200707121733_0003_m_000000_0",
        b"recover task_200707121733_0003_r_000000 12",
        b"recover task_200707121733_0003_m_000000 4294967295",
        b"by none",
    ] {
        agrees(&rt, Script::Committer, line);
    }
}

#[test]
fn trouble_is_told(rt: HostRuntime) {
    match hint_of(Script::Committer, b"as 1 2") {
        Some(hint) => assert!(rt; hint.trouble == Trouble::TooMany(3)),
        None => panic!(rt; "no hint"),
    }
}
