//! Runs over files and a sink in memory: one answer of each command, refusals, and calls that fail. More
//! answers are cases of the built program, in tools/cases.jsonl.
use crate::run::run;
use command_steps::Status;
use listed::Memory;
use std::alloc::Global;
use std::process::Abort;
use std::test::Fail;
use wcet_io::{Bytes, MemFiles, MemSink, Text, Words};

/// addi x5, x0, 7, and then TerminateTask.
const IMAGE: [u8; 16] = [
    0x93, 0x02, 0x70, 0x00, 0x13, 0x05, 0x00, 0x00, 0x93, 0x08, 0x20, 0x00, 0x73, 0x00, 0x00, 0x00,
];

/// The task at its block, and after its end.
const CLOSED: &str = "[[0,[[0,0]],[],0,0],[0,[[]],[],0,0]]";

const GOOD: &str =
    r#"{"bound":"13","denominator":"1","multipliers":["13","10","3","2","1","0","3","0","0"],"states":[[0,[[0,0]],[],0,0],[0,[[]],[],0,0]],"task":"T"}"#;

/// The same with the end of the line.
const GOOD_LINE: &str =
    "{\"bound\":\"13\",\"denominator\":\"1\",\"multipliers\":[\"13\",\"10\",\"3\",\"2\",\"1\",\"0\",\"3\",\"0\",\"0\"],\"states\":[[0,[[0,0]],[],0,0],[0,[[]],[],0,0]],\"task\":\"T\"}\n";

const ONE_TASK: &str =
    "OIL_VERSION=\"2.5\";CPU A{APPMODE M;TASK T{PRIORITY=0x0A;AUTOSTART=TRUE{APPMODE=M;};};};";

const ONE_TASK_LAYOUT: &str =
    "OIL_VERSION = \"2.5\";\nCPU A {\n  APPMODE M {\n  };\n  TASK T {\n    PRIORITY = 10;\n    AUTOSTART = TRUE {\n      APPMODE = M;\n    };\n  };\n};\n";

/// A task T that is autostarted, and a task H that an alarm activates.
const TWO_TASKS: &str =
    "OIL_VERSION = \"2.5\"; CPU Demo { APPMODE Main; COUNTER C { MINCYCLE = 1; }; TASK T { PRIORITY = 1; AUTOSTART = TRUE { APPMODE = Main; }; }; TASK H { PRIORITY = 2; }; ALARM Tick { COUNTER = C; ACTION = ACTIVATETASK { TASK = H; }; AUTOSTART = TRUE { CYCLETIME = 1000; APPMODE = Main; }; }; };";

/// Their code, from 0x100 and from 0x110 on: `li t0, 7` in T alone, and then TerminateTask.
#[rattlefmt::skip]
const TWO_TASKS_ELF: [u8; 360] = [
    0x7f, 0x45, 0x4c, 0x46, 0x01, 0x01, 0x01, 0x00, 0x00, 0x00, 0x00, 0x00, 0x00, 0x00, 0x00, 0x00, 0x02, 0x00, 0xf3, 0x00, 0x01, 0x00, 0x00, 0x00,
    0x00, 0x01, 0x00, 0x00, 0x34, 0x00, 0x00, 0x00, 0xc8, 0x00, 0x00, 0x00, 0x00, 0x00, 0x00, 0x00, 0x34, 0x00, 0x20, 0x00, 0x01, 0x00, 0x28, 0x00,
    0x04, 0x00, 0x03, 0x00, 0x01, 0x00, 0x00, 0x00, 0x54, 0x00, 0x00, 0x00, 0x00, 0x01, 0x00, 0x00, 0x00, 0x01, 0x00, 0x00, 0x1c, 0x00, 0x00, 0x00,
    0x1c, 0x00, 0x00, 0x00, 0x05, 0x00, 0x00, 0x00, 0x04, 0x00, 0x00, 0x00, 0x93, 0x02, 0x70, 0x00, 0x13, 0x05, 0x00, 0x00, 0x93, 0x08, 0x20, 0x00,
    0x73, 0x00, 0x00, 0x00, 0x13, 0x05, 0x00, 0x00, 0x93, 0x08, 0x20, 0x00, 0x73, 0x00, 0x00, 0x00, 0x00, 0x00, 0x00, 0x00, 0x00, 0x00, 0x00, 0x00,
    0x00, 0x00, 0x00, 0x00, 0x00, 0x00, 0x00, 0x00, 0x17, 0x00, 0x00, 0x00, 0x00, 0x01, 0x00, 0x00, 0x00, 0x00, 0x00, 0x00, 0x12, 0x00, 0x01, 0x00,
    0x1e, 0x00, 0x00, 0x00, 0x10, 0x01, 0x00, 0x00, 0x00, 0x00, 0x00, 0x00, 0x12, 0x00, 0x01, 0x00, 0x00, 0x2e, 0x74, 0x65, 0x78, 0x74, 0x00, 0x2e,
    0x73, 0x79, 0x6d, 0x74, 0x61, 0x62, 0x00, 0x2e, 0x73, 0x74, 0x72, 0x74, 0x61, 0x62, 0x00, 0x54, 0x61, 0x73, 0x6b, 0x5f, 0x54, 0x00, 0x54, 0x61,
    0x73, 0x6b, 0x5f, 0x48, 0x00, 0x00, 0x00, 0x00, 0x00, 0x00, 0x00, 0x00, 0x00, 0x00, 0x00, 0x00, 0x00, 0x00, 0x00, 0x00, 0x00, 0x00, 0x00, 0x00,
    0x00, 0x00, 0x00, 0x00, 0x00, 0x00, 0x00, 0x00, 0x00, 0x00, 0x00, 0x00, 0x00, 0x00, 0x00, 0x00, 0x00, 0x00, 0x00, 0x00, 0x00, 0x00, 0x00, 0x00,
    0x01, 0x00, 0x00, 0x00, 0x01, 0x00, 0x00, 0x00, 0x06, 0x00, 0x00, 0x00, 0x00, 0x01, 0x00, 0x00, 0x54, 0x00, 0x00, 0x00, 0x1c, 0x00, 0x00, 0x00,
    0x00, 0x00, 0x00, 0x00, 0x00, 0x00, 0x00, 0x00, 0x04, 0x00, 0x00, 0x00, 0x00, 0x00, 0x00, 0x00, 0x07, 0x00, 0x00, 0x00, 0x02, 0x00, 0x00, 0x00,
    0x00, 0x00, 0x00, 0x00, 0x00, 0x00, 0x00, 0x00, 0x70, 0x00, 0x00, 0x00, 0x30, 0x00, 0x00, 0x00, 0x03, 0x00, 0x00, 0x00, 0x01, 0x00, 0x00, 0x00,
    0x04, 0x00, 0x00, 0x00, 0x10, 0x00, 0x00, 0x00, 0x0f, 0x00, 0x00, 0x00, 0x03, 0x00, 0x00, 0x00, 0x00, 0x00, 0x00, 0x00, 0x00, 0x00, 0x00, 0x00,
    0xa0, 0x00, 0x00, 0x00, 0x25, 0x00, 0x00, 0x00, 0x00, 0x00, 0x00, 0x00, 0x00, 0x00, 0x00, 0x00, 0x01, 0x00, 0x00, 0x00, 0x00, 0x00, 0x00, 0x00,
];

const TWO_TASKS_TIMES: &str =
    r#"{"version":1,"classes":{"default":1},"services":{"default":20},"alarm":30,"interrupt":10,"ticks":{"C":1}}"#;

/// The states of the two tasks: T alone, both, none, H alone.
const TWO_TASKS_CLOSED: &str =
    "[[0,[[0,0],[]],[],0,0],[0,[[0,0],[1,0]],[],0,0],[0,[[],[]],[],0,0],[0,[[],[1,0]],[],0,0]]";

const TWO_TASKS_GOOD: &str =
    r#"{"bound":"133","denominator":"237","multipliers":["5750","5000","10000","750","500","250","0","500","250","0","750","0","0","500","0","13"],"states":[[0,[[0,0],[]],[],0,0],[0,[[0,0],[1,0]],[],0,0],[0,[[],[]],[],0,0],[0,[[],[1,0]],[],0,0]],"task":"T"}"#;

/// The alarm arrives at moment 2.
const SCHEDULE: &str = r#"{"mode":"Main","end":10000,"arrivals":[{"at":2,"source":"Tick"}]}"#;

/// The recording of that run.
const RECORDING: &str =
    r#"{"end":75,"events":[["arrive",2,"Tick"],["take",2,32,"Tick"],["service",34,54,"H",[],280],["service",55,75,"T",[],268]],"mode":"Main"}"#;

/// The same with the end of the line.
const RECORDING_LINE: &str =
    "{\"end\":75,\"events\":[[\"arrive\",2,\"Tick\"],[\"take\",2,32,\"Tick\"],[\"service\",34,54,\"H\",[],280],[\"service\",55,75,\"T\",[],268]],\"mode\":\"Main\"}\n";

/// Holds the content under a name.
fn put(alloc: Global, files: &mut MemFiles, name: &str, content: &[u8]) -> Result<(), Memory> {
    files.put(
        Text::from_str(alloc, name)?,
        Bytes::from_slice(alloc, content)?,
    )?;
    Ok(())
}

/// A flat image `a` with its states `k` and certificate `g`, and an OIL file `one`.
fn flat_files(alloc: Global) -> Result<MemFiles, Memory> {
    let mut files = MemFiles::new(alloc);
    put(alloc, &mut files, "a", &IMAGE)?;
    put(alloc, &mut files, "k", CLOSED.as_bytes())?;
    put(alloc, &mut files, "g", GOOD.as_bytes())?;
    put(alloc, &mut files, "one", ONE_TASK.as_bytes())?;
    Ok(files)
}

/// The system of two tasks: its files, states `k`, certificate `c`, schedule `p` and recording `r`.
fn system_files(alloc: Global) -> Result<MemFiles, Memory> {
    let mut files = MemFiles::new(alloc);
    put(alloc, &mut files, "oil", TWO_TASKS.as_bytes())?;
    put(alloc, &mut files, "elf", &TWO_TASKS_ELF)?;
    put(alloc, &mut files, "times", TWO_TASKS_TIMES.as_bytes())?;
    put(alloc, &mut files, "k", TWO_TASKS_CLOSED.as_bytes())?;
    put(alloc, &mut files, "c", TWO_TASKS_GOOD.as_bytes())?;
    put(alloc, &mut files, "p", SCHEDULE.as_bytes())?;
    put(alloc, &mut files, "r", RECORDING.as_bytes())?;
    Ok(files)
}

/// Runs the words, which a space parts.
fn outcome(
    alloc: Global,
    words: &str,
    files: &mut MemFiles,
    out: &mut MemSink,
) -> Result<Status, Memory> {
    let mut given = Words::new(alloc);
    for word in words.split(' ') {
        given.push(Text::from_str(alloc, word)?)?;
    }
    Ok(run(alloc, &given, files, out))
}

/// The words are answered by this text and status.
fn answers(
    rt: &impl Abort,
    alloc: Global,
    files: &mut MemFiles,
    words: &str,
    text: &str,
    status: Status,
) -> Result<(), Memory> {
    let mut out = MemSink::new(alloc);
    let ended = outcome(alloc, words, files, &mut out)?;
    assert_eq!(rt; ended, status);
    assert_eq!(rt; out.written(), text.as_bytes());
    Ok(())
}

#[test]
#[rattlefmt::skip]
fn flat_images_are_bounded_and_certificates_judged(rt: HostRuntime) -> Result<(), Fail> {
    let mut files = flat_files(rt.alloc())?;
    answers(&rt, rt.alloc(), &mut files, "bound lone a k", "T 13\n", Status::Ok)?;
    answers(&rt, rt.alloc(), &mut files, "certify lone a k", GOOD_LINE, Status::Ok)?;
    answers(&rt, rt.alloc(), &mut files, "check lone a g", "yes T 13\n", Status::Ok)?;
    answers(&rt, rt.alloc(), &mut files, "bound lone a k --pivots 1", "budget pivots 1\n", Status::Budget)?;
    answers(&rt, rt.alloc(), &mut files, "show oil one", ONE_TASK_LAYOUT, Status::Ok)?;
    answers(&rt, rt.alloc(), &mut files, "show oil k", "oil line 1 Byte\n", Status::Input)?;
    answers(&rt, rt.alloc(), &mut files, "bound a k", "words\n", Status::Words)?;
    answers(&rt, rt.alloc(), &mut files, "check lone a none", "read none\n", Status::ReadFault)?;
    Ok(())
}

#[test]
#[rattlefmt::skip]
fn tasks_of_systems_are_bounded(rt: HostRuntime) -> Result<(), Fail> {
    let mut files = system_files(rt.alloc())?;
    answers(&rt, rt.alloc(), &mut files, "bound oil elf times T k", "T 133\n", Status::Ok)?;
    answers(&rt, rt.alloc(), &mut files, "all oil elf times k", "T 133\nH 84\n", Status::Ok)?;
    answers(&rt, rt.alloc(), &mut files, "check oil elf times T c", "yes T 133\n", Status::Ok)?;
    answers(&rt, rt.alloc(), &mut files, "check oil elf times H c", "cert Task\n", Status::Input)?;
    answers(&rt, rt.alloc(), &mut files, "bound oil elf times X k", "task\n", Status::Input)?;
    answers(&rt, rt.alloc(), &mut files, "loops oil elf times T k", "T 133\n", Status::Ok)?;
    answers(&rt, rt.alloc(), &mut files, "demo 1 1", "P0 bound 66 seen 56\nstates 2\n", Status::Ok)?;
    Ok(())
}

#[test]
#[rattlefmt::skip]
fn code_and_runs_of_systems_are_shown(rt: HostRuntime) -> Result<(), Fail> {
    let mut files = system_files(rt.alloc())?;
    answers(&rt, rt.alloc(), &mut files, "show code oil elf times", "T nodes 4 blocks 1 loops 0\nH nodes 3 blocks 1 loops 0\n", Status::Ok)?;
    answers(&rt, rt.alloc(), &mut files, "replay oil elf times p", "H 2 52 ended\nT 0 75 ended\n", Status::Ok)?;
    answers(&rt, rt.alloc(), &mut files, "trace record oil elf times p", RECORDING_LINE, Status::Ok)?;
    answers(&rt, rt.alloc(), &mut files, "trace judge oil elf times T c r", "fits\n", Status::Ok)?;
    answers(&rt, rt.alloc(), &mut files, "split find oil elf times T k 126", "no tree\n", Status::No)?;
    Ok(())
}

#[test]
fn a_found_certificate_of_cuts_is_good(rt: HostRuntime) -> Result<(), Fail> {
    let mut files = system_files(rt.alloc())?;
    let mut found = MemSink::new(rt.alloc());
    let find = "split find oil elf times T k 127";
    let ended = outcome(rt.alloc(), find, &mut files, &mut found)?;
    assert_eq!(rt; ended, Status::Ok);
    put(rt.alloc(), &mut files, "s", found.written())?;
    let check = "split check oil elf times T s";
    answers(
        &rt,
        rt.alloc(),
        &mut files,
        check,
        "yes T 127\n",
        Status::Ok,
    )?;
    Ok(())
}

#[test]
fn a_file_past_its_limit_is_refused_by_its_length(rt: HostRuntime) -> Result<(), Fail> {
    let mut text = Vec::new(rt.alloc());
    for _byte in 0..1_048_577_u32 {
        text.push(b' ')?;
    }
    let mut files = MemFiles::new(rt.alloc());
    put(rt.alloc(), &mut files, "a", text.as_slice())?;
    answers(
        &rt,
        rt.alloc(),
        &mut files,
        "show oil a",
        "long a 1048577\n",
        Status::Input,
    )?;
    Ok(())
}

/// Of a check of four files the read of this number fails, if one does, and the first write, if that
/// fails.
fn fails(
    rt: &impl Abort,
    alloc: Global,
    read: u64,
    write: u64,
    text: &str,
    status: Status,
) -> Result<(), Memory> {
    let mut files = system_files(alloc)?;
    let mut out = MemSink::new(alloc);
    files.fail_at(read)?;
    out.fail_at(write)?;
    let ended = outcome(alloc, "check oil elf times T c", &mut files, &mut out)?;
    assert_eq!(rt; ended, status);
    assert_eq!(rt; out.written(), text.as_bytes());
    Ok(())
}

#[test]
#[rattlefmt::skip]
fn failing_calls_are_told(rt: HostRuntime) -> Result<(), Fail> {
    fails(&rt, rt.alloc(), 0, 1, "read oil\n", Status::ReadFault)?;
    fails(&rt, rt.alloc(), 1, 1, "read elf\n", Status::ReadFault)?;
    fails(&rt, rt.alloc(), 2, 1, "read times\n", Status::ReadFault)?;
    fails(&rt, rt.alloc(), 3, 1, "read c\n", Status::ReadFault)?;
    fails(&rt, rt.alloc(), 4, 1, "yes T 133\n", Status::Ok)?;
    fails(&rt, rt.alloc(), 3, 0, "", Status::WriteFault)?;
    fails(&rt, rt.alloc(), 4, 0, "", Status::WriteFault)?;
    Ok(())
}

/// An OIL file with the objects O100 to O399, and its layout.
fn long_file(alloc: Global) -> Result<(String, String), Memory> {
    let mut file = String::new(alloc);
    let mut layout = String::new(alloc);
    file.push_str("OIL_VERSION=\"2.5\";CPU A{APPMODE M;TASK T{PRIORITY=1;};")?;
    layout.push_str(
        "OIL_VERSION = \"2.5\";\nCPU A {\n  APPMODE M {\n  };\n  TASK T {\n    PRIORITY = 1;\n  };\n",
    )?;
    for number in 100..400_u32 {
        file.push_str(&format!(in alloc; "OS O{number};")?)?;
        layout.push_str(&format!(in alloc; "  OS O{number} {{\n  }};\n")?)?;
    }
    file.push_str("};")?;
    layout.push_str("};\n")?;
    Ok((file, layout))
}

#[test]
fn a_refused_piece_leaves_those_before_it(rt: HostRuntime) -> Result<(), Fail> {
    let (file, layout) = long_file(rt.alloc())?;
    let mut files = MemFiles::new(rt.alloc());
    put(rt.alloc(), &mut files, "a", file.as_bytes())?;
    let mut out = MemSink::new(rt.alloc());
    out.fail_at(1)?;
    let ended = outcome(rt.alloc(), "show oil a", &mut files, &mut out)?;
    assert_eq!(rt; ended, Status::WriteFault);
    assert_eq!(rt; out.written().len(), 4096);
    assert!(rt; layout.as_bytes().starts_with(out.written()));
    Ok(())
}
