use certificate::*;
use std::alloc::{AllocError, Global};

const CERT: &str =
    "{\"bound\":\"13\",\"denominator\":\"1\",\"multipliers\":[\"13\",\"10\",\"3\",\"2\",\"1\",\"0\",\"3\",\"0\",\"0\"],\"states\":[[0,[[0,0]],[],0,0],[0,[[]],[],0,0]],\"task\":\"T\"}";

const LINE: &str =
    "{\"bound\":\"13\",\"denominator\":\"1\",\"multipliers\":[\"13\",\"10\",\"3\",\"2\",\"1\",\"0\",\"3\",\"0\",\"0\"],\"states\":[[0,[[0,0]],[],0,0],[0,[[]],[],0,0]],\"task\":\"T\"}\n";

/// The same with a bound that is a number.
const NO_TEXT: &str =
    "{\"bound\":13,\"denominator\":\"1\",\"multipliers\":[],\"states\":[[0,[[0,0]],[],0,0],[0,[[]],[],0,0]],\"task\":\"T\"}";

/// The same with a denominator of 0.
const ZERO: &str =
    "{\"bound\":\"13\",\"denominator\":\"0\",\"multipliers\":[],\"states\":[[0,[[0,0]],[],0,0],[0,[[]],[],0,0]],\"task\":\"T\"}";

/// The same with a block of no task.
const NO_BLOCK: &str =
    "{\"bound\":\"13\",\"denominator\":\"1\",\"multipliers\":[],\"states\":[[0,[[1,0]],[],0,0],[0,[[]],[],0,0]],\"task\":\"T\"}";

// One mode, one task with block 0, one resource, and no ISR.
fn lone(alloc: Global) -> Result<StateRules, AllocError> {
    let mut inner = Vec::new(alloc);
    inner.push(false)?;
    let mut owners = Vec::new(alloc);
    owners.push(Context::Task(0))?;
    Ok(StateRules {
        modes: 1,
        isrs: 0,
        resources: 1,
        inner: Flags::from_vec(inner),
        owners: Contexts::from_vec(owners),
    })
}

fn writes(alloc: Global, cert: &Cert) -> bool {
    match write_cert(alloc, "T", cert) {
        Ok(text) => text.as_slice() == LINE.as_bytes(),
        Err(_) => false,
    }
}

fn is_cert(cert: &Cert) -> bool {
    cert.bound == 13
        && cert.denominator == 1
        && cert.states.len() == 2
        && cert.multipliers.as_slice() == [13, 10, 3, 2, 1, 0, 3, 0, 0].as_slice()
}

fn reads(alloc: Global, rules: &StateRules) -> bool {
    match read_cert(alloc, rules, 0, b"T", CERT.as_bytes()) {
        Ok(cert) => is_cert(&cert) && writes(alloc, &cert),
        Err(_) => false,
    }
}

fn reads_lone(alloc: Global) -> bool {
    match lone(alloc) {
        Ok(rules) => reads(alloc, &rules),
        Err(_) => false,
    }
}

#[test]
fn the_certificate_of_the_lone_task_and_its_line(rt: HostRuntime) {
    assert!(rt; reads_lone(rt.alloc()));
}

fn refuses(alloc: Global, rules: &StateRules, name: &[u8], text: &str, wanted: CertKind) -> bool {
    match read_cert(alloc, rules, 0, name, text.as_bytes()) {
        Err(CertFault::Kind(kind)) => kind == wanted,
        _ => false,
    }
}

fn refuses_each(alloc: Global, rules: &StateRules) -> bool {
    refuses(alloc, rules, b"T", "{", CertKind::Json)
        && refuses(alloc, rules, b"T", NO_TEXT, CertKind::Shape)
        && refuses(alloc, rules, b"X", CERT, CertKind::Task)
        && refuses(alloc, rules, b"T", ZERO, CertKind::Range)
        && refuses(alloc, rules, b"T", NO_BLOCK, CertKind::State)
}

fn refuses_lone(alloc: Global) -> bool {
    match lone(alloc) {
        Ok(rules) => refuses_each(alloc, &rules),
        Err(_) => false,
    }
}

/// One text of each kind; more of them are cases of the built program.
#[test]
fn each_kind_of_fault(rt: HostRuntime) {
    assert!(rt; refuses_lone(rt.alloc()));
}

fn has_states(alloc: Global, rules: &StateRules) -> bool {
    match read_states(alloc, rules, b"[[0,[[0,0]],[],0,0],[0,[[]],[],0,0]]") {
        Ok(states) => states.len() == 2,
        Err(_) => false,
    }
}

fn has_no_states(alloc: Global, rules: &StateRules, text: &[u8], wanted: StatesKind) -> bool {
    match read_states(alloc, rules, text) {
        Err(StatesFault::Kind(kind)) => kind == wanted,
        _ => false,
    }
}

fn reads_states(alloc: Global, rules: &StateRules) -> bool {
    has_states(alloc, rules)
        && has_no_states(alloc, rules, b"[[0,[", StatesKind::Json)
        && has_no_states(alloc, rules, b"{}", StatesKind::Shape)
        && has_no_states(
            alloc,
            rules,
            b"[[0,[[]],[],0,0],[0,[[]],[],0,0]]",
            StatesKind::State,
        )
}

fn reads_states_of_lone(alloc: Global) -> bool {
    match lone(alloc) {
        Ok(rules) => reads_states(alloc, &rules),
        Err(_) => false,
    }
}

#[test]
fn the_states_of_the_lone_task(rt: HostRuntime) {
    assert!(rt; reads_states_of_lone(rt.alloc()));
}
