//! Solves the rows of JSON files and prints for each the pivots, the denominator, the bound and the
//! nanoseconds that a call of `solve` took: the mean of as many calls as fill 0.2 s.
#![tactic(auto)]

mod file;

use crate::file::rows_of;
use anyhow::{Result, anyhow};
use listed::Fault;
use serde_json::Value;
use std::alloc::Global;
use std::rt::{Clock, Env, Files};
use std::time::Instant;
use std::{env, fs};
use whole_rows::Rows;
use whole_simplex::{Optimum, SolveFault, solve};

const PIVOTS: u32 = 100_000;

/// For how long calls are repeated.
const LEAST_NANOS: u128 = 200_000_000;

/// How often a call is made at most.
const MOST_CALLS: u32 = 100_000;

fn read_rows<R: Files + AllocGlobal>(rt: &R, path: &str) -> Result<Rows> {
    let text = fs::read_to_string(rt, path)?;
    let data = Value::from_str(rt.alloc(), text.as_str()).map_err(|_| anyhow!("no JSON"))?;
    match rows_of(rt.alloc(), &data) {
        Ok(rows) => Ok(rows),
        Err(Fault::Kind(_)) => Err(anyhow!("no rows")),
        Err(Fault::Memory) => Err(anyhow!("out of memory")),
    }
}

/// What `solve` answers, and how long a call takes on average.
#[derive(Drop)]
struct Timed {
    answer: Result<Optimum, SolveFault>,
    nanos: u128,
}

/// Calls `solve` until the calls have taken `LEAST_NANOS`, or `MOST_CALLS` times.
fn time_solve<R: AllocGlobal + Clock>(rt: &R, rows: &Rows) -> Result<Timed> {
    let start = Instant::now(rt)?;
    let mut answer = solve(rt.alloc(), rows, PIVOTS);
    for calls in 1..MOST_CALLS {
        let nanos = start.elapsed(rt)?.as_nanos();
        if nanos >= LEAST_NANOS {
            return Ok(Timed {
                answer,
                nanos: nanos / u128::from(calls),
            });
        }
        answer = solve(rt.alloc(), rows, PIVOTS);
    }
    let nanos = start.elapsed(rt)?.as_nanos() / u128::from(MOST_CALLS);
    Ok(Timed { answer, nanos })
}

fn report<R: Files + AllocGlobal + Clock + Print>(rt: &R, path: &str) -> Result<()> {
    let rows = read_rows(rt, path)?;
    let timed = time_solve(rt, &rows)?;
    let nanos = timed.nanos;
    match timed.answer {
        Ok(optimum) => {
            let pivots = optimum.pivots;
            let denominator = optimum.denominator;
            let bound = optimum.bound;
            println!(rt; "{path} {pivots} {denominator} {bound} {nanos}")?;
        }
        Err(fault) => println!(rt; "{path} {fault} {nanos}")?,
    }
    Ok(())
}

fn main(rt: HostRuntime) -> Result<()> {
    for path in env::args(&rt)?.skip(1) {
        report(&rt, path.as_str())?;
    }
    Ok(())
}
