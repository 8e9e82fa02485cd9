//! The workloads of `bench/run`: each is a job that a user of the library waits for, on input that it makes from a
//! seed. It prints a digest of all results.
//!
//! `ip_bench JOB SEED COUNT`, where JOB is `capture`, `print`, `texts`, `routes`, `nested`, `nat` or `tables`, and
//! COUNT is the number of frames, texts, packets or look-ups. `ip_bench all SEED COUNT` runs each job.
//! `ip_bench lines SEED COUNT` writes lines of hex digits for the program `ip_frames`.
#![tactic(auto)]

mod capture;
mod derived;
mod digest;
mod frames;
mod lines;
mod nat;
mod print;
mod random;
mod routes;
mod tables;
mod texts;

use crate::digest::Digest;
use crate::random::Random;
use std::alloc::{AllocError, Global};
use std::io::Write;
use std::process::ExitCode;
use std::{env, io};

const JOBS: [&str; 8] = [
    "capture", "print", "texts", "routes", "nested", "nat", "tables", "lines",
];

fn main(rt: HostRuntime) -> io::Result<ExitCode> {
    let mut words = env::args(&rt)?.skip(1);
    let job = words.next();
    let seed = words.next().and_then(|word| word.parse::<u32>().ok());
    let count = words.next().and_then(|word| word.parse::<u32>().ok());
    match (job, seed, count) {
        (Some(job), Some(seed), Some(count)) => run(&rt, job.as_str(), seed, count),
        _ => {
            let _ = eprintln!(rt; "ip_bench: JOB SEED COUNT are needed");
            Ok(ExitCode::FAILURE)
        }
    }
}

fn run(rt: &HostRuntime, job: &str, seed: u32, count: u32) -> io::Result<ExitCode> {
    let alloc = rt.alloc();
    let mut random = Random::new(seed);
    if job == "lines" {
        let lines = lines::lines(alloc, &mut random, count)?;
        rt.stdout().write_all(lines.as_slice())?;
        return Ok(ExitCode::SUCCESS);
    }
    for name in JOBS {
        if job == name || job == "all" {
            let digest = digest_of(alloc, &mut random, name, count)?;
            println!(rt; "{name} {digest}")?;
        }
    }
    Ok(ExitCode::SUCCESS)
}

fn digest_of(
    alloc: Global,
    random: &mut Random,
    job: &str,
    count: u32,
) -> Result<Digest, AllocError> {
    match job {
        "capture" => capture::run(alloc, random, count),
        "print" => print::run(alloc, random, count),
        "texts" => texts::run(alloc, random, count),
        "routes" => routes::run(alloc, random, count, &routes::INTERNET),
        "nested" => routes::run(alloc, random, count, &routes::NESTED),
        "nat" => nat::run(alloc, random, count),
        "tables" => tables::run(alloc, random, count),
        _ => {
            let mut digest = Digest::new();
            digest.add_bytes(lines::lines(alloc, random, count)?.as_slice());
            Ok(digest)
        }
    }
}
