//! Solves linear problems, finds the basic scales of matrices and makes their problems, one a line of the input. A line of a
//! problem is a name, the number of variables, the costs, and each row's coefficients with its bound last; that of a matrix a
//! name, the word `matrix`, the number of elements, and for each judged pair its elements and its lowest and highest category.
//! The word `problem` or `threshold` in its place asks for that problem of the matrix, made and not solved, and `solve` for its
//! threshold problem solved, which is made while the line is read. It writes a line for each: the name, how many variables and
//! rows or elements and judged pairs, the end, the pivots or how many numbers the problem that was made has, and the least time of
//! the call in nanoseconds, of as many calls as the program's one word says, 0 without a word.
#![tactic(auto)]

mod task;

use crate::task::Task;
use std::time::Instant;
use std::{env, io};

fn main(rt: HostRuntime) -> io::Result<()> {
    let mut repeats = 0;
    for word in env::args(&rt)?.skip(1) {
        repeats = word.parse::<u32>().unwrap_or(0);
    }
    let text = io::read_to_string(rt.alloc(), rt.reader())?;
    for line in text.lines() {
        println!(rt; "{}", report(&rt, line, repeats)?)?;
    }
    Ok(())
}

/// What is written of a line.
fn report(rt: &HostRuntime, line: &str, repeats: u32) -> io::Result<String> {
    let alloc = rt.alloc();
    let name = line.split_whitespace().next().unwrap_or("");
    let Some(task) = Task::read(alloc, line)? else {
        return Ok(format!(in alloc; "{name} is no problem")?);
    };
    let (end, made) = task.run(alloc);
    let (columns, rows) = task.sizes();
    let least = least_time(rt, &task, repeats)?;
    Ok(format!(in alloc; "{name} {columns} {rows} {end} {made} {least}")?)
}

/// The least time of so many calls in nanoseconds, 0 of none.
fn least_time(rt: &HostRuntime, task: &Task, repeats: u32) -> io::Result<u128> {
    let mut least = 0;
    for call in 0..repeats {
        let start = Instant::now(rt)?;
        let _answer = task.run(rt.alloc());
        let time = start.elapsed(rt)?.as_nanos();
        if call == 0 || time < least {
            least = time;
        }
    }
    Ok(least)
}
