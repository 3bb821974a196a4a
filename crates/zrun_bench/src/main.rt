//! Clusters with one client, which `bench/threads.py` measures: at rest, and through many calls.
//!
//! Each line of the input is an order: `rest SERVERS CALLS MICROS` (`rest`) or `long SERVERS CALLS`
//! (`long`). SERVERS is the number of servers of the chain.
#![tactic(auto)]

mod calls;
mod long;
mod order;
mod rest;

use long::went;
use order::Order;
use rest::took;
use std::io;

fn main(rt: HostRuntime) -> io::Result<()> {
    for line in rt.lines(rt.alloc()) {
        let line = line?;
        let order = Order::read(&line);
        drop(line);
        match order {
            Some(Order::Rest(order)) => report_times(&rt, took(rt, rt.alloc(), order))?,
            Some(Order::Long(order)) => {
                let mut out = rt.stdout();
                report_end(&rt, went(rt, &mut out, rt.alloc(), order))?
            }
            None => println!(rt; "trouble")?,
        }
    }
    Ok(())
}

// Writes how long the calls took.
fn report_times(rt: &HostRuntime, took: Option<Vec<u128>>) -> io::Result<()> {
    let Some(took) = took else {
        return println!(rt; "trouble");
    };
    for nanos in took {
        println!(rt; "{nanos}")?;
    }
    Ok(())
}

// Writes whether messages were lost.
fn report_end(rt: &HostRuntime, went: Option<bool>) -> io::Result<()> {
    match went {
        Some(true) => println!(rt; "nothing lost"),
        Some(false) => println!(rt; "lost"),
        None => println!(rt; "trouble"),
    }
}
