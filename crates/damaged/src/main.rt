#![tactic(auto)]

use anyhow::anyhow;
use book::Link;
use kind::Kind;
use kinds::{Places, Ticks};
use report::{Full, run_file};
use std::io::{Read, Write};

// A damaged file worked by one call, `run_file`, with rows for 64 switches and a report of 4,096 bytes.
fn main(rt: HostRuntime) -> anyhow::Result<()> {
    let mut file = Vec::new(rt.alloc());
    rt.stdin().take(65537).read_to_end(&mut file)?;
    let (Ok(tick), Ok(place)) = (Ticks::latency(0), Places::latency(0)) else {
        return Err(anyhow!("a kind has no zero latency"));
    };
    let mut tick_links = [Link::blank(tick); 64];
    let mut place_links = [Link::blank(place); 64];
    let mut report = [0u8; 4096];
    // The call with its eight rows, as a user writes it; rows of other sizes than those of the samples.
    let (Ok(written) | Err(Full(written))) = run_file(
        file.as_slice(),
        &mut tick_links,
        &mut [0i64; 128],
        &mut place_links,
        &mut [0u32; 128],
        &mut [0u32; 256],
        &mut [0u32; 64],
        &mut report,
    );
    rt.stdout()
        .write_all(report.get(0..written).unwrap_or(b"no report\n"))?;
    Ok(())
}
