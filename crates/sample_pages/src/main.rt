// sample_pages: makes the page of each sample sheet and compares it with the page that is stored beside it.
#![tactic(auto)]

use notice::Notice;
use std::{env, fs};

fn compare(rt: &HostRuntime, name: &str) -> anyhow::Result<()> {
    let heap = rt.alloc();
    let sheet = fs::read(rt, format!(in heap; "{name}.sheet")?.as_str())?;
    let stored = fs::read(rt, format!(in heap; "{name}.page")?.as_str())?;
    let notice = Notice::new(heap, sheet.as_slice())?;
    if notice.text != stored {
        println!(rt; "{name}: ANOTHER PAGE")?;
        return Ok(());
    }
    let line = std::str::from_utf8(notice.text.as_slice())?
        .lines()
        .next()
        .unwrap_or_default();
    println!(rt; "{name}: {line}")?;
    Ok(())
}

fn main(rt: HostRuntime) -> anyhow::Result<()> {
    for name in env::args(&rt)?.skip(1) {
        compare(&rt, name.as_str())?;
    }
    Ok(())
}
