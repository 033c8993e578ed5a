// hall_verdict: reads a sheet from standard input and prints the page that hangs beside the pairings. It ends with status
// 0 where the sheet is admitted, and with 1 where it is refused or cannot be had.
#![tactic(auto)]

use anyhow::ensure;
use notice::Notice;
use std::io::{Read, Write};

fn main(rt: HostRuntime) -> anyhow::Result<()> {
    let heap = rt.alloc();
    let mut sheet = Vec::new(heap);
    rt.stdin().read_to_end(&mut sheet)?;
    let notice = Notice::new(heap, sheet.as_slice())?;
    rt.stdout().write_all(notice.text.as_slice())?;
    ensure!(notice.is_admitted(), "the sheet is refused");
    Ok(())
}
