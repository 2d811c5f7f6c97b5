// Runs each example sheet, and tells whether it prints what stands beside it.
#![tactic(auto)]

use std::fs;
use transcript::run_file;

// Whether the sheet prints its expected output.
fn is_as_expected(rt: &HostRuntime, sheet: &str, expected: &str) -> anyhow::Result<bool> {
    let file = fs::read(rt, sheet)?;
    let expected = fs::read(rt, expected)?;
    let text = run_file(rt.alloc(), &file)?;
    Ok(text.as_bytes() == expected.as_slice())
}

fn tell(rt: &HostRuntime, name: &str) -> anyhow::Result<()> {
    let sheet = format!(in rt.alloc(); "{name}.sheet")?;
    let expected = format!(in rt.alloc(); "{name}.out")?;
    if is_as_expected(rt, sheet.as_str(), expected.as_str())? {
        println!(rt; "{name}: as expected")?;
    } else {
        println!(rt; "{name}: NOT as expected")?;
    }
    Ok(())
}

fn main(rt: HostRuntime) -> anyhow::Result<()> {
    for name in ["carousels", "coaster", "flume", "kiosk", "swings", "torn"] {
        tell(&rt, name)?;
    }
    Ok(())
}
