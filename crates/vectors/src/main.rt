// Runs stored scenarios and compares what is printed with what must be. Names the ones that differ, and counts.
#![tactic(auto)]

use std::fs;

// Whether the scenario of this name prints what it must.
fn agrees(rt: &HostRuntime, name: &str) -> anyhow::Result<bool> {
    let input = fs::read(rt, format!(in rt.alloc(); "{name}.in")?)?;
    let expected = fs::read(rt, format!(in rt.alloc(); "{name}.out")?)?;
    let printed = scenario::run(rt.alloc(), &input)?;
    Ok(printed.as_bytes() == expected.as_slice())
}

fn main(rt: HostRuntime) -> anyhow::Result<()> {
    let names = fs::read_to_string(&rt, "names")?;
    let (mut passed, mut failed) = (0usize, 0usize);
    // counted in the loop, since it also prints and passes errors up
    for name in names.lines() {
        if agrees(&rt, name)? {
            passed += 1;
        } else {
            failed += 1;
            println!(rt; "{name} differs")?;
        }
    }
    println!(rt; "{passed} scenarios agree, {failed} differ")?;
    Ok(())
}
