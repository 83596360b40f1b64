// Reads a scenario from standard input and prints what its audits say and which lines are refused.
#![tactic(auto)]

ghost use Rattle.std.specs.Prelude.{◌≤◌, IfOk};

use std::io;
use std::io::Read;

// One byte more than a scenario may have, so that a longer one is seen to be longer.
const ENOUGH: usize = 12_289;

// Fills the buffer from standard input, as far as that goes, and says how many bytes came. No memory is had for them, and a read is
// offered all that is left of the buffer.
fn read_input(rt: &HostRuntime, buffer: &mut [u8; ENOUGH]) -> io::Result<usize>
    ensures { IfOk result (λ n. n ≤ 12289) }
{
    let mut input = rt.stdin();
    let mut length = 0;
    for _ in 0..ENOUGH {
        if length >= ENOUGH {
            break;
        }
        let count = input.read(&mut buffer[length..])?;
        if count == 0 {
            break;
        }
        length += count;
    }
    Ok(length)
}

fn main(rt: HostRuntime) -> anyhow::Result<()> {
    let mut buffer = [0; ENOUGH];
    let length = read_input(&rt, &mut buffer)?;
    let printed = scenario::run(rt.alloc(), &buffer[..length])?;
    rt.print(printed)?;
    Ok(())
}
