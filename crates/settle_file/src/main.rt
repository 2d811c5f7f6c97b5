// settle_file: reads a sheet file from standard input, and prints what its calls tell.
#![tactic(auto)]

ghost use Rattle.std.specs.Prelude.{◌≡◌, ◌+◌, ◌≤◌, IfOk, vec_len};

use std::alloc::Global;
use std::io;
use std::io::{Read, Write};
use transcript::run_file;

// One byte past the largest file: so much of an input tells that it is too large, and no more is read of it.
const MOST: usize = 65_537;

// How many bytes are read at a time.
const BLOCK: usize = 8_192;

// Appends up to `room` bytes of an input, and tells how many there were: none at its end.
fn read_block<R: Read>(input: &mut R, file: &mut Vec<u8>, room: usize) -> io::Result<usize>
    requires { room ≤ 8192 }
    ensures { IfOk result (λ count. (count ≤ room) × (vec_len file.new ≡ vec_len file.old + count)) }
{
    let mut block = [0; BLOCK];
    let part = &mut block[..room];
    let count = input.read(part)?;
    file.extend_from_slice(&part[..count])?;
    Ok(count)
}

// The bytes of an input, but no more than are needed to tell what it is. It reads by blocks, since `read_to_end` of a `take`
// tells no bound for an input of unknown bytes.
fn read_file<R: Read>(alloc: Global, input: &mut R) -> io::Result<Vec<u8>>
    ensures { IfOk result (λ file. vec_len file ≤ 65537) }
{
    let mut file = Vec::new(alloc);
    while file.len() < MOST {
        let room = BLOCK.min(MOST - file.len());
        if read_block(input, &mut file, room)? == 0 {
            break;
        }
    }
    Ok(file)
}

// Nothing is printed until the whole text is there. Want of memory, or a failed read or write, is told on standard error and
// ends with status 1.
fn main(rt: HostRuntime) -> anyhow::Result<()> {
    let file = read_file(rt.alloc(), &mut rt.stdin())?;
    let text = run_file(rt.alloc(), &file)?;
    rt.stdout().write_all(text.as_bytes())?;
    Ok(())
}
