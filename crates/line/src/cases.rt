// The cases that an input holds, one behind the other.
use std::io;
use std::io::{Read, Write};

// Runs `case` until it answers false. An input may not end, and `forever` takes a handle, which none may: so many turns do for any input.
pub fn each<R: Read, W: Write, F>(input: &mut R, output: &mut W, mut case: F) -> io::Result<()>
where
    F: FnMut(&mut R, &mut W) -> io::Result<bool>,
    requires { F.IsAlwaysCallable case }
{
    for _ in 0..u64::MAX {
        if !case(input, output)? {
            break;
        }
    }
    Ok(())
}
