// Drives the calls of the engine, and `generate`, as a script on standard input says, also with states and buffers that no run comes to,
// and prints what comes of each call. The first byte of a line says what the line is for:
//
//   0       the state is that of an unused run
//   >LINE   `step` is handed the line
//   #N      from here on calls are lent the first N bytes of the buffer, 0 to 16384
//   @N,A,R  the state has A lines of scanner N accepted and R refused
//   ^N      lines come from scanner N, whatever number that is
//   ?ID     `supports_of` is asked for a plot
//   .       `end` is called
//   =       `save` is called
//   ~S,P    `generate` is asked for the start S and P plots
//   %N      the state has N plots
//   $N      the state has N tables
//   !WP,B   byte P of one of the network's arrays is B, a plot standing there or not; W is the first letter of the array's name: r for
//           rows, i for ids, p for parents, t for through, c for classes, d for domains, l for labels
//   *B      every byte past the tables and plots that stand is B
//
// A number is written by the digits where it is looked for, and is 0 where there are none. A letter, a place or a byte that there isn't
// changes nothing, and any other line is passed over.
#![tactic(auto)]

mod buffer;
mod call;
mod meddle;
mod numbers;
mod script;

use script::obey_all;
use std::io;
use std::io::Read;

// The bytes of the longest script.
const SCRIPT_BYTES: usize = 65536;

fn main(rt: HostRuntime) -> io::Result<()> {
    let mut bytes = Vec::new(rt.alloc());
    rt.stdin()
        .take(SCRIPT_BYTES as u64 + 1)
        .read_to_end(&mut bytes)?;
    if SCRIPT_BYTES < bytes.len() {
        let _ = println!(rt; "TOO LONG");
        return Ok(());
    }
    obey_all(&rt, &bytes);
    Ok(())
}
