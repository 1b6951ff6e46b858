// The program: standard input to standard output. What a program reads and writes no contract can say; what is printed for what was read is `console`'s
// contract, and `text` here shows that the program's own buffer is never short. Where the report could not be written whole, standard error says so.

#![tactic(auto)]

ghost use Rattle.std.specs.Prelude.{◌≤◌, ◌≡◌, length, take};
ghost use Rattle.io.specs.Counts.{IsPrefixLen};
ghost use Rattle.console.specs.Run.{output};
ghost use Rattle.console.specs.Whole.{most_room};

use std::io::{Read, Stdin};

// The numbers of standard output and standard error.
const STDOUT: i32 = 1;

const STDERR: i32 = 2;

// The most bytes of an input, and one more, by which an input above the limit is known.
const INPUT: usize = console::MOST_BYTES + 1;

// Reads standard input until it ends or the buffer is full, and answers how many bytes there are. Where a read fails it answers that there are none, which is
// printed as an illegible line 1: an input that was read in part is not answered.
fn read_input(stdin: &mut Stdin, buffer: &mut [u8]) -> usize
    ensures { IsPrefixLen result buffer.new }
{
    // No heap: std's `read_to_end` fills a `Vec`, and `read_exact` does not tell how much came before the end; `io::copy` does not tell a full buffer from a
    // failed read.
    let mut done = 0;
    while done < buffer.len() {
        let Ok(more) = stdin.read(&mut buffer[done..]) else {
            return 0;
        };
        if more == 0 {
            return done;
        }
        done += more;
    }
    done
}

// Puts what is printed for an input at the start of a buffer, and answers how many bytes that are.
fn text(input: &[u8], out: &mut [u8]) -> usize
    requires { most_room ≤ length out.old }
    ensures prefix_len { IsPrefixLen result out.new }
    ensures out_after { take result out.new ≡ output input.now }
{
    console::run(input, out).unwrap()
}

fn main(rt: HostRuntime) {
    let mut input = [0; INPUT];
    let n = read_input(&mut rt.stdin(), &mut input);
    let mut out = [0; console::MOST_ROOM];
    let count = text(&input[..n], &mut out);
    if !io::write_all(STDOUT, &out[..count]) {
        io::write_all(
            STDERR,
            b"report: standard output could not be written whole: the report is incomplete\n",
        );
    }
}
