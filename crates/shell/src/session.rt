use commands::is_passed;
use std::alloc::Global;
use std::io::{BufRead, Write};
use std::{fmt, io};

// The lines that come in, the answers that go out, and the line in hand, whose memory serves the next one too.
#[derive(Drop)]
pub struct Session<R, W> {
    input: R,
    output: W,
    line: Vec<u8>,
}

impl<R: BufRead, W: Write> Session<R, W> {
    pub fn new(input: R, output: W, heap: Global) -> Session<R, W> {
        Session {
            input,
            output,
            line: Vec::new(heap),
        }
    }

    // Reads up to the next newline, and leaves the newline out; answers how many bytes were read, 0 at the end of the input.
    fn read_line(&mut self) -> io::Result<usize> {
        self.line.clear();
        let read = self.input.read_until(b'\n', &mut self.line)?;
        if self.line.as_slice().last() == Some(&b'\n') {
            let _ = self.line.pop();
        }
        Ok(read)
    }

    // Reads the next line that is not passed over, and echoes it; none at the end of the input.
    pub fn next_line(&mut self) -> io::Result<Option<&[u8]>> {
        // Stays: a count of lines, since nothing says that an input ends.
        for _ in 0..u64::MAX {
            if self.read_line()? == 0 {
                break;
            }
            if !is_passed(self.line.as_slice()) {
                self.output.write_all(b"> ")?;
                self.output.write_all(self.line.as_slice())?;
                self.output.write_all(b"\n")?;
                return Ok(Some(self.line.as_slice()));
            }
        }
        Ok(None)
    }

    // Writes an answer on a line of its own, and sends out what was written.
    pub fn say<T: fmt::Display>(&mut self, answer: &T) -> io::Result<()> {
        writeln!(self.output, "{answer}")?;
        self.output.flush()
    }
}
