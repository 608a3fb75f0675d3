// Standard output, each text a write of its own.
use std::fmt;

// The descriptor of standard output.
const STDOUT: i32 = 1;

#[derive(Drop)]
pub struct Output {}

impl fmt::Write for Output {
    // What cannot be written is not, and is no error of the program.
    fn write_str(&mut self, text: &str) -> fmt::Result {
        io::write_all(STDOUT, text.as_bytes());
        Ok(())
    }
}
