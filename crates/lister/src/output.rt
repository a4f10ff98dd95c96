// A descriptor by its number, as a writer. A call that fails is not made again.
use std::io::{Error, ErrorKind, Result, Write};

#[derive(Drop)]
pub(crate) struct Output(pub(crate) i32);

impl Write for Output {
    fn write(&mut self, buf: &[u8]) -> Result<usize> {
        if io::write_all(self.0, buf) {
            return Ok(buf.len());
        }
        Err(Error::from(ErrorKind::Other))
    }

    fn flush(&mut self) -> Result<()> {
        Ok(())
    }
}
