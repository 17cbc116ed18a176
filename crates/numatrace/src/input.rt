//! The reader of a trace.

use std::io;
use std::io::{ErrorKind, Read};

/// A reader, or one that always fails where there is none.
#[derive(Drop)]
pub(crate) struct Input<R> {
    from: Option<R>,
}

impl<R> Input<R> {
    pub(crate) fn new(from: Option<R>) -> Self {
        Input { from }
    }
}

impl<R: Read> Read for Input<R> {
    fn read(&mut self, buf: &mut [u8]) -> io::Result<usize> {
        match &mut self.from {
            Some(from) => from.read(buf),
            None => Err(io::Error::from(ErrorKind::Other)),
        }
    }
}
