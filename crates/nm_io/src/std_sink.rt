ghost use Rattle.std.specs.Prelude.{None};

use crate::{RawSink, RawWrite};
use std::io;

/// Standard output, written by a runtime. It does not tell what was written.
#[derive(Drop)]
pub struct Printed<R: Print + Drop> {
    rt: R,
}

impl<R: Print + Drop> RawWrite for Printed<R> {
    ghost written = { λ _. None };

    fn write_once(&mut self, bytes: &[u8]) -> io::Result<usize> {
        self.rt.write_some(bytes)
    }
}

/// A sink that is standard output.
pub type StdSink<R> = RawSink<Printed<R>>;

impl<R: Print + Drop> RawSink<Printed<R>> {
    /// Standard output by the runtime `rt`, as `&rt` of `main`.
    pub fn new(rt: R) -> Self {
        RawSink::over(Printed { rt })
    }
}
