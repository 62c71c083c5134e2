// Where answers go. They wait until a text has no room behind them or more input is asked for.
use arrayvec::ArrayVec;
use std::fmt::{self, Write};
use std::io::{Error, Stdout};

// What waits, and the error of the last write that failed: what was to be written is lost.
#[derive(Drop)]
pub(crate) struct Outlet {
    to: Stdout,
    waiting: ArrayVec<u8, 65536>,
    failed: Option<Error>,
}

impl Outlet {
    pub(crate) fn new(to: Stdout) -> Outlet {
        Outlet {
            to,
            waiting: ArrayVec::new(),
            failed: None,
        }
    }

    // Whether all writes went well so far.
    pub(crate) fn outcome(&self) -> Result<(), Error> {
        self.failed.map_or(Ok(()), Err)
    }

    // Writes what waits.
    pub(crate) fn flush(&mut self) {
        if let Err(e) = self.to.write_all(self.waiting.as_slice()) {
            self.failed = Some(e);
        }
        self.waiting.clear();
    }

    // Puts bytes behind what waits. What the whole room is too small for is written at once.
    pub(crate) fn put(&mut self, bytes: &[u8]) {
        if self.waiting.try_extend_from_slice(bytes).is_ok() {
            return;
        }
        self.flush();
        if self.waiting.try_extend_from_slice(bytes).is_ok() {
            return;
        }
        if let Err(e) = self.to.write_all(bytes) {
            self.failed = Some(e);
        }
    }
}

// No text is refused, so that a piece of the script is carried out to its end: `outcome` tells of a write that failed.
impl Write for Outlet {
    fn write_str(&mut self, text: &str) -> fmt::Result {
        self.put(text.as_bytes());
        Ok(())
    }
}
