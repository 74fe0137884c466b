//! A reader or writer that remembers what the system said.

ghost use Rattle.std.specs.Prelude.{◌≡◌};
ghost use Rattle.nd_explain.specs.Hearing.{device_of};

use std::alloc::Global;
use std::io::{self, Read, Write};

/// A reader or writer that passes everything on, and remembers the last refusal and, where asked, a
/// copy of what was read.
#[derive(Drop)]
pub struct Heard<T> {
    device: T,
    copy: Option<Vec<u8>>,
    refusal: Option<io::Error>,
}

impl<T> Heard<T> {
    /// The device, of which refusals alone are remembered.
    pub fn new(device: T) -> Self
        ensures { device_of result ≡ device }
    {
        Heard {
            device,
            copy: None,
            refusal: None,
        }
    }

    /// The device, of which a copy of what is read is kept too, as long as there is memory for it.
    pub fn with_copy(alloc: Global, device: T) -> Self
        ensures { device_of result ≡ device }
    {
        Heard {
            device,
            copy: Some(Vec::new(alloc)),
            refusal: None,
        }
    }

    /// What the system said when it last refused a call.
    pub fn refusal(&self) -> Option<io::Error> {
        self.refusal
    }

    /// The bytes that were read, where a copy of all of them was kept.
    pub fn copy(&self) -> Option<&[u8]> {
        match &self.copy {
            Some(bytes) => Some(bytes.as_slice()),
            None => None,
        }
    }

    /// Adds what was read to the copy, which is given up where there is no memory for it.
    fn keep(&mut self, bytes: &[u8])
        ensures { self.new.device ≡ self.old.device }
    {
        let is_full = match &mut self.copy {
            Some(copy) => copy.extend_from_slice(bytes).is_err(),
            None => false,
        };
        if is_full {
            self.copy = None;
        }
    }
}

impl<R: Read> Read for Heard<R> {
    ghost remaining = { λ h. R.remaining h.device };

    fn read(&mut self, room: &mut [u8]) -> io::Result<usize> {
        match self.device.read(room) {
            Ok(taken) => {
                self.keep(&room[..taken]);
                Ok(taken)
            }
            Err(error) => {
                self.refusal = Some(error);
                Err(error)
            }
        }
    }
}

impl<W: Write> Write for Heard<W> {
    ghost contents = { λ h. W.contents h.device };

    fn write(&mut self, text: &[u8]) -> io::Result<usize> {
        match self.device.write(text) {
            Ok(taken) => Ok(taken),
            Err(error) => {
                self.refusal = Some(error);
                Err(error)
            }
        }
    }

    fn flush(&mut self) -> io::Result<()> {
        match self.device.flush() {
            Ok(()) => Ok(()),
            Err(error) => {
                self.refusal = Some(error);
                Err(error)
            }
        }
    }
}
