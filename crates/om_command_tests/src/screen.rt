//! Standard output and standard error that are kept.

use std::alloc::Global;
use std::cell::RefCell;
use std::fmt::Display;
use std::io;
use std::process::Abort;

/// What was printed to each. Where a stream is shut, it refuses.
#[derive(Drop)]
pub struct Screen {
    output: RefCell<String>,
    error: RefCell<String>,
    is_shut: bool,
}

impl Screen {
    pub fn new(alloc: Global, is_shut: bool) -> Screen {
        Screen {
            output: RefCell::new(String::new(alloc)),
            error: RefCell::new(String::new(alloc)),
            is_shut,
        }
    }

    /// Exactly these texts were printed.
    pub fn check(&self, rt: &impl Abort, output: &str, error: &str) {
        check_one(rt, &self.output, output);
        check_one(rt, &self.error, error);
    }
}

fn check_one(rt: &impl Abort, kept: &RefCell<String>, wanted: &str) {
    match kept.try_borrow_mut() {
        Ok(text) => assert_eq!(rt; text.as_str(), wanted),
        Err(_) => panic!(rt; "in use"),
    }
}

impl Screen {
    fn add<D: Display + Drop>(
        &self,
        stream: &RefCell<String>,
        value: D,
        end: &str,
    ) -> io::Result<()> {
        if self.is_shut {
            return Err(io::Error::from(io::ErrorKind::Other));
        }
        match stream.try_borrow_mut() {
            Ok(mut text) => {
                write!(text, "{value}{end}")?;
                Ok(())
            }
            Err(_) => Err(io::Error::from(io::ErrorKind::Other)),
        }
    }
}

impl Eprint for Screen {
    fn eprint<D: Display + Drop>(&self, value: D) -> io::Result<()> {
        self.add(&self.error, value, "")
    }

    fn eprintln<D: Display + Drop>(&self, value: D) -> io::Result<()> {
        self.add(&self.error, value, "\n")
    }
}

impl Print for Screen {
    fn print<D: Display + Drop>(&self, value: D) -> io::Result<()> {
        self.add(&self.output, value, "")
    }

    fn println<D: Display + Drop>(&self, value: D) -> io::Result<()> {
        self.add(&self.output, value, "\n")
    }

    // Nothing that is tested writes bytes.
    fn write_all(&self, _bytes: &[u8]) -> io::Result<()> {
        Err(io::Error::from(io::ErrorKind::Unsupported))
    }
}
