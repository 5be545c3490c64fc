//! How much of a bench is run, and how its lines end.
use std::io;

/// How a case is run.
#[derive(Clone, Copy)]
pub struct Size {
    /// Its counts are divided by this.
    pub part: usize,
    pub is_timed: bool,
}

/// How the case with this number is run: whole and with its time where it is asked for, a part where none is.
pub fn size_of(asked: Option<usize>, number: usize, part: usize) -> Option<Size> {
    match asked {
        Some(n) if n == number => Some(Size {
            part: 1,
            is_timed: true,
        }),
        Some(_) => None,
        None => Some(Size {
            part,
            is_timed: false,
        }),
    }
}

/// Ends a line, with the time where that is asked for.
pub fn end_line<R: Print>(rt: &R, size: Size, micros: u128) -> io::Result<()> {
    if size.is_timed {
        print!(rt; ", {micros} microseconds")?;
    }
    println!(rt; "")
}
