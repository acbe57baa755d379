// Rows, and the lines that tell them.
use crate::bytes::{
    Refused, Shared, Taken, halves, put_begun, put_line, put_made, put_text, words_in,
};
use std::alloc::Global;

/// The room of standard output: so many bytes, or each number of bytes up to those that must be left.
#[derive(Clone, Copy)]
pub(crate) enum Room {
    Of(usize),
    Each,
}

/// What a run must leave.
#[derive(Drop)]
pub(crate) struct Must {
    pub(crate) status: u8,
    pub(crate) out: Vec<u8>,
    pub(crate) err: Vec<u8>,
    pub(crate) reads: Option<u64>,
}

impl Must {
    fn leave_nothing(alloc: Global) -> Must {
        Must {
            status: 0,
            out: Vec::new(alloc),
            err: Vec::new(alloc),
            reads: None,
        }
    }

    fn copied(&self, alloc: Global) -> Result<Must, Refused> {
        Ok(Must {
            status: self.status,
            out: self.out.as_slice().to_vec(alloc)?,
            err: self.err.as_slice().to_vec(alloc)?,
            reads: self.reads,
        })
    }

    /// A status and the line of a fault, as `9 gate 2 does not suit T2`.
    fn refuse(alloc: Global, told: &str) -> Result<Must, Refused> {
        let (status, line) = halves(told);
        let mut must = Must::leave_nothing(alloc);
        must.status = status.parse::<u8>()?;
        put_text(&mut must.err, "ptu: \\")?;
        put_text(&mut must.err, line)?;
        Ok(must)
    }
}

/// A run, and what it must leave.
#[derive(Drop)]
pub(crate) struct Row {
    pub(crate) name: String,
    pub(crate) words: Vec<String>,
    pub(crate) plan: Vec<u8>,
    pub(crate) file: Vec<u8>,
    /// The sizes of the pieces in which the bytes come, of each time that it is run.
    pub(crate) cuttings: Vec<Vec<usize>>,
    pub(crate) failing: Vec<u64>,
    /// Whether the files are those of the folder in which the rows are run.
    pub(crate) on_disk: bool,
    pub(crate) failing_writes: Vec<u64>,
    pub(crate) room: Room,
    pub(crate) err_room: usize,
    pub(crate) must: Must,
    /// Whether what the first cutting leaves on standard output is what each must leave.
    pub(crate) alike: bool,
}

/// Numbers in decimal digits.
fn numbers_in(alloc: Global, line: &str) -> Result<Vec<u64>, Refused> {
    let mut numbers = Vec::new(alloc);
    for word in line.split_whitespace() {
        numbers.push(word.parse::<u64>()?)?;
    }
    if numbers.is_empty() {
        Err(Refused)
    } else {
        Ok(numbers)
    }
}

/// The sizes of pieces, none of which is `whole`.
fn sizes_in(alloc: Global, line: &str) -> Result<Vec<usize>, Refused> {
    let mut sizes = Vec::new(alloc);
    if line != "whole" {
        for size in numbers_in(alloc, line)?.iter() {
            sizes.push(usize::try_from(*size)?)?;
        }
    }
    Ok(sizes)
}

/// Cuttings into pieces, with commas between.
fn cuttings_in(alloc: Global, line: &str) -> Result<Vec<Vec<usize>>, Refused> {
    let mut cuttings = Vec::new(alloc);
    for part in line.split(',') {
        cuttings.push(sizes_in(alloc, part.trim())?)?;
    }
    Ok(cuttings)
}

impl Row {
    /// A row that asks for nothing and must leave nothing.
    pub(crate) fn new(alloc: Global, name: &str) -> Result<Row, Refused> {
        Ok(Row {
            name: String::from_str(alloc, name)?,
            words: Vec::new(alloc),
            plan: Vec::new(alloc),
            file: Vec::new(alloc),
            cuttings: cuttings_in(alloc, "whole, 1, 3, 47 5")?,
            failing: Vec::new(alloc),
            on_disk: false,
            failing_writes: Vec::new(alloc),
            room: Room::Of(65_536),
            err_room: 96,
            must: Must::leave_nothing(alloc),
            alike: false,
        })
    }

    /// Makes it the row of another name with the same words, plan, file and faults, which must leave nothing yet.
    pub(crate) fn begin_again(&mut self, alloc: Global, name: &str) -> Taken {
        self.name = String::from_str(alloc, name)?;
        self.must = Must::leave_nothing(alloc);
        Ok(())
    }

    /// Puts what a line `with` tells after the plan, and answers what the run must leave then.
    pub(crate) fn put_with(&mut self, shared: &[Shared], line: &str) -> Result<Must, Refused> {
        let alloc = *self.plan.allocator();
        let (key, rest) = halves(line);
        let Some((told, more)) = rest.split_once(": ") else {
            return Err(Refused);
        };
        match key {
            "with" => put_begun(&mut self.plan, more)?,
            _ => put_made(&mut self.plan, shared, more)?,
        }
        match told {
            "same" => self.must.copied(alloc),
            _ => Must::refuse(alloc, told),
        }
    }

    fn take_pieces(&mut self, alloc: Global, rest: &str) -> Taken {
        let alike = rest.strip_prefix("alike ");
        self.alike = alike.is_some();
        self.cuttings = cuttings_in(alloc, alike.unwrap_or(rest))?;
        Ok(())
    }

    fn take_failing(&mut self, alloc: Global, rest: &str) -> Taken {
        match rest.strip_prefix("writes ") {
            Some(writes) => self.failing_writes = numbers_in(alloc, writes)?,
            None => self.failing = numbers_in(alloc, rest)?,
        }
        Ok(())
    }

    fn take_room(&mut self, rest: &str) -> Taken {
        match halves(rest) {
            ("out", "each") => self.room = Room::Each,
            ("out", room) => self.room = Room::Of(room.parse::<usize>()?),
            ("err", room) => self.err_room = room.parse::<usize>()?,
            _ => return Err(Refused),
        }
        Ok(())
    }

    /// Takes a line. Those of the plan, the file and both outputs append to what they have.
    pub(crate) fn take(&mut self, alloc: Global, shared: &[Shared], line: &str) -> Taken {
        let (key, rest) = halves(line);
        match key {
            "words" => self.words = words_in(alloc, rest)?,
            "pieces" => self.take_pieces(alloc, rest)?,
            "failing" => self.take_failing(alloc, rest)?,
            "disk" => self.on_disk = true,
            "room" => self.take_room(rest)?,
            "status" => self.must.status = rest.parse::<u8>()?,
            "reads" => self.must.reads = Some(rest.parse::<u64>()?),
            "plan" | "plan:" => put_line(&mut self.plan, shared, line)?,
            "file" | "file:" => put_line(&mut self.file, shared, line)?,
            "out" | "out:" => put_line(&mut self.must.out, shared, line)?,
            "err" | "err:" => put_line(&mut self.must.err, shared, line)?,
            _ => return Err(Refused),
        }
        Ok(())
    }
}
