//! Runs the program over rows of whole runs, which it reads from the files that its words name, and prints of each
//! row that it left what the row tells, or what it left. `docs/rows.md` says how rows are written.
#![tactic(auto)]

mod adapters;
mod bytes;
mod rows;
mod run;

use adapters::{reads_once, writes_once};
use bytes::{Refused, Shared, Taken, halves, put_line};
use rows::Row;
use run::{Left, first_wrong};
use std::process::ExitCode;
use std::{env, fs, mem};

/// The lines from one name to the next.
#[derive(Drop)]
enum Block {
    Nothing,
    Shared(Shared),
    Row(Row),
}

fn print_bytes(rt: &HostRuntime, key: &str, bytes: &[u8]) -> Taken {
    match std::str::from_utf8(bytes) {
        Ok(text) => println!(rt; "{key} {text:?}")?,
        Err(_) => println!(rt; "{key} {bytes:?}")?,
    }
    Ok(())
}

/// What the lines so far told.
#[derive(Drop)]
struct Progress {
    shared: Vec<Shared>,
    runs: u64,
    all_right: bool,
}

impl Progress {
    /// Says what a row left in place of what it must.
    fn tell(&mut self, rt: &HostRuntime, row: &str, left: &Left) -> Taken {
        self.all_right = false;
        println!(rt; "WRONG {row}, which left")?;
        println!(rt;
            "pieces {:?} room {} status {}",
            left.pieces, left.room, left.status
        )?;
        println!(rt; "reads {}", left.reads)?;
        print_bytes(rt, "out", left.out.as_slice())?;
        print_bytes(rt, "err", left.err.as_slice())
    }

    /// Runs a row, and says how it went.
    fn judge(&mut self, rt: &HostRuntime, row: &mut Row) -> Taken {
        match first_wrong(rt, row, &mut self.runs)? {
            Some(left) => self.tell(rt, &row.name, &left),
            None => Ok(println!(rt; "ok {}", row.name)?),
        }
    }

    /// Runs a row with more after its plan, and tells only what is wrong.
    fn judge_with(&mut self, rt: &HostRuntime, row: &mut Row, line: &str) -> Taken {
        let front = row.plan.len();
        let must = row.put_with(self.shared.as_slice(), line)?;
        let own = mem::replace(&mut row.must, must);
        let wrong = first_wrong(rt, row, &mut self.runs)?;
        row.must = own;
        row.plan.truncate(front);
        match wrong {
            Some(left) => self.tell(rt, line, &left),
            None => Ok(()),
        }
    }

    fn end(&mut self, rt: &HostRuntime, block: Block) -> Taken {
        match block {
            Block::Nothing => Ok(()),
            Block::Shared(shared) => Ok(self.shared.push(shared)?),
            Block::Row(mut row) => self.judge(rt, &mut row),
        }
    }

    /// Takes a line of a block.
    fn take(&mut self, rt: &HostRuntime, block: &mut Block, line: &str) -> Taken {
        let shared = self.shared.as_slice();
        match (block, halves(line)) {
            (Block::Row(row), ("again", name)) => {
                self.judge(rt, row)?;
                row.begin_again(rt.alloc(), name)
            }
            (Block::Row(row), ("with" | "with:", _)) => self.judge_with(rt, row, line),
            (Block::Row(row), _) => row.take(rt.alloc(), shared, line),
            (Block::Shared(one), ("is" | "is:", _)) => put_line(&mut one.bytes, shared, line),
            _ => Err(Refused),
        }
    }

    /// Takes a line, which may end the block and begin another one.
    fn take_any(&mut self, rt: &HostRuntime, block: &mut Block, line: &str) -> Taken {
        let next = match halves(line) {
            ("row", name) => Block::Row(Row::new(rt.alloc(), name)?),
            ("let", name) => Block::Shared(Shared {
                name: String::from_str(rt.alloc(), name)?,
                bytes: Vec::new(rt.alloc()),
            }),
            _ => return self.take(rt, block, line),
        };
        self.end(rt, mem::replace(block, next))
    }

    /// Tells what can't be read.
    fn refuse(&mut self, rt: &HostRuntime, what: &str) -> Taken {
        self.all_right = false;
        println!(rt; "CANNOT READ {what}")?;
        Ok(())
    }

    /// Runs the rows of a text. A row of which a line can't be read is none.
    fn judge_each(&mut self, rt: &HostRuntime, text: &str) -> Taken {
        let mut block = Block::Nothing;
        for line in text.lines() {
            let says_nothing = line.is_empty() || line.starts_with('#');
            if !says_nothing && self.take_any(rt, &mut block, line).is_err() {
                block = Block::Nothing;
                self.refuse(rt, line)?;
            }
        }
        self.end(rt, block)
    }

    /// Says whether the adapters to files and streams make no call again that failed.
    fn judge_adapters(&mut self, rt: &HostRuntime) -> Taken {
        for (name, right) in [
            (
                "an opening and a read are not tried again",
                reads_once(rt.alloc())?,
            ),
            (
                "a write and its flush are not tried again",
                writes_once(rt.alloc())?,
            ),
        ] {
            self.all_right = self.all_right && right;
            let went = if right { "ok" } else { "WRONG" };
            println!(rt; "{went} {name}")?;
        }
        Ok(())
    }

    /// Runs the rows of all files.
    fn judge_all(&mut self, rt: &HostRuntime) -> Taken {
        let mut names = env::args(rt)?;
        let _program = names.next();
        for name in names {
            match fs::read_to_string(rt, name.as_str()) {
                Ok(text) => self.judge_each(rt, text.as_str())?,
                Err(_) => self.refuse(rt, name.as_str())?,
            }
        }
        self.judge_adapters(rt)?;
        println!(rt; "{} runs", self.runs)?;
        Ok(())
    }
}

fn main(rt: HostRuntime) -> ExitCode {
    let mut progress = Progress {
        shared: Vec::new(rt.alloc()),
        runs: 0,
        all_right: true,
    };
    match progress.judge_all(&rt) {
        Ok(()) if progress.all_right => ExitCode::SUCCESS,
        _ => ExitCode::FAILURE,
    }
}
