//! The lines of a script whose graph may go live, one after the other.
//!
//! [`drive`](rsx_modes::drive) has its lines answered by a trait, and a method of an implementation may not start a thread by a bound of its
//! block. So this reads and writes for itself what a live graph is told, and gives each line the handle.

ghost use Rattle.std.specs.Prelude.{◌≡◌, ◌<◌, IfErr};
ghost use Rattle.rsx_script.specs.Fault.{IsRunFault};

use crate::live::LiveScript;
use rsx_modes::{GATHERED_BYTES, MOST_READS, READ_BYTES};
use rsx_script::{AppFault, LineRefusal, MOST_BYTES};
use rsx_types::NoMemory;
use std::alloc::Global;
use std::io::{Read, Write};
use std::sync::Wait;
use std::thread::Threads;
use std::time::Clock;

/// A script that is read line by line.
#[derive(Drop)]
struct Lines {
    script: LiveScript,
    /// The line so far.
    line: Vec<u8>,
    /// The number of the line, from 1.
    number: u64,
    /// The answers that weren't written yet.
    out: String,
}

/// Answers each command of a script whose graph may go live, until the input ends. A last line needs no newline. The answers are written
/// when [`drive`](rsx_modes::drive) writes them: before each read, at the end, also before an error of `Line` or `Memory`, and as soon as
/// they have 65,536 bytes.
///
/// # Errors
///
/// As [`drive`](rsx_modes::drive): a line is never refused for want of memory, which is `Memory`. That comes also as
/// [`LiveScript::answer`] has it.
pub fn answer_live<H: Threads + Wait + Sync + Clock, R: Read, W: Write>(
    rt: &H,
    alloc: Global,
    reader: &mut R,
    writer: &mut W,
) -> Result<(), AppFault>
    ensures fault { IfErr result IsRunFault }
{
    let script = match LiveScript::new(alloc) {
        Ok(script) => script,
        Err(NoMemory) => return Err(AppFault::Memory),
    };
    let mut lines = Lines {
        script,
        line: Vec::new(alloc),
        number: 1,
        out: String::new(alloc),
    };
    match lines.answer_all(rt, alloc, reader, writer) {
        Ok(()) => lines.write(writer),
        Err(AppFault::Io) => Err(AppFault::Io),
        Err(fault) => match lines.write(writer) {
            Ok(()) => Err(fault),
            Err(unwritten) => Err(unwritten),
        },
    }
}

impl Lines {
    /// Reads to the end of the input and answers each line.
    fn answer_all<H: Threads + Wait + Sync + Clock, R: Read, W: Write>(
        &mut self,
        rt: &H,
        alloc: Global,
        reader: &mut R,
        writer: &mut W,
    ) -> Result<(), AppFault>
        requires { 0 < self.old.number }
        ensures fault { IfErr result IsRunFault }
    {
        let mut bytes = [0; READ_BYTES];
        for _ in 0..MOST_READS {
            if let Err(fault) = self.write(writer) {
                return Err(fault);
            }
            match reader.read(&mut bytes) {
                Ok(0) if self.line.is_empty() => return Ok(()),
                Ok(0) => return self.end_line(rt, alloc),
                Ok(count) => {
                    if let Err(fault) = self.take_in(rt, alloc, &bytes[..count], writer) {
                        return Err(fault);
                    }
                }
                Err(_) => return Err(AppFault::Io),
            }
        }
        Err(AppFault::Io)
    }

    /// Takes in bytes, answers each line that ends among them, and writes what gathers meanwhile.
    fn take_in<H: Threads + Wait + Sync + Clock, W: Write>(
        &mut self,
        rt: &H,
        alloc: Global,
        bytes: &[u8],
        writer: &mut W,
    ) -> Result<(), AppFault>
        requires { 0 < self.old.number }
        ensures number { 0 < self.new.number }
        ensures fault { IfErr result IsRunFault }
    {
        for byte in bytes {
            if let Err(fault) = self.take(rt, alloc, *byte) {
                return Err(fault);
            }
            if self.out.len() >= GATHERED_BYTES {
                if let Err(fault) = self.write(writer) {
                    return Err(fault);
                }
            }
        }
        Ok(())
    }

    /// Takes in a byte, and answers the line that ends with it.
    fn take<H: Threads + Wait + Sync + Clock>(
        &mut self,
        rt: &H,
        alloc: Global,
        byte: u8,
    ) -> Result<(), AppFault>
        requires { 0 < self.old.number }
        ensures number { 0 < self.new.number }
        ensures fault { IfErr result IsRunFault }
    {
        if byte == b'\n' {
            return self.end_line(rt, alloc);
        }
        if self.line.len() >= MOST_BYTES {
            return Err(AppFault::Line(self.number, LineRefusal::TooLong));
        }
        match self.line.push(byte) {
            Ok(()) => Ok(()),
            Err(_) => Err(AppFault::Memory),
        }
    }

    /// Answers the line, and begins the next.
    fn end_line<H: Threads + Wait + Sync + Clock>(
        &mut self,
        rt: &H,
        alloc: Global,
    ) -> Result<(), AppFault>
        requires { 0 < self.old.number }
        ensures number { 0 < self.new.number }
        ensures fault { IfErr result IsRunFault }
    {
        match self.script.answer(rt, alloc, &self.line, &mut self.out) {
            Ok(()) => {
                self.line.clear();
                self.number = self.number.saturating_add(1);
                Ok(())
            }
            Err(LineRefusal::NoMemory) => Err(AppFault::Memory),
            Err(refusal) => Err(AppFault::Line(self.number, refusal)),
        }
    }

    /// Writes the answers that weren't written yet. Where that fails, those that are left are let go.
    fn write<W: Write>(&mut self, writer: &mut W) -> Result<(), AppFault>
        ensures number { self.new.number ≡ self.old.number }
        ensures fault { IfErr result IsRunFault }
    {
        if self.out.is_empty() {
            return Ok(());
        }
        let written = match writer.write_all(self.out.as_bytes()) {
            Ok(()) => writer.flush(),
            Err(error) => Err(error),
        };
        self.out.clear();
        match written {
            Ok(()) => Ok(()),
            Err(_) => Err(AppFault::Io),
        }
    }
}
