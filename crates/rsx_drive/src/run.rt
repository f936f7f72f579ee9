//! Reads lines, has each answered, and writes the answers.

ghost use Rattle.std.specs.Prelude.{◌≡◌, ◌≤◌, ◌<◌, ◌+◌, ◌^◌, ℕ, List, [], ◌∷◌, ◌++◌, length, IfSome, OnOk, OnErr, IfErr};
ghost use Rattle.std.specs.String.{string_bytes};
ghost use Rattle.std.specs.Io.KnownBytes.{Appends};
ghost use Rattle.rsx_script.specs.declared.fault.AppFault.TheVariants.{Io, Memory};
ghost use Rattle.rsx_script.specs.Fault.{IsRunFault};
ghost use Rattle.rsx_tck.specs.Texts.{lines};
ghost use Rattle.rsx_drive.specs.Answered.{Begins, IsStopped, Writes};
ghost use Rattle.rsx_drive.specs.Taken.{HasTaken, fault_of};

use crate::answers::Answers;
use crate::state::Run;
use rsx_script::{AppFault, LineRefusal, MOST_BYTES};
use std::alloc::Global;
use std::io::{ErrorKind, Read, Write};

/// The most bytes of one read.
pub const READ_BYTES: usize = 4096;

/// The most reads of one input.
pub const MOST_READS: u32 = 16_777_216;

/// So many bytes of answers are written as soon as they have gathered.
pub const GATHERED_BYTES: usize = 65_536;

/// Has each line that the reader gives answered, and writes the answers, until the input ends. A last line needs no
/// newline.
///
/// The answers so far are written as soon as they have 65,536 bytes, before each read, and at the end, also before an
/// error of `Line` or `Memory`. So at most that many bytes and one answer wait to be written.
///
/// # Errors
///
/// `Line` with the first line that can't be read, counted from 1, and why it can't, which is never want of memory; `Io`
/// where a read or a write failed, or a read more than 16,777,216 would be needed; `Memory` where a growth was refused.
/// After a fault of `Io` nothing more is written.
pub fn answer_lines<A: Answers + Drop, R: Read, W: Write>(
    alloc: Global,
    answers: A,
    reader: &mut R,
    writer: &mut W,
) -> Result<(), AppFault>
    requires { A.stands answers [] [] }
    // The whole input was answered, and no more was written than that.
    ensures ended { OnOk result (IfSome (R.remaining reader.old) (λ input.
        Writes (W.contents writer.old) (W.contents writer.new) (λ text. A.ends (lines input) text))) }
    // The lines before the fault were answered, and no more was written than that; where a read or a write failed, the last
    // of these answers may not have been written.
    ensures stopped { IfErr result (λ fault. IfSome (R.remaining reader.old) (λ input.
        Writes (W.contents writer.old) (W.contents writer.new) (λ text. IsStopped A.refuses (lines input) text fault))) }
    ensures fault { IfErr result IsRunFault }
{
    let mut run = Run {
        answers,
        line: Vec::new(alloc),
        number: 1,
        out: String::new(alloc),
    };
    match run.answer_all(alloc, reader, writer) {
        Ok(()) => match write_out(&mut run.out, writer) {
            Ok(()) => Ok(()),
            Err(fault) => Err(fault),
        },
        Err(AppFault::Io) => Err(AppFault::Io),
        Err(fault) => match write_out(&mut run.out, writer) {
            Ok(()) => Err(fault),
            Err(failed) => Err(failed),
        },
    }
}

/// Writes the answers that weren't written yet. Where that fails, those that are left are let go.
fn write_out<W: Write>(out: &mut String, writer: &mut W) -> Result<(), AppFault>
    ensures written { OnOk result (Appends (W.contents writer.old) (W.contents writer.new) (string_bytes out.old)) }
    ensures begun { OnErr result (Writes (W.contents writer.old) (W.contents writer.new) (λ text. Begins text (string_bytes out.old))) }
    ensures none_left { string_bytes out.new ≡ [] }
    ensures fault { IfErr result (λ fault. fault ≡ Io) }
{
    if out.is_empty() {
        return Ok(());
    }
    let written = write_bytes(out.as_bytes(), writer);
    out.clear();
    match written {
        Ok(()) => Ok(()),
        Err(fault) => Err(fault),
    }
}

/// Writes these bytes; where a write fails, those before it. `Write::write_all` would say nothing of what was written then.
fn write_bytes<W: Write>(bytes: &[u8], writer: &mut W) -> Result<(), AppFault>
    ensures written { OnOk result (Appends (W.contents writer.old) (W.contents writer.new) bytes.now) }
    ensures begun { OnErr result (Writes (W.contents writer.old) (W.contents writer.new) (λ text. Begins text bytes.now)) }
    ensures fault { IfErr result (λ fault. fault ≡ Io) }
{
    let mut done = 0;
    for _ in 0..u64::MAX {
        if done >= bytes.len() {
            return match writer.flush() {
                Ok(()) => Ok(()),
                Err(_) => Err(AppFault::Io),
            };
        }
        match writer.write(&bytes[done..]) {
            Ok(0) => return Err(AppFault::Io),
            Ok(count) => done += count,
            Err(error) => {
                if error.kind() != ErrorKind::Interrupted {
                    return Err(AppFault::Io);
                }
            }
        }
    }
    Err(AppFault::Io)
}

/// The fault of a line.
fn fault_of(number: u64, refusal: LineRefusal) -> AppFault
    ensures { result ≡ fault_of number refusal }
{
    match refusal {
        LineRefusal::NoMemory => AppFault::Memory,
        refusal => AppFault::Line(number, refusal),
    }
}

impl<A: Answers> Run<A> {
    /// Reads to the end of the input and answers each line.
    fn answer_all<R: Read, W: Write>(
        &mut self,
        alloc: Global,
        reader: &mut R,
        writer: &mut W,
    ) -> Result<(), AppFault>
        requires { self.old.number ≤ 1 }
        ensures ended { OnOk result ((taken written : List ℕ) → HasTaken A.stands self.old taken written →
            IfSome (R.remaining reader.old) (λ left. Writes (W.contents writer.old) (W.contents writer.new)
            (λ text. A.ends (lines (taken ++ left)) ((written ++ text) ++ string_bytes self.new.out)))) }
        ensures stopped { IfErr result (λ fault. (taken written : List ℕ) → HasTaken A.stands self.old taken written →
            IfSome (R.remaining reader.old) (λ left. Writes (W.contents writer.old) (W.contents writer.new)
            (λ text. IsStopped A.refuses (lines (taken ++ left)) ((written ++ text) ++ string_bytes self.new.out) fault))) }
        ensures fault { IfErr result IsRunFault }
    {
        let mut bytes = [0; READ_BYTES];
        for _ in 0..MOST_READS {
            if let Err(fault) = self.write(writer) {
                return Err(fault);
            }
            match reader.read(&mut bytes) {
                Ok(0) => {
                    return match self.end(alloc) {
                        Ok(()) => Ok(()),
                        Err(fault) => Err(fault),
                    };
                }
                Ok(count) => {
                    if let Err(fault) = self.take_in(alloc, &bytes[..count], writer) {
                        return Err(fault);
                    }
                }
                Err(_) => return Err(AppFault::Io),
            }
        }
        Err(AppFault::Io)
    }

    /// Takes in bytes, answers each line that ends among them, and writes what gathers meanwhile.
    fn take_in<W: Write>(
        &mut self,
        alloc: Global,
        bytes: &[u8],
        writer: &mut W,
    ) -> Result<(), AppFault>
        requires { self.old.number + length bytes.now < 2 ^ 64 }
        ensures taken { OnOk result ((taken written : List ℕ) → HasTaken A.stands self.old taken written →
            Writes (W.contents writer.old) (W.contents writer.new)
            (λ text. HasTaken A.stands self.new (taken ++ bytes.now) (written ++ text))) }
        ensures stopped { IfErr result (λ fault. (taken written more : List ℕ) → HasTaken A.stands self.old taken written →
            Writes (W.contents writer.old) (W.contents writer.new)
            (λ text. IsStopped A.refuses (lines ((taken ++ bytes.now) ++ more)) ((written ++ text) ++ string_bytes self.new.out) fault)) }
        ensures number { OnOk result (self.new.number ≤ self.old.number + length bytes.now) }
        ensures fault { IfErr result IsRunFault }
    {
        for byte in bytes {
            if let Err(fault) = self.take(alloc, *byte) {
                return Err(fault);
            }
            if let Err(fault) = self.write_gathered(writer) {
                return Err(fault);
            }
        }
        Ok(())
    }

    /// Writes the answers that weren't written yet, where they are many.
    fn write_gathered<W: Write>(&mut self, writer: &mut W) -> Result<(), AppFault>
        ensures written { OnOk result ((taken written : List ℕ) → HasTaken A.stands self.old taken written →
            Writes (W.contents writer.old) (W.contents writer.new) (λ text. HasTaken A.stands self.new taken (written ++ text))) }
        ensures stopped { IfErr result (λ fault. (taken written more : List ℕ) → HasTaken A.stands self.old taken written →
            Writes (W.contents writer.old) (W.contents writer.new)
            (λ text. IsStopped A.refuses (lines (taken ++ more)) ((written ++ text) ++ string_bytes self.new.out) fault)) }
        ensures same { OnOk result (self.new.number ≡ self.old.number) }
        ensures fault { IfErr result (λ fault. fault ≡ Io) }
    {
        if self.out.len() < GATHERED_BYTES {
            return Ok(());
        }
        self.write(writer)
    }

    /// Writes the answers that weren't written yet.
    fn write<W: Write>(&mut self, writer: &mut W) -> Result<(), AppFault>
        ensures written { OnOk result ((taken written : List ℕ) → HasTaken A.stands self.old taken written →
            Writes (W.contents writer.old) (W.contents writer.new) (λ text. HasTaken A.stands self.new taken (written ++ text))) }
        ensures stopped { IfErr result (λ fault. (taken written more : List ℕ) → HasTaken A.stands self.old taken written →
            Writes (W.contents writer.old) (W.contents writer.new)
            (λ text. IsStopped A.refuses (lines (taken ++ more)) ((written ++ text) ++ string_bytes self.new.out) fault)) }
        ensures same { OnOk result (self.new.number ≡ self.old.number) }
        ensures fault { IfErr result (λ fault. fault ≡ Io) }
    {
        match write_out(&mut self.out, writer) {
            Ok(()) => Ok(()),
            Err(fault) => Err(fault),
        }
    }

    /// Takes in a byte, and answers the line that ends with it.
    fn take(&mut self, alloc: Global, byte: u8) -> Result<(), AppFault>
        requires { self.old.number + 1 < 2 ^ 64 }
        ensures taken { OnOk result ((taken written : List ℕ) → HasTaken A.stands self.old taken written →
            HasTaken A.stands self.new (taken ++ byte ∷ []) written) }
        ensures stopped { IfErr result (λ fault. (taken written more : List ℕ) → HasTaken A.stands self.old taken written →
            IsStopped A.refuses (lines (taken ++ byte ∷ more)) (written ++ string_bytes self.new.out) fault) }
        ensures number { OnOk result (self.new.number ≤ self.old.number + 1) }
        ensures fault { IfErr result IsRunFault }
        ensures refused { IfErr result (λ fault. fault ≡ Io → ⊥) }
    {
        if byte == b'\n' {
            match self.end_line(alloc) {
                Ok(()) => Ok(()),
                Err(fault) => Err(fault),
            }
        } else if self.line.len() >= MOST_BYTES {
            Err(AppFault::Line(self.number, LineRefusal::TooLong))
        } else {
            match self.line.push(byte) {
                Ok(()) => Ok(()),
                Err(_) => Err(AppFault::Memory),
            }
        }
    }

    /// Answers the line, and begins the next.
    fn end_line(&mut self, alloc: Global) -> Result<(), AppFault>
        requires { self.old.number + 1 < 2 ^ 64 }
        ensures answered { OnOk result ((before : List (List ℕ)) (written : List ℕ) →
            A.stands self.old.answers before (written ++ string_bytes self.old.out) →
            A.stands self.new.answers (before ++ self.old.line.items ∷ []) (written ++ string_bytes self.new.out)) }
        ensures stopped { IfErr result (λ fault. (before others : List (List ℕ)) (written : List ℕ) →
            A.stands self.old.answers before (written ++ string_bytes self.old.out) →
            self.old.number ≡ length before + 1 →
            IsStopped A.refuses (before ++ self.old.line.items ∷ others) (written ++ string_bytes self.new.out) fault) }
        ensures next { OnOk result (self.new.number ≡ self.old.number + 1) }
        ensures line { OnOk result (self.new.line.items ≡ []) }
        ensures fault { IfErr result IsRunFault }
        ensures refused { IfErr result (λ fault. fault ≡ Io → ⊥) }
    {
        match self.answers.answer(alloc, &self.line, &mut self.out) {
            Ok(()) => {
                self.line.clear();
                self.number += 1;
                Ok(())
            }
            Err(refusal) => Err(fault_of(self.number, refusal)),
        }
    }

    /// Answers the last line, which lacks its newline, and ends the input.
    fn end(&mut self, alloc: Global) -> Result<(), AppFault>
        requires { self.old.number + 1 < 2 ^ 64 }
        ensures ended { OnOk result ((taken written : List ℕ) → HasTaken A.stands self.old taken written →
            A.ends (lines taken) (written ++ string_bytes self.new.out)) }
        ensures stopped { IfErr result (λ fault. (taken written : List ℕ) → HasTaken A.stands self.old taken written →
            IsStopped A.refuses (lines taken) (written ++ string_bytes self.new.out) fault) }
        ensures fault { IfErr result IsRunFault }
        ensures refused { IfErr result (λ fault. fault ≡ Io → ⊥) }
    {
        if self.line.is_empty() {
            return match self.finish() {
                Ok(()) => Ok(()),
                Err(fault) => Err(fault),
            };
        }
        if let Err(fault) = self.end_line(alloc) {
            return Err(fault);
        }
        match self.finish() {
            Ok(()) => Ok(()),
            Err(fault) => Err(fault),
        }
    }

    /// Ends the input behind the lines that were answered.
    fn finish(&self) -> Result<(), AppFault>
        ensures ended { OnOk result ((before : List (List ℕ)) (text : List ℕ) →
            A.stands self.now.answers before text → A.ends before text) }
        ensures stopped { IfErr result (λ fault. (before : List (List ℕ)) (text : List ℕ) → A.stands self.now.answers before text →
            self.now.number ≡ length before + 1 → IsStopped A.refuses before text fault) }
        ensures fault { IfErr result IsRunFault }
        ensures refused { IfErr result (λ fault. fault ≡ Io → ⊥) }
    {
        match self.answers.finish() {
            Ok(()) => Ok(()),
            Err(refusal) => Err(fault_of(self.number, refusal)),
        }
    }
}
