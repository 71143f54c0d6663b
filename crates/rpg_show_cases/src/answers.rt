//! What a run returns and outputs, as text.

use rpg_cli_text::TextWriter;
use rpg_cycle::CycleEnd;
use rpg_engine::{JobEnd, ObjectFault, OutputFile, Report, RunFault};

/// Writes how a job ended.
pub fn write_ending(out: &mut TextWriter, ending: JobEnd) {
    match ending {
        JobEnd::EndOfJob => out.write_str("end of job"),
        JobEnd::Halt(halt) => out.fill("halt {}", &[halt.number().into()]),
    }
}

/// Writes how a cycle ended.
pub fn write_end(out: &mut TextWriter, end: CycleEnd) {
    match end {
        CycleEnd::Continues => out.write_str("goes on"),
        CycleEnd::EndOfJob => write_ending(out, JobEnd::EndOfJob),
        CycleEnd::Halt(halt) => write_ending(out, JobEnd::Halt(halt)),
        CycleEnd::Failed => out.write_str("failed"),
    }
}

/// Writes how many cycles a job had, and the most steps of one.
pub fn write_counts(out: &mut TextWriter, cycles: u64, most: u64, bound: u64) {
    out.fill(
        ", cycles {}, steps {} of {}",
        &[cycles.into(), most.into(), bound.into()],
    );
}

fn write_object_fault(out: &mut TextWriter, fault: ObjectFault) {
    match fault {
        ObjectFault::NotAnObject { offset, code } => {
            out.fill("refused: {} at {}", &[code.text().into(), offset.into()]);
        }
        ObjectFault::Refused(broken) => {
            let (rule, row) = (broken.rule.number(), broken.row);
            out.fill("refused: V{} row {}", &[rule.into(), row.into()]);
        }
        ObjectFault::NoMemory => out.write_str("no memory"),
    }
}

fn file_name(file: OutputFile) -> &'static str {
    match file {
        OutputFile::Print => "print",
        OutputFile::Disk => "disk",
    }
}

/// Writes that a writer failed, and how many bytes it had accepted.
fn write_loss(out: &mut TextWriter, file: &str, sent: u128) {
    let sent = u64::try_from(sent).unwrap_or(u64::MAX);
    out.fill("output failed, {} bytes of {}", &[sent.into(), file.into()]);
}

fn write_fault(out: &mut TextWriter, fault: RunFault) {
    match fault {
        RunFault::Object(fault) => write_object_fault(out, fault),
        RunFault::BadDate => out.write_str("bad date"),
        RunFault::Read { .. } => out.write_str("input failed"),
        RunFault::Write { file, sent } => write_loss(out, file_name(file), sent),
        RunFault::NoMemory { .. } => out.write_str("no memory"),
    }
}

/// Writes the line of `rpg2 run` for a run's result, with the bytes that a failed writer had accepted.
pub fn write_answer(out: &mut TextWriter, reported: &Result<Report, RunFault>) {
    match reported {
        Ok(report) => {
            write_ending(out, report.ending);
            write_counts(out, report.cycles, report.most, report.bound);
        }
        Err(fault) => write_fault(out, *fault),
    }
}

/// Writes bytes that are characters.
pub fn write_bytes(out: &mut TextWriter, bytes: &[u8]) {
    out.write_str(str::from_utf8(bytes).unwrap_or("no characters"));
}

/// Writes the output.
pub fn write_outputs(out: &mut TextWriter, print: &[u8], disk: &[u8]) {
    out.write_str("\nprint\n");
    write_bytes(out, print);
    out.write_str("\ndisk\n");
    write_bytes(out, disk);
}
