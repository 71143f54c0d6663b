//! The line and the exit status of an answer, and its JSON object.

ghost use Rattle.std.specs.Prelude.{◌≡◌, ◌+◌, ◌≤◌, ◌++◌, length, decimal};
ghost use Rattle.arrayvec.specs.ArrayVec.{array_vec_len};
ghost use Rattle.rpg_cli_answers.specs.Answers as answers;
ghost use Rattle.rpg_cli_answers.specs.Json as json;

use crate::answer::{Answer, Line, RefusedRow};
use arrayvec::ArrayVec;
use itoa::Buffer;
use rpg_cli_files::FileFault;
use rpg_engine::{JobEnd, ObjectFault, Report, RunFault};
use rpg_faults::SourceFault;

/// A line under construction.
type Text = ArrayVec<u8, 96>;

fn put(text: &mut Text, piece: &[u8])
    requires { array_vec_len text.old + length piece.now ≤ 96 }
    ensures items { text.new.items ≡ text.old.items ++ piece.now }
    ensures len { array_vec_len text.new ≡ array_vec_len text.old + length piece.now }
{
    text.try_extend_from_slice(piece).unwrap();
}

fn put_number(text: &mut Text, number: u64)
    requires { array_vec_len text.old ≤ 76 }
    ensures items { text.new.items ≡ text.old.items ++ decimal number }
    ensures len { array_vec_len text.new ≤ array_vec_len text.old + 20 }
{
    put(text, Buffer::new().format(number).as_bytes());
}

/// Writes a number after a piece.
fn put_after(text: &mut Text, piece: &[u8], number: u64)
    requires { array_vec_len text.old + length piece.now ≤ 76 }
    ensures items { text.new.items ≡ text.old.items ++ (piece.now ++ decimal number) }
    ensures len { array_vec_len text.new ≤ array_vec_len text.old + length piece.now + 20 }
{
    put(text, piece);
    put_number(text, number);
}

/// Writes a number of at most three digits.
fn put_short_number(text: &mut Text, number: u8)
    requires { array_vec_len text.old ≤ 93 }
    ensures items { text.new.items ≡ text.old.items ++ decimal number }
    ensures len { array_vec_len text.new ≤ array_vec_len text.old + 3 }
{
    put(text, Buffer::new().format(number).as_bytes());
}

fn put_ending(text: &mut Text, ending: JobEnd)
    requires { array_vec_len text.old ≤ 4 }
    ensures items { text.new.items ≡ text.old.items ++ answers.ending_text ending }
    ensures len { array_vec_len text.new ≤ array_vec_len text.old + 10 }
{
    match ending {
        JobEnd::EndOfJob => put(text, b"end of job"),
        JobEnd::Halt(halt) => {
            put(text, b"halt ");
            put_short_number(text, halt.number());
        }
    }
}

fn put_report(text: &mut Text, report: Report)
    requires { array_vec_len text.old ≤ 4 }
    ensures { text.new.items ≡ text.old.items ++ answers.report_text report }
{
    put_ending(text, report.ending);
    put_after(text, b", cycles ", report.cycles);
    put_after(text, b", steps ", report.most);
    put_after(text, b" of ", report.bound);
}

fn put_card(text: &mut Text, card: u16)
    requires { array_vec_len text.old ≤ 4 }
    ensures items { text.new.items ≡ text.old.items ++ answers.card_text card }
    ensures len { array_vec_len text.new ≤ array_vec_len text.old + 27 }
{
    put_after(text, b"card ", u64::from(card));
    put(text, b": ");
}

fn put_unread(text: &mut Text, unread: Option<u64>)
    requires { array_vec_len text.old ≤ 64 }
    ensures { text.new.items ≡ text.old.items ++ answers.unread_text unread }
{
    match unread {
        None => {}
        Some(unread) => put_after(text, b", unread ", unread),
    }
}

fn put_checked(text: &mut Text, sources: u64, rejected: u64, unread: Option<u64>)
    requires { array_vec_len text.old ≤ 4 }
    ensures { text.new.items ≡ text.old.items ++ answers.checked_text sources rejected unread }
{
    put(text, b"sources ");
    put_number(text, sources);
    put(text, b", rejected ");
    put_number(text, rejected);
    put_unread(text, unread);
}

fn put_source_fault(text: &mut Text, fault: SourceFault)
    requires { array_vec_len text.old ≤ 4 }
    ensures { text.new.items ≡ text.old.items ++ answers.source_fault_text fault }
{
    match fault {
        SourceFault::At { card, code, .. } => {
            put_card(text, card);
            put(text, code.text().as_bytes());
        }
        SourceFault::NoMemory => put(text, b"no memory"),
    }
}

fn put_object_fault(text: &mut Text, fault: ObjectFault)
    requires { array_vec_len text.old ≤ 40 }
    ensures { text.new.items ≡ text.old.items ++ answers.object_text fault }
{
    match fault {
        ObjectFault::NotAnObject { offset, code } => {
            put(text, b"refused: ");
            put(text, code.text().as_bytes());
            put_after(text, b" at ", offset as u64);
        }
        ObjectFault::Refused(broken) => {
            put_after(text, b"refused: V", u64::from(broken.rule.number()));
            put_after(text, b" row ", broken.row as u64);
        }
        ObjectFault::NoMemory => put(text, b"no memory"),
    }
}

fn put_run_fault(text: &mut Text, fault: RunFault)
    requires { array_vec_len text.old ≤ 40 }
    ensures { text.new.items ≡ text.old.items ++ answers.run_text fault }
{
    match fault {
        RunFault::Object(fault) => put_object_fault(text, fault),
        RunFault::BadDate => put(text, b"bad date"),
        RunFault::Read { .. } => put(text, b"input failed"),
        RunFault::Write { .. } => put(text, b"output failed"),
        RunFault::NoMemory { .. } => put(text, b"no memory"),
    }
}

fn put_file_fault(text: &mut Text, fault: FileFault)
    requires { array_vec_len text.old ≤ 40 }
    ensures { text.new.items ≡ text.old.items ++ answers.file_text fault }
{
    match fault {
        FileFault::Input(_) => put(text, b"input failed"),
        FileFault::Output(_) | FileFault::Beside(_) => put(text, b"output failed"),
        FileFault::TooLarge => put(text, b"file too large"),
        FileFault::NoMemory => put(text, b"no memory"),
    }
}

fn put_counts(text: &mut Text, records: u64, dropped: u64, columns: u64)
    requires { array_vec_len text.old ≤ 4 }
    ensures { text.new.items ≡ text.old.items ++ answers.counts_text records dropped columns }
{
    put_after(text, b"records ", records);
    put_after(text, b", dropped ", dropped);
    put_after(text, b", columns ", columns);
}

fn put_refused_deck(text: &mut Text, card: Option<u16>)
    requires { array_vec_len text.old ≤ 4 }
    ensures { text.new.items ≡ text.old.items ++ answers.refused_deck_text card }
{
    if let Some(card) = card {
        put_card(text, card);
    }
    put(text, b"refused");
}

fn put_refused_row(text: &mut Text, row: RefusedRow)
    requires { array_vec_len text.old ≤ 4 }
    ensures { text.new.items ≡ text.old.items ++ answers.refused_row_text row }
{
    match row {
        RefusedRow::Header => put(text, b"header"),
        RefusedRow::Row(number) => put_after(text, b"row ", number),
        RefusedRow::Line(number) => put_after(text, b"line ", number),
    }
    put(text, b": refused");
}

fn object_status(fault: ObjectFault) -> u8
    ensures { result ≡ answers.object_status fault }
{
    match fault {
        ObjectFault::NotAnObject { .. } | ObjectFault::Refused(_) => 4,
        ObjectFault::NoMemory => 1,
    }
}

fn run_status(fault: RunFault) -> u8
    ensures { result ≡ answers.run_status fault }
{
    match fault {
        RunFault::Object(fault) => object_status(fault),
        RunFault::BadDate => 2,
        RunFault::Read { .. } | RunFault::Write { .. } | RunFault::NoMemory { .. } => 1,
    }
}

fn ending_status(ending: JobEnd) -> u8
    ensures { result ≡ answers.ending_status ending }
{
    match ending {
        JobEnd::EndOfJob => 0,
        JobEnd::Halt(_) => 5,
    }
}

/// Returns the exit status of an answer.
fn exit_status(answer: &Answer) -> u8
    ensures { result ≡ answers.exit_status answer.now }
{
    match *answer {
        Answer::Compiled
        | Answer::Faultless
        | Answer::Accepted { .. }
        | Answer::Explained
        | Answer::Deck
        | Answer::Records { .. }
        | Answer::Fitted { .. }
        | Answer::Paper { .. } => 0,
        Answer::Ended(report) => ending_status(report.ending),
        Answer::Unsorted { .. } => 5,
        Answer::Checked { status, .. } => status,
        Answer::Source(SourceFault::At { .. })
        | Answer::NewDeck(SourceFault::At { .. })
        | Answer::Denied { .. }
        | Answer::OtherSource
        | Answer::NoCard { .. }
        | Answer::DeckRefused { .. }
        | Answer::RecordRefused { .. }
        | Answer::RowRefused(_)
        | Answer::FitRefused { .. }
        | Answer::PageRefused { .. } => 3,
        Answer::Source(SourceFault::NoMemory) | Answer::NewDeck(SourceFault::NoMemory) => 1,
        Answer::Object(fault) => object_status(fault),
        Answer::DiskFileWanted
        | Answer::SecondaryFileWanted
        | Answer::DateWanted
        | Answer::NoSuchCode => 2,
        Answer::OverLimit { .. } => 4,
        Answer::Run(fault) => run_status(fault),
        Answer::File { .. } | Answer::NoMemory => 1,
    }
}

/// Returns the line that is printed for an answer, and the exit status.
pub fn line(answer: &Answer) -> Line
    ensures text { result.text.items ≡ answers.line_text answer.now }
    ensures status { result.status ≡ answers.exit_status answer.now }
{
    let mut text = ArrayVec::new();
    match *answer {
        Answer::Compiled => put(&mut text, b"compiled"),
        Answer::Faultless => put(&mut text, b"no fault"),
        Answer::Checked {
            sources,
            rejected,
            unread,
            ..
        } => put_checked(&mut text, sources, rejected, unread),
        Answer::Denied { card, code } => {
            put_card(&mut text, card);
            put(&mut text, code.text().as_bytes());
        }
        Answer::Accepted { bound } => put_after(&mut text, b"accepted, bound ", bound),
        Answer::Ended(report) => put_report(&mut text, report),
        Answer::Unsorted { record } => {
            put_after(&mut text, b"record ", record);
            put(&mut text, b": not sorted");
        }
        Answer::Source(fault) => put_source_fault(&mut text, fault),
        Answer::Object(fault) => put_object_fault(&mut text, fault),
        Answer::OtherSource => put(&mut text, b"not the object's source"),
        Answer::DiskFileWanted => put(&mut text, b"disk file wanted"),
        Answer::SecondaryFileWanted => put(&mut text, b"secondary file wanted"),
        Answer::DateWanted => put(&mut text, b"date wanted"),
        Answer::OverLimit { bound } => put_after(&mut text, b"refused: bound ", bound),
        Answer::Run(fault) => put_run_fault(&mut text, fault),
        Answer::File { fault, .. } => put_file_fault(&mut text, fault),
        Answer::Explained => {}
        Answer::Deck => put(&mut text, b"/*"),
        Answer::NoCard { line } => {
            put_after(&mut text, b"line ", u64::from(line));
            put(&mut text, b": no card");
        }
        Answer::Records {
            records,
            dropped,
            columns,
        } => put_counts(&mut text, records, dropped, columns),
        Answer::DeckRefused { card } => put_refused_deck(&mut text, card),
        Answer::RecordRefused { number } => {
            put_after(&mut text, b"record ", number);
            put(&mut text, b": refused");
        }
        Answer::RowRefused(row) => put_refused_row(&mut text, row),
        Answer::Fitted { changes } => put_after(&mut text, b"changes ", changes),
        Answer::FitRefused { card, rule } => {
            put_after(&mut text, b"card ", card);
            put_after(&mut text, b": A", u64::from(rule));
        }
        Answer::Paper { pages } => put_after(&mut text, b"pages ", u64::from(pages)),
        Answer::PageRefused { page } => {
            put_after(&mut text, b"page ", u64::from(page));
            put(&mut text, b": refused");
        }
        Answer::NewDeck(fault) => {
            put(&mut text, b"new ");
            put_source_fault(&mut text, fault);
        }
        Answer::NoSuchCode => put(&mut text, b"no such code"),
        Answer::NoMemory => put(&mut text, b"no memory"),
    }
    Line {
        text,
        status: exit_status(answer),
    }
}

/// The JSON object that is printed for an answer, without its line feed.
pub type Object = ArrayVec<u8, 256>;

fn add(text: &mut Object, piece: &[u8])
    requires { array_vec_len text.old + length piece.now ≤ 256 }
    ensures items { text.new.items ≡ text.old.items ++ piece.now }
    ensures len { array_vec_len text.new ≡ array_vec_len text.old + length piece.now }
{
    text.try_extend_from_slice(piece).unwrap();
}

/// Adds the name of a member.
fn add_name(text: &mut Object, name: &[u8])
    requires name { length name.now ≤ 10 }
    requires room { array_vec_len text.old ≤ 230 }
    ensures items { text.new.items ≡ text.old.items ++ json.member_name name.now }
    ensures len { array_vec_len text.new ≡ array_vec_len text.old + length name.now + 4 }
{
    add(text, b",\"");
    add(text, name);
    add(text, b"\":");
}

/// Adds a member with a number.
fn add_number(text: &mut Object, name: &[u8], number: u64)
    requires name { length name.now ≤ 10 }
    requires room { array_vec_len text.old ≤ 200 }
    ensures items { text.new.items ≡ text.old.items ++ json.member name.now number }
    ensures len { array_vec_len text.new ≤ array_vec_len text.old + length name.now + 24 }
{
    add_name(text, name);
    add(text, Buffer::new().format(number).as_bytes());
}

/// Like `add_number`, for a number of at most three digits.
fn add_short_number(text: &mut Object, name: &[u8], number: u8)
    requires name { length name.now ≤ 10 }
    requires room { array_vec_len text.old ≤ 220 }
    ensures items { text.new.items ≡ text.old.items ++ json.member name.now number }
    ensures len { array_vec_len text.new ≤ array_vec_len text.old + length name.now + 7 }
{
    add_name(text, name);
    add(text, Buffer::new().format(number).as_bytes());
}

fn add_halt(text: &mut Object, ending: JobEnd)
    requires { array_vec_len text.old ≤ 110 }
    ensures items { text.new.items ≡ text.old.items ++ json.halt_member ending }
    ensures len { array_vec_len text.new ≤ array_vec_len text.old + 11 }
{
    match ending {
        JobEnd::EndOfJob => {}
        JobEnd::Halt(halt) => add_short_number(text, b"halt", halt.number()),
    }
}

fn add_report(text: &mut Object, report: Report)
    requires { array_vec_len text.old ≤ 110 }
    ensures items { text.new.items ≡ text.old.items ++ json.report_members report }
    ensures len { array_vec_len text.new ≤ array_vec_len text.old + 100 }
{
    add_halt(text, report.ending);
    add_number(text, b"cycles", report.cycles);
    add_number(text, b"steps", report.most);
    add_number(text, b"bound", report.bound);
}

fn add_unread(text: &mut Object, unread: Option<u64>)
    requires { array_vec_len text.old ≤ 180 }
    ensures items { text.new.items ≡ text.old.items ++ json.unread_member unread }
    ensures len { array_vec_len text.new ≤ array_vec_len text.old + 30 }
{
    match unread {
        None => {}
        Some(unread) => add_number(text, b"unread", unread),
    }
}

fn add_checked(text: &mut Object, sources: u64, rejected: u64, unread: Option<u64>)
    requires { array_vec_len text.old ≤ 110 }
    ensures items { text.new.items ≡ text.old.items ++ json.checked_members sources rejected unread }
    ensures len { array_vec_len text.new ≤ array_vec_len text.old + 100 }
{
    add_number(text, b"sources", sources);
    add_number(text, b"rejected", rejected);
    add_unread(text, unread);
}

fn add_records(text: &mut Object, records: u64, dropped: u64, columns: u64)
    requires { array_vec_len text.old ≤ 110 }
    ensures items { text.new.items ≡ text.old.items ++ json.record_members records dropped columns }
    ensures len { array_vec_len text.new ≤ array_vec_len text.old + 100 }
{
    add_number(text, b"records", records);
    add_number(text, b"dropped", dropped);
    add_number(text, b"columns", columns);
}

/// Adds the numbers of an answer that counts.
fn add_counts(text: &mut Object, answer: &Answer)
    requires { array_vec_len text.old ≤ 110 }
    ensures items { text.new.items ≡ text.old.items ++ json.count_members answer.now }
    ensures len { array_vec_len text.new ≤ array_vec_len text.old + 100 }
{
    match *answer {
        Answer::Ended(report) => add_report(text, report),
        Answer::Checked {
            sources,
            rejected,
            unread,
            ..
        } => add_checked(text, sources, rejected, unread),
        Answer::Accepted { bound } | Answer::OverLimit { bound } => {
            add_number(text, b"bound", bound)
        }
        Answer::Records {
            records,
            dropped,
            columns,
        } => add_records(text, records, dropped, columns),
        Answer::Fitted { changes } => add_number(text, b"changes", changes),
        _ => {}
    }
}

/// Begins an object with the words of the answer.
fn begin(answer: &[u8]) -> Object
    requires { length answer.now ≤ 96 }
    ensures items { result.items ≡ json.answer_member answer.now }
    ensures len { array_vec_len result ≤ 110 }
{
    let mut text = ArrayVec::new();
    add(&mut text, b"{\"answer\":\"");
    add(&mut text, answer);
    add(&mut text, b"\"");
    text
}

/// Returns the JSON object that is printed for an answer, with this exit status.
pub fn json_line(answer: &Answer, status: u8) -> Object
    ensures { result.items ≡ json.json_text answer.now status }
{
    let plain = line(answer);
    let mut text = begin(plain.text.as_slice());
    add_counts(&mut text, answer);
    add_short_number(&mut text, b"status", status);
    add(&mut text, b"}");
    text
}
