//! Merges several disk files into one.

use rpg_fit_deck::{Card, Editor, Seen, Sentence, View, Word};
use rpg_fit_terms::address_after;
use rpg_fit_words::{Done, Line, List, is, is_card, lines};

/// A disk file that is written.
#[derive(Clone, Copy)]
struct Disk {
    seen: Seen,
    /// The length of a record.
    length: usize,
    letter: u8,
}

impl Disk {
    fn name(&self) -> &[u8] {
        self.seen.card.value(7, 14)
    }
}

/// Merges several disk files into one: column 1 of its records has a letter for the file.
pub fn disks(editor: &mut Editor) -> Done {
    let view = editor.view()?;
    let disks = written_disks(&view);
    join_disks(editor, &view, disks.checked()?)
}

/// Merges these disk files, if there are several.
fn join_disks(editor: &mut Editor, view: &View, disks: &[Disk]) -> Done {
    if let [first, others @ ..] = disks {
        if !others.is_empty() {
            report_disks(editor, disks);
            for line in lines(view)?.iter() {
                move_line(editor, view, disks, first, line);
            }
            join_files(editor, first, others);
        }
    }
    Ok(())
}

/// Puts its file on a line. One of a disk file goes to the first of them, with the letter of its own in column 1, and its fields
/// move one to the right.
fn move_line(editor: &mut Editor, view: &View, disks: &[Disk], first: &Disk, line: &Line) {
    let Some(disk) = disk_of(disks, line.file.text()) else {
        put_file(editor, line, line.file.text(), first);
        return;
    };
    put_file(editor, line, first.name(), disk);
    put_letter(editor, view, line, disk);
    for field in line.fields.iter() {
        move_field(editor, field, disk);
    }
}

/// Returns the disk files that are written; empty if one has no length, or there are too many.
fn written_disks(view: &View) -> List<Disk> {
    let mut disks = List::new(view.alloc);
    let mut letter = b'A';
    for seen in &view.cards {
        if is_disk(seen) {
            match seen.card.number(24, 27) {
                Some(length) if letter <= b'Z' => disks.push(Disk {
                    seen: *seen,
                    length,
                    letter,
                }),
                _ => return List::new(view.alloc),
            }
            letter = letter.saturating_add(1);
        }
    }
    disks
}

/// Whether a card describes a file that is written, but not the printer.
fn is_disk(seen: &Seen) -> bool {
    is_card(seen, b'F') && seen.card.column(15) == b'O' && !is(seen.card.value(40, 46), b"PRINTER")
}

fn report_disks(editor: &mut Editor, disks: &[Disk]) {
    for disk in disks {
        let letter = Word::of(&[disk.letter]);
        let text = "%: the disk records that begin with % (grep '^%' | cut -c2-%)";
        let last = Word::of_number(disk.length.saturating_add(1));
        let words = [Word::of(disk.name()), letter, letter, last];
        editor.report(disk.seen.number, Sentence::with(text, &words));
    }
}

fn disk_of<'a>(disks: &'a [Disk], file: &[u8]) -> Option<&'a Disk> {
    disks.iter().find(|disk| is(disk.name(), file))
}

/// Puts a file's name on the card of a line, as part of the change of a disk file.
fn put_file(editor: &mut Editor, line: &Line, name: &[u8], with: &Disk) {
    let head = &line.head;
    if !is(head.card.value(7, 14), name) {
        editor.change(head.at, head.card.with(7, 14, name), with.seen.number);
    }
}

/// Moves the end position of a disk file's field by one.
fn move_field(editor: &mut Editor, field: &Seen, disk: &Disk) {
    if let Some(end) = field.card.number(40, 43) {
        let end = Word::of_number(end.saturating_add(1));
        let card = field.card.with_right(40, 43, end.text());
        editor.change(field.at, card, disk.seen.number);
    }
}

/// Inserts the letter of its file into a line.
fn put_letter(editor: &mut Editor, view: &View, line: &Line, disk: &Disk) {
    let card = Card::of_form(b'O')
        .with_right(40, 43, b"1")
        .with(45, 47, &[b'\'', disk.letter, b'\'']);
    let last = line.more.last().unwrap_or(&line.head);
    let at = address_after(view, last.at);
    editor.insert_copy(at, card, line.head.number, disk.seen.number);
}

/// Returns the length of the longest record.
fn longest(first: &Disk, others: &[Disk]) -> usize {
    let mut most = first.length;
    for disk in others {
        most = most.max(disk.length);
    }
    most
}

/// Keeps only the first file, with records one longer than the longest.
fn join_files(editor: &mut Editor, first: &Disk, others: &[Disk]) {
    let length = Word::of_number(longest(first, others).saturating_add(1));
    let file = first.seen;
    let card = file.card.with(20, 23, &[]);
    editor.change(file.at, card.with_right(24, 27, length.text()), file.number);
    for disk in others {
        editor.remove(disk.seen.at, disk.seen.number);
    }
}
