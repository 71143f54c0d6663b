//! Zones and digits: the halves of a character's byte in the old machine's code.

/// The characters of each zone, in the order of their codes here. `&`, `-` and the blank count as their overpunches.
const ZONES: [&[u8]; 4] = [
    b"&ABCDEFGHI{",
    b"-JKLMNOPQR}",
    b"STUVWXYZ\\",
    b" 0123456789",
];

/// The characters with each digit, in the order of their codes here.
const DIGITS: [&[u8]; 16] = [
    b" &-0\\^{}",
    b"/1AJaj~",
    b"2BKSbks",
    b"3CLTclt",
    b"4DMUdmu",
    b"5ENVenv",
    b"6FOWfow",
    b"7GPXgpx",
    b"8HQYhqy",
    b"9IRZ`irz",
    b"!:[",
    b"#$,.]",
    b"%*<@",
    b"'()_",
    b"+;=>",
    b"\"?|",
];

fn group_with(groups: &[&'static [u8]], character: u8) -> Option<&'static [u8]> {
    let group = groups.iter().find(|group| group.contains(&character))?;
    Some(*group)
}

/// Returns the characters with the zone of a character; None for a sign, whose zone a card reader doesn't tell.
pub(crate) fn same_zone(character: u8) -> Option<&'static [u8]> {
    group_with(&ZONES, character)
}

/// Returns the characters with the digit of a character.
pub(crate) fn same_digit(character: u8) -> Option<&'static [u8]> {
    group_with(&DIGITS, character)
}
