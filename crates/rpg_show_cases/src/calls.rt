//! Properties of numbers and texts that no command shows: places of bad digits, remainders of 18 decimals, texts with bytes that aren't
//! characters, and error messages.

use rpg_cli_text::TextWriter;
use rpg_decimal::{
    BadDigit, Num, Source, ZeroDivisor, compare_text, move_left, move_right, remainder,
};
use rpg_edit_widths::EditFault;
use rpg_paper::NoMemory;
use std::cmp::Ordering;

/// The greatest number of 15 digits.
const NINES: i64 = 999_999_999_999_999;

/// Writes the places of bad digits, counted from 0 in what is moved.
fn write_places(out: &mut TextWriter) {
    let numbers: [Result<i64, BadDigit>; 5] = [
        move_right(Source::Text(b"1-2"), 98_765, 5),
        move_left(Source::Text(b"1-2"), 98_765, 5),
        move_left(Source::Text(b"7K"), 98_765, 5),
        move_right(Source::Text(b"x1-234"), 98_765, 5),
        move_left(Source::Text(b"x1-234"), 98_765, 5),
    ];
    for number in numbers {
        match number {
            Ok(_) => out.write_str("a number\n"),
            Err(fault) => write!(out, "{fault}\n"),
        }
    }
}

/// Writes the remainders of numbers whose quotients have nine decimals, without the decimal point.
fn write_rests(out: &mut TextWriter) {
    let rests = [
        remainder(
            Num {
                value: NINES,
                dec: 0,
            },
            Num {
                value: NINES - 1,
                dec: 9,
            },
            9,
        ),
        remainder(
            Num {
                value: -NINES,
                dec: 0,
            },
            Num { value: 7, dec: 9 },
            9,
        ),
    ];
    for rest in rests {
        match rest {
            Ok(rest) => {
                let (value, decimals) = (rest.value, rest.dec.value);
                write!(out, "{value} of {decimals} decimals\n");
            }
            Err(fault) => write!(out, "{fault}\n"),
        }
    }
}

/// Writes the order of texts of which one is shorter, or has a byte that isn't a character.
fn write_orders(out: &mut TextWriter) {
    let orders = [
        compare_text(b"", b""),
        compare_text(b"", b" "),
        compare_text(b"\xff", b"9"),
        compare_text(b"9", b"\xff"),
    ];
    for order in orders {
        out.write_str(match order {
            Ordering::Less => "less\n",
            Ordering::Equal => "equal\n",
            Ordering::Greater => "greater\n",
        });
    }
}

/// Writes a line for each of these.
pub fn write_calls(out: &mut TextWriter) {
    write_places(out);
    write_rests(out);
    write_orders(out);
    write!(out, "{ZeroDivisor}\n{EditFault}\n{NoMemory}\n");
}
