//! What a sheet shows: the lines of a page as the operators of a PDF.

ghost use Rattle.std.specs.Prelude.{◌≡◌, ◌==◌, ◌<◌, ◌≤◌, ◌++◌, ◌∷◌, length, not, position, IfSome, OnOk};
ghost use Rattle.std.specs.List.{slice_split};
ghost use Rattle.rpg_text.specs.Texts.{is_character};
ghost use Rattle.rpg_pdf.specs.Contents.{Shows, background, contents, escaped, lines_fault, lines_text, page_fault, strike_fault, strike_text, strikes_fault, strikes_text};
ghost use Rattle.rpg_pdf.specs.Pages.{lines_in, parts_in, printed, strikes};

use crate::state::{PageFault, Sheet};
use crate::text::{Put, fill};
use rpg_text::{is_blank, is_character};

/// Appends the bars, if they are asked for.
fn put_bars(sheet: &Sheet, out: &mut Vec<u8>) -> Put<()>
    ensures { OnOk result (out.new.items ≡ out.old.items ++ background sheet.now) }
{
    if !sheet.settings.has_bars {
        return Ok(());
    }
    out.extend_from_slice(b"0.88 0.96 0.88 rg\n")?;
    let (left, width) = (u64::from(sheet.left), sheet.settings.width(sheet.font));
    for bar in 0..(sheet.settings.length + 5) / 6 {
        let covered = sheet.settings.length.saturating_sub(6 * bar).min(3);
        let lower = sheet.line_top(6 * bar + covered);
        let height = u64::from(covered) * u64::from(sheet.lead);
        fill(out, b"$ $ $ $ re f\n", &[left, lower, width, height])?;
    }
    out.extend_from_slice(b"0 g\n")?;
    Ok(())
}

fn place_of(text: &[u8], end: u8) -> Option<usize>
    ensures place { result ≡ position (λ b. b == end) text.now }
    ensures within { IfSome result (λ i. i < length text.now) }
{
    text.iter().position(|byte| *byte == end)
}

/// Cuts a text at the first byte that ends a part. Returns what follows that, if there is one.
fn cut(text: &[u8], end: u8) -> (&[u8], Option<&[u8]>)
    ensures parts { slice_split (λ b. b == end) text.now ≡ result.0.now ∷ parts_in end result.1 }
    ensures shorter { IfSome result.1 (λ rest. length rest.now < length text.now) }
{
    match place_of(text, end) {
        Some(place) => (&text[..place], Some(&text[place + 1..])),
        None => (text, None),
    }
}

/// Appends a text as it stands between parentheses.
#[tactic(auto, using(crate::proofs::TextLemmas::escaped_more, crate::proofs::TextLemmas::escaped_all))]
fn put_escaped(out: &mut Vec<u8>, text: &[u8]) -> Put<()>
    ensures { OnOk result (out.new.items ≡ out.old.items ++ escaped text.now) }
{
    for byte in text {
        match *byte {
            b'(' | b')' | b'\\' => out.extend_from_slice(&[b'\\', *byte])?,
            _ => out.push(*byte)?,
        }
    }
    Ok(())
}

fn bad_place(strike: &[u8]) -> Option<usize>
    ensures place { result ≡ position (λ b. not (is_character b)) strike.now }
    ensures within { IfSome result (λ i. i < length strike.now) }
{
    strike.iter().position(|byte| !is_character(*byte))
}

/// Returns why a strike doesn't fit.
fn fault_of(sheet: &Sheet, line: u32, strike: &[u8]) -> Option<PageFault>
    requires { line < 112 }
    ensures { result ≡ strike_fault sheet.now line strike.now }
{
    if let Some(place) = bad_place(strike) {
        return Some(PageFault::Character {
            line: line + 1,
            column: place + 1,
            byte: strike[place],
        });
    }
    if strike.len() > sheet.settings.columns as usize {
        return Some(PageFault::Columns {
            line: line + 1,
            count: strike.len(),
        });
    }
    None
}

/// Appends a strike of a line, unless it is blank.
fn put_strike(sheet: &Sheet, line: u32, number: u32, strike: &[u8], out: &mut Vec<u8>) -> Put<()>
    ensures { OnOk result (out.new.items ≡ out.old.items ++ strike_text sheet.now line number strike.now) }
{
    if is_blank(strike) {
        return Ok(());
    }
    let left = u64::from(sheet.left) + u64::from(number) * u64::from(sheet.font) / 40;
    fill(out, b"1 0 0 1 $ $ Tm (", &[left, sheet.baseline(line)])?;
    put_escaped(out, strike)?;
    out.extend_from_slice(b") Tj\n")
}

/// Appends the strikes of a line, or returns why one doesn't fit.
#[tactic(auto, using(crate::proofs::PageLemmas::strike_fits, crate::proofs::PageLemmas::strike_stops, crate::proofs::PageLemmas::strike_shown))]
fn put_line(sheet: &Sheet, line: u32, text: &[u8], out: &mut Vec<u8>) -> Put<Option<PageFault>>
    requires { line < 112 }
    ensures { Shows (strikes_fault sheet.now line (strikes text.now)) (strikes_text sheet.now line 0 (strikes text.now)) out.old.items out.new.items result }
{
    let (mut rest, mut number) = (Some(text), 0u32);
    while let Some(left) = rest {
        let (strike, more) = cut(left, b'\r');
        if let Some(fault) = fault_of(sheet, line, strike) {
            return Ok(Some(fault));
        }
        put_strike(sheet, line, number, strike, out)?;
        number = (number + 1).min(3);
        rest = more;
    }
    Ok(None)
}

/// Appends the lines of a page, or returns why one doesn't fit.
#[tactic(auto, using(crate::proofs::PageLemmas::line_fits, crate::proofs::PageLemmas::line_stops, crate::proofs::PageLemmas::line_shown))]
fn put_lines(sheet: &Sheet, page: &[u8], out: &mut Vec<u8>) -> Put<Option<PageFault>>
    requires { length (lines_in page.now) ≤ 112 }
    ensures { Shows (lines_fault sheet.now 0 (lines_in page.now)) (lines_text sheet.now 0 (lines_in page.now)) out.old.items out.new.items result }
{
    let (mut rest, mut line) = (Some(page), 0u32);
    while let Some(left) = rest {
        let (text, more) = cut(left, b'\n');
        if let Some(fault) = put_line(sheet, line, text, out)? {
            return Ok(Some(fault));
        }
        line += 1;
        rest = more;
    }
    Ok(None)
}

/// Returns a page without the line feeds at its end.
fn without_last_line_feeds(page: &[u8]) -> &[u8]
    ensures page { result.now ≡ printed page.now }
    ensures shorter { length result.now ≤ length page.now }
{
    let mut end = page.len();
    while end > 0 && page[end - 1] == b'\n' {
        end -= 1;
    }
    &page[..end]
}

/// Appends the contents of a sheet for a page, or returns why it doesn't fit.
#[tactic(auto, using(crate::proofs::PageLemmas::lines_counted), unfolding(crate::specs::Contents::page_fault))]
pub(crate) fn put_contents(sheet: &Sheet, page: &[u8], out: &mut Vec<u8>) -> Put<Option<PageFault>>
    requires { length page.now ≤ 1048576 }
    ensures { Shows (page_fault sheet.now page.now) (contents sheet.now page.now) out.old.items out.new.items result }
{
    let text = without_last_line_feeds(page);
    let count = text.iter().filter(|byte| **byte == b'\n').count() + 1;
    if count > sheet.settings.length as usize {
        return Ok(Some(PageFault::Lines { count }));
    }
    put_bars(sheet, out)?;
    fill(out, b"BT /F $ Tf\n", &[u64::from(sheet.font)])?;
    if let Some(fault) = put_lines(sheet, text, out)? {
        return Ok(Some(fault));
    }
    out.extend_from_slice(b"ET\n")?;
    Ok(None)
}
