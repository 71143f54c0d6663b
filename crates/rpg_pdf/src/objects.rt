//! The objects of a PDF, and the table of their places.

ghost use Rattle.std.specs.Prelude.{◌≡◌, ◌++◌, ◌≤◌, length, IfOk, OnOk};
ghost use Rattle.rpg_pdf.specs.Made.{AddsPage, Begins, Ends, place_of};
ghost use Rattle.rpg_pdf.specs.Objects.{page_number, tree};

use crate::page::put_contents;
use crate::state::{Made, PageFault, Sheet};
use crate::text::{Put, fill};

/// An entry of the table.
const ENTRY: &[u8; 11] = b"@ 00000 n \n";

/// The number of a page's object. Pages are counted from 0.
fn number_of_page(page: u32) -> u64
    ensures { result ≡ page_number page }
{
    4 + 2 * u64::from(page)
}

fn put_tree(out: &mut Vec<u8>, sheet: &Sheet, pages: u32) -> Put<()>
    ensures { OnOk result (out.new.items ≡ out.old.items ++ tree sheet.now pages) }
{
    let start = b"# 0 obj\n<</Type/Pages/Count #/Kids[";
    fill(out, start, &[2, u64::from(pages)])?;
    for page in 0..pages {
        let text: &[u8] = if page == 0 { b"# 0 R" } else { b" # 0 R" };
        fill(out, text, &[number_of_page(page)])?;
    }
    let size = [u64::from(sheet.width), u64::from(sheet.height)];
    let end = b"]/MediaBox[0 0 $ $]/Resources<</Font<</F 3 0 R>>>>>>\nendobj\n";
    fill(out, end, &size)?;
    Ok(())
}

impl Made {
    /// Returns where the next object begins.
    fn place(&self) -> u64
        ensures { result ≡ place_of self.now }
    {
        self.at + self.out.len() as u64
    }

    /// Makes what comes before the pages.
    pub fn add_first(&mut self) -> Put<()>
        ensures { OnOk result (Begins self.old self.new) }
    {
        self.out
            .extend_from_slice(b"%PDF-1.4\n%\xe2\xe3\xcf\xd3\n")?;
        let catalog = b"# 0 obj\n<</Type/Catalog/Pages 2 0 R>>\nendobj\n";
        fill(&mut self.out, catalog, &[1])?;
        let place = self.place();
        fill(&mut self.entries, ENTRY, &[place])?;
        let font =
            b"# 0 obj\n<</Type/Font/Subtype/Type1/BaseFont/Courier/Encoding/WinAnsiEncoding>>\nendobj\n";
        fill(&mut self.out, font, &[3])?;
        Ok(())
    }

    /// Makes a page and its contents, or returns why it doesn't fit.
    pub fn add_page(&mut self, sheet: &Sheet, number: u32, page: &[u8]) -> Put<Option<PageFault>>
        requires { length page.now ≤ 1048576 }
        ensures { IfOk result (AddsPage sheet.now number page.now self.old self.new) }
    {
        self.contents.clear();
        if let Some(fault) = put_contents(sheet, page, &mut self.contents)? {
            return Ok(Some(fault));
        }
        let (number, place) = (number_of_page(number), self.place());
        fill(&mut self.entries, ENTRY, &[place])?;
        let object = b"# 0 obj\n<</Type/Page/Parent 2 0 R/Contents # 0 R>>\nendobj\n";
        fill(&mut self.out, object, &[number, number + 1])?;
        let numbers = [number + 1, self.contents.len() as u64];
        let place = self.place();
        fill(&mut self.entries, ENTRY, &[place])?;
        fill(&mut self.out, b"# 0 obj\n<</Length #>>\nstream\n", &numbers)?;
        self.out.extend_from_slice(self.contents.as_slice())?;
        self.out.extend_from_slice(b"endstream\nendobj\n")?;
        Ok(None)
    }

    /// Makes what comes after the pages.
    pub fn add_end(&mut self, sheet: &Sheet, pages: u32) -> Put<()>
        ensures { OnOk result (Ends sheet.now pages self.old self.new) }
    {
        let root = self.place();
        put_tree(&mut self.out, sheet, pages)?;
        let (start, count) = (self.place(), number_of_page(pages));
        let table = b"xref\n0 #\n0000000000 65535 f \n@ 00000 n \n@ 00000 n \n";
        fill(&mut self.out, table, &[count, 15, root])?;
        self.out.extend_from_slice(self.entries.as_slice())?;
        let trailer = b"trailer\n<</Size #/Root 1 0 R>>\nstartxref\n#\n%%EOF\n";
        fill(&mut self.out, trailer, &[count, start])?;
        Ok(())
    }
}
