//! Where lines and columns are on a sheet, in hundredths of a point.

ghost use Rattle.std.specs.Prelude.{◌≡◌, is_some, IfSome};
ghost use Rattle.rpg_pdf.specs.Sheets.{HasSettings, baseline, can_print, line_top, sheet_of, sheet_with, turned, width_of};

use crate::state::{PaperForm, Settings, Sheet};

impl Settings {
    /// Returns the settings for pages of 1 to 112 lines, which is their length, and of 20 to 198 columns.
    pub fn of(form: PaperForm, length: u32, columns: u32, has_bars: bool) -> Option<Settings>
        ensures given { IfSome result (HasSettings form length columns has_bars) }
        ensures range { is_some result ≡ can_print length columns }
    {
        if length == 0 || length > 112 || columns < 20 || columns > 198 {
            return None;
        }
        Some(Settings {
            form,
            length,
            columns,
            has_bars,
        })
    }

    /// Returns the width of the columns.
    pub(crate) fn width(self, font: u32) -> u64
        ensures { result ≡ width_of self.columns font }
    {
        u64::from(6 * self.columns) * u64::from(font) / 10
    }

    /// Returns a sheet of this size, with its lines in the middle.
    fn sheet(self, width: u32, height: u32, margins: u32) -> Sheet
        ensures { result ≡ sheet_with self width height margins }
    {
        let lead = height.saturating_sub(margins) / self.length;
        let room = u64::from(width.saturating_sub(margins)) * 10 / u64::from(6 * self.columns);
        let font = room.min(u64::from(lead.min(1200))) as u32;
        let along = u64::from(self.length) * u64::from(lead);
        Sheet {
            settings: self,
            width,
            height,
            font,
            lead,
            left: (u64::from(width).saturating_sub(self.width(font)) / 2) as u32,
            top: (u64::from(height).saturating_sub(along) / 2) as u32,
        }
    }

    /// Returns a sheet that is upright, or lies across if its characters are larger then.
    fn turned_sheet(self, short: u32, long: u32) -> Sheet
        ensures { result ≡ turned self short long }
    {
        let upright = self.sheet(short, long, 3600);
        let across = self.sheet(long, short, 3600);
        if upright.font < across.font {
            across
        } else {
            upright
        }
    }
}

impl Sheet {
    pub fn of(settings: Settings) -> Sheet
        ensures { result ≡ sheet_of settings }
    {
        match settings.form {
            PaperForm::A4 => settings.turned_sheet(59_500, 84_200),
            PaperForm::Letter => settings.turned_sheet(61_200, 79_200),
            PaperForm::Fanfold => settings.sheet(100_800, 79_200, 0),
        }
    }

    /// Returns the upper edge of a line, from 0.
    pub fn line_top(&self, line: u32) -> u64
        ensures { result ≡ line_top self.now line }
    {
        let above = u64::from(self.height.saturating_sub(self.top));
        above.saturating_sub(u64::from(line) * u64::from(self.lead))
    }

    pub fn baseline(&self, line: u32) -> u64
        ensures { result ≡ baseline self.now line }
    {
        let middle = (u64::from(self.lead) + u64::from(self.font)) / 2;
        self.line_top(line).saturating_sub(middle) + u64::from(self.font / 5)
    }
}
