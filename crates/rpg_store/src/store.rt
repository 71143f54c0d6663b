//! What every store does.
ghost use Rattle.std.specs.Prelude.{◌≡◌, ◌≤◌, ◌<◌, ◌^◌, ℕ, List, length, Some, unwrap_or, true, unsigned_abs};
ghost use Rattle.std.specs.Borrow.{sem, Lends, Array, u8 as byte};
ghost use Rattle.std.specs.FinMap as map;
ghost use Rattle.rpg_program.specs.Forms.{entries_of, form_at, is_table_form, length_of};
ghost use Rattle.rpg_program.specs.Values.{Number, Text};
ghost use Rattle.rpg_program.specs.declared.form.FieldForm.{FieldForm};
ghost use Rattle.rpg_store.specs.Contents.{IsEntryAt};
ghost use Rattle.rpg_store.specs.Store.{Values, Currents, IsNumber, IsText, WritesText};

/// The values of fields, and the current entry of each table. Fields and positions count from 1; a field that is neither an array nor a
/// table has only position 1.
pub trait Store {
    /// The forms of its fields, which never change.
    ghost forms: { Self → List FieldForm };

    ghost contents: { Self → Values };

    ghost currents: { Self → Currents };
    /// The store after these bytes overwrote the text at a position.
    ghost written: { Self → ℕ → ℕ → List ℕ → Self };

    fn number(&self, field: u16, position: u16) -> i64
        requires { IsNumber (map.get (contents self.now) (field, position)) }
        ensures { map.get (contents self.now) (field, position) ≡ Some (Number result) };

    fn set_number(&mut self, field: u16, position: u16, n: i64)
        requires there { IsNumber (map.get (contents self.old) (field, position)) }
        requires length { unsigned_abs n < 10 ^ length_of (form_at (forms self.old) field) }
        ensures contents { contents self.new ≡ map.insert (contents self.old) (field, position) (Number n) }
        ensures currents { currents self.new ≡ currents self.old }
        ensures forms { forms self.new ≡ forms self.old };

    /// Like `number`, given the place of its entry.
    fn number_in(&self, place: usize, field: u16, position: u16) -> i64
        requires there { IsNumber (map.get (contents self.now) (field, position)) }
        requires place { IsEntryAt (forms self.now) place (field, position) }
        ensures { map.get (contents self.now) (field, position) ≡ Some (Number result) };

    fn set_number_in(&mut self, place: usize, field: u16, position: u16, n: i64)
        requires there { IsNumber (map.get (contents self.old) (field, position)) }
        requires length { unsigned_abs n < 10 ^ length_of (form_at (forms self.old) field) }
        requires place { IsEntryAt (forms self.old) place (field, position) }
        ensures contents { contents self.new ≡ map.insert (contents self.old) (field, position) (Number n) }
        ensures currents { currents self.new ≡ currents self.old }
        ensures forms { forms self.new ≡ forms self.old };

    fn text(&self, field: u16, position: u16) -> &[u8]
        requires { IsText (map.get (contents self.now) (field, position)) }
        ensures { map.get (contents self.now) (field, position) ≡ Some (Text result.now) };

    /// Like `text`, given the place of its entry.
    fn text_in(&self, place: usize, field: u16, position: u16) -> &[u8]
        requires there { IsText (map.get (contents self.now) (field, position)) }
        requires place { IsEntryAt (forms self.now) place (field, position) }
        ensures { map.get (contents self.now) (field, position) ≡ Some (Text result.now) };

    /// Lends the characters at a position, which may be overwritten with any bytes.
    fn text_mut(&mut self, field: u16, position: u16) -> &mut [u8]
        requires { IsText (map.get (contents self.old) (field, position)) }
        ensures* writes_back { sem 𝓛 (Lends Self.row (Array byte 0) self.entry result (written self.old field position)) }
        ensures value { map.get (contents self.old) (field, position) ≡ Some (Text result.now) }
        ensures contents { WritesText (λ w. contents (written self.old field position w)) (contents self.old) field position result.now }
        ensures currents { (w : List ℕ) → currents (written self.old field position w) ≡ currents self.old }
        ensures forms { (w : List ℕ) → forms (written self.old field position w) ≡ forms self.old };

    /// Like `text_mut`, given the place of the entry.
    fn text_mut_in(&mut self, place: usize, field: u16, position: u16) -> &mut [u8]
        requires there { IsText (map.get (contents self.old) (field, position)) }
        requires place { IsEntryAt (forms self.old) place (field, position) }
        ensures* writes_back { sem 𝓛 (Lends Self.row (Array byte 0) self.entry result (written self.old field position)) }
        ensures value { map.get (contents self.old) (field, position) ≡ Some (Text result.now) }
        ensures contents { WritesText (λ w. contents (written self.old field position w)) (contents self.old) field position result.now }
        ensures currents { (w : List ℕ) → currents (written self.old field position w) ≡ currents self.old }
        ensures forms { (w : List ℕ) → forms (written self.old field position w) ≡ forms self.old };

    /// Returns the current entry of a table.
    fn current(&self, table: u16) -> u16
        requires { is_table_form (form_at (forms self.now) table) ≡ true }
        ensures { result ≡ unwrap_or (map.get (currents self.now) table) 1 };

    fn set_current(&mut self, table: u16, position: u16)
        requires table { is_table_form (form_at (forms self.old) table) ≡ true }
        requires low { 1 ≤ position }
        requires high { position ≤ entries_of (form_at (forms self.old) table) }
        ensures currents { currents self.new ≡ map.insert (currents self.old) table position }
        ensures contents { contents self.new ≡ contents self.old }
        ensures forms { forms self.new ≡ forms self.old };
}

/// Copies a text over one of the same length. Up to three characters are copied without a call, which costs less.
#[inline(always)]
pub fn copy_text(to: &mut [u8], from: &[u8])
    requires { length to.old ≡ length from.now }
    ensures { to.new ≡ from.now }
{
    if from.len() > 3 {
        return to.copy_from_slice(from);
    }
    match from {
        &[a] => to[0] = a,
        &[a, b] => {
            to[0] = a;
            to[1] = b;
        }
        &[a, b, c] => {
            to[0] = a;
            to[1] = b;
            to[2] = c;
        }
        _ => {}
    }
}

/// Overwrites a text with one of the same length.
pub fn set_text<S: Store>(store: &mut S, field: u16, position: u16, text: &[u8])
    requires { (old : List ℕ) × (map.get (S.contents store.old) (field, position) ≡ Some (Text old)) × (length text.now ≡ length old) }
    ensures contents { S.contents store.new ≡ map.insert (S.contents store.old) (field, position) (Text text.now) }
    ensures currents { S.currents store.new ≡ S.currents store.old }
    ensures forms { S.forms store.new ≡ S.forms store.old }
{
    store.text_mut(field, position).copy_from_slice(text);
}

/// Like `set_text`, given the place of the entry.
#[inline(always)]
pub fn set_text_in<S: Store>(store: &mut S, place: usize, field: u16, position: u16, text: &[u8])
    requires there { (old : List ℕ) × (map.get (S.contents store.old) (field, position) ≡ Some (Text old)) × (length text.now ≡ length old) }
    requires place { IsEntryAt (S.forms store.old) place (field, position) }
    ensures contents { S.contents store.new ≡ map.insert (S.contents store.old) (field, position) (Text text.now) }
    ensures currents { S.currents store.new ≡ S.currents store.old }
    ensures forms { S.forms store.new ≡ S.forms store.old }
{
    copy_text(store.text_mut_in(place, field, position), text);
}
