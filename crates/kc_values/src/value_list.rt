//! Lists of the values of symbols, in which a truth value is found in one step.

ghost use Rattle.std.specs.Prelude.{◌≡◌, ◌<◌, ◌+◌, ◌↔◌, IsTrue, None, Some, length, option_map, replicate, slice_index_or, slice_set, IfOk, OnErr, OnOk};
ghost use Rattle.kc_values.specs.Table.{tri_in};
ghost use Rattle.kc_values.specs.ValueLists.{IsSameValue, held_text, truth_number};
ghost use Rattle.kc_values.specs.declared.table.Value.TheVariants as value;

use crate::table::Value;
use kc_expr::expression::Tri;
use std::alloc::{AllocError, Global};
use std::marker::Model;

// The number in a place without a value.
const NOTHING: u32 = 0;

// The number of the first text. The numbers between are those of the truth values.
const FIRST_TEXT: u32 = 4;

/// The values of symbols, by number (our own). A truth value stands in its place. A text stands in a list of its own.
#[derive(Drop)]
pub struct ValueList {
    // What each symbol has: 0 for no value; 1, 2 and 3 for n, m and y; from 4 on the number of its text.
    places: Vec<u32>,
    texts: Vec<Vec<u8>>,
}

impl Model for ValueList {
    ghost use Rattle.std.specs.Prelude.{List, Option, length, map};
    ghost use Rattle.kc_values.specs.declared.table.Value as stored;
    ghost use Rattle.kc_values.specs.ValueLists.{AreOwnTexts, value_of_number};

    ghost Value = { List (Option stored.Value) };

    ghost view = { λ v. map (value_of_number v.texts.items) v.places.items };

    ghost invariant = { λ v. AreOwnTexts v.places.items (length v.texts.items) };
}

// The number of a truth value.
fn number_of(tri: Tri) -> u32
    ensures { result ≡ truth_number tri }
{
    match tri {
        Tri::N => 1,
        Tri::M => 2,
        Tri::Y => 3,
    }
}

// The number of the next text, after `count` texts.
fn next_number(count: usize) -> Result<u32, AllocError>
    ensures { IfOk result (λ number. number ≡ count + 4) }
{
    if count < (u32::MAX - FIRST_TEXT) as usize {
        Ok(count as u32 + FIRST_TEXT)
    } else {
        Err(AllocError)
    }
}

// The number in a place; that of no value if there is no such place.
fn number_at(places: &[u32], place: usize) -> u32
    ensures { result ≡ slice_index_or places.now place 0 }
{
    match places.get(place) {
        Some(number) => *number,
        None => NOTHING,
    }
}

impl ValueList {
    /// Returns a list of this many symbols without values. There is room for no text. The only error is that memory runs out. Then
    /// nothing is kept. (Our own.)
    pub fn empty(alloc: Global, count: usize) -> Result<ValueList, AllocError>
        ensures { IfOk result (λ places. places ≡ replicate count None) }
    {
        let places = vec![in alloc; NOTHING; count]?;
        let texts = Vec::new(alloc);
        Ok(ValueList { places, texts })
    }

    /// The truth value in a place; n if the place holds none, or if there is no such place (our own).
    #[inline(always)]
    pub fn tri(&self, place: usize) -> Tri
        ensures { result ≡ tri_in (slice_index_or self.now place None) }
    {
        match number_at(&self.places, place) {
            2 => Tri::M,
            3 => Tri::Y,
            _ => Tri::N,
        }
    }

    /// The text in a place, or `None` if the place holds none, or if there is no such place (our own).
    pub fn text(&self, place: usize) -> Option<&[u8]>
        ensures { option_map (λ t. t.now) result ≡ held_text (slice_index_or self.now place None) }
    {
        let number = number_at(&self.places, place);
        if number < FIRST_TEXT {
            return None;
        }
        match self.texts.get((number - FIRST_TEXT) as usize) {
            Some(text) => Some(text),
            None => None,
        }
    }

    /// Whether a place holds this value, or nothing if this is none (our own). Without such a place it holds nothing.
    pub fn holds(&self, place: usize, value: &Option<Value>) -> bool
        ensures { IsTrue result ↔ IsSameValue (slice_index_or self.now place None) value.now }
    {
        match value {
            None => number_at(&self.places, place) == NOTHING,
            Some(Value::Truth(tri)) => number_at(&self.places, place) == number_of(*tri),
            Some(Value::Text(text)) => match self.text(place) {
                Some(held) => held[..] == text[..],
                None => false,
            },
        }
    }

    /// Sets a place to a value or to no value. All other places are unchanged. The only error is that memory runs out. Then
    /// all places are unchanged. (Our own.)
    #[inline(always)]
    pub fn set(&mut self, place: usize, value: Option<Value>) -> Result<(), AllocError>
        requires { place < length self.old }
        ensures done { OnOk result (self.new ≡ slice_set self.old place value) }
        ensures failed { OnErr result (self.new ≡ self.old) }
    {
        match value {
            None => self.places[place] = NOTHING,
            Some(Value::Truth(tri)) => self.places[place] = number_of(tri),
            Some(Value::Text(text)) => return self.set_text(place, text),
        }
        Ok(())
    }

    // Sets a place to a text.
    fn set_text(&mut self, place: usize, text: Vec<u8>) -> Result<(), AllocError>
        requires { place < length self.old }
        ensures done { OnOk result (self.new ≡ slice_set self.old place (Some (value.Text text))) }
        ensures failed { OnErr result (self.new ≡ self.old) }
    {
        let number = self.places[place];
        if number >= FIRST_TEXT {
            self.texts[(number - FIRST_TEXT) as usize] = text;
            return Ok(());
        }
        let next = next_number(self.texts.len())?;
        self.texts.push(text)?;
        self.places[place] = next;
        Ok(())
    }
}
