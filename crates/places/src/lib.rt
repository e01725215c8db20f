// The names of a book's rules by their places. A book's table is by names: who goes by fragments and ranges, as a sheet does, makes this first, and looks up a place's name and its cell in it.
// Nothing is asked of the table.
#![tactic(auto)]

ghost use Rattle.std.specs.Prelude.{◌≡◌, ◌<◌, length};
ghost use Rattle.tables.specs.Cells.{name_at};
ghost use Rattle.places.specs.Places.{cell_of, place_count, Placed};

use std::marker::Model;
use tables::Table;

// The names by their places: range i of fragment f of rule r stands at 128 r + 8 f + i. 64 where no name stands: an `Option<u8>` takes two bytes of the fixed memory for each.
pub type Places = [u8; 2048];

// A table with its names by their places. The names are lent: a struct that is made of an array by value is a copy of it.
#[derive(Drop)]
pub struct NamedTable<'a> {
    table: &'a Table,
    names: &'a Places,
}

// It is seen as its table. What it keeps is that each place has its name.
impl<'a> Model for NamedTable<'a> {
    ghost use Rattle.std.specs.Prelude.{List, ℕ};
    ghost use Rattle.places.specs.Places.{Named};

    ghost Value = { List ℕ };

    ghost view = { λ p. p.table.now };

    ghost invariant = { λ p. Named p.table.now p.names.now };
}

// Puts name n at its place in each rule that holds it.
fn place(names: &mut Places, table: &Table, n: usize)
    requires { (n < 64) × (length names.old ≡ place_count) }
    ensures { Placed table.now n names.old names.new }
{
    for r in masks::each(tables::mask_in(table[n])) {
        let cell = table[tables::CELLS + tables::NAMES * r + n];
        let f = tables::fragment_in(cell) as usize;
        let i = tables::index_in(cell) as usize;
        names[128 * r + 8 * f + i] = n as u8;
    }
}

impl<'a> NamedTable<'a> {
    // Whatever stands in the room for the names. From the last name to the first, so that the lowest of those that stand at one place is the one that stays.
    pub fn new(table: &'a Table, names: &'a mut Places) -> Self
        ensures { result ≡ table.now }
    {
        *names = [64; 2048];
        for n in (0..tables::NAMES).rev() {
            place(names, table, n);
        }
        NamedTable { table, names }
    }

    pub fn table(&self) -> &'a Table
        ensures { result.now ≡ self.now }
    {
        self.table
    }

    // The name that stands at a place.
    pub fn name(&self, r: usize, f: usize, i: usize) -> u8
        requires { (r < 16) × (f < 16) × (i < 8) }
        ensures { result ≡ name_at self.now r f i }
    {
        self.names[128 * r + 8 * f + i]
    }

    // The cell of the name at a place.
    pub fn cell(&self, r: usize, f: usize, i: usize) -> u64
        requires { (r < 16) × (f < 16) × (i < 8) }
        ensures { result ≡ cell_of self.now r f i }
    {
        let n = self.name(r, f, i) as usize;
        self.table[tables::CELLS + tables::NAMES * r + n]
    }
}
